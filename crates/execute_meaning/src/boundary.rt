//! What a free processor does.
ghost use Rattle.std.specs.Prelude.{◌≡◌};
ghost use Rattle.execute_meaning.specs.Boundaries.{entry_clocks, still_due};

use board_types::choice::ClockTable;
use isa::words::word_clocks;

/// What the processor does at a clock at which it isn't busy.
#[derive(Clone, Copy, Debug, PartialEq, Eq)]
pub enum Boundary {
    /// The processor takes the interrupt that is requested.
    Request,
    /// The processor takes the single step.
    SingleStep,
    /// The processor does nothing.
    Nothing,
    /// The processor goes on with the repeat in progress.
    Iteration,
    /// The processor begins a new instruction.
    Instruction,
}

/// Why an interrupt is entered at a boundary.
#[derive(Clone, Copy)]
pub enum Cause {
    Request,
    SingleStep,
}

impl Cause {
    /// Whether a single step that is due is still due after the entry: of a requested interrupt, which comes first, but
    /// not of the single step's own.
    pub fn leaves_due(self, due: bool) -> bool
        ensures { result ≡ still_due due self }
    {
        match self {
            Cause::Request => due,
            Cause::SingleStep => false,
        }
    }

    /// Returns the clocks that the entry of an interrupt takes: 61 for a request, 50 for a single step, and what the
    /// table adds for the five words that it pushes and reads.
    pub fn clocks(self, table: ClockTable) -> u16
        ensures { result ≡ entry_clocks table self }
    {
        let own = match self {
            Cause::Request => 61,
            Cause::SingleStep => 50,
        };
        own + word_clocks(table, 5)
    }
}
