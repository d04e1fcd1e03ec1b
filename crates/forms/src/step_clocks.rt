//! The clocks of an instruction by a table.
ghost use Rattle.std.specs.Prelude.{◌≡◌};
ghost use Rattle.digest.specs.Outcomes.{later_outcome, whole_outcome};
ghost use Rattle.forms.specs.StepClocks.{clocks_told, controls, empty_outcome, unvaried};
ghost use Rattle.isa.specs.WordCounts.{clocks_in};

use crate::accesses::divides;
use crate::flow::{Flow, flow_of};
use board_types::choice::ClockTable;
use isa::clocks::cost;
use isa::form::Instr;
use isa::operation::Operation;
use isa::outcome::Outcome;

/// The clocks of an instruction by a table.
#[derive(Clone, Copy, Debug, PartialEq, Eq)]
pub enum StepClocks {
    /// Always this many.
    Always(u16),
    /// The first if a branch is taken or an interrupt entered, else the second.
    Either(u16, u16),
    /// A fixed number, and 4 for each of the places that CL counts.
    Counted(u16),
    /// The first once, and the second for each element that is repeated.
    Repeated(u16, u16),
}

/// The clocks of an instruction by a table.
#[tactic(auto, unfolding(crate::specs::StepClocks::clocks_told))]
pub fn clocks_told(instr: &Instr, table: ClockTable) -> StepClocks
    ensures { result ≡ clocks_told instr.now table }
{
    let op = instr.form.row.operation();
    let not_taken = whole_clocks(instr, false, false, table);
    match flow_of(instr) {
        Flow::Branch => StepClocks::Either(whole_clocks(instr, true, false, table), not_taken),
        Flow::MayEnter => {
            let entered = whole_clocks(instr, controls(op), divides(op), table);
            StepClocks::Either(entered, not_taken)
        }
        Flow::Repeat => {
            let once = cost(instr, &empty_outcome(), table);
            let each = cost(instr, &later_outcome(), table);
            StepClocks::Repeated(once.0, each.0)
        }
        _ => unvaried(instr, op, table),
    }
}

/// The clocks of an instruction that has no condition, and of which no repeat is made.
fn unvaried(instr: &Instr, op: Operation, table: ClockTable) -> StepClocks
    ensures { result ≡ unvaried op instr.now table }
{
    let clocks = whole_clocks(instr, controls(op), false, table);
    if instr.is_counted() {
        StepClocks::Counted(clocks)
    } else {
        StepClocks::Always(clocks)
    }
}

/// Whether an operation is a jump without a condition, a call, a return or an interrupt, which is always taken.
fn controls(op: Operation) -> bool
    ensures { result ≡ controls op }
{
    matches!(op, Operation::Control(_))
}

/// The outcome of a repeat that begins with CX 0, and so makes no iteration.
fn empty_outcome() -> Outcome
    ensures { result ≡ empty_outcome }
{
    Outcome {
        taken: false,
        cl: 0,
        first_step: true,
        cx_zero: true,
        fault: false,
    }
}

/// The outcome of an iteration after the first.
fn later_outcome() -> Outcome
    ensures { result ≡ later_outcome }
{
    Outcome {
        first_step: false,
        cx_zero: false,
        ..empty_outcome()
    }
}

/// The clocks, by a table, of a step that completes an instruction with CL 0, with its jump or interrupt `taken` or not,
/// and with a division's fault or none.
fn whole_clocks(instr: &Instr, taken: bool, fault: bool, table: ClockTable) -> u16
    ensures { result ≡ clocks_in table instr.now (whole_outcome taken 0 fault) }
{
    let outcome = Outcome {
        taken,
        fault,
        cx_zero: false,
        ..empty_outcome()
    };
    cost(instr, &outcome, table).0
}
