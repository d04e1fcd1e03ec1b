//! Why a run is refused.
ghost use Rattle.std.specs.Prelude.{◌≡◌, OnErr, OnOk};
ghost use Rattle.std.specs.Io.KnownBytes.{Appends};
ghost use Rattle.board_plain.specs.declared.fault.BoardFault.TheVariants.{Memory};
ghost use Rattle.pcboard_texts.specs.declared.fault.Fault.TheVariants.{Board, Hex, Run, Source};
ghost use Rattle.pcboard_texts.specs.RunFaults.{fault_text, line_of, name_of, number_of};

use crate::telling::{print_number, print_part};
use assembler::fault::AsmFault;
use board_plain::fault::BoardFault;
use debugger_meaning::fault::DebugFault;
use loader::hex_fault::HexFault;
use loader::run_fault::RunFault;
use std::alloc::AllocError;
use streams::byte_input::Failed;
use streams::byte_output::ByteOutput;

/// A refusal, by the part that refuses.
#[derive(Clone, Copy, Debug, PartialEq, Eq)]
pub enum Fault {
    Source(AsmFault),
    Hex(HexFault),
    Run(RunFault),
    Board(BoardFault),
    /// A debugger's session can't be begun.
    Session(DebugFault),
}

impl From<AsmFault> for Fault {
    ghost from_gives = { λ part fault. fault ≡ Source part };

    /// Makes a source's fault the refusal of a run, so that `?` hands it on.
    fn from(fault: AsmFault) -> Self {
        Fault::Source(fault)
    }
}

impl From<HexFault> for Fault {
    ghost from_gives = { λ part fault. fault ≡ Hex part };

    /// Makes a HEX text's fault the refusal of a run, so that `?` hands it on.
    fn from(fault: HexFault) -> Self {
        Fault::Hex(fault)
    }
}

impl From<RunFault> for Fault {
    ghost from_gives = { λ part fault. fault ≡ Run part };

    /// Makes a run file's fault the refusal of a run, so that `?` hands it on.
    fn from(fault: RunFault) -> Self {
        Fault::Run(fault)
    }
}

impl From<BoardFault> for Fault {
    ghost from_gives = { λ part fault. fault ≡ Board part };

    /// Makes the fault of a board, such as a RAM size that it can't have, the refusal of a run, so that `?` hands it
    /// on.
    fn from(fault: BoardFault) -> Self {
        Fault::Board(fault)
    }
}

/// Want of memory counts as the board's, if no other part says it.
impl From<AllocError> for Fault {
    ghost from_gives = { λ _ fault. fault ≡ Board Memory };

    /// Makes a failed allocation the refusal of a run for want of memory, as the board's, so that `?` hands it on.
    fn from(_error: AllocError) -> Self {
        Fault::Board(BoardFault::Memory)
    }
}

impl Fault {
    /// The fault's number, from 1 on, for its printed line and for callers from C.
    pub fn number(self) -> u8
        ensures { result ≡ number_of self }
    {
        match self {
            Fault::Source(fault) => fault.number(),
            Fault::Hex(fault) => fault.number(),
            Fault::Run(fault) => fault.number(),
            Fault::Board(fault) => fault.number(),
            Fault::Session(fault) => fault.number(),
        }
    }

    /// The fault's name, as its printed line has it.
    pub fn name(self) -> &'static str
        ensures { result.now ≡ name_of self }
    {
        match self {
            Fault::Source(fault) => fault.name(),
            Fault::Hex(fault) => fault.name(),
            Fault::Run(fault) => fault.name(),
            Fault::Board(fault) => fault.name(),
            Fault::Session(fault) => fault.name(),
        }
    }

    /// The line of the source or HEX text, from 1 on, in which the fault is; `None` for faults of run files, boards and
    /// sessions.
    pub fn line(self) -> Option<u64>
        ensures { result ≡ line_of self }
    {
        match self {
            Fault::Source(fault) => fault.line().map(u64::from),
            Fault::Hex(fault) => fault.line(),
            Fault::Run(_) | Fault::Board(_) | Fault::Session(_) => None,
        }
    }
}

/// Writes why the program refuses its task, as a line on standard error, and flushes it: the fault's number and name,
/// and the number of the faulty line if there is one.
#[tactic(auto, unfolding(crate::specs::RunFaults::fault_text))]
pub fn write_fault<W: ByteOutput>(fault: &Fault, to: &mut W) -> Result<(), Failed>
    ensures written { OnOk result (Appends (W.contents to.old) (W.contents to.new) (fault_text fault.now)) }
    ensures lost { OnErr result (W.lost to.new) }
{
    print_number(to, "fault ", u64::from(fault.number()))?;
    print_part(to, " ")?;
    print_part(to, fault.name())?;
    if let Some(line) = fault.line() {
        print_number(to, " line ", line)?;
    }
    print_part(to, "\n")?;
    to.flush()
}
