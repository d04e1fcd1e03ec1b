//! Why the program ends without an answer.
ghost use Rattle.std.specs.Prelude.{◌≡◌};
ghost use Rattle.board_plain.specs.declared.fault.BoardFault.TheVariants.{Memory};
ghost use Rattle.pcboard_texts.specs.declared.fault.Fault.TheVariants.{Board, Session, Source};
ghost use Rattle.pcboard_texts.specs.declared.unanswered.Unanswered.TheVariants.{Failed, Refused};

use crate::fault::Fault;
use assembler::fault::AsmFault;
use board_plain::fault::BoardFault;
use debugger_meaning::fault::DebugFault;
use std::alloc::AllocFailed;
use streams::byte_input;

/// Why the program ends without an answer to its task.
#[derive(Clone, Copy)]
pub enum Unanswered {
    /// An opening, a read or a write failed.
    Failed,
    Refused(Fault),
}

impl From<Fault> for Unanswered {
    ghost from_gives = { λ fault end. end ≡ Refused fault };

    /// Makes a refusal the reason why the program gives no answer, so that `?` hands it on.
    fn from(fault: Fault) -> Self {
        Unanswered::Refused(fault)
    }
}

impl From<AsmFault> for Unanswered {
    ghost from_gives = { λ fault end. end ≡ Refused (Source fault) };

    /// Makes a source's fault the reason why the program gives no answer, so that `?` hands it on.
    fn from(fault: AsmFault) -> Self {
        Unanswered::Refused(Fault::Source(fault))
    }
}

impl From<DebugFault> for Unanswered {
    ghost from_gives = { λ fault end. end ≡ Refused (Session fault) };

    /// Makes the fault with which a session couldn't begin the reason why the program gives no answer, so that `?`
    /// hands it on.
    fn from(fault: DebugFault) -> Self {
        Unanswered::Refused(Fault::Session(fault))
    }
}

impl From<byte_input::Failed> for Unanswered {
    ghost from_gives = { λ _ end. end ≡ Failed };

    /// Makes a failed read or write the reason why the program gives no answer, so that `?` hands it on.
    fn from(_failed: byte_input::Failed) -> Self {
        Unanswered::Failed
    }
}

impl<T: Drop> From<AllocFailed<T>> for Unanswered {
    ghost from_gives = { λ _ end. end ≡ Refused (Board Memory) };

    /// Makes a failed allocation, for want of memory, the reason why the program gives no answer, so that `?` hands it
    /// on.
    fn from(_refused: AllocFailed<T>) -> Self {
        Unanswered::Refused(Fault::Board(BoardFault::Memory))
    }
}
