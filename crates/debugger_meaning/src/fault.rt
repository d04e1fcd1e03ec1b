//! Why a command is refused.
ghost use Rattle.std.specs.Prelude.{◌≡◌, None};
ghost use Rattle.debugger_meaning.specs.declared.fault.DebugFault.TheVariants.{Memory};
ghost use Rattle.debugger_meaning.specs.Answers.{fault_clock, fault_name, fault_number};

use board_types::clock::Clock;
use std::alloc::AllocError;
use thiserror::Error;

/// Why a session refuses a command: what the program prints in place of an answer.
#[derive(Clone, Copy, Debug, PartialEq, Eq, Drop, Error)]
pub enum DebugFault {
    #[error("no key has this scan code")]
    BadScan,
    #[error("the stamp isn't above the present clock")]
    StampsFall,
    #[error("the board can't go past clock 2^40")]
    ClockLimit,
    #[error("no such command, or not with these words")]
    BadCommand,
    #[error("there are sixteen stops already")]
    TooManyStops,
    /// There is no memory for a text, for a copy of the board, or for the changes of the speaker's level in a run,
    /// which has then gone up to this clock.
    #[error("out of memory")]
    Memory(Option<Clock>),
    #[error("no such clock since the session's first")]
    BeforeStart,
    /// Answered by a probe alone, to a change of a byte.
    #[error("no memory is at this address")]
    NoCell,
}

/// Want of memory for a text.
impl From<AllocError> for DebugFault {
    ghost from_gives = { λ _ fault. fault ≡ Memory None };

    /// Turns a failed allocation of an answer's text into the refusal `Memory`, so that `?` can hand it on; the board
    /// hasn't moved, so there is no clock.
    fn from(_error: AllocError) -> DebugFault {
        DebugFault::Memory(None)
    }
}

impl DebugFault {
    /// The fault's number, 33 to 55, which the program prints, and by which callers in other languages tell faults
    /// apart.
    pub fn number(self) -> u8
        ensures { result ≡ fault_number self }
    {
        match self {
            DebugFault::BadScan => 33,
            DebugFault::StampsFall => 34,
            DebugFault::ClockLimit => 42,
            DebugFault::BadCommand => 51,
            DebugFault::TooManyStops => 52,
            DebugFault::Memory(_) => 53,
            DebugFault::BeforeStart => 54,
            DebugFault::NoCell => 55,
        }
    }

    /// The fault's name, which the program prints after its number.
    pub fn name(self) -> &'static str
        ensures { result.now ≡ fault_name self }
    {
        match self {
            DebugFault::BadScan => "BadScan",
            DebugFault::StampsFall => "StampsFall",
            DebugFault::ClockLimit => "ClockLimit",
            DebugFault::BadCommand => "BadCommand",
            DebugFault::TooManyStops => "TooManyStops",
            DebugFault::Memory(_) => "Memory",
            DebugFault::BeforeStart => "BeforeStart",
            DebugFault::NoCell => "NoCell",
        }
    }

    /// The clock that a run had reached when it found no memory, for the line that refuses it; `None` of any other
    /// fault, and if the board hasn't moved.
    pub fn clock(self) -> Option<Clock>
        ensures { result ≡ fault_clock self }
    {
        match self {
            DebugFault::Memory(clock) => clock,
            DebugFault::BadScan
            | DebugFault::StampsFall
            | DebugFault::ClockLimit
            | DebugFault::BadCommand
            | DebugFault::TooManyStops
            | DebugFault::BeforeStart
            | DebugFault::NoCell => None,
        }
    }
}
