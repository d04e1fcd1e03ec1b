//! Why a board refuses a call.
ghost use Rattle.std.specs.Prelude.{◌≡◌};
ghost use Rattle.board_plain.specs.Board.{board_fault_name, board_fault_number};
ghost use Rattle.board_plain.specs.declared.fault.BoardFault.TheVariants.{Memory};

use std::alloc::AllocError;
use thiserror::Error;

/// Why a board refuses a call.
#[derive(Clone, Copy, Debug, PartialEq, Eq, Drop, Error)]
pub enum BoardFault {
    #[error("the RAM's size isn't a multiple of 16 KB from 16 to 640, or the image goes past it")]
    RamSize,
    #[error("out of memory")]
    Memory,
    #[error("the board can't go past clock 2^40")]
    ClockLimit,
}

impl BoardFault {
    /// The number by which the user and a calling program are told the fault.
    pub fn number(self) -> u8
        ensures { result ≡ board_fault_number self }
    {
        match self {
            BoardFault::RamSize => 36,
            BoardFault::Memory => 41,
            BoardFault::ClockLimit => 42,
        }
    }

    /// The fault's name, as it is printed after its number when a command or run is refused.
    pub fn name(self) -> &'static str
        ensures { result.now ≡ board_fault_name self }
    {
        match self {
            BoardFault::RamSize => "RamSize",
            BoardFault::Memory => "Memory",
            BoardFault::ClockLimit => "ClockLimit",
        }
    }
}

impl From<AllocError> for BoardFault {
    ghost from_gives = { λ _ fault. fault ≡ Memory };

    /// Makes a refused allocation the fault `Memory`, so that `?` passes it on.
    fn from(_error: AllocError) -> BoardFault {
        BoardFault::Memory
    }
}
