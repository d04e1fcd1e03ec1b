//! Why a line is refused, whatever the other lines are.
ghost use Rattle.std.specs.Prelude.{◌≡◌};
ghost use Rattle.assembler_lexeme.specs.declared.fault.SyntaxError.TheVariants.{Memory};

use std::alloc::AllocError;

/// Why a line isn't one of the dialect's, whatever the other lines are.
#[derive(Clone, Copy, Drop)]
pub enum SyntaxFault {
    /// A character that is neither printable ASCII nor a tab.
    BadCharacter,
    /// A line that isn't in the grammar.
    BadLine,
    /// A name that no statement has.
    UnknownName,
}

/// Why a line can't be read.
#[derive(Clone, Copy, Drop)]
pub enum SyntaxError {
    Fault(SyntaxFault),
    /// There is no memory for what the line says.
    Memory,
}

impl From<AllocError> for SyntaxError {
    ghost from_gives = { λ _ e. e ≡ Memory };

    /// Lets `?` answer a refused allocation while a line is read as want of memory.
    fn from(_error: AllocError) -> SyntaxError {
        SyntaxError::Memory
    }
}
