//! Why a source isn't translated.
ghost use Rattle.std.specs.Prelude.{◌≡◌, IfOk};
ghost use Rattle.masm_text.specs.declared.refusal.Stop.TheVariants.{Memory};
ghost use Rattle.masm_text.specs.declared.refusal.Failure.TheVariants as failures;
ghost use Rattle.masm_text.specs.UserLines.{AreRefusals, IsFailure, IsLine};

use crate::place::{Place, Text};
use std::alloc::{AllocError, AllocFailed};
use thiserror::Error;

/// Why a line can't be translated.
#[derive(Clone, Copy, Debug, PartialEq, Eq, PartialOrd, Ord, Drop, Error)]
pub enum Reason {
    #[error("a character that no line may have outside quotes and comments")]
    BadCharacter,
    #[error("the quote that ends the text is missing")]
    OpenText,
    #[error("a name has at most 31 characters")]
    LongName,
    #[error("no number: hexadecimal ends with h, binary with b, and has 63 bits at most")]
    BadNumber,
    #[error("this is no expression")]
    BadExpression,
    #[error("a number is needed that is known here")]
    NotConstant,
    #[error("the number is too large")]
    Overflow,
    #[error("a division by zero")]
    DivisionByZero,
    #[error("two labels can't be added")]
    TwoLabels,
    #[error("a name that nothing defines")]
    UnknownName,
    #[error("the name is defined already")]
    DefinedTwice,
    #[error("neither an instruction nor a directive nor a macro")]
    UnknownStatement,
    #[error("the instruction has no such operand")]
    BadOperand,
    /// Nothing tells whether an operand in memory is a byte or a word.
    #[error("a byte or a word? Write BYTE PTR or WORD PTR")]
    NoSize,
    #[error("this can't be data of this size")]
    BadData,
    #[error("too many segments: at most 14")]
    TooManySegments,
    #[error("no 8086 has this instruction or register")]
    LaterProcessor,
    /// A directive of a later assembler, or one that has no meaning here.
    #[error("this directive isn't taken")]
    NotTaken,
    #[error("macros and included texts may stand 64 deep")]
    TooDeep,
    #[error("more than 1,000,000 lines come of macros")]
    TooManyLines,
    #[error("more than 200,000 names")]
    TooManyNames,
    #[error("too much comes of this line")]
    TooLong,
    #[error("ENDM, ENDIF, ENDS or the end of COMMENT is missing")]
    NoEnd,
    #[error("there is nothing here that it ends")]
    NothingToEnd,
}

impl Reason {
    /// Whether nothing is read after a line that is refused so: the next ones might cost as much, and be refused as well.
    pub fn ends_reading(self) -> bool {
        matches!(
            self,
            Reason::TooDeep | Reason::TooManyLines | Reason::TooManyNames | Reason::TooLong
        )
    }
}

/// What a line is taken for that has another effect with MASM.
#[derive(Clone, Copy, Debug, PartialEq, Eq)]
pub enum Remark {
    /// A later processor is named; an instruction that it adds is refused.
    LaterProcessor,
    NotAligned,
    /// A shift by a number, which no 8086 has, is made of shifts by one.
    Repeated,
}

impl Remark {
    /// The remark in words.
    pub fn words(self) -> &'static str {
        match self {
            Remark::LaterProcessor => "an 8086's instructions are taken, and no others",
            Remark::NotAligned => "nothing is aligned",
            Remark::Repeated => "no 8086 shifts by a number: as many shifts by one",
        }
    }
}

/// A line, and what is to be said of it.
#[derive(Clone, Copy)]
pub struct Note {
    pub place: Place,
    pub remark: Remark,
}

/// A line, and why it can't be translated.
#[derive(Clone, Copy, PartialEq, Eq, PartialOrd, Ord)]
pub struct Refusal {
    pub place: Place,
    pub reason: Reason,
}

/// Why there is no translation.
#[derive(Drop)]
pub enum Failure {
    /// The lines that can't be translated, in order.
    Refused(Vec<Refusal>),
    /// The line includes a text of this name, which wasn't given.
    Wanted(Place, Vec<u8>),
    Memory,
}

/// The failure of a source of which these lines are refused, and one more.
pub fn refused(texts: &[Text], refusals: Vec<Refusal>, last: Refusal) -> Result<Failure, AllocError>
    requires refusals { AreRefusals texts.now refusals.items }
    requires last { IsLine texts.now last.place }
    ensures { IfOk result (IsFailure texts.now) }
{
    let mut refusals = refusals;
    refusals.push(last)?;
    Ok(Failure::Refused(refusals))
}

impl From<AllocError> for Failure {
    ghost from_gives = { λ _ e. e ≡ failures.Memory };

    /// Lets `?` answer a refused allocation as want of memory.
    fn from(_error: AllocError) -> Failure {
        Failure::Memory
    }
}

impl<T: Drop> From<AllocFailed<T>> for Failure {
    ghost from_gives = { λ _ e. e ≡ failures.Memory };

    /// Lets `?` answer a refused allocation as want of memory.
    fn from(_error: AllocFailed<T>) -> Failure {
        Failure::Memory
    }
}

/// Why the work on a line stops.
#[derive(Clone, Copy)]
pub enum Stop {
    Refused(Reason),
    Memory,
}

impl From<AllocError> for Stop {
    ghost from_gives = { λ _ e. e ≡ Memory };

    /// Lets `?` answer a refused allocation as want of memory.
    fn from(_error: AllocError) -> Stop {
        Stop::Memory
    }
}

impl<T: Drop> From<AllocFailed<T>> for Stop {
    ghost from_gives = { λ _ e. e ≡ Memory };

    /// Lets `?` answer a refused allocation as want of memory.
    fn from(_error: AllocFailed<T>) -> Stop {
        Stop::Memory
    }
}

impl From<Reason> for Stop {
    /// Lets `?` answer a reason as a stop.
    fn from(reason: Reason) -> Stop {
        Stop::Refused(reason)
    }
}
