//! Why a source is refused.
ghost use Rattle.std.specs.Prelude.{◌≡◌};
ghost use Rattle.assembler.specs.declared.fault.AsmFault.TheVariants.{Memory};
ghost use Rattle.assembler.specs.FirstFault.{fault_line, fault_name, fault_number, fault_of_line, source_fault_name, source_fault_number};

use assembler_lexeme::fault::SyntaxFault;
use std::alloc::AllocError;
use thiserror::Error;

/// Why a line of a source is refused.
#[derive(Clone, Copy, Debug, PartialEq, Eq, Drop, Error)]
pub enum SourceFault {
    #[error("a character that is neither printable ASCII nor a tabulator")]
    BadCharacter,
    #[error("the line isn't in the grammar, a constant is out of range, or a segment opens within another")]
    BadLine,
    #[error("no statement has this name, or no earlier line makes the name in a constant one")]
    UnknownName,
    #[error("no row of the encoding table takes these operands, or there are more than seven prefixes")]
    BadForm,
    #[error("the name is defined twice")]
    TwiceDefined,
    #[error("no line defines the name, or it is no label")]
    Undefined,
    #[error("the number doesn't fit its field")]
    OutOfRange,
    #[error("a byte or label lies past offset FFFFh")]
    OutOfSegment,
    #[error("an earlier line placed a byte at this address")]
    Overlap,
    #[error("no segment is open")]
    NoSegment,
    #[error("the board can't be loaded at this address")]
    NotLoadable,
}

impl SourceFault {
    /// The fault's number, from 2 to 12, which is printed with its name and by which programs tell one fault from
    /// another. Of a line's faults in one pass the least is given.
    pub fn number(self) -> u8
        ensures { result ≡ source_fault_number self }
    {
        match self {
            SourceFault::BadCharacter => 2,
            SourceFault::BadLine => 3,
            SourceFault::UnknownName => 4,
            SourceFault::BadForm => 5,
            SourceFault::TwiceDefined => 6,
            SourceFault::Undefined => 7,
            SourceFault::OutOfRange => 8,
            SourceFault::OutOfSegment => 9,
            SourceFault::Overlap => 10,
            SourceFault::NoSegment => 11,
            SourceFault::NotLoadable => 12,
        }
    }

    /// The name of why a line is refused, as it is printed beside the fault's number.
    pub fn name(self) -> &'static str
        ensures { result.now ≡ source_fault_name self }
    {
        match self {
            SourceFault::BadCharacter => "BadCharacter",
            SourceFault::BadLine => "BadLine",
            SourceFault::UnknownName => "UnknownName",
            SourceFault::BadForm => "BadForm",
            SourceFault::TwiceDefined => "TwiceDefined",
            SourceFault::Undefined => "Undefined",
            SourceFault::OutOfRange => "OutOfRange",
            SourceFault::OutOfSegment => "OutOfSegment",
            SourceFault::Overlap => "Overlap",
            SourceFault::NoSegment => "NoSegment",
            SourceFault::NotLoadable => "NotLoadable",
        }
    }

    /// The fault of a line that can't be read, as the first pass gives it, from what the line's reader says.
    pub(crate) fn of_line(fault: SyntaxFault) -> SourceFault
        ensures { result ≡ fault_of_line fault }
    {
        match fault {
            SyntaxFault::BadCharacter => SourceFault::BadCharacter,
            SyntaxFault::BadLine => SourceFault::BadLine,
            SyntaxFault::UnknownName => SourceFault::UnknownName,
        }
    }
}

/// Why a source is refused.
#[derive(Clone, Copy, Debug, PartialEq, Eq, Drop, Error)]
pub enum AsmFault {
    #[error("the source has more than 1,048,576 bytes")]
    SourceTooLong,
    /// A fault and its line, counted from 1.
    #[error("line {1}: {0}")]
    InLine(SourceFault, u32),
    #[error("out of memory")]
    Memory,
}

impl From<AllocError> for AsmFault {
    ghost from_gives = { λ _ fault. fault ≡ Memory };

    /// Lets `?` answer a refused allocation while a source is assembled as want of memory.
    fn from(_error: AllocError) -> AsmFault {
        AsmFault::Memory
    }
}

impl AsmFault {
    /// The number of why a source is refused, from 1 to 13, which is printed with its name and by which programs tell
    /// one fault from another.
    pub fn number(self) -> u8
        ensures { result ≡ fault_number self }
    {
        match self {
            AsmFault::SourceTooLong => 1,
            AsmFault::InLine(fault, _) => fault.number(),
            AsmFault::Memory => 13,
        }
    }

    /// The name of why a source is refused, as it is printed beside the fault's number.
    pub fn name(self) -> &'static str
        ensures { result.now ≡ fault_name self }
    {
        match self {
            AsmFault::SourceTooLong => "SourceTooLong",
            AsmFault::InLine(fault, _) => fault.name(),
            AsmFault::Memory => "Memory",
        }
    }

    /// The fault's line in the source, counted from 1, for its report; `None` if it belongs to no line.
    pub fn line(self) -> Option<u32>
        ensures { result ≡ fault_line self }
    {
        match self {
            AsmFault::InLine(_, line) => Some(line),
            AsmFault::SourceTooLong | AsmFault::Memory => None,
        }
    }
}

/// Why the first pass stops at a line: a fault of the line, or want of memory.
#[derive(Clone, Copy, Drop)]
pub(crate) enum LineStop {
    Fault(SourceFault),
    Memory,
}
