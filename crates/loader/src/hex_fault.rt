//! Why a HEX text is refused, or isn't written.
ghost use Rattle.std.specs.Prelude.{◌≡◌};
ghost use Rattle.loader.specs.HexFault.{hex_fault_line, hex_fault_name, hex_fault_number, line_fault_name, line_fault_number};

use thiserror::Error;

/// What is wrong with a line of a HEX text.
#[derive(Clone, Copy, Debug, PartialEq, Eq, Drop, Error)]
pub enum RecordFault {
    #[error("the line isn't a record")]
    BadRecord,
    #[error("the record's bytes don't add to 0")]
    BadSum,
    #[error("no record has this type")]
    BadType,
    #[error("the line follows the end record")]
    AfterEnd,
    #[error("the board can't be loaded at this address")]
    NotLoadable,
}

impl RecordFault {
    /// The number of a HEX text's fault that a line has, from 21 to 26; 24 is that of a text without an end.
    fn number(self) -> u8
        ensures { result ≡ line_fault_number self }
    {
        match self {
            RecordFault::BadRecord => 21,
            RecordFault::BadSum => 22,
            RecordFault::BadType => 23,
            RecordFault::AfterEnd => 25,
            RecordFault::NotLoadable => 26,
        }
    }

    /// The name of a HEX text's fault that a line has, as it is printed.
    fn name(self) -> &'static str
        ensures { result.now ≡ line_fault_name self }
    {
        match self {
            RecordFault::BadRecord => "BadRecord",
            RecordFault::BadSum => "BadSum",
            RecordFault::BadType => "BadType",
            RecordFault::AfterEnd => "AfterEnd",
            RecordFault::NotLoadable => "NotLoadable",
        }
    }
}

/// Why a HEX text is refused.
#[derive(Clone, Copy, Debug, PartialEq, Eq, Drop, Error)]
pub enum HexFault {
    /// The first bad line, by its number from 1 on.
    #[error("line {1}: {0}")]
    InLine(RecordFault, u64),
    #[error("there is no end record")]
    NoEnd,
    #[error("out of memory")]
    Memory,
}

impl HexFault {
    /// The number of why a HEX text is refused, from 21 to 27, which is printed with its name and by which programs
    /// tell one fault from another.
    pub fn number(self) -> u8
        ensures { result ≡ hex_fault_number self }
    {
        match self {
            HexFault::InLine(fault, _) => fault.number(),
            HexFault::NoEnd => 24,
            HexFault::Memory => 27,
        }
    }

    /// The name of why a HEX text is refused, as it is printed beside the fault's number.
    pub fn name(self) -> &'static str
        ensures { result.now ≡ hex_fault_name self }
    {
        match self {
            HexFault::InLine(fault, _) => fault.name(),
            HexFault::NoEnd => "NoEnd",
            HexFault::Memory => "Memory",
        }
    }

    /// The line of the HEX text that has the fault, counted from 1, for its report; `None` if it belongs to no line.
    pub fn line(self) -> Option<u64>
        ensures { result ≡ hex_fault_line self }
    {
        match self {
            HexFault::InLine(_, line) => Some(line),
            HexFault::NoEnd | HexFault::Memory => None,
        }
    }
}
