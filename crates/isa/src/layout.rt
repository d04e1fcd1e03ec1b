//! What each part of an instruction's bytes is, by its row. The bytes are the opcode; in some rows a second byte,
//! which mostly is the addressing byte mod, reg, r/m; the displacement that mod asks for; and the row's own field.
ghost use Rattle.std.specs.Prelude.{◌≡◌, ◌≤◌};
ghost use Rattle.isa.specs.Layout.{code_part, field_part, field_size, kind_code, kind_field, kind_reg, place_part, reg_part, second_part, second_size};

use crate::row::{Kind, Row};

/// What the opcode holds beside the row's own number.
#[derive(Clone, Copy)]
pub enum CodePart {
    Fixed,
    /// A register's number in the low three bits, or of an ESC the number's high part.
    Register,
    /// A segment register in bits 4 and 3.
    Segment,
    /// A segment register in bits 4 and 3, but not CS.
    SegmentNotCs,
}

/// What reg holds.
#[derive(Clone, Copy)]
pub enum RegPart {
    /// The row's own digit.
    Digit(u8),
    Register,
    Segment,
    /// A segment register but CS.
    SegmentNotCs,
}

/// What mod and r/m may name.
#[derive(Clone, Copy)]
pub enum PlacePart {
    /// A register or a place in memory.
    Any,
    Memory,
}

/// The second byte.
#[derive(Clone, Copy)]
pub enum Second {
    Absent,
    Exactly(u8),
    Addressing(RegPart, PlacePart),
}

/// A field at the end of the bytes: none, a byte, a word with its low byte first, or an offset and a segment.
#[derive(Clone, Copy)]
pub enum Field {
    Absent,
    Byte,
    Word,
    Far,
}

impl Kind {
    /// What an operand of this kind puts in the opcode byte: a register's or a segment register's number, or nothing
    /// (`Fixed`).
    fn code_part(self) -> CodePart
        ensures { result ≡ kind_code self }
    {
        match self {
            Kind::Code8 | Kind::Code16 | Kind::EscNumber => CodePart::Register,
            Kind::CodeSegment => CodePart::Segment,
            Kind::CodeSegmentNotCs => CodePart::SegmentNotCs,
            _ => CodePart::Fixed,
        }
    }

    /// What an operand of this kind puts in reg of the addressing byte; `None` if nothing.
    fn reg_part(self) -> Option<RegPart>
        ensures { result ≡ kind_reg self }
    {
        match self {
            Kind::Reg8 | Kind::Reg16 | Kind::EscNumber => Some(RegPart::Register),
            Kind::Segment => Some(RegPart::Segment),
            Kind::SegmentNotCs => Some(RegPart::SegmentNotCs),
            _ => None,
        }
    }

    /// The field that an operand of this kind has at the instruction's end: an immediate number, a jump's distance, an
    /// offset or a far address.
    fn field(self) -> Field
        ensures { result ≡ kind_field self }
    {
        match self {
            Kind::Imm8 | Kind::Signed8 | Kind::Rel8 => Field::Byte,
            Kind::Imm16 | Kind::Rel16 | Kind::At8 | Kind::At16 => Field::Word,
            Kind::Far => Field::Far,
            _ => Field::Absent,
        }
    }
}

impl Row {
    /// What the row's opcode byte holds besides the row's opcode, by its operands; for decoding and encoding.
    pub fn code_part(self) -> CodePart
        ensures { result ≡ code_part self }
    {
        match self.first.code_part() {
            CodePart::Fixed => self.second.code_part(),
            part => part,
        }
    }

    /// What reg holds, for decoding and encoding: the row's digit or an operand. `None` if the row has no addressing
    /// byte.
    fn reg_part(self) -> Option<RegPart>
        ensures { result ≡ reg_part self }
    {
        match self.digit {
            Some(digit) => Some(RegPart::Digit(digit)),
            None => match self.first.reg_part() {
                Some(part) => Some(part),
                None => self.second.reg_part(),
            },
        }
    }

    /// What mod and r/m may name: LEA, LES and LDS only a place in memory, other rows a register, too.
    fn place_part(self) -> PlacePart
        ensures { result ≡ place_part self }
    {
        match (self.first, self.second) {
            (Kind::Memory, _) | (_, Kind::Memory) => PlacePart::Memory,
            _ => PlacePart::Any,
        }
    }

    /// The row's second byte, for decoding and encoding: the addressing byte, the fixed 0Ah of AAM and AAD, or none.
    pub fn second_part(self) -> Second
        ensures { result ≡ second_part self }
    {
        match self.reg_part() {
            Some(reg) => Second::Addressing(reg, self.place_part()),
            None => match self.first {
                Kind::Ten => Second::Exactly(0x0A),
                _ => Second::Absent,
            },
        }
    }

    /// The field that comes last in the row's instructions, after the displacement: the immediate number, jump
    /// distance, offset or far address.
    pub fn field(self) -> Field
        ensures { result ≡ field_part self }
    {
        match self.first.field() {
            Field::Absent => self.second.field(),
            field => field,
        }
    }
}

impl Second {
    /// How many bytes a row's second byte takes, 0 or 1, in an instruction's length.
    pub fn size(self) -> u8
        ensures value { result ≡ second_size self }
        ensures bound { result ≤ 1 }
    {
        match self {
            Second::Absent => 0,
            Second::Exactly(_) | Second::Addressing(..) => 1,
        }
    }
}

impl Field {
    /// How many bytes the field takes in an instruction's length, 0 to 4.
    pub fn size(self) -> u8
        ensures value { result ≡ field_size self }
        ensures bound { result ≤ 4 }
    {
        match self {
            Field::Absent => 0,
            Field::Byte => 1,
            Field::Word => 2,
            Field::Far => 4,
        }
    }
}
