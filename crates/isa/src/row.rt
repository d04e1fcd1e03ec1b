//! A line of the encoding table.
ghost use Rattle.std.specs.Prelude.{◌≡◌};
ghost use Rattle.isa.specs.Row.{first_of, opcode_of, operation_of, second_of};

use crate::operation::Operation;

/// What an operand is, and which part of the bytes it stands in.
#[derive(Clone, Copy)]
pub enum Kind {
    /// No operand.
    Nothing,
    /// A register that the operation names; it stands in no part of the bytes.
    Al,
    Ax,
    Cl,
    Dx,
    /// The constant 1 of a shift, which stands in no part of the bytes.
    One,
    /// The second byte 0Ah of AAM and AAD.
    Ten,
    /// A byte or word register, in the low three bits of the opcode.
    Code8,
    Code16,
    /// A segment register, in bits 4 and 3 of the opcode; the second one not CS.
    CodeSegment,
    CodeSegmentNotCs,
    /// The number of an ESC: its high three bits in the opcode, the low three in reg.
    EscNumber,
    /// A byte or word register in reg.
    Reg8,
    Reg16,
    /// A segment register in reg; the second one not CS.
    Segment,
    SegmentNotCs,
    /// A byte or a word in a register or in memory, by mod and r/m.
    Rm8,
    Rm16,
    /// A place in memory, by mod and r/m.
    Memory,
    /// An immediate byte or word.
    Imm8,
    Imm16,
    /// An immediate byte, extended to a word by its sign.
    Signed8,
    /// A jump's target, counted from the next instruction's offset on, in a byte or a word.
    Rel8,
    Rel16,
    /// A byte or a word in memory at an immediate offset.
    At8,
    At16,
    /// An immediate offset and then a segment.
    Far,
}

/// How many clocks a row takes. `e` is what the address of an operand in memory costs.
#[derive(Clone, Copy)]
pub enum Clocks {
    /// Always this number.
    Always(u8),
    /// The first for a register, the second and `e` for memory.
    Place(u8, u8),
    /// This number and `e`; the operand is in memory.
    Memory(u8),
    /// As `Place`, and 4 more for each shift that CL counts.
    Counted(u8, u8),
    /// The first if the jump or interrupt is taken, else the second.
    Taken(u8, u8),
    /// The first once, the second for each step under a repeat prefix.
    Repeated(u8, u8),
}

/// A row of the encoding table. Rows come from the table alone.
#[derive(Clone, Copy)]
pub struct Row {
    pub(crate) operation: Operation,
    pub(crate) opcode: u8,
    pub(crate) digit: Option<u8>,
    pub(crate) first: Kind,
    pub(crate) second: Kind,
    pub(crate) clocks: Clocks,
}

impl Row {
    /// What the instructions of this row of the encoding table do, such as ADD.
    pub fn operation(self) -> Operation
        ensures { result ≡ operation_of self }
    {
        self.operation
    }

    /// The row's opcode, without the register's number or other bits that its byte may hold besides; for encoding and
    /// decoding.
    pub fn opcode(self) -> u8
        ensures { result ≡ opcode_of self }
    {
        self.opcode
    }

    /// What the first operand of the row's instructions is, and where it stands in their bytes.
    pub fn first(self) -> Kind
        ensures { result ≡ first_of self }
    {
        self.first
    }

    /// What the second operand of the row's instructions is, and where it stands in their bytes.
    pub fn second(self) -> Kind
        ensures { result ≡ second_of self }
    {
        self.second
    }
}
