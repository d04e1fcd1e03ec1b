//! Whether a row takes what a line asks.
ghost use Rattle.std.specs.Prelude.{◌≡◌, ◌↔◌, IsTrue, ℤ};
ghost use Rattle.assembler_form.specs.Kinds.{is_al, is_ax, is_byte_memory, is_byte_register, is_cl, is_direct, is_dx, is_far_memory, is_near, is_of, is_pointer, is_segment_not_cs, is_segment_register, is_word_memory, is_word_register};
ghost use Rattle.assembler_form.specs.Takes.{is_byte_size, is_constant_within, is_number, is_within, is_word_size, Takes};

use crate::asked::Asked;
use crate::operand::{KnownMemory, KnownOperand, Number};
use dialect::register::Register;
use dialect::size::Size;
use isa::operation::{Control, Operation};
use isa::register::{ByteRegister, SegmentRegister, WordRegister};
use isa::row::{Kind, Row};

impl Asked {
    /// Whether the row encodes what the line asks: it has the operation, and each operand is of the kind that the row
    /// has there. By it the first row that fits is chosen.
    #[tactic(auto, using(crate::proofs::Alike::alike))]
    pub(crate) fn is_taken_by(&self, row: Row) -> bool
        ensures { IsTrue result ↔ Takes row self.now }
    {
        is_same(row.operation(), self.operation)
            && self.first.is_of(row.first(), self.operation)
            && self.second.is_of(row.second(), self.operation)
    }
}

/// Whether the two are one operation: that of a row, and that which a line asks.
fn is_same(one: Operation, other: Operation) -> bool
    ensures { IsTrue result ↔ (one ≡ other) }
{
    match (one, other) {
        (Operation::Arithmetic(one), Operation::Arithmetic(other)) => one as u8 == other as u8,
        (Operation::Shift(one), Operation::Shift(other)) => one as u8 == other as u8,
        (Operation::Product(one), Operation::Product(other)) => one as u8 == other as u8,
        (Operation::Unary(one), Operation::Unary(other)) => one as u8 == other as u8,
        (Operation::Jump(one), Operation::Jump(other)) => one as u8 == other as u8,
        (Operation::Looping(one), Operation::Looping(other)) => one as u8 == other as u8,
        (Operation::Strings(one), Operation::Strings(other)) => one as u8 == other as u8,
        (Operation::Adjust(one), Operation::Adjust(other)) => one as u8 == other as u8,
        (Operation::Transfer(one), Operation::Transfer(other)) => one as u8 == other as u8,
        (Operation::Control(one), Operation::Control(other)) => one as u8 == other as u8,
        (Operation::Processor(one), Operation::Processor(other)) => one as u8 == other as u8,
        _ => false,
    }
}

impl KnownMemory {
    /// Whether the place in memory is a byte, by its size word or the operand beside it.
    fn has_byte(self) -> bool
        ensures { result ≡ is_byte_size self.size }
    {
        matches!(self.size, Some(Size::Byte))
    }

    /// Whether the place in memory is a word, by its size word or the operand beside it.
    fn has_word(self) -> bool
        ensures { result ≡ is_word_size self.size }
    {
        matches!(self.size, Some(Size::Word))
    }
}

/// Whether a number is from `least` to `greatest`, as one must be for a displacement or immediate number of a byte, or
/// for ESC.
pub(crate) fn is_within(number: i64, least: i64, greatest: i64) -> bool
    ensures { result ≡ is_within least greatest number }
{
    least <= number && number <= greatest
}

impl KnownOperand {
    /// Whether the operand is of the kind that a row has in its place, in a row of this operation; by it a row is
    /// chosen.
    fn is_of(self, kind: Kind, operation: Operation) -> bool
        ensures { result ≡ is_of operation kind self }
    {
        match kind {
            Kind::Nothing | Kind::Ten => matches!(self, KnownOperand::Nothing),
            Kind::Al => matches!(
                self,
                KnownOperand::Register(Register::Byte(ByteRegister::Al))
            ),
            Kind::Ax => matches!(
                self,
                KnownOperand::Register(Register::Word(WordRegister::Ax))
            ),
            Kind::Cl => matches!(
                self,
                KnownOperand::Register(Register::Byte(ByteRegister::Cl))
            ),
            Kind::Dx => matches!(
                self,
                KnownOperand::Register(Register::Word(WordRegister::Dx))
            ),
            Kind::One => matches!(self, KnownOperand::One),
            Kind::Code8 | Kind::Reg8 => self.is_byte_register(),
            Kind::Code16 | Kind::Reg16 => self.is_word_register(),
            Kind::CodeSegment | Kind::Segment => matches!(
                self,
                KnownOperand::Register(Register::Segment(_))
            ),
            Kind::CodeSegmentNotCs | Kind::SegmentNotCs => self.is_segment_not_cs(),
            Kind::EscNumber => self.is_constant_within(0, 63),
            Kind::Rm8 => self.is_byte_register() || self.is_byte_memory(),
            Kind::Rm16 => self.is_word_register() || self.is_word_memory(),
            Kind::Memory => self.is_pointer(operation),
            Kind::Imm8 | Kind::Imm16 | Kind::Rel16 => self.is_number(),
            Kind::Signed8 => self.is_constant_within(-128, 127),
            Kind::Rel8 => self.is_near(operation),
            Kind::At8 => self.is_direct() && self.is_byte_memory(),
            Kind::At16 => self.is_direct() && self.is_word_memory(),
            Kind::Far => matches!(self, KnownOperand::Far),
        }
    }

    /// Whether the operand is a register of 8 bits, as AL or CH.
    fn is_byte_register(self) -> bool
        ensures { result ≡ is_byte_register self }
    {
        matches!(self, KnownOperand::Register(Register::Byte(_)))
    }

    /// Whether the operand is a register of 16 bits, as AX or SI, but no segment register.
    fn is_word_register(self) -> bool
        ensures { result ≡ is_word_register self }
    {
        matches!(self, KnownOperand::Register(Register::Word(_)))
    }

    /// Whether the operand is DS, ES or SS: the rows of POP and MOV that load a segment register don't take CS.
    fn is_segment_not_cs(self) -> bool
        ensures { result ≡ is_segment_not_cs self }
    {
        match self {
            KnownOperand::Register(Register::Segment(SegmentRegister::Cs)) => false,
            KnownOperand::Register(Register::Segment(_)) => true,
            _ => false,
        }
    }

    /// Whether the operand is an immediate number or a target, known or not yet; whether it fits its field is judged by
    /// the second pass.
    fn is_number(self) -> bool
        ensures { result ≡ is_number self }
    {
        matches!(self, KnownOperand::One | KnownOperand::Number(_))
    }

    /// Whether the operand is a constant from `least` to `greatest`: only then rows with a signed immediate byte or
    /// ESC's number take it. A number that isn't known yet is none.
    fn is_constant_within(self, least: i64, greatest: i64) -> bool
        ensures { result ≡ is_constant_within least greatest self }
    {
        match self {
            KnownOperand::One => is_within(1, least, greatest),
            KnownOperand::Number(Number::Constant(number)) => is_within(number, least, greatest),
            _ => false,
        }
    }

    /// Whether the operand is a byte in memory.
    fn is_byte_memory(self) -> bool
        ensures { result ≡ is_byte_memory self }
    {
        match self {
            KnownOperand::Memory(memory) => memory.has_byte(),
            _ => false,
        }
    }

    /// Whether the operand is a word in memory.
    fn is_word_memory(self) -> bool
        ensures { result ≡ is_word_memory self }
    {
        match self {
            KnownOperand::Memory(memory) => memory.has_word(),
            _ => false,
        }
    }

    /// Whether the operand is memory that holds a far address: an offset and a segment, for JMP and CALL.
    fn is_far_memory(self) -> bool
        ensures { result ≡ is_far_memory self }
    {
        match self {
            KnownOperand::Memory(memory) => memory.is_far(),
            _ => false,
        }
    }

    /// Whether the operand is memory at an offset alone, without a register in brackets: so the short rows of MOV with
    /// AL or AX want it.
    fn is_direct(self) -> bool
        ensures { result ≡ is_direct self }
    {
        match self {
            KnownOperand::Memory(memory) => memory.base.is_none(),
            _ => false,
        }
    }

    /// Whether the operand is memory that holds what the operation takes from it: a far address for JMP and CALL, a
    /// word for LEA, LDS and LES.
    fn is_pointer(self, operation: Operation) -> bool
        ensures { result ≡ is_pointer operation self }
    {
        match operation {
            Operation::Control(_) => self.is_far_memory(),
            _ => self.is_word_memory(),
        }
    }

    /// Whether the operand is a short jump's target: for JMP one after SHORT, for conditional jumps and loops a number.
    fn is_near(self, operation: Operation) -> bool
        ensures { result ≡ is_near operation self }
    {
        match operation {
            Operation::Control(Control::Jmp) => matches!(self, KnownOperand::Short),
            _ => self.is_number(),
        }
    }
}
