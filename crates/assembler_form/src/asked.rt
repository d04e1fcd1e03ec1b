//! What a line asks of the table.
ghost use Rattle.std.specs.Prelude.{◌≡◌};
ghost use Rattle.assembler_form.specs.Asked.{asked, asked_in_order, is_exchanged, is_far, is_far_size, is_memory, is_register_and_ax, operand_meant, operation_meant, register_size, size_beside, sized, with_size};

use crate::operand::{KnownMemory, KnownOperand};
use dialect::mnemonic::Mnemonic;
use dialect::register::Register;
use dialect::size::Size;
use isa::operation::{Arithmetic, Control, Operation, Transfer};
use isa::register::WordRegister;

/// What a line asks of the table: an operation, and its operands in the table's order, each operand in memory with its
/// size.
#[derive(Clone, Copy)]
pub struct Asked {
    pub operation: Operation,
    pub first: KnownOperand,
    pub second: KnownOperand,
}

impl Asked {
    /// What a line with a mnemonic and these operands asks of the encoding table: the mnemonic's operation, the
    /// operands in the table's order, and the size of memory taken from the other operand if none is written.
    #[tactic(auto, unfolding(crate::specs::Asked::asked))]
    pub fn of(mnemonic: Mnemonic, first: KnownOperand, second: KnownOperand) -> Asked
        ensures { result ≡ asked mnemonic first second }
    {
        let operation = operation_meant(mnemonic, first);
        let first = operand_meant(mnemonic, first);
        let second = operand_meant(mnemonic, second);
        if is_exchanged(operation, first, second) {
            Asked::in_order(operation, second, first)
        } else {
            Asked::in_order(operation, first, second)
        }
    }

    /// What a line asks whose operands are in the table's order: each in memory gets its size from the other or from
    /// the operation, if none is written.
    fn in_order(operation: Operation, first: KnownOperand, second: KnownOperand) -> Asked
        ensures { result ≡ asked_in_order operation first second }
    {
        Asked {
            operation,
            first: first.sized(operation, second),
            second: second.sized(operation, first),
        }
    }
}

/// The operation by which the encoding table is searched for a mnemonic: the near one, or for JMP and CALL with a far
/// first operand the one that leaves the segment.
fn operation_meant(mnemonic: Mnemonic, first: KnownOperand) -> Operation
    ensures { result ≡ operation_meant mnemonic first }
{
    match mnemonic.far() {
        Some(far) if first.is_far() => far,
        _ => mnemonic.near(),
    }
}

/// An operand as the encoding table has it: the table's NOP is XCHG AX, AX, so for an operand that NOP doesn't have AX
/// is asked. Any other mnemonic keeps its operands, while one written after NOP is dropped, so that no row takes it.
fn operand_meant(mnemonic: Mnemonic, operand: KnownOperand) -> KnownOperand
    ensures { result ≡ operand_meant mnemonic operand }
{
    match mnemonic {
        Mnemonic::Nop => match operand {
            KnownOperand::Nothing => KnownOperand::Register(Register::Word(WordRegister::Ax)),
            _ => KnownOperand::Nothing,
        },
        Mnemonic::Plain(_) | Mnemonic::Jmp | Mnemonic::Call => operand,
    }
}

/// Whether the operands are swapped before the encoding table is searched, since it has TEST and XCHG in one order
/// only: TEST's and XCHG's memory first, and XCHG's AX first.
fn is_exchanged(operation: Operation, first: KnownOperand, second: KnownOperand) -> bool
    ensures { result ≡ is_exchanged operation first second }
{
    match operation {
        Operation::Arithmetic(Arithmetic::Test) => second.is_memory(),
        Operation::Transfer(Transfer::Xchg) => {
            second.is_memory() || is_register_and_ax(first, second)
        }
        _ => false,
    }
}

/// Whether the operands are a word register and AX: so written, XCHG is asked of the table with AX first.
fn is_register_and_ax(first: KnownOperand, second: KnownOperand) -> bool
    ensures { result ≡ is_register_and_ax first second }
{
    matches!(
        (first, second),
        (
            KnownOperand::Register(Register::Word(_)),
            KnownOperand::Register(Register::Word(WordRegister::Ax))
        )
    )
}

/// The size of an operand in memory without a size word: a word for PUSH, POP, JMP and CALL, else that of the register
/// beside it. `None` if there is none, or for a shift, whose CL says nothing of the size: then no row takes it.
fn size_beside(operation: Operation, other: KnownOperand) -> Option<Size>
    ensures { result ≡ size_beside operation other }
{
    match operation {
        Operation::Shift(_) => None,
        Operation::Transfer(Transfer::Push | Transfer::Pop)
        | Operation::Control(Control::Jmp | Control::Call) => Some(Size::Word),
        _ => other.register_size(),
    }
}

impl KnownMemory {
    /// A place in memory with this size, if no size word was written for it; for memory that takes its size from the
    /// other operand.
    fn with_size(self, size: Option<Size>) -> KnownMemory
        ensures { result ≡ with_size self size }
    {
        match self.size {
            Some(_) => self,
            None => KnownMemory { size, ..self },
        }
    }

    /// Whether FAR was written for the place: it holds an offset and a segment.
    pub(crate) fn is_far(self) -> bool
        ensures { result ≡ is_far_size self.size }
    {
        matches!(self.size, Some(Size::Far))
    }
}

impl KnownOperand {
    /// Whether the operand is a far target, or memory that holds one: with it JMP and CALL leave the segment.
    fn is_far(self) -> bool
        ensures { result ≡ is_far self }
    {
        match self {
            KnownOperand::Far => true,
            KnownOperand::Memory(memory) => memory.is_far(),
            _ => false,
        }
    }

    /// Whether the operand is in memory, which TEST and XCHG take first in the table.
    fn is_memory(self) -> bool
        ensures { result ≡ is_memory self }
    {
        matches!(self, KnownOperand::Memory(_))
    }

    /// The size of a register, which memory beside it takes over; `None` for an operand that is no register.
    fn register_size(self) -> Option<Size>
        ensures { result ≡ register_size self }
    {
        match self {
            KnownOperand::Register(Register::Byte(_)) => Some(Size::Byte),
            KnownOperand::Register(Register::Word(_) | Register::Segment(_)) => Some(Size::Word),
            _ => None,
        }
    }

    /// The operand as the table is asked for it: memory without a size word gets its size from the operand beside it,
    /// `other`, or from the operation; any other stays as it is.
    fn sized(self, operation: Operation, other: KnownOperand) -> KnownOperand
        ensures { result ≡ sized operation self other }
    {
        match self {
            KnownOperand::Memory(memory) => {
                KnownOperand::Memory(memory.with_size(size_beside(operation, other)))
            }
            _ => self,
        }
    }
}
