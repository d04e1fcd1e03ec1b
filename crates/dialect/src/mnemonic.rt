//! What a mnemonic stands for.
ghost use Rattle.std.specs.Prelude.{◌≡◌};
ghost use Rattle.dialect.specs.Mnemonics.{far_operation, near_operation};

use isa::operation::{Control, Operation, Transfer};

/// What a mnemonic stands for.
#[derive(Clone, Copy)]
pub enum Mnemonic {
    /// One operation, other than those of JMP and CALL.
    Plain(Operation),
    /// A jump within the segment, or to another one if its operand is far.
    Jmp,
    /// A call within the segment, or into another one if its operand is far.
    Call,
    /// XCHG AX,AX, written without operands.
    Nop,
}

impl Mnemonic {
    /// The operation that the assembler takes a mnemonic for, unless its operand is far: JMP and CALL within the
    /// segment, XCHG for NOP.
    pub fn near(self) -> Operation
        ensures { result ≡ near_operation self }
    {
        match self {
            Mnemonic::Plain(operation) => operation,
            Mnemonic::Jmp => Operation::Control(Control::Jmp),
            Mnemonic::Call => Operation::Control(Control::Call),
            Mnemonic::Nop => Operation::Transfer(Transfer::Xchg),
        }
    }

    /// The operation that the assembler takes JMP and CALL for if the operand is far; `None` for other mnemonics.
    pub fn far(self) -> Option<Operation>
        ensures { result ≡ far_operation self }
    {
        match self {
            Mnemonic::Jmp => Some(Operation::Control(Control::JmpFar)),
            Mnemonic::Call => Some(Operation::Control(Control::CallFar)),
            Mnemonic::Plain(_) | Mnemonic::Nop => None,
        }
    }
}
