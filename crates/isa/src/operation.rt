//! What the instructions do, by name (8086 Family User's Manual, "Instruction Set"). Aliases such as SAL or JC
//! are the assembler's: here each operation has one name.

/// An operation: the group of the manual's instructions that it belongs to, and which of them it is.
#[derive(Clone, Copy)]
pub enum Operation {
    Arithmetic(Arithmetic),
    Shift(Shift),
    Product(Product),
    Unary(Unary),
    Jump(JumpCondition),
    Looping(Looping),
    Strings(Strings),
    Adjust(Adjust),
    Transfer(Transfer),
    Control(Control),
    Processor(Processor),
}

/// Arithmetic and logic on two operands. CMP and TEST keep no result.
#[derive(Clone, Copy)]
pub enum Arithmetic {
    Add,
    Or,
    Adc,
    Sbb,
    And,
    Sub,
    Xor,
    Cmp,
    Test,
}

/// Shifts and rotates, by 1 or by CL.
#[derive(Clone, Copy)]
pub enum Shift {
    Rol,
    Ror,
    Rcl,
    Rcr,
    Shl,
    Shr,
    Sar,
}

/// Multiplication and division of AL, AX or DX:AX by the operand.
#[derive(Clone, Copy)]
pub enum Product {
    Mul,
    Imul,
    Div,
    Idiv,
}

/// Arithmetic and logic on one operand.
#[derive(Clone, Copy)]
pub enum Unary {
    Inc,
    Dec,
    Not,
    Neg,
}

/// The conditions of the conditional jumps, in the order of their opcodes from 70h on.
#[derive(Clone, Copy)]
pub enum JumpCondition {
    Overflow,
    NotOverflow,
    Below,
    NotBelow,
    Zero,
    NotZero,
    BelowOrZero,
    Above,
    Sign,
    NotSign,
    Parity,
    NotParity,
    Less,
    NotLess,
    LessOrZero,
    Greater,
}

/// The jumps that depend on CX.
#[derive(Clone, Copy)]
pub enum Looping {
    Loopne,
    Loope,
    Loop,
    Jcxz,
}

/// The string instructions, of bytes or of words.
#[derive(Clone, Copy)]
pub enum Strings {
    Movsb,
    Movsw,
    Cmpsb,
    Cmpsw,
    Stosb,
    Stosw,
    Lodsb,
    Lodsw,
    Scasb,
    Scasw,
}

/// Adjustments of AL and AX: decimal and ASCII digits, and signs.
#[derive(Clone, Copy)]
pub enum Adjust {
    Daa,
    Das,
    Aaa,
    Aas,
    Aam,
    Aad,
    Cbw,
    Cwd,
}

/// Data transfer.
#[derive(Clone, Copy)]
pub enum Transfer {
    Mov,
    Xchg,
    Lea,
    Les,
    Lds,
    Push,
    Pop,
    Pushf,
    Popf,
    Sahf,
    Lahf,
    Xlat,
    In,
    Out,
}

/// Jumps without a condition, calls, returns and interrupts.
#[derive(Clone, Copy)]
pub enum Control {
    Jmp,
    Call,
    Ret,
    JmpFar,
    CallFar,
    Retf,
    Int3,
    Int,
    Into,
    Iret,
}

/// Processor control.
#[derive(Clone, Copy)]
pub enum Processor {
    Hlt,
    Cmc,
    Clc,
    Stc,
    Cli,
    Sti,
    Cld,
    Std,
    Wait,
    Esc,
}
