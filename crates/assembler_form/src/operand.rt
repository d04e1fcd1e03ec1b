//! Operands as an assembler's first pass knows them: constants have their values, labels don't yet.

use dialect::register::Register;
use dialect::size::Size;
use isa::form::Base;

/// A number that an operand names.
#[derive(Clone, Copy)]
pub enum Number {
    /// A constant. Its value depends on no label.
    Constant(i64),
    /// Any other number. Its value is found once all labels have theirs; until then it counts as a word.
    Later,
}

/// A place in memory.
#[derive(Clone, Copy)]
pub struct KnownMemory {
    /// The size word before the brackets, if there is one.
    pub size: Option<Size>,
    /// The registers in the brackets, if there are any.
    pub base: Option<Base>,
    /// The value of the expression in the brackets; without an expression it is the constant 0.
    pub displacement: Number,
}

/// An operand. A segment override isn't part of it: it is one of the instruction's prefixes.
#[derive(Clone, Copy)]
pub enum KnownOperand {
    /// No operand.
    Nothing,
    Register(Register),
    /// The number `1`, written in this way: the count of a shift, and elsewhere the constant 1.
    One,
    Number(Number),
    /// A target after `SHORT`.
    Short,
    /// A label, or a segment and an offset, after `FAR`.
    Far,
    Memory(KnownMemory),
}
