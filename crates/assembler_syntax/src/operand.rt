//! Operands of instructions.

use crate::expression::Expression;
use assembler_lexeme::name::Name;
use dialect::register::Register;
use dialect::size::Size;
use isa::form::Base;
use isa::register::SegmentRegister;

/// A place in memory: `[BYTE|WORD|FAR] [sr:] [ .. ]`. In the brackets are registers, an expression or both.
#[derive(Drop)]
pub struct Address {
    pub size: Option<Size>,
    /// The segment register before a colon.
    pub segment: Option<SegmentRegister>,
    pub base: Option<Base>,
    pub displacement: Option<Expression>,
}

/// An operand.
#[derive(Drop)]
pub enum Operand {
    Register(Register),
    /// The number 1, written `1`, which is the only way to write a shift's count of 1.
    One,
    /// Any other expression.
    Value(Expression),
    Memory(Address),
    /// SHORT and a target.
    Short(Expression),
    /// FAR and a label.
    FarLabel(Name),
    /// FAR, a segment, a colon and an offset.
    FarPointer(Expression, Expression),
}
