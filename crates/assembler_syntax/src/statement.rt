//! Lines, and what they say.

use crate::expression::Expression;
use crate::operand::Operand;
use assembler_lexeme::name::Name;
use assembler_lexeme::sequence::Sequence;
use dialect::mnemonic::Mnemonic;
use isa::form::Prefix;

/// How wide the numbers of a data line are: DB, DW or DD.
#[derive(Clone, Copy)]
pub enum DataWidth {
    Byte,
    Word,
    Double,
}

/// A piece of a data line, which is placed once, or as often as the DUP around it says.
#[derive(Drop)]
pub enum Piece {
    Value(Expression),
    /// A quoted text of two or more characters, in DB; a single character is an expression.
    Text(Sequence<u8>),
}

/// An item of a data line.
#[derive(Drop)]
pub enum Item {
    Once(Piece),
    /// A count, DUP, and what it repeats: one or more pieces.
    Repeated(Expression, Sequence<Piece>),
}

/// Prefixes in the order in which they are written, a mnemonic, and as many operands as are written.
#[derive(Drop)]
pub struct Instruction {
    pub prefixes: Sequence<Prefix>,
    pub mnemonic: Mnemonic,
    pub operands: Sequence<Operand>,
}

/// What a line says after its label.
#[derive(Drop)]
pub enum Statement {
    Empty,
    /// `SEGMENT name AT paragraph`.
    Segment(Name, Expression),
    Ends,
    /// `name EQU value`.
    Equ(Name, Expression),
    Org(Expression),
    /// DB, DW or DD, and one or more items.
    Data(DataWidth, Sequence<Item>),
    Instruction(Instruction),
}

/// A line of a source.
#[derive(Drop)]
pub struct Line {
    pub label: Option<Name>,
    pub statement: Statement,
}
