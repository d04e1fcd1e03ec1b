//! The lines of a source as the first pass leaves them.

use assembler_lexeme::sequence::Sequence;
use assembler_meaning::symbol::Location;
use assembler_syntax::statement::{DataWidth, Instruction, Item};
use isa::form::Form;
use std::boxed::Box;

/// What a line places, as the first pass leaves it to the second one.
#[derive(Drop)]
pub(crate) enum Content {
    Data(DataWidth, Sequence<Item>),
    /// An instruction with the form that was chosen for it.
    Code(Form, Instruction),
}

/// A line without a fault by itself or by the lines before it, as the first pass saves it for the second one and the
/// listing.
#[derive(Drop)]
pub(crate) struct KeptLine {
    /// Where its text begins in the source.
    pub(crate) start: u32,
    /// How many bytes its text has.
    pub(crate) length: u32,
    pub(crate) has_label: bool,
    /// Where its first byte goes, if a segment is open.
    pub(crate) location: Option<Location>,
    /// How many bytes it places.
    pub(crate) size: u64,
    pub(crate) content: Option<Box<Content>>,
}
