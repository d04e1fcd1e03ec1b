//! The registers that an operand can name.

use isa::register::{ByteRegister, SegmentRegister, WordRegister};

/// A register of any kind.
#[derive(Clone, Copy)]
pub enum Register {
    Byte(ByteRegister),
    Word(WordRegister),
    Segment(SegmentRegister),
}
