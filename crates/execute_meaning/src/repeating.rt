//! The repeat in progress.
use isa::form::Repeat;
use isa::operation::Strings;
use isa::register::SegmentRegister;

/// A repeated string instruction between two of its iterations: all that those that follow need of it.
#[derive(Clone, Copy)]
pub struct Repeating {
    pub operation: Strings,
    /// The repeat prefix that counts, the last one.
    pub repeat: Repeat,
    /// The segment register of the source.
    pub segment: SegmentRegister,
    /// How many bytes the instruction has from its last prefix on.
    pub size: u8,
    /// The clocks of each iteration after the first.
    pub clocks: u16,
}
