//! The sizes that a size word before memory says.

/// A size word before an operand in memory.
#[derive(Clone, Copy)]
pub enum Size {
    Byte,
    Word,
    /// An offset and a segment, four bytes in all.
    Far,
}
