//! What a step writes to memory, as contracts see it.

/// A byte or a word that is written at a segment and an offset.
#[derive(Clone, Copy)]
pub enum Store {
    Byte(u16, u16, u8),
    Word(u16, u16, u16),
}
