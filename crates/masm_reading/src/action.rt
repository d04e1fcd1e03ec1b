//! What becomes of a line in the first pass.

/// What becomes of a line.
#[derive(Drop)]
pub enum Action {
    /// The line is kept for the second pass.
    Keep,
    /// The line is left out.
    Leave,
    /// The line is left out, and begins lines that are gathered.
    Gather,
    /// Lines that the line makes come next.
    Call(Vec<Vec<u8>>),
    /// Lines that were gathered come next, as many times as the number says; the line that began them makes them.
    Repeat(Vec<Vec<u8>>, u32),
    /// The text of this name comes next.
    Include(Vec<u8>),
    /// The macro whose line this is ends here.
    End,
}
