//! What becomes of a source.
use masm_text::place::Line;
use masm_text::refusal::Note;

/// The dialect's lines, each with the user's line that it comes from, and what is to be said of the user's lines.
#[derive(Drop)]
pub struct Translation {
    pub lines: Vec<Line>,
    pub notes: Vec<Note>,
}
