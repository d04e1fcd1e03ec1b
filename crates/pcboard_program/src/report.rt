//! What a run reports.
use board::board::Board;

/// A board at the end of its run, with its report as text.
#[derive(Drop)]
pub struct Report {
    pub board: Board,
    pub text: String,
}
