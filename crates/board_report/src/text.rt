//! The report of a board as text.
ghost use Rattle.std.specs.Prelude.{◌≡◌, IfOk};
ghost use Rattle.std.specs.String.{string_bytes};
ghost use Rattle.board_lines.specs.Text.{report_text};

use board::board::Board;
use board_lines::lines::{clock_line, push_changes, register_lines, state_lines};
use std::alloc::{AllocError, Global};

/// The report of a board as text, which `pcboard` prints at a run's end: clock, registers, state, the speaker's
/// changes, and the screen. Fails only if there is no memory for it.
#[tactic(auto, unfolding(board_lines::specs::Text::report_text))]
pub fn report_text(alloc: Global, board: &Board) -> Result<String, AllocError>
    ensures { IfOk result (λ text. string_bytes text ≡ report_text board.now.plain board.now.changes) }
{
    let mut text = clock_line(alloc, board.clock().get())?;
    let registers = register_lines(alloc, &board.regs())?;
    text.push_str(registers.as_str())?;
    let changes = board.speaker_changes();
    let state = state_lines(alloc, board.state(), board.lost(), changes.len())?;
    text.push_str(state.as_str())?;
    push_changes(alloc, &mut text, changes)?;
    text.push_str("screen\n")?;
    let screen = board.screen().map_err(|_| AllocError)?;
    text.push_str(screen.as_str())?;
    Ok(text)
}
