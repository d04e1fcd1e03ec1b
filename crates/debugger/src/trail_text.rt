//! The trail as text.
ghost use Rattle.std.specs.Prelude.{◌≡◌, IfOk};
ghost use Rattle.std.specs.String.{string_bytes};
ghost use Rattle.std.specs.List.{flat_map};
ghost use Rattle.debugger_meaning.specs.TrailText.{entry_line};

use board::board::Board;
use debugger_meaning::trail_text::entry_line;
use std::alloc::{AllocError, Global};

/// Returns what the command `trail` shows: a line for each entry of the board's trail, the oldest first.
pub(crate) fn trail_text(alloc: Global, board: &Board) -> Result<String, AllocError>
    ensures { IfOk result (λ text. string_bytes text ≡ flat_map entry_line board.now.trail) }
{
    let mut text = String::new(alloc);
    let mut index = 0;
    while let Some(entry) = board.trail(index) {
        let line = entry_line(alloc, &entry)?;
        text.push_str(line.as_str())?;
        index += 1;
    }
    Ok(text)
}
