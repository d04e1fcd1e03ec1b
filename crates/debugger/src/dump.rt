//! Bytes of memory as text.
ghost use Rattle.std.specs.Prelude.{◌≡◌, ◌+◌, ◌≤◌, ◌<◌, ◌^◌, ◌++◌, IfOk, OnOk};
ghost use Rattle.std.specs.String.{string_bytes};
ghost use Rattle.std.specs.List.{flat_map};
ghost use Rattle.debugger_meaning.specs.Dump.{bytes_from, dump_line, dump_text, spaced_byte};

use board::board::Board;
use debugger_meaning::dump::{push_address, spaced_byte};
use std::alloc::{AllocError, Global};

/// How many bytes a line shows.
const LINE_SIZE: u32 = 16;

/// Returns what the command `dump` shows: the `count` bytes of memory from `first` on, sixteen a line.
#[tactic(auto, unfolding(debugger_meaning::specs::Dump::dump_text))]
pub(crate) fn dump_text(
    alloc: Global,
    board: &Board,
    first: u32,
    count: u32,
) -> Result<String, AllocError>
    requires { first + count ≤ 2 ^ 20 }
    ensures { IfOk result (λ text. string_bytes text ≡ dump_text board.now.plain first count) }
{
    let mut text = String::new(alloc);
    for line in 0..count.div_ceil(LINE_SIZE) {
        let passed = LINE_SIZE * line;
        let size = (count - passed).min(LINE_SIZE);
        push_line(alloc, &mut text, board, first + passed, size)?;
    }
    Ok(text)
}

/// Adds a line of a dump: an address, a colon and the `size` bytes from it on.
#[tactic(auto, unfolding(debugger_meaning::specs::Dump::dump_line))]
fn push_line(
    alloc: Global,
    text: &mut String,
    board: &Board,
    first: u32,
    size: u32,
) -> Result<(), AllocError>
    requires { first + size ≤ 2 ^ 20 }
    ensures { OnOk result (string_bytes text.new ≡ string_bytes text.old ++ dump_line board.now.plain first size) }
{
    push_address(alloc, text, first)?;
    push_bytes(alloc, text, board, first, size)?;
    text.push_str("\n")
}

/// Adds the bytes of a dump's line, the `size` bytes from `first` on, a blank before each.
fn push_bytes(
    alloc: Global,
    text: &mut String,
    board: &Board,
    first: u32,
    size: u32,
) -> Result<(), AllocError>
    requires { first + size ≤ 2 ^ 20 }
    ensures { OnOk result (string_bytes text.new ≡ string_bytes text.old
        ++ flat_map spaced_byte (bytes_from board.now.plain first size)) }
{
    for passed in 0..size {
        let byte = board.byte(first + passed);
        let shown = spaced_byte(alloc, byte)?;
        text.push_str(shown.as_str())?;
    }
    Ok(())
}
