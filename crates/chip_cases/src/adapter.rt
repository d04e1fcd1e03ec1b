//! Commands to the text adapter, each with what must come of it.
ghost use Rattle.std.specs.Prelude.{◌<◌, IfSome};

use anyhow::{Result, ensure};
use board_types::timed::Timed;
use mda_text::mda::{COLUMNS, Mda, ROWS};
use std::alloc::{AllocError, Global};
use std::mem;
use std::str::SplitWhitespace;

/// How many bytes text memory has.
const TEXT_SIZE: u16 = 4096;

/// The operands of a case's command to the text adapter, which are read one after another.
#[derive(Drop)]
struct Operands<'a>(SplitWhitespace<'a>);

impl<'a> Operands<'a> {
    /// Reads the command's next operand, a hexadecimal number; `None` if there is none, or it is no number.
    fn number(&mut self) -> Option<u64> {
        u64::from_str_radix(self.0.next()?, 16).ok()
    }

    /// Reads the command's next operand, a hexadecimal word such as a port; `None` if there is none.
    fn word(&mut self) -> Option<u16> {
        u16::try_from(self.number()?).ok()
    }

    /// Reads the command's next operand, a hexadecimal byte; `None` if there is none.
    fn byte(&mut self) -> Option<u8> {
        u8::try_from(self.number()?).ok()
    }

    /// Reads the command's next operand, an offset of the adapter's text memory, below 4,096; `None` if there is none.
    fn offset(&mut self) -> Option<u16>
        ensures { IfSome result (λ offset. offset < 4096) }
    {
        let offset = self.word()?;
        (offset < TEXT_SIZE).then_some(offset)
    }
}

/// Carries out an `mda` case, one command to the text adapter that goes on from case to case. Fails, with the command,
/// if it doesn't come out as it says or can't be read.
pub fn obey(mda: &mut Mda, alloc: Global, command: &str) -> Result<()> {
    let command = command.trim_start();
    ensure!(comes_out(mda, alloc, command) == Some(true), "{command}");
    Ok(())
}

/// Carries out a case's command on the text adapter. Returns whether it came out as it says; `None` if it can't be
/// read, or there is no memory.
fn comes_out(mda: &mut Mda, alloc: Global, command: &str) -> Option<bool> {
    let mut words = Operands(command.split_whitespace());
    match words.0.next()? {
        "new" => put(mda, Mda::new(alloc)),
        "copy" => {
            let copy = mda.copy();
            put(mda, copy)
        }
        "line" => has_line(mda, command),
        "poke" => poke(mda, words),
        "changed" => names(mda, words),
        verb => access(mda, verb, words),
    }
}

/// Replaces the text adapter by another, for the commands `new` and `copy`; `None` if there was no memory for that.
fn put(place: &mut Mda, made: Result<Mda, AllocError>) -> Option<bool> {
    drop(mem::replace(place, made.ok()?));
    Some(true)
}

/// Carries out `out`, `clocks` or `mark`, the commands of few operands that change the text adapter, or else one that
/// only looks at it.
fn access(mda: &mut Mda, verb: &str, mut words: Operands) -> Option<bool> {
    match verb {
        "out" => mda.write_port(words.word()?, words.byte()?),
        "clocks" => mda.advance(words.number()?),
        "mark" => return Some(mda.mark() == words.number()?),
        _ => return tells(mda, verb, words),
    }
    Some(true)
}

/// Whether the text adapter shows what a case's command says: `in`, `peek`, `all` or `cell`, which leave it as it is.
/// `None` for any other command.
fn tells(mda: &Mda, verb: &str, mut words: Operands) -> Option<bool> {
    Some(match verb {
        "in" => mda.read_port(words.word()?) == words.byte()?,
        "peek" => mda.read_mem(words.offset()?) == words.byte()?,
        "all" => mda.changed_since(words.number()?).count() == 2000,
        "cell" => return shows(mda, words.byte()?, words.byte()?, words.byte()?),
        _ => return None,
    })
}

/// Carries out `poke`: writes bytes to text memory, from an offset on; `None` if they go beyond its end.
fn poke(mda: &mut Mda, mut words: Operands) -> Option<bool> {
    let mut offset = words.offset()?;
    for word in words.0 {
        if offset >= TEXT_SIZE {
            return None;
        }
        mda.write_mem(offset, u8::from_str_radix(word, 16).ok()?);
        offset += 1;
    }
    Some(true)
}

/// Whether the screen shows this character at a row and column, for the command `cell`; `None` if the screen has no
/// such cell.
fn shows(mda: &Mda, row: u8, column: u8, character: u8) -> Option<bool> {
    (row < ROWS && column < COLUMNS).then_some(())?;
    Some(mda.cell(row, column) == character)
}

/// Whether the cells that have changed since a mark are those that the words of the command `changed` name, by row and
/// column, in order and no more.
fn names(mda: &Mda, mut words: Operands) -> Option<bool> {
    for cell in mda.changed_since(words.number()?) {
        if (words.byte()?, words.byte()?) != cell {
            return Some(false);
        }
    }
    Some(words.0.next().is_none())
}

/// Whether a line of the screen, as in the command `line ROW TEXT`, is that text, followed by blanks up to 80
/// characters.
fn has_line(mda: &Mda, command: &str) -> Option<bool> {
    let (_, rest) = command.split_once(' ')?;
    let (number, wanted) = rest.split_once(' ')?;
    let number = usize::from_str_radix(number, 16).ok()?;
    let text = mda.text().ok()?;
    let line = text.as_str().split('\n').nth(number)?;
    Some(line.len() == 80 && line.trim_end() == wanted)
}
