//! Inquiries, and how a line is read as one.
ghost use Rattle.std.specs.Prelude.{◌≡◌, []};
ghost use Rattle.debugger_meaning.specs.CommandWords.{count_of, hex_number, words_of};
ghost use Rattle.probe_texts.specs.Inquiry.{events_of, inquiry_of, inquiry_with, inquiry_with_two, key_at, key_of, list_of, place_of, run_inquiry};
ghost use Rattle.probe_texts.specs.Kinds.{kinds_from};

use crate::kinds::{Kinds, read_kinds};
use debugger_meaning::command::{Command, break_command, colon_place};
use debugger_meaning::word::{count_of, hex_number, next_word};

/// A place in memory from which instructions are listed.
#[derive(Clone, Copy, Debug, PartialEq, Eq)]
pub struct Place {
    pub segment: u16,
    pub offset: u16,
}

/// What is shown of instructions in memory, a line for each.
#[derive(Clone, Copy, Debug, PartialEq, Eq)]
pub enum Lines {
    /// Their texts, for `list`.
    Texts,
    /// What they do, for `forms`.
    Forms,
}

/// What a typed line asks `pcprobe` of a session's board, beside the debugger's commands.
#[derive(Drop)]
pub enum Inquiry {
    /// What the chips hold.
    Chips,
    /// Shows this many instructions, 1 to 4,096, from a place on.
    List(Lines, Place, u16),
    /// Runs for this many clocks, and counts them by what began.
    Counts(u64),
    /// Runs for this many clocks, and lists the changes of wires.
    Signals(u64),
    /// Runs for this many clocks, and lists the events of these kinds.
    Events(u64, Kinds),
    /// Types a key: its code, and the clock at which it comes, the next one if none is given.
    Key(u8, Option<u64>),
}

/// Reads a typed line as an inquiry; `None` if it is none, and may be a command. Its words are separated by spaces, in
/// lower case; a place is a segment and an offset of at most four hexadecimal digits with a colon between them, or a
/// physical address of at most five; counts are decimal.
#[tactic(auto, unfolding(crate::specs::Inquiry::inquiry_of))]
pub fn read_inquiry(line: &str) -> Option<Inquiry>
    ensures { result ≡ inquiry_of line.now }
{
    let (name, rest) = next_word(line.as_bytes())?;
    let Some((first, rest)) = next_word(rest) else {
        return if name == b"chips".as_slice() {
            Some(Inquiry::Chips)
        } else {
            None
        };
    };
    let Some((second, more)) = next_word(rest) else {
        return inquiry_with(name, first);
    };
    if name == b"events".as_slice() {
        return events(first, rest);
    }
    match next_word(more) {
        None => inquiry_with_two(name, first, second),
        Some(_) => None,
    }
}

/// Reads the line of an inquiry's name and one word after it: `key`, `counts` or `signals`; `None` if it is no inquiry.
fn inquiry_with(name: &[u8], first: &[u8]) -> Option<Inquiry>
    ensures { result ≡ inquiry_with name.now first.now }
{
    if name == b"key".as_slice() {
        return key(first);
    }
    run_inquiry(name, first)
}

/// Reads the line of an inquiry's name and two words after it: `list`, `forms` or `key`; `None` if it is no inquiry.
fn inquiry_with_two(name: &[u8], first: &[u8], second: &[u8]) -> Option<Inquiry>
    ensures { result ≡ inquiry_with_two name.now first.now second.now }
{
    if name == b"list".as_slice() {
        list(Lines::Texts, first, second)
    } else if name == b"forms".as_slice() {
        list(Lines::Forms, first, second)
    } else if name == b"key".as_slice() {
        key_at(first, second)
    } else {
        None
    }
}

/// Parses the word after the command `key`, a scan code in hexadecimal, as a keystroke at the next clock; `None` if
/// it is no such number.
fn key(code: &[u8]) -> Option<Inquiry>
    ensures { result ≡ key_of (hex_number 2 code.now) }
{
    let code = hex_number(2, code)?;
    Some(Inquiry::Key(code as u8, None))
}

/// Reads the words after `key`, a scan code and a clock, as a key that comes at the clock.
fn key_at(code: &[u8], stamp: &[u8]) -> Option<Inquiry>
    ensures { result ≡ key_at (hex_number 2 code.now) (count_of stamp.now) }
{
    let code = hex_number(2, code)?;
    let stamp = count_of(stamp)?;
    Some(Inquiry::Key(code as u8, Some(stamp)))
}

/// Reads the words after `events`, a count of clocks and the kinds of events to list, as an inquiry.
fn events(count: &[u8], words: &[u8]) -> Option<Inquiry>
    ensures { result ≡ events_of (count_of count.now) (kinds_from [] (words_of words.now)) }
{
    let count = count_of(count)?;
    let kinds = read_kinds(words)?;
    Some(Inquiry::Events(count, kinds))
}

/// Reads the line `counts` or `signals` with its count of clocks as an inquiry that runs for so long.
fn run_inquiry(name: &[u8], count: &[u8]) -> Option<Inquiry>
    ensures { result ≡ run_inquiry name.now (count_of count.now) }
{
    let count = count_of(count)?;
    if name == b"counts".as_slice() {
        return Some(Inquiry::Counts(count));
    }
    if name == b"signals".as_slice() {
        return Some(Inquiry::Signals(count));
    }
    None
}

/// Reads the words after `list` or `forms`, a place and a count of 1 to 4,096 instructions, as an inquiry.
fn list(lines: Lines, place: &[u8], count: &[u8]) -> Option<Inquiry>
    ensures { result ≡ list_of lines (place_of place.now) (count_of count.now) }
{
    let place = place_of(place)?;
    let count = count_of(count)?;
    if count < 1 || count > 4096 {
        return None;
    }
    Some(Inquiry::List(lines, place, count as u16))
}

/// Reads the place from which instructions are listed: `SEGMENT:OFFSET`, or a physical address, to which the segment of
/// its 64 KB is given.
#[tactic(auto, unfolding(crate::specs::Inquiry::place_of))]
fn place_of(word: &[u8]) -> Option<Place>
    ensures { result ≡ place_of word.now }
{
    if colon_place(word).is_some() {
        return match break_command(word) {
            Some(Command::Break(segment, offset)) => Some(Place { segment, offset }),
            _ => None,
        };
    }
    let address = hex_number(5, word)?;
    Some(Place {
        segment: (address / 65536 * 4096) as u16,
        offset: (address % 65536) as u16,
    })
}
