//! Commands, and the reading of a line as one.
ghost use Rattle.std.specs.Prelude.{◌≡◌, ◌+◌, ◌<◌, ◌≤◌, ◌^◌, IfSome, position, length};
ghost use Rattle.debugger_meaning.specs.Commands.{IsWithin, back_command, break_command, byte_command, command_of, command_with, command_with_two, dump_command, is_colon, is_quit, plain_command};

use crate::word::{count_of, hex_number, next_word};

/// What a typed line asks a debugger's session for.
#[derive(Clone, Copy, Debug, PartialEq, Eq)]
pub enum Command {
    /// A stop that holds if the processor is free at this segment and offset.
    Break(u16, u16),
    /// A stop that holds if the byte at this physical address, below 100000h, is this one.
    Byte(u32, u8),
    /// A stop that holds if the speaker is high.
    Sound,
    /// A stop that holds if the processor is halted.
    Halted,
    /// On to the next stop, for at most this many clocks. A larger count than the greatest `u64` counts as that.
    Go(u64),
    /// On to the next clock at which the processor is free.
    Step,
    /// Shows the registers.
    Regs,
    /// Shows the screen.
    Screen,
    /// Shows the bytes from a physical address on, 1 to 4,096 of them, all below 100000h.
    Dump(u32, u32),
    /// Shows the last instruction starts and entries.
    Trail,
    /// Back by this many clocks, 1 at least. A larger count than the greatest `u64` counts as that.
    Back(u64),
    /// Back to the last earlier clock at which the processor was free.
    BackStep,
    /// Back to the last earlier clock at which a stop held.
    BackStop,
}

/// Reads a typed line as a command of the debugger; `None` if it is none. Its words are separated by spaces, and
/// written in lower case; segments, offsets, addresses and bytes are hexadecimal in either case, of at most 4, 4, 5 and
/// 2 digits, and counts are decimal.
#[tactic(auto, unfolding(crate::specs::Commands::command_of))]
pub fn read_command(line: &str) -> Option<Command>
    ensures value { result ≡ command_of line.now }
    ensures within { IsWithin result }
{
    let (name, rest) = next_word(line.as_bytes())?;
    let Some((first, rest)) = next_word(rest) else {
        return plain_command(name);
    };
    let Some((second, rest)) = next_word(rest) else {
        return command_with(name, first);
    };
    match next_word(rest) {
        None => command_with_two(name, first, second),
        Some(_) => None,
    }
}

/// Whether a line is the word `quit`, which ends a session.
#[tactic(auto, unfolding(crate::specs::Commands::is_quit))]
pub fn is_quit(line: &str) -> bool
    ensures { result ≡ is_quit line.now }
{
    match next_word(line.as_bytes()) {
        None => false,
        Some((name, rest)) => name == b"quit".as_slice() && next_word(rest).is_none(),
    }
}

/// Reads the line of a single word as a command, such as `step` or `regs`; `None` if no command is this word alone.
#[tactic(auto, unfolding(crate::specs::Commands::plain_command))]
fn plain_command(name: &[u8]) -> Option<Command>
    ensures value { result ≡ plain_command name.now }
    ensures within { IsWithin result }
{
    if name == b"sound".as_slice() {
        Some(Command::Sound)
    } else if name == b"halted".as_slice() {
        Some(Command::Halted)
    } else if name == b"step".as_slice() {
        Some(Command::Step)
    } else if name == b"regs".as_slice() {
        Some(Command::Regs)
    } else if name == b"screen".as_slice() {
        Some(Command::Screen)
    } else if name == b"trail".as_slice() {
        Some(Command::Trail)
    } else {
        None
    }
}

/// Reads the line of a command's name and one word after it: `break`, `go` or `back`; `None` if it is no command.
#[tactic(auto, unfolding(crate::specs::Commands::command_with))]
fn command_with(name: &[u8], rest: &[u8]) -> Option<Command>
    ensures value { result ≡ command_with name.now rest.now }
    ensures within { IsWithin result }
{
    if name == b"break".as_slice() {
        break_command(rest)
    } else if name == b"go".as_slice() {
        Some(Command::Go(count_of(rest)?))
    } else if name == b"back".as_slice() {
        back_command(rest)
    } else {
        None
    }
}

/// Reads the word after `back`: `step`, `stop`, or the number of clocks, 1 at least, by which the board goes back.
#[tactic(auto, unfolding(crate::specs::Commands::back_command))]
fn back_command(way: &[u8]) -> Option<Command>
    ensures value { result ≡ back_command way.now }
    ensures within { IsWithin result }
{
    if way == b"step".as_slice() {
        return Some(Command::BackStep);
    }
    if way == b"stop".as_slice() {
        return Some(Command::BackStop);
    }
    let count = count_of(way)?;
    if count < 1 {
        return None;
    }
    Some(Command::Back(count))
}

/// Returns the index of a word's first colon, which parts segment and offset; `None` if it has none.
pub fn colon_place(place: &[u8]) -> Option<usize>
    ensures value { result ≡ position is_colon place.now }
    ensures bound { IfSome result (λ at. at < length place.now) }
{
    place.iter().position(|byte| *byte == b':')
}

/// Reads the word after `break`, a segment and an offset with a colon between them, as the stop there; an inquiry's
/// place is read by it, too.
#[tactic(auto, unfolding(crate::specs::Commands::break_command))]
pub fn break_command(place: &[u8]) -> Option<Command>
    ensures value { result ≡ break_command place.now }
    ensures within { IsWithin result }
{
    let colon = colon_place(place)?;
    let segment = hex_number(4, &place[..colon])?;
    let offset = hex_number(4, &place[colon + 1..])?;
    Some(Command::Break(segment as u16, offset as u16))
}

/// Reads the line of a command's name and two words after it: `byte` or `dump`; `None` if it is no command.
#[tactic(auto, unfolding(crate::specs::Commands::command_with_two))]
fn command_with_two(name: &[u8], first: &[u8], second: &[u8]) -> Option<Command>
    ensures value { result ≡ command_with_two name.now first.now second.now }
    ensures within { IsWithin result }
{
    if name == b"byte".as_slice() {
        byte_command(first, second)
    } else if name == b"dump".as_slice() {
        dump_command(first, second)
    } else {
        None
    }
}

/// Reads the words after `byte`, an address and a byte, as a stop that holds if memory has this byte there.
#[tactic(auto, unfolding(crate::specs::Commands::byte_command))]
fn byte_command(address: &[u8], byte: &[u8]) -> Option<Command>
    ensures value { result ≡ byte_command address.now byte.now }
    ensures within { IsWithin result }
{
    let address = hex_number(5, address)?;
    let byte = hex_number(2, byte)?;
    Some(Command::Byte(address, byte as u8))
}

/// Reads the words after `dump`, an address and a count, as a dump; `None` unless it shows 1 to 4,096 bytes, all below
/// 100000h.
#[tactic(auto, unfolding(crate::specs::Commands::dump_command))]
fn dump_command(first: &[u8], count: &[u8]) -> Option<Command>
    ensures value { result ≡ dump_command first.now count.now }
    ensures within { IsWithin result }
{
    let first = hex_number(5, first)?;
    let count = count_of(count)?;
    if count < 1 || count > 4096 || u64::from(first) + count > 0x10_0000 {
        return None;
    }
    Some(Command::Dump(first, count as u32))
}
