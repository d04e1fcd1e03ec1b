//! The stops of a probe's runs, and how a line is read.
ghost use Rattle.std.specs.Prelude.{◌≡◌, ◌<◌, ◌^◌, IfSome, Some, length};
ghost use Rattle.debugger_meaning.specs.Commands.{IsWithin};
ghost use Rattle.debugger_meaning.specs.CommandWords.{words_of};
ghost use Rattle.probe_texts.specs.Requests.{changes_in, is_standing, request_by, request_of, second_in, stop_of, trial_of, HasBytes, IsRequest, IsRising};

use crate::inquiry::{Inquiry, read_inquiry};
use crate::kinds::{Kinds, read_kinds};
use crate::moments_text::{Second, Trial};
use arrayvec::ArrayVec;
use board_plain::stop::Condition;
use debugger_meaning::command::{Command, read_command};
use debugger_meaning::word::{count_of, hex_number, next_word};

/// A stop of a probe's runs: `go` ends at a clock at which it is met, and `back stop` goes back to one.
#[derive(Drop)]
pub enum Stop {
    /// This condition of the board holds.
    Standing(Condition),
    /// An event of these kinds has happened in the clock that led here.
    When(Kinds),
    /// One of this many bytes from an address on differs from what it was a clock before: 1 to 65,536 bytes, all below
    /// 100000h.
    Changes(u32, u32),
}

impl Default for Stop {
    /// Returns what stands at the places of an `ArrayVec` that hold no stop yet.
    fn default() -> Stop {
        Stop::Changes(0, 1)
    }
}

/// The stops of a probe's runs, numbered from 1.
pub type Stops = ArrayVec<Stop, 16>;

/// What a line asks a probe for.
#[derive(Drop)]
pub enum Request {
    /// Adds a stop.
    Add(Stop),
    /// Runs up to the next stop, for at most this many clocks.
    Go(u64),
    /// Goes back to the last earlier clock at which a stop was met.
    BackStop,
    /// Answers how a run would end with one more key, or two, for each clock of the trial.
    Try(Trial),
    /// Asks about the board, or types a key.
    Inquire(Inquiry),
    /// Does what another command of the debugger says.
    Do(Command),
}

/// Reads a typed line; `None` if it asks for nothing that a probe does.
pub fn read_request(line: &str) -> Option<Request>
    ensures value { result ≡ request_of line.now }
    ensures within { IfSome result IsRequest }
{
    if let Some(trial) = read_trial(line) {
        return Some(Request::Try(trial));
    }
    if let Some(stop) = read_stop(line) {
        return Some(Request::Add(stop));
    }
    if let Some(inquiry) = read_inquiry(line) {
        return Some(Request::Inquire(inquiry));
    }
    let command = read_command(line)?;
    Some(request_by(command))
}

/// What a command of the debugger asks a probe for, whose stops and runs are its own.
fn request_by(command: Command) -> Request
    requires { IsWithin (Some command) }
    ensures value { result ≡ request_by command }
    ensures within { IsRequest result }
{
    match command {
        Command::Break(cs, ip) => Request::Add(Stop::Standing(Condition::At(cs, ip))),
        Command::Byte(address, byte) => Request::Add(Stop::Standing(Condition::Byte(
            address, byte,
        ))),
        Command::Sound => Request::Add(Stop::Standing(Condition::Sound)),
        Command::Halted => Request::Add(Stop::Standing(Condition::Halted)),
        Command::Go(count) => Request::Go(count),
        Command::BackStop => Request::BackStop,
        _ => Request::Do(command),
    }
}

/// Reads a line that begins with `when` or `changes` as a stop on events or on changes of bytes; `None` if it is no
/// such line.
#[tactic(auto, unfolding(crate::specs::Requests::stop_of))]
fn read_stop(line: &str) -> Option<Stop>
    ensures value { result ≡ stop_of line.now }
    ensures within { IfSome result HasBytes }
{
    let (name, rest) = next_word(line.as_bytes())?;
    if name == b"when".as_slice() {
        let kinds = read_kinds(rest)?;
        return Some(Stop::When(kinds));
    }
    if name == b"changes".as_slice() {
        return changes(rest);
    }
    None
}

/// Reads a line `moments CODE FIRST LAST COUNT` as the trial of a key: its code, the first and the last clock at which
/// it may come, and how many clocks a run has; `CODE2 AFTER` at its end is a second key. `None` if it is no such line.
#[tactic(auto, unfolding(crate::specs::Requests::trial_of))]
fn read_trial(line: &str) -> Option<Trial>
    ensures value { result ≡ trial_of line.now }
    ensures within { IfSome result IsRising }
{
    let (name, rest) = next_word(line.as_bytes())?;
    if name != b"moments".as_slice() {
        return None;
    }
    let (code, rest) = next_word(rest)?;
    let (first, rest) = next_word(rest)?;
    let (last, rest) = next_word(rest)?;
    let (count, rest) = next_word(rest)?;
    let code = hex_number(2, code)?;
    let first = count_of(first)?;
    let last = count_of(last)?;
    let count = count_of(count)?;
    let second = read_second(rest)?;
    if last < first {
        return None;
    }
    Some(Trial {
        code: code as u8,
        first,
        last,
        count,
        second,
    })
}

/// Reads the words after a trial's first key as its second: a code, and how many clocks after the first it comes. The
/// inner `None` is a trial without a second key, the outer one what is no trial.
fn read_second(words: &[u8]) -> Option<Option<Second>>
    ensures { result ≡ second_in (words_of words.now) }
{
    let Some((code, rest)) = next_word(words) else {
        return Some(None);
    };
    let (after, rest) = next_word(rest)?;
    if next_word(rest).is_some() {
        return None;
    }
    let code = hex_number(2, code)?;
    let after = count_of(after)?;
    Some(Some(Second {
        code: code as u8,
        after,
    }))
}

/// Reads the words after `changes` as a stop on changes of bytes: an address, and how many bytes from it on, one if no
/// count is given; `None` unless they are 1 to 65,536 bytes below 100000h.
fn changes(words: &[u8]) -> Option<Stop>
    ensures value { result ≡ changes_in (words_of words.now) }
    ensures within { IfSome result HasBytes }
{
    let (address, rest) = next_word(words)?;
    let Some((count, rest)) = next_word(rest) else {
        return Some(Stop::Changes(hex_number(5, address)?, 1));
    };
    if next_word(rest).is_some() {
        return None;
    }
    let address = hex_number(5, address)?;
    let count = count_of(count)?;
    if count < 1 || count > 65536 || u64::from(address) + count > 0x10_0000 {
        return None;
    }
    Some(Stop::Changes(address, count as u32))
}

/// Whether a stop is a condition, which the board can search for by itself; other stops need a look at each turn of the
/// run.
pub fn is_standing(stop: &Stop) -> bool
    ensures { result ≡ is_standing stop.now }
{
    matches!(stop, Stop::Standing(_))
}
