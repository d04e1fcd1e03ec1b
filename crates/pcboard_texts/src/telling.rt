//! Texts that are printed, on standard output or standard error, and the exit status after them.
ghost use Rattle.std.specs.Prelude.{◌≡◌, ◌≢◌, ◌≤◌, ◌<◌, ◌++◌, ◌⊎◌, MatchResult, OnErr, OnOk};
ghost use Rattle.std.specs.Fmt.{decimal};
ghost use Rattle.std.specs.Io.KnownBytes.{Appends};
ghost use Rattle.pcboard_texts.specs.RunFaults.{fault_text};
ghost use Rattle.pcboard_texts.specs.Refusal.{unreadable_text, want_of_board};

use crate::fault::{Fault, write_fault};
use board_plain::fault::BoardFault;
use itoa::Buffer;
use streams::byte_input::Failed;
use streams::byte_output::{ByteOutput, write_all};

/// What is printed if a word isn't UTF-8.
const UNREADABLE_WORDS: &str =
    "error: invalid UTF-8 was detected in one or more arguments\n\nFor more information, try '--help'.\n";

/// Says on `err` that there is no memory for the command line's words, and answers the program's exit status: 1, or 3
/// if writing failed.
pub fn without_words<E: ByteOutput>(err: &mut E) -> u8
    ensures above { 0 < result }
    ensures within { result ≤ 3 }
    ensures status { result ≢ 2 }
    ensures told { result ≡ 1 → Appends (E.contents err.old) (E.contents err.new) (fault_text want_of_board) }
    ensures lost { result ≡ 3 → E.lost err.new }
{
    refused(err, Fault::Board(BoardFault::Memory))
}

/// Says on `err` that a word of the command line isn't UTF-8, and answers the program's exit status: 2, or 3 if writing
/// failed.
pub fn with_unreadable_words<E: ByteOutput>(err: &mut E) -> u8
    ensures status { result ≡ 2 ⊎ result ≡ 3 }
    ensures told { result ≡ 2 → Appends (E.contents err.old) (E.contents err.new) unreadable_text }
    ensures lost { result ≡ 3 → E.lost err.new }
{
    let (status, text) = unreadable_words();
    told(err, text, status)
}

/// The exit status, 2, if a word of the command line isn't UTF-8, and the text that says so.
pub fn unreadable_words() -> (u8, &'static str)
    ensures status { result.0 ≡ 2 }
    ensures text { result.1.now ≡ unreadable_text }
{
    (2, UNREADABLE_WORDS)
}

/// Prints a whole text, a report or a listing, and flushes it.
pub fn print<W: ByteOutput>(to: &mut W, text: &str) -> Result<(), Failed>
    ensures printed { OnOk result (Appends (W.contents to.old) (W.contents to.new) text.now) }
    ensures lost { OnErr result (W.lost to.new) }
{
    print_part(to, text)?;
    to.flush()
}

/// Prints a part of a text.
pub(crate) fn print_part<W: ByteOutput>(to: &mut W, text: &str) -> Result<(), Failed>
    ensures printed { OnOk result (Appends (W.contents to.old) (W.contents to.new) text.now) }
    ensures lost { OnErr result (W.lost to.new) }
{
    write_all(to, text.as_bytes())
}

/// Prints a part of a text and a number.
pub(crate) fn print_number<W: ByteOutput>(to: &mut W, text: &str, number: u64) -> Result<(), Failed>
    ensures printed { OnOk result (Appends (W.contents to.old) (W.contents to.new) (text.now ++ decimal number)) }
    ensures lost { OnErr result (W.lost to.new) }
{
    print_part(to, text)?;
    print_part(to, Buffer::new().format(number))
}

/// Prints a text, such as the usage, on `err`, and answers the program's exit status: `status`, or 3 if writing failed.
pub fn told<W: ByteOutput>(err: &mut W, text: &str, status: u8) -> u8
    requires above { 0 < status }
    requires within { status ≤ 3 }
    ensures above { 0 < result }
    ensures within { result ≤ 3 }
    ensures status { result < 3 → result ≡ status }
    ensures told { result < 3 → Appends (W.contents err.old) (W.contents err.new) text.now }
    ensures lost { status < 3 → result ≡ 3 → W.lost err.new }
{
    status_after(&print(err, text), status)
}

/// Prints the line of a refusal on `err`, and answers the program's exit status: 1, or 3 if writing failed.
pub fn refused<W: ByteOutput>(err: &mut W, fault: Fault) -> u8
    ensures above { 0 < result }
    ensures within { result ≤ 3 }
    ensures status { result ≢ 2 }
    ensures told { result ≡ 1 → Appends (W.contents err.old) (W.contents err.new) (fault_text fault) }
    ensures lost { result ≡ 3 → W.lost err.new }
{
    status_after(&write_fault(&fault, err), 1)
}

/// The program's exit status after a text was written to standard error: 3 if that failed, and else `status`.
fn status_after(written: &Result<(), Failed>, status: u8) -> u8
    ensures { MatchResult written.now (λ _. result ≡ status) (λ _. result ≡ 3) }
{
    match written {
        Ok(()) => status,
        Err(_) => 3,
    }
}
