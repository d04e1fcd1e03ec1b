//! Numbers and flags that several lines of text have.
ghost use Rattle.std.specs.Prelude.{◌≡◌, ◌≤◌, Some, if◌then◌else◌};
ghost use Rattle.board_types.specs.LineLevel.{is_high};
ghost use Rattle.pit8253.specs.PitNumbers.{flag_of, line_of};
ghost use Rattle.pit8253.specs.Program.{radix_number, radix_of};
ghost use Rattle.probe_texts.specs.Shown.{byte_or_none, word_or_none};

use board_types::digits::{HexByte, HexWord};
use std::fmt;

/// A byte that may be missing, such as the keyboard's latch, as the lines of `chips` show it: two hexadecimal digits,
/// or `none`.
#[derive(Clone, Copy)]
pub(crate) struct ByteOrNone(pub(crate) Option<u8>);

impl fmt::Display for ByteOrNone {
    ghost output = { λ b. Some (byte_or_none b.0) };

    /// Writes the byte in two hexadecimal digits, or `none`.
    fn fmt<W: fmt::Write>(&self, f: &mut fmt::Formatter<W>) -> fmt::Result {
        match self.0 {
            None => f.write_str("none"),
            Some(byte) => {
                let byte = HexByte(byte);
                write!(f, "{byte}")
            }
        }
    }
}

/// A word that may be missing, such as a counter's latch, as the lines of `chips` show it: four hexadecimal digits, or
/// `none`.
#[derive(Clone, Copy)]
pub(crate) struct WordOrNone(pub(crate) Option<u16>);

impl fmt::Display for WordOrNone {
    ghost output = { λ w. Some (word_or_none w.0) };

    /// Writes the word in four hexadecimal digits, or `none`.
    fn fmt<W: fmt::Write>(&self, f: &mut fmt::Formatter<W>) -> fmt::Result {
        match self.0 {
            None => f.write_str("none"),
            Some(word) => {
                let word = HexWord(word);
                write!(f, "{word}")
            }
        }
    }
}

/// Shows a yes as 1 and a no as 0, as flags and levels stand in the answers to inquiries.
pub(crate) fn digit(yes: bool) -> u8
    ensures digit { result ≡ (if yes then 1 else 0) }
    ensures bound { result ≤ 1 }
{
    if yes { 1 } else { 0 }
}

/// Shows a flag of a chip's image, 0 or another number, as 0 or 1, in the lines of `chips`: a yes, a high level or the
/// decimal radix as 1.
pub(crate) fn flag_digit(flag: u8) -> u8
    ensures digit { result ≡ (if flag_of flag then 1 else 0) }
    ensures level { result ≡ (if is_high (line_of flag) then 1 else 0) }
    ensures radix { result ≡ radix_number (radix_of flag) }
    ensures bound { result ≤ 1 }
{
    digit(flag != 0)
}
