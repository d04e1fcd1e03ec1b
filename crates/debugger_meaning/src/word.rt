//! The words of a line, and the numbers that words spell.
ghost use Rattle.std.specs.Prelude.{◌≡◌, ◌≤◌, ◌<◌, ◌^◌, ◌∷◌, [], length, true, IfSome, IfNone};
ghost use Rattle.board_types.specs.Digits.{spelled};
ghost use Rattle.debugger_meaning.specs.CommandWords.{at_most_greatest, begins_word, count_of, hex_number, words_of};

use board_types::digits::digit_of;
use board_types::text::length_before;

/// Returns the rest of a line from its first word on, without the spaces before it, for `next_word`.
#[tactic(auto, unfolding(crate::specs::CommandWords::words_of))]
fn skip_spaces(line: &[u8]) -> &[u8]
    ensures same { words_of result.now ≡ words_of line.now }
    ensures begun { 0 < length result.now → begins_word result.now ≡ true }
{
    let mut rest = line;
    while let [b' ', after @ ..] = rest {
        rest = after;
    }
    rest
}

/// Splits a line into its first word and what follows it, for the readers of commands and inquiries. `None` if only
/// spaces are left.
#[tactic(auto, unfolding(crate::specs::CommandWords::words_of))]
pub fn next_word(line: &[u8]) -> Option<(&[u8], &[u8])>
    ensures some { IfSome result (λ p. words_of line.now ≡ p.0.now ∷ words_of p.1.now) }
    ensures none { IfNone result (words_of line.now ≡ []) }
{
    let line = skip_spaces(line);
    match line {
        [] => None,
        [_, rest @ ..] => Some(line.split_at(1 + length_before(b' ', rest))),
    }
}

/// Returns the number that digits to a base of 1 to 16 spell, for a command's numbers: 2^64 - 1 if it is larger, 0
/// without digits; `None` if one of them is no digit to that base.
fn number_to(base: u8, digits: &[u8]) -> Option<u64>
    requires low { 1 ≤ base }
    requires high { base ≤ 16 }
    ensures { result ≡ at_most_greatest (spelled base 0 digits.now) }
{
    let mut number = 0u64;
    for byte in digits {
        let digit = digit_of(*byte);
        if digit >= base {
            return None;
        }
        number = number
            .saturating_mul(u64::from(base))
            .saturating_add(u64::from(digit));
    }
    Some(number)
}

/// Returns the number that a word of 1 to `most` hexadecimal digits spells, for the segments, offsets, addresses and
/// bytes of a command; `None` for any other word.
#[tactic(auto, unfolding(crate::specs::CommandWords::hex_number))]
pub fn hex_number(most: usize, word: &[u8]) -> Option<u32>
    requires { most ≤ 5 }
    ensures value { result ≡ hex_number most word.now }
    ensures bound { IfSome result (λ number. number < 16 ^ most) }
{
    if word.is_empty() || word.len() > most {
        return None;
    }
    let number = number_to(16, word)?;
    Some(number as u32)
}

/// Returns the number that a word of decimal digits spells, such as the clocks of `go`, 2^64 - 1 if it is larger;
/// `None` for any other word.
#[tactic(auto, unfolding(crate::specs::CommandWords::count_of))]
pub fn count_of(word: &[u8]) -> Option<u64>
    ensures { result ≡ count_of word.now }
{
    if word.is_empty() {
        return None;
    }
    number_to(10, word)
}
