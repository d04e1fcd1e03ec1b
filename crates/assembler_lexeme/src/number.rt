//! Numbers as they are spelled.
ghost use Rattle.std.specs.Prelude.{◌≡◌, ◌≤◌, ◌<◌};
ghost use Rattle.assembler_lexeme.specs.Numbers.{number_of, number_to};

use board_types::digits::digit_of;

/// The number that the digits spell to a base of 2, 10 or 16, without the letter that tells the base. `None` if one is
/// no digit to that base, or the number has more than 32 bits.
#[tactic(auto, unfolding(crate::specs::Numbers::number_to))]
fn number_to(base: u8, digits: &[u8]) -> Option<u32>
    requires low { 0 < base }
    requires high { base ≤ 16 }
    ensures { result ≡ number_to base digits.now }
{
    let mut number = 0u32;
    for byte in digits {
        let digit = digit_of(*byte);
        if digit >= base {
            return None;
        }
        let longer = number as u64 * base as u64 + digit as u64;
        if longer > u32::MAX as u64 {
            return None;
        }
        number = longer as u32;
    }
    Some(number)
}

/// The number that a word of a source spells: hexadecimal with an H at its end, binary with a B, else decimal. `None`
/// if it spells no number of at most 32 bits, so that the word is no token.
#[tactic(auto, unfolding(crate::specs::Numbers::number_of))]
pub(crate) fn number_of(word: &[u8]) -> Option<u32>
    ensures { result ≡ number_of word.now }
{
    match word {
        [digits @ .., b'H' | b'h'] => number_to(16, digits),
        [digits @ .., b'B' | b'b'] => number_to(2, digits),
        _ => number_to(10, word),
    }
}
