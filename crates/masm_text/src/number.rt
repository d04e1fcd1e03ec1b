//! Numbers as they are spelled.
use board_types::digits::digit_of;

/// How a number is spelled, with how many digits it has at least.
#[derive(Clone, Copy)]
pub enum Spelling {
    Decimal,
    Hexadecimal(u8),
    Binary(u8),
    /// As a character between quotes.
    Character,
}

/// The number that the word spells, with the letter that tells its base, and how; `None` if it spells none of 63 bits.
pub fn number_of(word: &[u8]) -> Option<(i64, Spelling)> {
    let (base, digits) = match word {
        [digits @ .., b'h' | b'H'] => (16, digits),
        [b'0', b'x' | b'X', digits @ ..] => (16, digits),
        [digits @ .., b'b' | b'B' | b'y' | b'Y'] => (2, digits),
        [digits @ .., b'o' | b'O' | b'q' | b'Q'] => (8, digits),
        [digits @ .., b'd' | b'D' | b't' | b'T'] => (10, digits),
        digits => (10, digits),
    };
    // a number is written with no more than 32 digits
    let count = digits.len().min(32) as u8;
    let spelling = match base {
        16 => Spelling::Hexadecimal(count),
        2 => Spelling::Binary(count),
        _ => Spelling::Decimal,
    };
    Some((number_to(base, digits)?, spelling))
}

/// The number that the digits spell to this base.
fn number_to(base: u8, digits: &[u8]) -> Option<i64> {
    if digits.is_empty() {
        return None;
    }
    let mut number = 0i64;
    for byte in digits {
        let digit = digit_of(*byte);
        if digit >= base {
            return None;
        }
        number = number.checked_mul(base as i64)?.checked_add(digit as i64)?;
    }
    Some(number)
}
