//! Digits: what they are worth, and bytes and words as hexadecimal digits.
ghost use Rattle.std.specs.Prelude.{◌≡◌, Some};
ghost use Rattle.board_types.specs.Digits.{digit_of, hex_byte_text, hex_word};

use std::fmt;

/// The value of a digit in a source or a debugger's command: 0 to 9, or 10 to 15 for a letter from A to F in either
/// case; 255 for any other byte, which is no digit in any base.
pub fn digit_of(byte: u8) -> u8
    ensures { result ≡ digit_of byte }
{
    match byte {
        b'0'..=b'9' => byte - b'0',
        b'A'..=b'F' => byte - b'A' + 10,
        b'a'..=b'f' => byte - b'a' + 10,
        _ => 255,
    }
}

/// A byte that texts for the user show as two hexadecimal digits, in upper case.
#[derive(Clone, Copy)]
pub struct HexByte(pub u8);

impl fmt::Display for HexByte {
    ghost output = { λ b. Some (hex_byte_text b.0) };

    /// Writes the byte as two hexadecimal digits, as texts for the user show it.
    #[tactic(auto, using(std::proofs::lemmas::Fmt::hex_byte))]
    fn fmt<W: fmt::Write>(&self, f: &mut fmt::Formatter<W>) -> fmt::Result {
        let byte = self.0;
        write!(f, "{byte:02X}")
    }
}

/// A word that texts for the user show as four hexadecimal digits, in upper case.
#[derive(Clone, Copy)]
pub struct HexWord(pub u16);

impl fmt::Display for HexWord {
    ghost output = { λ w. Some (hex_word w.0) };

    /// Writes the word as four hexadecimal digits, high byte first, as texts for the user show it.
    #[tactic(auto, using(std::proofs::lemmas::Fmt::hex_byte))]
    fn fmt<W: fmt::Write>(&self, f: &mut fmt::Formatter<W>) -> fmt::Result {
        let high = (self.0 / 256) as u8;
        let low = (self.0 % 256) as u8;
        write!(f, "{high:02X}{low:02X}")
    }
}
