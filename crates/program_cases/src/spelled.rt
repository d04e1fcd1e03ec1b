//! The bytes that a case's text stands for. `|` is a line feed, `\HH` the byte of these two hexadecimal digits in upper
//! case, `\_HH` is HH blanks; every other byte is itself.

/// What is left of a text.
#[derive(Clone, Copy)]
pub struct Spelled<'a> {
    /// The blanks that come first.
    blanks: u8,
    rest: &'a [u8],
}

impl<'a> Spelled<'a> {
    /// The whole of a case's text, to be spelled out byte by byte.
    pub fn new(text: &'a str) -> Self {
        Spelled {
            blanks: 0,
            rest: text.as_bytes(),
        }
    }

    /// Takes the next byte that a case's text stands for, with `|`, `\HH` and `\_HH` spelled out; `None` at the end.
    pub fn next_byte(&mut self) -> Option<u8> {
        if self.blanks > 0 {
            self.blanks -= 1;
            return Some(b' ');
        }
        match self.rest {
            [] => None,
            [b'|', after @ ..] => {
                self.rest = after;
                Some(b'\n')
            }
            [b'\\', b'_', high, low, after @ ..] => {
                self.rest = after;
                self.blanks = number(*high, *low).saturating_sub(1);
                Some(b' ')
            }
            [b'\\', high, low, after @ ..] => {
                self.rest = after;
                Some(number(*high, *low))
            }
            [first, after @ ..] => {
                self.rest = after;
                Some(*first)
            }
        }
    }
}

/// The number of the two hexadecimal digits in `\HH` or `\_HH`.
fn number(high: u8, low: u8) -> u8 {
    digit(high) << 4 | digit(low)
}

/// The value of a hexadecimal digit in upper case; 0 for any other byte.
fn digit(byte: u8) -> u8 {
    match byte {
        b'0'..=b'9' => byte - b'0',
        b'A'..=b'F' => byte - b'A' + 10,
        _ => 0,
    }
}
