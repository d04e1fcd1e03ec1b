//! Names and words of a source.
use dialect::meaning::meaning_of;

/// A word of at most 31 characters in upper case, by which tables have a name.
#[derive(Clone, Copy, PartialEq, Eq, PartialOrd, Ord)]
pub struct Key {
    letters: [u8; 31],
}

/// A word of at most 31 characters, filled up with zeros.
#[derive(Clone, Copy)]
pub struct Name {
    /// In upper case.
    letters: [u8; 31],
    /// As the user has spelled them.
    spelled: [u8; 31],
    /// How many characters it has.
    length: u8,
}

impl Name {
    /// The word; `None` if it has more than 31 characters.
    pub fn of(word: &[u8]) -> Option<Name> {
        if word.len() > 31 {
            return None;
        }
        let mut spelled = [0; 31];
        spelled[..word.len()].copy_from_slice(word);
        let mut letters = spelled;
        letters[..word.len()].make_ascii_uppercase();
        Some(Name {
            letters,
            spelled,
            length: word.len() as u8,
        })
    }

    /// The characters, in upper case.
    pub fn text(&self) -> &[u8] {
        self.front(&self.letters)
    }

    /// The characters as the user has spelled them.
    pub fn spelling(&self) -> &[u8] {
        self.front(&self.spelled)
    }

    /// As many characters as the word has.
    fn front<'a>(&self, letters: &'a [u8; 31]) -> &'a [u8] {
        &letters[..(self.length as usize).min(31)]
    }

    /// The key by which tables have it, however it is spelled.
    pub fn key(&self) -> Key {
        Key {
            letters: self.letters,
        }
    }

    /// Whether the word is this one, which is given in upper case.
    pub fn is(&self, word: &[u8]) -> bool {
        self.text() == word
    }

    /// The name by which the translation calls it: itself, if the dialect takes it, else `M_` and its letters and
    /// digits, with `_` and two letters from A to P, the halves of its code, for any other character. `None` if that
    /// would be too long.
    pub fn written(&self) -> Option<Name> {
        let text = self.text();
        let is_plain = text.iter().all(|byte| is_plain(*byte)) && !text.starts_with(b"M_");
        if is_plain && meaning_of(text).is_none() {
            return Some(*self);
        }
        let mut letters = [0; 31];
        letters[0] = b'M';
        letters[1] = b'_';
        let mut length = 2;
        for byte in self.spelling() {
            if byte.is_ascii_alphanumeric() {
                *letters.get_mut(length)? = *byte;
                length += 1;
            } else {
                *letters.get_mut(length)? = b'_';
                *letters.get_mut(length + 1)? = b'A' + (*byte >> 4);
                *letters.get_mut(length + 2)? = b'A' + (*byte & 15);
                length += 3;
            }
        }
        Name::of(letters.get(..length)?)
    }
}

/// Whether the dialect takes the character in a name.
fn is_plain(byte: u8) -> bool {
    byte.is_ascii_alphanumeric() || byte == b'_'
}
