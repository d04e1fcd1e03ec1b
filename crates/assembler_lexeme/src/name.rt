//! Names of labels, constants and segments.
ghost use Rattle.std.specs.Prelude.{◌≡◌, ◌≤◌, length};
ghost use Rattle.assembler_lexeme.specs.Tokens.{name_of};

/// A name in upper case, filled up with zeros to 31 characters.
#[derive(Clone, Copy, PartialEq, Eq, Hash)]
pub struct Name {
    pub letters: [u8; 31],
}

/// Makes a name of a word that isn't one of the dialect's, of at most 31 characters: in upper case, so that names that
/// differ only in case are equal, and filled up with zeros.
pub(crate) fn name_of(word: &[u8]) -> Name
    requires { length word.now ≤ 31 }
    ensures { result ≡ name_of word.now }
{
    let mut letters = [0; 31];
    letters[..word.len()].copy_from_slice(word);
    letters[..word.len()].make_ascii_uppercase();
    Name { letters }
}
