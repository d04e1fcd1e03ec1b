//! The lexemes of a line.
ghost use Rattle.std.specs.Prelude.{false, ◌≡◌, ◌<◌, ◌≤◌, [], ◌∷◌, length, IfSome, IfNone};
ghost use Rattle.assembler_lexeme.specs.Lexemes.{is_blank, is_character, is_digit, is_letter, is_word_byte, lexemes, text_size, word_size};
ghost use Rattle.board_types.specs.TextLines.{begins_with};

/// Whether a line of a source may have the character, which is printable ASCII or a tab; for any other the line is
/// refused as `BadCharacter`.
pub fn is_character(byte: u8) -> bool
    ensures { result ≡ is_character byte }
{
    matches!(byte, 0x20..=0x7E | b'\t')
}

/// Whether the character may begin a name or a word of the dialect: a letter or `_`.
fn is_letter(byte: u8) -> bool
    ensures { result ≡ is_letter byte }
{
    matches!(byte, b'A'..=b'Z' | b'a'..=b'z' | b'_')
}

/// Whether the character is a decimal digit, with which each number begins.
fn is_digit(byte: u8) -> bool
    ensures { result ≡ is_digit byte }
{
    matches!(byte, b'0'..=b'9')
}

/// Whether the character may stand in a word, name or number: a letter, `_` or a digit. A lexeme that begins with one
/// goes on as long as they follow.
fn is_word_byte(byte: u8) -> bool
    ensures { result ≡ is_word_byte byte }
{
    is_letter(byte) || is_digit(byte)
}

/// Whether the lexeme is to be read as a word or name, rather than as a number, a text or a punctuator.
pub(crate) fn begins_with_letter(lexeme: &[u8]) -> bool
    ensures { result ≡ begins_with is_letter lexeme.now }
{
    match lexeme {
        [] => false,
        [first, ..] => is_letter(*first),
    }
}

/// Whether the lexeme is to be read as a number: also hexadecimal ones begin with a decimal digit.
pub(crate) fn begins_with_digit(lexeme: &[u8]) -> bool
    ensures { result ≡ begins_with is_digit lexeme.now }
{
    match lexeme {
        [] => false,
        [first, ..] => is_digit(*first),
    }
}

/// Whether the character only separates lexemes: a space or a tab.
fn is_blank(byte: u8) -> bool
    ensures { result ≡ is_blank byte }
{
    matches!(byte, b' ' | b'\t')
}

/// A line's text without the blanks at its front, so that its next lexeme or its comment comes first; empty if there is
/// neither.
#[tactic(auto, unfolding(crate::specs::Lexemes::lexemes))]
fn skip_blanks(text: &[u8]) -> &[u8]
    ensures same { lexemes result.now ≡ lexemes text.now }
    ensures shorter { length result.now ≤ length text.now }
    ensures begun { begins_with is_blank result.now ≡ false }
{
    let mut rest = text;
    while let [first, after @ ..] = rest {
        if !is_blank(*first) {
            break;
        }
        rest = after;
    }
    rest
}

/// Splits off a line's first lexeme, which the reader of tokens makes a token of: a word, a quoted text or a single
/// character. Gives the lexeme and the rest; `None` if only blanks and a comment are left.
#[tactic(auto, using(crate::proofs::Scanning::word_split, crate::proofs::Scanning::text_split), unfolding(crate::specs::Lexemes::lexemes))]
pub(crate) fn next_lexeme(text: &[u8]) -> Option<(&[u8], &[u8])>
    ensures some { IfSome result (λ p. lexemes text.now ≡ p.0.now ∷ lexemes p.1.now) }
    ensures shorter { IfSome result (λ p. length p.1.now < length text.now) }
    ensures none { IfNone result (lexemes text.now ≡ []) }
{
    let text = skip_blanks(text);
    match text {
        [] | [b';', ..] => None,
        [b'\'', rest @ ..] => Some(text.split_at(1 + text_length(rest))),
        [first, rest @ ..] if is_word_byte(*first) => Some(text.split_at(1 + word_length(rest))),
        _ => Some(text.split_at(1)),
    }
}

/// How many bytes a quoted text takes after its first quote, its last quote included; all of the line if that quote is
/// missing, which is then refused as a token.
fn text_length(text: &[u8]) -> usize
    ensures size { result ≡ text_size text.now }
    ensures within { result ≤ length text.now }
{
    let mut length = 0;
    let mut rest = text;
    while let [first, after @ ..] = rest {
        length += 1;
        if *first == b'\'' {
            break;
        }
        rest = after;
    }
    length
}

/// How many letters, digits and `_` stand at the front: the rest of the word or number whose first character came just
/// before, for splitting off its lexeme.
fn word_length(text: &[u8]) -> usize
    ensures size { result ≡ word_size text.now }
    ensures within { result ≤ length text.now }
{
    let mut length = 0;
    let mut rest = text;
    while let [first, after @ ..] = rest {
        if !is_word_byte(*first) {
            break;
        }
        length += 1;
        rest = after;
    }
    length
}
