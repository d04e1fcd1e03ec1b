//! The tokens of a line.
ghost use Rattle.std.specs.Prelude.{◌≤◌, ◌<◌, length, IfOk, IfSome};

use crate::name::Name;
use crate::number::{Spelling, number_of};
use crate::refusal::{Reason, Stop};
use std::alloc::Global;

/// A character with a meaning of its own.
#[derive(Clone, Copy, PartialEq, Eq)]
pub enum Mark {
    Comma,
    Colon,
    Plus,
    Minus,
    Star,
    Slash,
    Open,
    Close,
    OpenBracket,
    CloseBracket,
    Less,
    Greater,
    Equals,
    Here,
    Unknown,
    Dot,
    Other,
}

/// A token of a line.
#[derive(Clone, Copy)]
pub enum Token<'a> {
    Word(Name),
    /// A number, and how it is spelled.
    Number(i64, Spelling),
    /// What stands between quotes, in which a quote stands twice, and the quote.
    Text(&'a [u8], u8),
    Mark(Mark),
}

impl<'a> Token<'a> {
    /// The word that the token is.
    pub fn word(&self) -> Option<Name> {
        match self {
            Token::Word(name) => Some(*name),
            _ => None,
        }
    }

    /// Whether the token is this word, which is given in upper case.
    pub fn is_word(&self, word: &[u8]) -> bool {
        match self {
            Token::Word(name) => name.is(word),
            _ => false,
        }
    }

    /// Whether the token is this mark.
    pub fn is_mark(&self, mark: Mark) -> bool {
        match self {
            Token::Mark(found) => *found == mark,
            _ => false,
        }
    }
}

/// How many tokens a line has room for at first.
const USUAL_LENGTH: usize = 12;

/// The tokens of a line, which has no comment.
pub fn tokens_of<'a>(alloc: Global, line: &'a [u8]) -> Result<Vec<Token<'a>>, Stop> {
    let mut tokens = Vec::with_capacity(alloc, USUAL_LENGTH)?;
    let mut rest = after_blanks(line);
    // a directive as .DATA; elsewhere a dot stands before a field
    if let [b'.', ..] = rest {
        let (word, after) = rest.split_at(word_length(rest));
        tokens.push(word_token(b'.', word)?)?;
        rest = after;
    }
    while let Some((token, after)) = next_token(rest)? {
        tokens.push(token)?;
        rest = after;
    }
    Ok(tokens)
}

/// The first token of a text, and what follows it; `None` if only blanks are left.
fn next_token(text: &[u8]) -> Result<Option<(Token<'_>, &[u8])>, Stop>
    ensures { IfOk result (λ found. IfSome found (λ p. length p.1.now < length text.now)) }
{
    let text = after_blanks(text);
    match text {
        [] => Ok(None),
        [quote @ (b'\'' | b'"'), rest @ ..] => {
            let (inner, after) = rest.split_at(text_length(rest, *quote));
            match after {
                [] => Err(Stop::Refused(Reason::OpenText)),
                [_, after @ ..] => Ok(Some((Token::Text(inner, *quote), after))),
            }
        }
        [first, ..] if continues_word(*first) => {
            let (word, after) = text.split_at(word_length(text));
            Ok(Some((word_token(*first, word)?, after)))
        }
        [first, after @ ..] => Ok(Some((Token::Mark(mark_of(*first)?), after))),
    }
}

/// What a word, which begins with `first`, is as a token.
fn word_token<'a>(first: u8, word: &'a [u8]) -> Result<Token<'a>, Stop> {
    match word {
        b"$" => Ok(Token::Mark(Mark::Here)),
        b"?" => Ok(Token::Mark(Mark::Unknown)),
        _ if first.is_ascii_digit() => {
            let (number, spelling) = number_of(word).ok_or(Reason::BadNumber)?;
            Ok(Token::Number(number, spelling))
        }
        _ => Ok(Token::Word(Name::of(word).ok_or(Reason::LongName)?)),
    }
}

/// What a character is as a mark.
fn mark_of(byte: u8) -> Result<Mark, Stop> {
    match byte {
        b',' => Ok(Mark::Comma),
        b':' => Ok(Mark::Colon),
        b'+' => Ok(Mark::Plus),
        b'-' => Ok(Mark::Minus),
        b'*' => Ok(Mark::Star),
        b'/' => Ok(Mark::Slash),
        b'(' => Ok(Mark::Open),
        b')' => Ok(Mark::Close),
        b'[' => Ok(Mark::OpenBracket),
        b']' => Ok(Mark::CloseBracket),
        b'<' | b'{' => Ok(Mark::Less),
        b'>' | b'}' => Ok(Mark::Greater),
        b'=' => Ok(Mark::Equals),
        b'.' => Ok(Mark::Dot),
        b'!'..=b'~' => Ok(Mark::Other),
        _ => Err(Stop::Refused(Reason::BadCharacter)),
    }
}

/// A text without the blanks at its front.
pub fn after_blanks(text: &[u8]) -> &[u8]
    ensures { length result.now ≤ length text.now }
{
    let mut rest = text;
    while let [b' ' | b'\t' | b'\r' | 0x1A | 0x0C, after @ ..] = rest {
        rest = after;
    }
    rest
}

/// Whether the character begins a word or a number.
pub fn begins_word(byte: u8) -> bool {
    continues_word(byte) || byte == b'.'
}

/// Whether the character goes on with a word or a number.
pub fn continues_word(byte: u8) -> bool {
    byte.is_ascii_alphanumeric() || matches!(byte, b'_' | b'@' | b'?' | b'$')
}

/// How many characters of the text its first one and those that go on with a word are.
pub fn word_length(text: &[u8]) -> usize
    requires { 0 < length text.now }
    ensures some { 0 < result }
    ensures within { result ≤ length text.now }
{
    let rest = &text[1..];
    match rest.iter().position(|byte| !continues_word(*byte)) {
        Some(place) => place + 1,
        None => text.len(),
    }
}

/// How many characters stand before the quote that ends a text; all if none does.
pub fn text_length(text: &[u8], quote: u8) -> usize
    ensures { result ≤ length text.now }
{
    let mut length = 0;
    let mut rest = text;
    while let [first, after @ ..] = rest {
        if *first != quote {
            length += 1;
            rest = after;
        } else if let [_, second, after @ ..] = rest
            && *second == quote
        {
            length += 2;
            rest = after;
        } else {
            break;
        }
    }
    length
}
