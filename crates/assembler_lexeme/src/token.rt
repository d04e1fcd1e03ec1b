//! The tokens of a line.
ghost use Rattle.std.specs.Prelude.{◌≡◌, ◌==◌};
ghost use Rattle.assembler_lexeme.specs.Lexemes.{lexemes};
ghost use Rattle.board_types.specs.TextLines.{begins_with};
ghost use Rattle.assembler_lexeme.specs.Faults.{Gives};
ghost use Rattle.assembler_lexeme.specs.Tokens.{punctuator_of, punctuator_token, number_token, quoted_token, text_token, token_of, tokens_of, word_token};

use crate::fault::{SyntaxError, SyntaxFault};
use crate::lexeme::{begins_with_digit, begins_with_letter, next_lexeme};
use crate::name::{Name, name_of};
use crate::number::number_of;
use crate::sequence::Sequence;
use dialect::meaning::{Meaning, meaning_of};
use std::alloc::Global;
use std::marker::Model;

/// A character of a source that is a token by itself.
#[derive(Clone, Copy)]
pub enum Punctuator {
    Comma,
    Colon,
    Plus,
    Minus,
    OpenBracket,
    CloseBracket,
    OpenParenthesis,
    CloseParenthesis,
    Dollar,
}

/// The characters of a quoted text. Contracts see them as a list.
#[derive(Drop)]
pub struct Characters<'a> {
    text: &'a [u8],
}

impl<'a> Model for Characters<'a> {
    ghost use Rattle.std.specs.Prelude.{ℕ, List};

    ghost Value = { List ℕ };

    ghost view = { λ c. c.text.now };
}

impl<'a> Characters<'a> {
    /// The characters of a quoted text without its quotes, for the reader of DB lines to copy.
    pub fn as_slice(&self) -> &'a [u8]
        ensures { result.now ≡ self.now }
    {
        self.text
    }
}

/// A token of a line.
#[derive(Drop)]
pub enum Token<'a> {
    /// The number 1, written `1`.
    One,
    /// Any other number, or the code of a quoted character.
    Number(u32),
    Named(Name),
    /// A quoted text of two or more characters.
    Quoted(Characters<'a>),
    /// A word of the dialect.
    Word(Meaning),
    Punctuator(Punctuator),
}

/// Splits a line of a source into its tokens, from which its label and statement are read. `BadLine` if a lexeme is no
/// token, `Memory` if there is no room for the list.
#[tactic(auto, unfolding(crate::specs::Tokens::tokens_of))]
pub fn read_tokens<'a>(alloc: Global, text: &'a [u8]) -> Result<Sequence<Token<'a>>, SyntaxError>
    ensures { Gives result (tokens_of (lexemes text.now)) }
{
    let mut tokens = Sequence::new(alloc);
    let mut rest = text;
    while let Some((lexeme, after)) = next_lexeme(rest) {
        let Some(token) = token_of(lexeme) else {
            return Err(SyntaxError::Fault(SyntaxFault::BadLine));
        };
        tokens.push(token)?;
        rest = after;
    }
    Ok(tokens)
}

/// The token that a lexeme, a piece of a line's text, spells; the first character decides of what kind. `None` if it
/// spells none, which makes the line a bad one.
#[tactic(auto, unfolding(crate::specs::Tokens::token_of))]
fn token_of(lexeme: &[u8]) -> Option<Token<'_>>
    ensures { result ≡ token_of lexeme.now }
{
    if begins_with_letter(lexeme) {
        word_token(lexeme)
    } else if begins_with_digit(lexeme) {
        number_token(lexeme)
    } else if begins_with_quote(lexeme) {
        quoted_token(lexeme)
    } else {
        punctuator_token(lexeme)
    }
}

/// The token of a lexeme that begins with a letter: a word of the dialect (mnemonic, register, keyword), or else the
/// name of a label, constant or segment. `None` if it has more than 31 characters.
#[tactic(auto, unfolding(crate::specs::Tokens::word_token))]
fn word_token(word: &[u8]) -> Option<Token<'_>>
    ensures { result ≡ word_token word.now }
{
    if word.len() > 31 {
        return None;
    }
    match meaning_of(word) {
        Some(meaning) => Some(Token::Word(meaning)),
        None => Some(Token::Named(name_of(word))),
    }
}

/// The token of a lexeme that begins with a digit. `1` has one of its own, since only so written is it the count of a
/// shift by one. `None` if the digits spell no number of 32 bits.
#[tactic(auto, unfolding(crate::specs::Tokens::number_token))]
fn number_token(word: &[u8]) -> Option<Token<'_>>
    ensures { result ≡ number_token word.now }
{
    if word == b"1".as_slice() {
        Some(Token::One)
    } else {
        Some(Token::Number(number_of(word)?))
    }
}

/// Whether the lexeme is to be read as a quoted text, which begins with `'`.
fn begins_with_quote(lexeme: &[u8]) -> bool
    ensures { result ≡ begins_with (λ b. b == 39) lexeme.now }
{
    match lexeme {
        [] => false,
        [first, ..] => *first == b'\'',
    }
}

/// The token of a lexeme that begins with a quote. `None` if the closing quote is missing, or nothing stands between
/// the quotes.
#[tactic(auto, unfolding(crate::specs::Tokens::quoted_token))]
fn quoted_token(lexeme: &[u8]) -> Option<Token<'_>>
    ensures { result ≡ quoted_token lexeme.now }
{
    match lexeme {
        [_, text @ .., b'\''] if !text.is_empty() => Some(text_token(text)),
        _ => None,
    }
}

/// The token of the characters between two quotes: a single one is a number, its ASCII code; more are a text, which
/// only DB takes.
fn text_token(text: &[u8]) -> Token<'_>
    ensures { result ≡ text_token text.now }
{
    match text {
        [character] => Token::Number(u32::from(*character)),
        _ => Token::Quoted(Characters { text }),
    }
}

/// The token of a lexeme that is no word, number or quoted text: a punctuator such as `,` or `[`. `None` for any other
/// character.
fn punctuator_token(lexeme: &[u8]) -> Option<Token<'_>>
    ensures { result ≡ punctuator_token lexeme.now }
{
    match lexeme {
        [byte] => Some(Token::Punctuator(punctuator_of(*byte)?)),
        _ => None,
    }
}

/// The punctuator that a character of a source is; `None` if the dialect doesn't use the character so.
fn punctuator_of(byte: u8) -> Option<Punctuator>
    ensures { result ≡ punctuator_of byte }
{
    match byte {
        b',' => Some(Punctuator::Comma),
        b':' => Some(Punctuator::Colon),
        b'+' => Some(Punctuator::Plus),
        b'-' => Some(Punctuator::Minus),
        b'[' => Some(Punctuator::OpenBracket),
        b']' => Some(Punctuator::CloseBracket),
        b'(' => Some(Punctuator::OpenParenthesis),
        b')' => Some(Punctuator::CloseParenthesis),
        b'$' => Some(Punctuator::Dollar),
        _ => None,
    }
}
