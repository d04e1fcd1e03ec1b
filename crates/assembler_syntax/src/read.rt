//! Reading a line.
ghost use Rattle.std.specs.Prelude.{◌≡◌, ◌∷◌};
ghost use Rattle.std.specs.List.{list_all};
ghost use Rattle.assembler_lexeme.specs.Lexemes.{is_character};
ghost use Rattle.assembler_lexeme.specs.Faults.{Gives};
ghost use Rattle.assembler_syntax.specs.LineSteps.{labelled, line_of, with_label};
ghost use Rattle.assembler_syntax.specs.Lines.{read_line};

mod expression;
mod item;
mod operand;
mod statement;

use crate::statement::Line;
use assembler_lexeme::fault::{SyntaxError, SyntaxFault};
use assembler_lexeme::lexeme::is_character;
use assembler_lexeme::name::Name;
use assembler_lexeme::token::{Punctuator, Token, read_tokens};
use statement::read_statement;
use std::alloc::Global;

/// Reads a line of a source by itself, for the assembler's first pass: its label and statement, or why it is no line of
/// the dialect. A fault of its characters comes before one of its words, and that before one of its grammar.
#[tactic(auto, using(crate::proofs::Alike::text_alike), unfolding(crate::specs::LineSteps::read_line))]
pub fn read_line(alloc: Global, text: &[u8]) -> Result<Line, SyntaxError>
    ensures { Gives result (read_line text.now) }
{
    if !are_characters(text) {
        return Err(SyntaxError::Fault(SyntaxFault::BadCharacter));
    }
    let tokens = read_tokens(alloc, text)?;
    labelled_line(alloc, tokens.as_slice())
}

/// Whether a line has only characters of the dialect, printable ASCII and tabs; judged before the line is split into
/// tokens.
fn are_characters(text: &[u8]) -> bool
    ensures { result ≡ list_all is_character text.now }
{
    text.iter().all(|byte| is_character(*byte))
}

/// Reads the tokens of a line: a label, if the first two tokens are one, and the statement after it.
#[tactic(auto, unfolding(crate::specs::LineSteps::line_of))]
fn labelled_line(alloc: Global, tokens: &[Token]) -> Result<Line, SyntaxError>
    ensures { Gives result (line_of tokens.now) }
{
    match tokens {
        [first, second, rest @ ..] => labelled(alloc, first, second, rest, tokens),
        _ => line_with(alloc, None, tokens),
    }
}

/// Reads a line of two tokens or more, `tokens`, which are `first`, `second` and `rest`: with a label if the two are a
/// name and a colon, else all of it as a statement.
fn labelled(
    alloc: Global,
    first: &Token,
    second: &Token,
    rest: &[Token],
    tokens: &[Token],
) -> Result<Line, SyntaxError>
    requires { tokens.now ≡ first.now ∷ second.now ∷ rest.now }
    ensures { Gives result (labelled first.now second.now rest.now) }
{
    match (first, second) {
        (Token::Named(label), Token::Punctuator(Punctuator::Colon)) => line_with(
            alloc,
            Some(*label),
            rest,
        ),
        _ => line_with(alloc, None, tokens),
    }
}

/// Reads the tokens after a line's label as its statement, and puts the two together.
fn line_with(alloc: Global, label: Option<Name>, tokens: &[Token]) -> Result<Line, SyntaxError>
    ensures { Gives result (with_label label tokens.now) }
{
    let statement = read_statement(alloc, tokens)?;
    Ok(Line { label, statement })
}
