//! Reading the items of data lines.
ghost use Rattle.std.specs.Prelude.{◌≡◌, [], ◌∷◌};
ghost use Rattle.assembler_lexeme.specs.Faults.{wanted, Gives};
ghost use Rattle.std.specs.Option.{option_map};
ghost use Rattle.assembler_syntax.specs.ItemSteps.{in_parentheses, item_of, items_of, once, piece_of, pieces_of, repeated, single_piece, value_piece};

use crate::part::{
    Parts, around, before_last, close_parenthesis_place, dup_place, is_open_parenthesis,
};
use crate::read::expression::{read_constant, read_expression};
use crate::statement::{DataWidth, Item, Piece};
use assembler_lexeme::fault::{SyntaxError, SyntaxFault};
use assembler_lexeme::sequence::Sequence;
use assembler_lexeme::token::Token;
use std::alloc::Global;

/// Reads what follows DB, DW or DD: one or more items with commas between them, numbers or texts that are placed once
/// or repeated by DUP.
#[tactic(auto, unfolding(crate::specs::ItemSteps::items_of))]
pub(crate) fn read_items(
    alloc: Global,
    width: DataWidth,
    tokens: &[Token],
) -> Result<Sequence<Item>, SyntaxError>
    ensures { Gives result (items_of width tokens.now) }
{
    let mut parts = Parts::of(tokens);
    let mut items = Sequence::new(alloc);
    while let Some(part) = parts.next() {
        let item = read_item(alloc, width, part)?;
        items.push(item)?;
    }
    Ok(items)
}

/// Reads an item of a data line: `count DUP (pieces)`, or a single piece.
#[tactic(auto, unfolding(crate::specs::ItemSteps::item_of))]
fn read_item(alloc: Global, width: DataWidth, tokens: &[Token]) -> Result<Item, SyntaxError>
    ensures { Gives result (item_of width tokens.now) }
{
    match around(tokens, dup_place(tokens)) {
        Some((count, body)) => read_repeated(alloc, width, count, body),
        None => Ok(Item::Once(read_piece(alloc, width, tokens)?)),
    }
}

/// Reads an item of a data line that DUP repeats, from the tokens before DUP, `count`, and those after it: a constant,
/// and pieces in parentheses.
#[tactic(auto, unfolding(crate::specs::ItemSteps::repeated))]
fn read_repeated(
    alloc: Global,
    width: DataWidth,
    count: &[Token],
    body: &[Token],
) -> Result<Item, SyntaxError>
    ensures { Gives result (repeated width count.now body.now) }
{
    let count = read_constant(alloc, count)?;
    let Some(inner) = in_parentheses(body) else {
        return Err(SyntaxError::Fault(SyntaxFault::BadLine));
    };
    let pieces = read_pieces(alloc, width, inner)?;
    Ok(Item::Repeated(count, pieces))
}

/// The tokens between the parentheses after DUP. `None` if no parenthesis opens, or the one that closes isn't the last
/// token.
fn in_parentheses<'a, 'b>(tokens: &'a [Token<'b>]) -> Option<&'a [Token<'b>]>
    ensures { wanted (option_map (λ p. p.now) result) ≡ in_parentheses tokens.now }
{
    match tokens {
        [first, rest @ ..] if is_open_parenthesis(first) => before_last(
            rest,
            close_parenthesis_place(rest),
        ),
        _ => None,
    }
}

/// Reads what DUP repeats: one or more pieces with commas between them.
#[tactic(auto, unfolding(crate::specs::ItemSteps::pieces_of))]
fn read_pieces(
    alloc: Global,
    width: DataWidth,
    tokens: &[Token],
) -> Result<Sequence<Piece>, SyntaxError>
    ensures { Gives result (pieces_of width tokens.now) }
{
    let mut parts = Parts::of(tokens);
    let mut pieces = Sequence::new(alloc);
    while let Some(part) = parts.next() {
        let piece = read_piece(alloc, width, part)?;
        pieces.push(piece)?;
    }
    Ok(pieces)
}

/// Reads a piece of a data line, a number or text that stands by itself or is repeated by DUP: an expression, or in DB
/// a quoted text.
#[tactic(auto, unfolding(crate::specs::ItemSteps::piece_of))]
fn read_piece(alloc: Global, width: DataWidth, tokens: &[Token]) -> Result<Piece, SyntaxError>
    ensures { Gives result (piece_of width tokens.now) }
{
    match tokens {
        [token] => single_piece(alloc, width, token, tokens),
        _ => value_piece(alloc, tokens),
    }
}

/// Reads a piece of a data line of one token, `tokens` being only `token`: in DB a quoted text, whose characters are
/// copied, else an expression.
fn single_piece(
    alloc: Global,
    width: DataWidth,
    token: &Token,
    tokens: &[Token],
) -> Result<Piece, SyntaxError>
    requires { tokens.now ≡ token.now ∷ [] }
    ensures { Gives result (single_piece width token.now) }
{
    match (width, token) {
        (DataWidth::Byte, Token::Quoted(text)) => {
            Ok(Piece::Text(Sequence::from_slice(alloc, text.as_slice())?))
        }
        _ => value_piece(alloc, tokens),
    }
}

/// Reads a piece of a data line that is a number, given by an expression.
fn value_piece(alloc: Global, tokens: &[Token]) -> Result<Piece, SyntaxError>
    ensures { Gives result (value_piece tokens.now) }
{
    Ok(Piece::Value(read_expression(alloc, tokens)?))
}
