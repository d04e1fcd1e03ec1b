//! The parts of a list of tokens: between commas, between signs, and around a token.
ghost use Rattle.std.specs.Prelude.{Bool, false, ◌≡◌, ◌≢◌, ◌<◌, ◌≤◌, [], ◌∷◌, position, length, IfSome, IfNone};
ghost use Rattle.std.specs.Option.{option_map};
ghost use Rattle.assembler_lexeme.specs.Faults.{wanted};
ghost use Rattle.assembler_syntax.specs.PartSteps.{around_view, at_place, begins_with_minus, closed, is_close_bracket, is_close_parenthesis, is_colon, is_comma, is_dup, is_minus, is_open_after, is_open_bracket, is_open_parenthesis, is_sign, part_size, parts, parts_left, signed_from, signed_left, signed_part, signed_parts, signed_size, tail_of, tail_view};

use assembler_lexeme::token::{Punctuator, Token};
use dialect::keyword::Keyword;
use dialect::meaning::Meaning;
use std::marker::Model;

/// Whether the token is a comma, which parts operands, items and pieces.
pub(crate) fn is_comma(token: &Token) -> bool
    ensures { result ≡ is_comma token.now }
{
    matches!(token, Token::Punctuator(Punctuator::Comma))
}

/// Whether the token is a colon, as after an override's register or between a far target's segment and offset.
pub(crate) fn is_colon(token: &Token) -> bool
    ensures { result ≡ is_colon token.now }
{
    matches!(token, Token::Punctuator(Punctuator::Colon))
}

/// Whether the token is `[`, with which an operand in memory begins.
pub(crate) fn is_open_bracket(token: &Token) -> bool
    ensures { result ≡ is_open_bracket token.now }
{
    matches!(token, Token::Punctuator(Punctuator::OpenBracket))
}

/// Whether the token is `]`, with which an operand in memory must end.
fn is_close_bracket(token: &Token) -> bool
    ensures { result ≡ is_close_bracket token.now }
{
    matches!(token, Token::Punctuator(Punctuator::CloseBracket))
}

/// Whether the token is `(`, which must follow DUP.
pub(crate) fn is_open_parenthesis(token: &Token) -> bool
    ensures { result ≡ is_open_parenthesis token.now }
{
    matches!(token, Token::Punctuator(Punctuator::OpenParenthesis))
}

/// Whether the token is `)`, with which what DUP repeats must end.
fn is_close_parenthesis(token: &Token) -> bool
    ensures { result ≡ is_close_parenthesis token.now }
{
    matches!(token, Token::Punctuator(Punctuator::CloseParenthesis))
}

/// Whether the token is DUP, by which a repeated item of a data line is recognized.
fn is_dup(token: &Token) -> bool
    ensures { result ≡ is_dup token.now }
{
    matches!(token, Token::Word(Meaning::Keyword(Keyword::Dup)))
}

/// Whether the token is a minus, which makes the next term negative.
fn is_minus(token: &Token) -> bool
    ensures { result ≡ is_minus token.now }
{
    matches!(token, Token::Punctuator(Punctuator::Minus))
}

/// Whether the token is a plus or minus, which parts the terms of an expression, or what stands in brackets.
fn is_sign(token: &Token) -> bool
    ensures { result ≡ is_sign token.now }
{
    matches!(
        token,
        Token::Punctuator(Punctuator::Plus | Punctuator::Minus)
    )
}

/// Whether parentheses are open after the token, if `is_open` says whether they were before it: a comma within them,
/// after DUP, parts no items. They don't nest.
fn is_open_after(is_open: bool, token: &Token) -> bool
    ensures { result ≡ is_open_after is_open token.now }
{
    match token {
        Token::Punctuator(Punctuator::OpenParenthesis) => true,
        Token::Punctuator(Punctuator::CloseParenthesis) => false,
        _ => is_open,
    }
}

/// The first of a statement's tokens, which tells what statement it is, and the others. `None` if there are none.
pub(crate) fn split<'a, 'b>(tokens: &'a [Token<'b>]) -> Option<(&'a Token<'b>, &'a [Token<'b>])>
    ensures some { IfSome result (λ p. tokens.now ≡ p.0.now ∷ p.1.now) }
    ensures none { IfNone result (tokens.now ≡ []) }
{
    tokens.split_first()
}

/// The place of the first colon, between the segment and offset of a far target; `None` if there is none.
pub(crate) fn colon_place(tokens: &[Token]) -> Option<usize>
    ensures { result ≡ position is_colon tokens.now }
{
    tokens.iter().position(|token| is_colon(token))
}

/// The place of the first DUP, between an item's count and what is repeated; `None` if the item isn't repeated.
pub(crate) fn dup_place(tokens: &[Token]) -> Option<usize>
    ensures { result ≡ position is_dup tokens.now }
{
    tokens.iter().position(|token| is_dup(token))
}

/// The place of the first `]`, at which an operand in memory must end; `None` if there is none.
pub(crate) fn close_bracket_place(tokens: &[Token]) -> Option<usize>
    ensures { result ≡ position is_close_bracket tokens.now }
{
    tokens.iter().position(|token| is_close_bracket(token))
}

/// The place of the first `)`, at which what DUP repeats must end; `None` if there is none.
pub(crate) fn close_parenthesis_place(tokens: &[Token]) -> Option<usize>
    ensures { result ≡ position is_close_parenthesis tokens.now }
{
    tokens.iter().position(|token| is_close_parenthesis(token))
}

/// The tokens before the one at this place, a colon or DUP that parts them, and those after it. `None` without a place.
pub(crate) fn around<'a, 'b>(
    tokens: &'a [Token<'b>],
    place: Option<usize>,
) -> Option<(&'a [Token<'b>], &'a [Token<'b>])>
    requires { IfSome place (λ k. k < length tokens.now) }
    ensures { around_view result ≡ at_place tokens.now place }
{
    let place = place?;
    Some((&tokens[..place], &tokens[place + 1..]))
}

/// The tokens before the closing bracket or parenthesis at this place. `None` if there is none, or more tokens follow
/// it.
pub(crate) fn before_last<'a, 'b>(
    tokens: &'a [Token<'b>],
    place: Option<usize>,
) -> Option<&'a [Token<'b>]>
    requires { IfSome place (λ k. k < length tokens.now) }
    ensures { wanted (option_map (λ p. p.now) result) ≡ closed (at_place tokens.now place) }
{
    match around(tokens, place)? {
        (inner, []) => Some(inner),
        _ => None,
    }
}

/// What is left of a list of tokens after the comma or sign at its front. `None` if there is neither, so that no
/// further part comes; after the last comma it is an empty part.
fn tail_of<'a, 'b>(tokens: &'a [Token<'b>]) -> Option<&'a [Token<'b>]>
    ensures { tail_view result ≡ tail_of tokens.now }
{
    match tokens {
        [] => None,
        [_, rest @ ..] => Some(rest),
    }
}

/// The parts between commas that are still to come. Contracts see the list of them.
#[derive(Drop)]
pub(crate) struct Parts<'a, 'b> {
    rest: Option<&'a [Token<'b>]>,
}

impl<'a, 'b> Model for Parts<'a, 'b> {
    ghost use Rattle.std.specs.Prelude.{List};
    ghost use Rattle.assembler_lexeme.specs.declared.token.Token.{Token};
    ghost use Rattle.assembler_syntax.specs.PartSteps.{parts_left, tail_view};

    ghost Value = { List (List Token) };

    ghost view = { λ p. parts_left (tail_view p.rest) };
}

impl<'a, 'b> Parts<'a, 'b> {
    /// The parts of these tokens between commas, which are operands, items or pieces; always one or more, though a part
    /// may be empty.
    pub(crate) fn of(tokens: &'a [Token<'b>]) -> Parts<'a, 'b>
        ensures { result ≡ parts tokens.now }
    {
        Parts { rest: Some(tokens) }
    }

    /// Takes the next part between commas; `None` after the last one.
    pub(crate) fn next(&mut self) -> Option<&'a [Token<'b>]>
        ensures some { IfSome result (λ part. self.old ≡ part.now ∷ self.new) }
        ensures none { IfNone result (self.old ≡ []) }
    {
        let (part, rest) = first_part(self.rest?);
        self.rest = rest;
        Some(part)
    }
}

/// Splits tokens at the first comma that parts operands, items or pieces: those before it, and those after it. `None`
/// in place of these if there is no such comma.
#[tactic(auto, using(crate::proofs::Parting::first_part))]
fn first_part<'a, 'b>(tokens: &'a [Token<'b>]) -> (&'a [Token<'b>], Option<&'a [Token<'b>]>)
    ensures { parts tokens.now ≡ result.0.now ∷ parts_left (tail_view result.1) }
{
    let (part, rest) = tokens.split_at(part_size(tokens));
    (part, tail_of(rest))
}

/// How many tokens stand before the first comma outside parentheses; all of them if there is none. For splitting tokens
/// into operands, items or pieces.
fn part_size(tokens: &[Token]) -> usize
    ensures size { result ≡ part_size false tokens.now }
    ensures within { result ≤ length tokens.now }
{
    let mut size = 0;
    let mut is_open = false;
    let mut rest = tokens;
    while let [first, after @ ..] = rest {
        if !is_open && is_comma(first) {
            break;
        }
        size += 1;
        is_open = is_open_after(is_open, first);
        rest = after;
    }
    size
}

/// The parts between signs that are still to come, each with whether the sign before it is a minus. Contracts see the
/// list of them.
#[derive(Drop)]
pub(crate) struct SignedParts<'a, 'b> {
    is_negative: bool,
    rest: Option<&'a [Token<'b>]>,
}

impl<'a, 'b> Model for SignedParts<'a, 'b> {
    ghost use Rattle.std.specs.Prelude.{List};
    ghost use Rattle.assembler_syntax.specs.PartSteps.{Signed, signed_left, tail_view};

    ghost Value = { List Signed };

    ghost view = { λ p. signed_left p.is_negative (tail_view p.rest) };
}

impl<'a, 'b> SignedParts<'a, 'b> {
    /// The parts of these tokens between signs, which are the terms of an expression or what stands in brackets; always
    /// one or more. A minus before the first is its sign; a plus there leaves an empty part before it.
    #[tactic(auto, using(crate::proofs::Parting::some_signed))]
    pub(crate) fn of(tokens: &'a [Token<'b>]) -> SignedParts<'a, 'b>
        ensures parts { result ≡ signed_parts tokens.now }
        ensures some { result ≢ [] }
    {
        match tokens {
            [first, rest @ ..] if is_minus(first) => SignedParts {
                is_negative: true,
                rest: Some(rest),
            },
            _ => SignedParts {
                is_negative: false,
                rest: Some(tokens),
            },
        }
    }

    /// Takes the next part between signs, and whether the sign before it is a minus; `None` after the last part.
    pub(crate) fn next(&mut self) -> Option<(bool, &'a [Token<'b>])>
        ensures some { IfSome result (λ part. self.old ≡ signed_part part.0 part.1.now ∷ self.new) }
        ensures none { IfNone result (self.old ≡ []) }
    {
        let is_negative = self.is_negative;
        let (part, rest) = first_signed(self.rest?);
        self.is_negative = begins_with_minus(rest);
        self.rest = tail_of(rest);
        Some((is_negative, part))
    }
}

/// Whether the part after the sign at the front is negative: the sign is a minus.
fn begins_with_minus(tokens: &[Token]) -> bool
    ensures { result ≡ begins_with_minus tokens.now }
{
    match tokens {
        [] => false,
        [first, ..] => is_minus(first),
    }
}

/// Splits tokens before the first plus or minus: a term, and what follows it, with the sign. A sign at the front leaves
/// the term empty.
#[tactic(auto, using(crate::proofs::Parting::first_signed))]
fn first_signed<'a, 'b>(tokens: &'a [Token<'b>]) -> (&'a [Token<'b>], &'a [Token<'b>])
    ensures { (is_negative : Bool) → signed_from is_negative tokens.now
        ≡ signed_part is_negative result.0.now ∷ signed_left (begins_with_minus result.1.now) (tail_of result.1.now) }
{
    tokens.split_at(signed_size(tokens))
}

/// How many tokens stand before the first plus or minus, all of them if there is none: those of a term.
fn signed_size(tokens: &[Token]) -> usize
    ensures size { result ≡ signed_size tokens.now }
    ensures within { result ≤ length tokens.now }
{
    let mut size = 0;
    let mut rest = tokens;
    while let [first, after @ ..] = rest {
        if is_sign(first) {
            break;
        }
        size += 1;
        rest = after;
    }
    size
}
