//! Reading expressions.
ghost use Rattle.std.specs.Prelude.{◌≡◌, [], ◌∷◌};
ghost use Rattle.std.specs.List.{list_all};
ghost use Rattle.assembler_lexeme.specs.Faults.{all_of, with_front, Gives};
ghost use Rattle.assembler_syntax.specs.PartSteps.{signed_part};
ghost use Rattle.assembler_syntax.specs.ExpressionSteps.{atom_of, constant_of, expression_of, is_constant, is_constant_atom, segment_atom, single_atom, term_of};

use crate::expression::{Atom, Expression, Term};
use crate::part::SignedParts;
use assembler_lexeme::fault::{SyntaxError, SyntaxFault};
use assembler_lexeme::token::{Punctuator, Token};
use dialect::keyword::Keyword;
use dialect::meaning::Meaning;
use std::alloc::Global;

/// Reads a single token as what a term of an expression names: a number, a name or `$`. Any other token makes the line
/// a bad one.
fn single_atom(token: &Token) -> Result<Atom, SyntaxError>
    ensures { Gives result (single_atom token.now) }
{
    match token {
        Token::One => Ok(Atom::Number(1)),
        Token::Number(number) => Ok(Atom::Number(*number)),
        Token::Named(name) => Ok(Atom::Named(*name)),
        Token::Punctuator(Punctuator::Dollar) => Ok(Atom::Here),
        _ => Err(SyntaxError::Fault(SyntaxFault::BadLine)),
    }
}

/// Reads two tokens as what a term of an expression names: SEG and a label, for its segment's paragraph. Any others
/// make the line a bad one.
fn segment_atom(first: &Token, second: &Token) -> Result<Atom, SyntaxError>
    ensures { Gives result (segment_atom first.now second.now) }
{
    match (first, second) {
        (Token::Word(Meaning::Keyword(Keyword::Seg)), Token::Named(name)) => {
            Ok(Atom::SegmentOf(*name))
        }
        _ => Err(SyntaxError::Fault(SyntaxFault::BadLine)),
    }
}

/// Reads the tokens between two signs as what a term of an expression names: a number, a name, `$`, or SEG and a name.
#[tactic(auto, unfolding(crate::specs::ExpressionSteps::atom_of))]
fn atom_of(tokens: &[Token]) -> Result<Atom, SyntaxError>
    ensures { Gives result (atom_of tokens.now) }
{
    match tokens {
        [token] => single_atom(token),
        [first, second] => segment_atom(first, second),
        _ => Err(SyntaxError::Fault(SyntaxFault::BadLine)),
    }
}

/// Reads the tokens between two signs as a term of an expression, or of a displacement in brackets; `is_negative` is
/// whether the sign before it is a minus.
pub(crate) fn read_term(is_negative: bool, tokens: &[Token]) -> Result<Term, SyntaxError>
    ensures { Gives result (term_of (signed_part is_negative tokens.now)) }
{
    let atom = atom_of(tokens)?;
    Ok(Term { is_negative, atom })
}

/// Reads tokens as an expression, one or more terms with signs between them: an operand, a constant or a number of a
/// data line.
#[tactic(auto, unfolding(crate::specs::ExpressionSteps::expression_of))]
pub(crate) fn read_expression(alloc: Global, tokens: &[Token]) -> Result<Expression, SyntaxError>
    ensures { Gives result (expression_of tokens.now) }
{
    let mut parts = SignedParts::of(tokens);
    let Some((is_negative, part)) = parts.next() else {
        return Err(SyntaxError::Fault(SyntaxFault::BadLine));
    };
    let first = read_term(is_negative, part)?;
    read_terms(alloc, first, parts)
}

/// Reads the terms of an expression after its first one, and puts them together.
#[tactic(auto, using(crate::proofs::Gathering::term_after))]
fn read_terms(alloc: Global, first: Term, parts: SignedParts) -> Result<Expression, SyntaxError>
    ensures { Gives result (with_front (first ∷ []) (all_of term_of parts.entry)) }
{
    let mut parts = parts;
    let mut expression = Expression::new(alloc, first);
    while let Some((is_negative, part)) = parts.next() {
        let term = read_term(is_negative, part)?;
        expression.push(term)?;
    }
    Ok(expression)
}

/// Reads tokens as an expression that must be a constant, as EQU, ORG, SEGMENT and DUP want it: one with `$` or SEG is
/// a bad line.
#[tactic(auto, unfolding(crate::specs::ExpressionSteps::constant_of))]
pub(crate) fn read_constant(alloc: Global, tokens: &[Token]) -> Result<Expression, SyntaxError>
    ensures { Gives result (constant_of tokens.now) }
{
    let expression = read_expression(alloc, tokens)?;
    if are_constant(&expression) {
        Ok(expression)
    } else {
        Err(SyntaxError::Fault(SyntaxFault::BadLine))
    }
}

/// Whether an expression may be a constant by what it says: none of its terms is `$` or SEG. Whether its names are
/// those of constants is judged later.
fn are_constant(expression: &Expression) -> bool
    ensures { result ≡ list_all is_constant expression.now }
{
    let (first, rest) = expression.terms();
    first.atom.is_constant() && are_all_constant(rest)
}

/// Whether none of the terms is `$` or SEG; for the terms of an expression after its first one.
fn are_all_constant(terms: &[Term]) -> bool
    ensures { result ≡ list_all is_constant terms.now }
{
    terms.iter().all(|term| term.atom.is_constant())
}

impl Atom {
    /// Whether a constant may have a term of this atom: a number or a name, not `$` or SEG.
    fn is_constant(self) -> bool
        ensures { result ≡ is_constant_atom self }
    {
        matches!(self, Atom::Number(_) | Atom::Named(_))
    }
}
