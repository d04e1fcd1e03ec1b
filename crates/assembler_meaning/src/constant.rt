//! Constants: what an expression is in the light of the lines before it.
ghost use Rattle.std.specs.Prelude.{◌≡◌};
ghost use Rattle.std.specs.List.{list_all};
ghost use Rattle.assembler_syntax.specs.declared.expression.Term.{Term};
ghost use Rattle.assembler_meaning.specs.Instructions.{known_number};
ghost use Rattle.assembler_meaning.specs.Data.{is_other};
ghost use Rattle.assembler_meaning.specs.Values.{AreSmall, IsShort, constant_of, is_constant_atom};

use crate::symbol::{Symbols, is_constant_name};
use crate::value::value_of;
use assembler_form::operand::Number;
use assembler_syntax::expression::{Atom, Expression};

/// The value of an expression that is a constant by the names known: without `$` and SEG, and all its names those of
/// constants. `None` if it isn't one. The first pass needs it for EQU, ORG, SEGMENT and DUP, and for choosing an
/// instruction's form.
#[tactic(auto, unfolding(crate::specs::Values::constant_of))]
pub fn constant_of(symbols: &Symbols, expression: &Expression) -> Option<i64>
    requires small { AreSmall symbols.now.entries }
    requires short { IsShort expression.now }
    ensures { result ≡ constant_of symbols.now.entries expression.now }
{
    if is_constant(symbols, expression) {
        value_of(symbols, 0, expression)
    } else {
        None
    }
}

/// Whether an expression is a constant by the names known, so that its value depends on no label.
fn is_constant(symbols: &Symbols, expression: &Expression) -> bool
    ensures { result ≡ list_all (λ (term : Term). is_constant_atom symbols.now.entries term.atom) expression.now }
{
    let (first, rest) = expression.terms();
    if !is_constant_atom(symbols, first.atom) {
        return false;
    }
    for term in rest {
        if !is_constant_atom(symbols, term.atom) {
            return false;
        }
    }
    true
}

/// Whether what a term names leaves its expression a constant: a number or a constant's name, not a label, `$` or SEG.
fn is_constant_atom(symbols: &Symbols, atom: Atom) -> bool
    ensures { result ≡ is_constant_atom symbols.now.entries atom }
{
    match atom {
        Atom::Number(_) => true,
        Atom::Named(name) => is_constant_name(symbols, name),
        Atom::Here | Atom::SegmentOf(_) => false,
    }
}

/// What the first pass knows of a number in an operand when it chooses the instruction's form: a constant's value, or
/// that it comes later, with the labels.
pub fn known_number(symbols: &Symbols, expression: &Expression) -> Number
    requires small { AreSmall symbols.now.entries }
    requires short { IsShort expression.now }
    ensures { result ≡ known_number symbols.now.entries expression.now }
{
    match constant_of(symbols, expression) {
        Some(number) => Number::Constant(number),
        None => Number::Later,
    }
}

/// Whether the expression is a constant out of its bounds, `least` to `greatest`, as one of EQU, ORG, SEGMENT or DUP
/// may be: then its line is a bad one. False also if it isn't known as a constant, which is judged apart.
pub fn is_out_of_bounds(
    symbols: &Symbols,
    expression: &Expression,
    least: i64,
    greatest: i64,
) -> bool
    requires small { AreSmall symbols.now.entries }
    requires short { IsShort expression.now }
    ensures { result ≡ is_other least greatest (constant_of symbols.now.entries expression.now) }
{
    match constant_of(symbols, expression) {
        Some(number) => number < least || greatest < number,
        None => false,
    }
}
