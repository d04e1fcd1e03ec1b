//! The values of expressions.
ghost use Rattle.std.specs.Prelude.{◌≡◌, ◌≤◌, ◌^◌, IfSome};
ghost use Rattle.assembler_meaning.specs.Values.{AreSmall, IsShort, IsSmallNumber, atom_value, term_value, value_of};

use crate::symbol::{Symbols, label, meaning};
use assembler_syntax::expression::{Atom, Expression, Term};

/// The value of an expression in a line that stands at the offset `here`, which `$` means: a whole number, of which
/// nothing is cut. `None` if it has a name that no line defines, or if SEG names no label.
#[tactic(auto, unfolding(crate::specs::Values::value_of))]
pub fn value_of(symbols: &Symbols, here: u64, expression: &Expression) -> Option<i64>
    requires small { AreSmall symbols.now.entries }
    requires here { here ≤ 2 ^ 40 }
    requires short { IsShort expression.now }
    ensures { result ≡ value_of symbols.now.entries here expression.now }
{
    let (first, rest) = expression.terms();
    let mut sum = term_value(symbols, here, first)?;
    for term in rest {
        sum += term_value(symbols, here, *term)?;
    }
    Some(sum)
}

/// The value of a term of an expression, with its sign; `here` is what `$` stands for. `None` if a name in it isn't
/// defined, or SEG names no label.
fn term_value(symbols: &Symbols, here: u64, term: Term) -> Option<i64>
    requires small { AreSmall symbols.now.entries }
    requires here { here ≤ 2 ^ 40 }
    ensures value { result ≡ term_value symbols.now.entries here term }
    ensures small { IfSome result IsSmallNumber }
{
    let value = atom_value(symbols, here, term.atom)?;
    if term.is_negative {
        Some(-value)
    } else {
        Some(value)
    }
}

/// The value of what a term names, without its sign: a number, a constant, a label's offset, `$`, which is `here`, or a
/// label's paragraph. `None` if the name isn't defined, or SEG names no label.
fn atom_value(symbols: &Symbols, here: u64, atom: Atom) -> Option<i64>
    requires small { AreSmall symbols.now.entries }
    requires here { here ≤ 2 ^ 40 }
    ensures value { result ≡ atom_value symbols.now.entries here atom }
    ensures small { IfSome result IsSmallNumber }
{
    match atom {
        Atom::Number(number) => Some(i64::from(number)),
        Atom::Named(name) => Some(meaning(symbols, name)?.value()),
        Atom::Here => Some(here as i64),
        Atom::SegmentOf(name) => Some(i64::from(label(symbols, name)?.segment)),
    }
}
