//! Expressions: signed terms.
ghost use Rattle.std.specs.Prelude.{◌≡◌, ◌++◌, [], ◌∷◌, OnOk};

use assembler_lexeme::name::Name;
use std::alloc::{AllocError, Global};
use std::marker::Model;

/// What a term names, without its sign: a number, a name, `$`, or the paragraph of a label's segment.
#[derive(Clone, Copy)]
pub enum Atom {
    /// A number, or the code of a quoted character.
    Number(u32),
    Named(Name),
    /// `$`, the offset at which the line stands.
    Here,
    /// SEG and a name: the paragraph of the label's segment.
    SegmentOf(Name),
}

/// A term with its sign.
#[derive(Clone, Copy)]
pub struct Term {
    pub is_negative: bool,
    pub atom: Atom,
}

/// One or more terms, whose sum is meant. Contracts see the list of the terms. An expression of one term takes no
/// memory.
#[derive(Drop)]
pub struct Expression {
    first: Term,
    rest: Vec<Term>,
}

impl Model for Expression {
    ghost use Rattle.std.specs.Prelude.{List, ◌∷◌};
    ghost use Rattle.assembler_syntax.specs.declared.expression.Term.{Term};

    ghost Value = { List Term };

    ghost view = { λ e. e.first ∷ e.rest.items };
}

impl Expression {
    /// An expression of one term, the first; further ones are pushed onto it as they are read. Takes no memory.
    pub fn new(alloc: Global, first: Term) -> Expression
        ensures { result ≡ first ∷ [] }
    {
        Expression {
            first,
            rest: Vec::new(alloc),
        }
    }

    /// Puts a further term after the others, as the line's reader does. Fails if there is no memory.
    pub fn push(&mut self, term: Term) -> Result<(), AllocError>
        ensures { OnOk result (self.new ≡ self.old ++ term ∷ []) }
    {
        self.rest.push(term)?;
        Ok(())
    }

    /// The first term, and the others in order, for those who work out the expression's value; there is always a first.
    pub fn terms(&self) -> (Term, &[Term])
        ensures { self.now ≡ result.0 ∷ result.1.now }
    {
        (self.first, self.rest.as_slice())
    }
}
