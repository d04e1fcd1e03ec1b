//! What the names of a source stand for.
ghost use Rattle.std.specs.Prelude.{◌≡◌};
ghost use Rattle.assembler_meaning.specs.Values.{is_defined, IsSmall, is_constant_symbol, label_of, meaning, symbol_value};

use crate::seed::SourceSeed;
use assembler_lexeme::name::Name;
use indexmap::IndexMap;

/// A place in a segment. The offset is a whole number: it may lie past the segment's end until the source is refused
/// for it.
#[derive(Clone, Copy)]
pub struct Location {
    /// The segment's paragraph.
    pub segment: u16,
    pub offset: u64,
}

/// What a name stands for.
#[derive(Clone, Copy)]
pub enum Symbol {
    /// A label, at the place of the byte that follows it.
    Label(Location),
    /// The name of an EQU or of a segment, with its number or paragraph.
    Constant(i64),
}

impl Symbol {
    /// The value that a name has in an expression: a constant's number, or a label's offset.
    pub fn value(self) -> i64
        requires { IsSmall self }
        ensures { result ≡ symbol_value self }
    {
        match self {
            Symbol::Label(place) => place.offset as i64,
            Symbol::Constant(number) => number,
        }
    }
}

/// The names that a source's lines have defined so far, in order, with what they stand for.
pub type Symbols = IndexMap<Name, Symbol, SourceSeed>;

/// What a name in a source stands for; `None` if no line read so far defines it.
pub fn meaning(symbols: &Symbols, name: Name) -> Option<Symbol>
    ensures { result ≡ meaning symbols.now.entries name }
{
    symbols.get(&name).copied()
}

/// Whether an earlier line has defined the name, so that no later one may.
pub fn is_defined(symbols: &Symbols, name: Name) -> bool
    ensures { result ≡ is_defined symbols.now.entries name }
{
    meaning(symbols, name).is_some()
}

/// The place of a label, for SEG and for far targets; `None` if the name isn't defined or is a constant.
pub fn label(symbols: &Symbols, name: Name) -> Option<Location>
    ensures { result ≡ label_of symbols.now.entries name }
{
    match meaning(symbols, name) {
        Some(Symbol::Label(place)) => Some(place),
        Some(Symbol::Constant(_)) | None => None,
    }
}

/// Whether the name stands for a constant, by EQU or SEGMENT, so that an expression with it may be one too. A label
/// doesn't.
pub fn is_constant_name(symbols: &Symbols, name: Name) -> bool
    ensures { result ≡ is_constant_symbol (meaning symbols.now.entries name) }
{
    matches!(meaning(symbols, name), Some(Symbol::Constant(_)))
}
