//! The names of a source.
use crate::segment::Segments;
use crate::value::{Count, Kind, Location, Type, Value, Width};
use dialect::meaning::{Meaning, meaning_of};
use dialect::register::Register;
use masm_text::name::{Key, Name};
use masm_text::number::Spelling;
use masm_text::refusal::{Reason, Stop};
use std::alloc::Global;
use std::collections::BTreeMap;

/// What a name stands for.
#[derive(Clone, Copy)]
pub enum Symbol {
    /// A label, and where it stands, if that is known.
    Near(Option<Location>),
    Far,
    Variable(Variable),
    Segment(usize),
    /// The number of a structure.
    Structure(usize),
    /// The number of a constant's value, and whether it may get another.
    Constant(usize, bool),
}

/// A name of data.
#[derive(Clone, Copy)]
pub struct Variable {
    /// `None` if it is a structure.
    pub width: Option<Width>,
    /// How many bytes it has if it is a structure, else 0.
    pub size: u32,
    /// `None` if that isn't known where the data stand.
    pub count: Option<Count>,
    pub segment: usize,
    pub at: Option<Location>,
}

/// A field of a structure, and the items that it has where none are given.
#[derive(Drop)]
pub struct Field {
    pub width: Width,
    pub count: u32,
    pub items: Vec<u8>,
}

/// A structure, and how many bytes its fields have.
#[derive(Drop)]
pub struct Structure {
    pub fields: Vec<Field>,
    pub size: u32,
}

/// The names of a source.
#[derive(Drop)]
pub struct Symbols {
    entries: BTreeMap<Key, Symbol>,
    values: Vec<Value>,
    pub segments: Segments,
    pub structures: Vec<Structure>,
    /// Whether emu8086's rules hold, and not MASM's: the source names no segment.
    pub is_loose: bool,
    /// Whether a procedure has a label of its own that has another one's name.
    pub has_locals: bool,
}

/// How many names a source may define.
const NAME_LIMIT: usize = 200_000;

/// How many bytes a structure may have.
const STRUCTURE_LIMIT: u32 = 0x1_0000;

impl Symbols {
    /// No names.
    pub fn new(alloc: Global) -> Symbols {
        Symbols {
            entries: BTreeMap::new(alloc),
            values: Vec::new(alloc),
            segments: Segments::new(alloc),
            structures: Vec::new(alloc),
            is_loose: true,
            has_locals: false,
        }
    }

    /// What the name stands for.
    pub fn get(&self, name: Name) -> Option<Symbol> {
        self.entries.get(&name.key()).copied()
    }

    /// Gives a name its meaning, whatever it had.
    pub fn set(&mut self, name: Name, symbol: Symbol) -> Result<(), Stop> {
        if self.entries.len() >= NAME_LIMIT && self.get(name).is_none() {
            return Err(Stop::Refused(Reason::TooManyNames));
        }
        self.entries.insert(name.key(), symbol)?;
        Ok(())
    }

    /// Gives a name its meaning; fails if it has one.
    pub fn define(&mut self, name: Name, symbol: Symbol) -> Result<(), Stop> {
        if self.get(name).is_some() {
            return Err(Stop::Refused(Reason::DefinedTwice));
        }
        self.set(name, symbol)
    }

    /// Gives a constant its value, in place of the one that it had.
    pub fn set_constant(&mut self, name: Name, value: Value, is_again: bool) -> Result<(), Stop> {
        let number = match self.get(name) {
            Some(Symbol::Constant(number, _)) => number,
            _ => self.values.len(),
        };
        match self.values.get_mut(number) {
            Some(old) => *old = value,
            None => self.values.push(value)?,
        }
        self.set(name, Symbol::Constant(number, is_again))
    }

    /// Gives a constant its value; fails if the name has another meaning that may not change.
    pub fn define_constant(
        &mut self,
        name: Name,
        value: Value,
        is_again: bool,
    ) -> Result<(), Stop> {
        let old = match (self.get(name), is_again) {
            (None, _) | (Some(Symbol::Constant(_, true)), true) => {
                return self.set_constant(name, value, is_again);
            }
            (Some(Symbol::Constant(number, _)), _) => self.constant(number),
            _ => None,
        };
        if old.is_none() || old != value.constant() {
            return Err(Stop::Refused(Reason::DefinedTwice));
        }
        Ok(())
    }

    /// The number that the constant of this number stands for, if it is one.
    fn constant(&self, number: usize) -> Option<i64> {
        self.values.get(number).and_then(|value| value.constant())
    }

    /// The number of the segment of this name, which is opened first here if it isn't known.
    pub fn open(&mut self, name: Name) -> Result<usize, Stop> {
        if let Some(Symbol::Segment(number)) = self.get(name) {
            return Ok(number);
        }
        let number = self.segments.next()?;
        self.define(name, Symbol::Segment(number))?;
        self.segments.push(name)?;
        Ok(number)
    }

    /// The number of the first segment of the group of this name; `None` if nothing has the name, and refused if
    /// something else has it.
    pub fn group(&self, name: Name) -> Result<Option<usize>, Reason> {
        match self.get(name) {
            None => Ok(None),
            Some(Symbol::Segment(number)) if !self.segments.is_named(number, name) => {
                Ok(Some(number))
            }
            _ => Err(Reason::DefinedTwice),
        }
    }

    /// The segments alone.
    pub fn into_segments(self) -> Segments {
        let Symbols { segments, .. } = self;
        segments
    }

    /// How many bytes a structure has.
    pub fn size_of(&self, number: usize) -> u32 {
        self.structures
            .get(number)
            .map_or(0, |structure| structure.size)
    }

    /// Begins a structure of this name, and gives its number.
    pub fn begin_structure(&mut self, alloc: Global, name: Name) -> Result<usize, Stop> {
        let number = self.structures.len();
        self.define(name, Symbol::Structure(number))?;
        self.structures.push(Structure {
            fields: Vec::new(alloc),
            size: 0,
        })?;
        Ok(number)
    }

    /// Puts a field after the others of a structure, and gives its offset.
    pub fn add_field(&mut self, number: usize, field: Field) -> Result<u32, Stop> {
        let Some(structure) = self.structures.get_mut(number) else {
            return Err(Stop::Refused(Reason::BadData));
        };
        let offset = structure.size;
        let size = field
            .width
            .bytes()
            .checked_mul(field.count)
            .ok_or(Reason::Overflow)?;
        structure.size = offset
            .checked_add(size)
            .filter(|size| *size <= STRUCTURE_LIMIT)
            .ok_or(Reason::Overflow)?;
        structure.fields.push(field)?;
        Ok(offset)
    }

    /// The number of the structure that this names.
    pub fn structure(&self, name: Name) -> Result<usize, Reason> {
        match self.get(name) {
            Some(Symbol::Structure(number)) => Ok(number),
            _ => Err(Reason::UnknownStatement),
        }
    }

    /// The number of the segment of this name.
    pub fn named_segment(&self, word: &[u8]) -> Option<usize> {
        match self.get(Name::of(word)?) {
            Some(Symbol::Segment(number)) => Some(number),
            _ => None,
        }
    }

    /// The paragraph of the segment of this name, or else of the first one.
    pub fn named_paragraph(&self, word: &[u8]) -> i64 {
        self.segments
            .paragraph(self.named_segment(word).unwrap_or(0))
    }

    /// The value of a word in an expression.
    pub fn value(&self, name: Name) -> Result<Value, Reason> {
        if let Some(symbol) = self.get(name) {
            return self.value_of(name, symbol);
        }
        if let Some(Meaning::Register(register)) = meaning_of(name.text()) {
            return Ok(Value::of(Kind::Register(register)));
        }
        if let Some(class) = Type::of(name.text()) {
            return Ok(Value::of(Kind::Type(class)));
        }
        match name.text() {
            b"@DATA" | b"@FARDATA" | b"DGROUP" => {
                Ok(paragraph_value(self.named_paragraph(b"_DATA")))
            }
            b"@CODE" => Ok(paragraph_value(self.named_paragraph(b"_TEXT"))),
            b"EAX" | b"EBX" | b"ECX" | b"EDX" | b"ESI" | b"EDI" | b"EBP" | b"ESP" | b"FS" | b"GS" =>
                { Err(Reason::LaterProcessor) }
            _ => Err(Reason::UnknownName),
        }
    }

    /// The value of a name that stands for this.
    fn value_of(&self, name: Name, symbol: Symbol) -> Result<Value, Reason> {
        let value = match symbol {
            Symbol::Near(at) => Value::label(name, at),
            Symbol::Far => Value::label(name, None).with_kind(Kind::Far),
            Symbol::Variable(variable) => Value {
                kind: Kind::Memory,
                width: variable.width,
                size: variable.size,
                count: variable.count,
                segment: Some(variable.segment),
                ..Value::label(name, variable.at)
            },
            Symbol::Segment(number) => paragraph_value(self.segments.paragraph(number)),
            Symbol::Structure(number) => Value {
                number: self.size_of(number) as i64,
                ..Value::of(Kind::Structure)
            },
            Symbol::Constant(number, _) => {
                self.values.get(number).copied().ok_or(Reason::UnknownName)?
            }
        };
        Ok(value)
    }
}

/// A paragraph as a value.
fn paragraph_value(paragraph: i64) -> Value {
    Value::spelled(paragraph, Spelling::Hexadecimal(4))
}

/// Whether the register is that of a segment.
pub fn is_segment_register(name: Name) -> bool {
    matches!(
        meaning_of(name.text()),
        Some(Meaning::Register(Register::Segment(_)))
    )
}
