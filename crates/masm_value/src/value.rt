//! What an expression stands for: a number, a register, a label or an operand in memory.
use dialect::register::Register;
use isa::register::{SegmentRegister, WordRegister};
use masm_text::name::Name;
use masm_text::number::Spelling;
use masm_text::refusal::Reason;

/// How many bytes an item of data has.
#[derive(Clone, Copy, PartialEq, Eq)]
pub enum Width {
    Byte,
    Word,
    Double,
    Quad,
    Ten,
}

impl Width {
    /// The number of bytes.
    pub fn bytes(self) -> u32 {
        match self {
            Width::Byte => 1,
            Width::Word => 2,
            Width::Double => 4,
            Width::Quad => 8,
            Width::Ten => 10,
        }
    }

    /// The width of the data that a directive places, as DB or BYTE; `None` if the word is no such directive.
    pub fn of_directive(word: &[u8]) -> Option<Width> {
        match word {
            b"DB" | b"BYTE" | b"SBYTE" => Some(Width::Byte),
            b"DW" | b"WORD" | b"SWORD" => Some(Width::Word),
            b"DD" | b"DWORD" | b"SDWORD" => Some(Width::Double),
            b"DQ" | b"QWORD" => Some(Width::Quad),
            b"DT" | b"TBYTE" => Some(Width::Ten),
            _ => None,
        }
    }
}

/// A type, as before PTR.
#[derive(Clone, Copy)]
pub enum Type {
    Data(Width),
    Near,
    Far,
}

impl Type {
    /// The type that a word names; `None` if it names none.
    pub fn of(word: &[u8]) -> Option<Type> {
        match word {
            b"NEAR" | b"PROC" => Some(Type::Near),
            b"FAR" => Some(Type::Far),
            b"DB" | b"DW" | b"DD" | b"DQ" | b"DT" => None,
            _ => Some(Type::Data(Width::of_directive(word)?)),
        }
    }
}

/// What kind of thing a value is.
#[derive(Clone, Copy)]
pub enum Kind {
    Number,
    Register(Register),
    Type(Type),
    /// The size of a structure, whose name before or after a dot changes nothing.
    Structure,
    Near,
    Far,
    Memory,
}

/// Where a name or a line stands: so many bytes after a place of the source, of which the number is known.
#[derive(Clone, Copy)]
pub struct Location {
    pub run: u32,
    pub offset: u32,
}

/// How many items a line of data places.
#[derive(Clone, Copy)]
pub struct Count {
    pub all: u32,
    /// What its first DUP says; 1 if the line doesn't begin with one.
    pub first: u32,
}

impl Count {
    /// A single item.
    pub const ONE: Count = Count { all: 1, first: 1 };
}

/// What an expression stands for.
#[derive(Clone, Copy)]
pub struct Value {
    pub kind: Kind,
    pub number: i64,
    /// How the number is spelled; `None` if it isn't written, or is calculated.
    pub spelling: Option<Spelling>,
    /// A label whose offset is added, or, with `is_paragraph`, whose segment's paragraph.
    pub plus: Option<Name>,
    /// Where the label stands that is added.
    pub at: Option<Location>,
    /// A label whose offset is subtracted.
    pub minus: Option<Name>,
    pub base: Option<WordRegister>,
    pub index: Option<WordRegister>,
    /// The segment register before a colon.
    pub over: Option<SegmentRegister>,
    pub width: Option<Width>,
    /// How many bytes a variable has that is a structure; 0 for any other value.
    pub size: u32,
    /// How many items a variable's first line places; `None` if that isn't known.
    pub count: Option<Count>,
    /// The number of the segment in which a variable stands.
    pub segment: Option<usize>,
    pub is_paragraph: bool,
    pub is_short: bool,
}

impl Value {
    /// A value of this kind that names nothing.
    pub fn of(kind: Kind) -> Value {
        Value {
            kind,
            number: 0,
            spelling: None,
            plus: None,
            at: None,
            minus: None,
            base: None,
            index: None,
            over: None,
            width: None,
            size: 0,
            count: Some(Count::ONE),
            segment: None,
            is_paragraph: false,
            is_short: false,
        }
    }

    /// A number.
    pub fn number(number: i64) -> Value {
        Value {
            number,
            ..Value::of(Kind::Number)
        }
    }

    /// A number that is written so.
    pub fn spelled(number: i64, spelling: Spelling) -> Value {
        Value {
            spelling: Some(spelling),
            ..Value::number(number)
        }
    }

    /// The place of a label.
    pub fn label(name: Name, at: Option<Location>) -> Value {
        Value {
            plus: Some(name),
            at,
            ..Value::of(Kind::Near)
        }
    }

    /// The value as one of another kind.
    pub fn with_kind(self, kind: Kind) -> Value {
        Value { kind, ..self }
    }

    /// The number that it is without labels and registers.
    pub fn constant(&self) -> Option<i64> {
        match (self.kind, self.plus, self.minus) {
            (Kind::Number | Kind::Structure, None, None) => Some(self.number),
            (Kind::Type(Type::Data(width)), None, None) => Some(width.bytes() as i64),
            _ => None,
        }
    }

    /// The value as one of so many bytes: a negative number that is too large is cut, as NOT of a number may be.
    pub fn narrowed(self, width: Option<Width>) -> Value {
        let number = match (width, self.constant()) {
            (Some(Width::Byte), Some(number @ -0x100..=-0x81)) => number & 0xFF,
            (Some(Width::Word), Some(number @ -0x1_0000..=-0x8001)) => number & 0xFFFF,
            _ => return self,
        };
        Value { number, ..self }
    }

    /// The value, with a register as one by which memory is addressed.
    pub fn addressed(self) -> Result<Value, Reason> {
        let Kind::Register(register) = self.kind else {
            return Ok(self);
        };
        let mut memory = Value::of(Kind::Memory);
        match register {
            Register::Word(base @ (WordRegister::Bx | WordRegister::Bp)) => {
                memory.base = Some(base);
            }
            Register::Word(index @ (WordRegister::Si | WordRegister::Di)) => {
                memory.index = Some(index);
            }
            _ => return Err(Reason::BadOperand),
        }
        Ok(memory)
    }

    /// The sum of both.
    pub fn plus(self, other: Value) -> Result<Value, Reason> {
        let left = self.addressed()?;
        let right = other.addressed()?;
        let number = left.number.checked_add(right.number);
        Ok(Value {
            kind: kind_of_sum(left.kind, right.kind)?,
            number: number.ok_or(Reason::Overflow)?,
            spelling: one_spelling(left.spelling, right.spelling),
            plus: one_of(left.plus, right.plus, Reason::TwoLabels)?,
            at: left.at.or(right.at),
            minus: one_of(left.minus, right.minus, Reason::TwoLabels)?,
            base: one_of(left.base, right.base, Reason::BadOperand)?,
            index: one_of(left.index, right.index, Reason::BadOperand)?,
            over: left.over.or(right.over),
            width: left.width.or(right.width),
            size: left.size.max(right.size),
            count: if left.plus.is_some() {
                left.count
            } else {
                right.count
            },
            segment: left.segment.or(right.segment),
            is_paragraph: left.is_paragraph || right.is_paragraph,
            is_short: left.is_short || right.is_short,
        })
    }

    /// The difference of both; a number if both are places whose distance is known.
    pub fn minus(self, other: Value) -> Result<Value, Reason> {
        if other.is_addressed() || matches!(other.kind, Kind::Register(_) | Kind::Type(_)) {
            return Err(Reason::BadExpression);
        }
        if let (Some(distance), None) = (distance(&self, &other), other.minus) {
            let number = self
                .number
                .checked_sub(other.number)
                .ok_or(Reason::Overflow)?;
            return Ok(Value::number(number.checked_add(distance).ok_or(Reason::Overflow)?));
        }
        let negative = Value {
            number: other.number.checked_neg().ok_or(Reason::Overflow)?,
            spelling: other.spelling,
            plus: other.minus,
            minus: other.plus,
            ..Value::of(Kind::Number)
        };
        let difference = self.plus(negative)?;
        if other.is_place() && self.is_place() {
            // the difference of two places is a number
            return Ok(Value {
                kind: Kind::Number,
                width: None,
                ..difference
            });
        }
        Ok(difference)
    }

    /// Whether a register addresses it.
    pub fn is_addressed(&self) -> bool {
        self.base.is_some() || self.index.is_some()
    }

    /// Whether it is a place in a segment.
    fn is_place(&self) -> bool {
        matches!(self.kind, Kind::Near | Kind::Far | Kind::Memory)
    }
}

/// How many bytes the label of one value stands after that of another, if that is known.
fn distance(left: &Value, right: &Value) -> Option<i64> {
    let is_plain = !left.is_addressed() && left.minus.is_none();
    match (left.at, right.at) {
        (Some(left), Some(right)) if is_plain && left.run == right.run => {
            Some(left.offset as i64 - right.offset as i64)
        }
        _ => None,
    }
}

/// How a sum is spelled: as the one of both that is written.
fn one_spelling(left: Option<Spelling>, right: Option<Spelling>) -> Option<Spelling> {
    match (left, right) {
        (Some(_), Some(_)) => None,
        _ => left.or(right),
    }
}

/// The one of both that is there; refused for a reason if both are.
fn one_of<T: Copy>(left: Option<T>, right: Option<T>, both: Reason) -> Result<Option<T>, Reason> {
    match (left, right) {
        (Some(_), Some(_)) => Err(both),
        _ => Ok(left.or(right)),
    }
}

/// What kind the sum of two values of these kinds is.
fn kind_of_sum(left: Kind, right: Kind) -> Result<Kind, Reason> {
    match (left, right) {
        (Kind::Register(_), _) | (_, Kind::Register(_)) => Err(Reason::BadOperand),
        (Kind::Memory, _) | (_, Kind::Memory) => Ok(Kind::Memory),
        (Kind::Far, _) | (_, Kind::Far) => Ok(Kind::Far),
        (Kind::Near, _) | (_, Kind::Near) => Ok(Kind::Near),
        (
            Kind::Number | Kind::Type(_) | Kind::Structure,
            Kind::Number | Kind::Type(_) | Kind::Structure,
        ) => { Ok(Kind::Number) }
    }
}
