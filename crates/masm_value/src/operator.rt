//! The operators of expressions.
use crate::value::{Count, Kind, Type, Value};
use dialect::register::Register;
use masm_text::refusal::Reason;
use masm_text::token::{Mark, Token};

/// An operator before its operand.
#[derive(Clone, Copy)]
pub enum Prefix {
    Plus,
    Minus,
    Not,
    Offset,
    Seg,
    Type,
    /// LENGTH, of what the first DUP places.
    Length,
    LengthOf,
    /// SIZE, of what the first DUP places.
    Size,
    SizeOf,
    High,
    Low,
    Short,
    /// THIS, which gives a type to the place of the line.
    This,
}

/// An operator between two operands.
#[derive(Clone, Copy)]
pub enum Infix {
    Add,
    Subtract,
    Multiply,
    Divide,
    Modulo,
    ShiftLeft,
    ShiftRight,
    And,
    Or,
    Xor,
    Equal,
    NotEqual,
    Less,
    LessEqual,
    Greater,
    GreaterEqual,
    /// PTR, which gives a type.
    Pointer,
    /// The colon after a segment register.
    Over,
    /// What joins brackets, or a field, to what stands before.
    Index,
}

impl Prefix {
    /// The operator that a token is where an operand is due; `None` if it is none.
    pub fn of(token: Token) -> Option<Prefix> {
        match token {
            Token::Mark(Mark::Plus) => Some(Prefix::Plus),
            Token::Mark(Mark::Minus) => Some(Prefix::Minus),
            Token::Word(name) => match name.text() {
                b"NOT" => Some(Prefix::Not),
                b"OFFSET" => Some(Prefix::Offset),
                b"SEG" => Some(Prefix::Seg),
                b"TYPE" => Some(Prefix::Type),
                b"LENGTH" => Some(Prefix::Length),
                b"LENGTHOF" => Some(Prefix::LengthOf),
                b"SIZE" => Some(Prefix::Size),
                b"SIZEOF" => Some(Prefix::SizeOf),
                b"HIGH" => Some(Prefix::High),
                b"LOW" => Some(Prefix::Low),
                b"SHORT" => Some(Prefix::Short),
                b"THIS" => Some(Prefix::This),
                _ => None,
            },
            _ => None,
        }
    }

    /// How strongly it binds.
    pub fn strength(self) -> u8 {
        match self {
            Prefix::Short | Prefix::This => 1,
            Prefix::Not => 4,
            Prefix::Plus | Prefix::Minus => 8,
            Prefix::High | Prefix::Low => 9,
            Prefix::Offset | Prefix::Seg | Prefix::Type => 10,
            Prefix::Length | Prefix::LengthOf | Prefix::Size | Prefix::SizeOf => 12,
        }
    }

    /// What it makes of its operand; THIS makes nothing without the place of its line.
    pub fn apply(self, value: Value) -> Result<Value, Reason> {
        match self {
            Prefix::This => Err(Reason::BadExpression),
            Prefix::Plus => Ok(value),
            Prefix::Minus => Value::number(0).minus(value),
            Prefix::Not => Ok(Value::number(!number_of(&value)?)),
            Prefix::High => Ok(Value::number(number_of(&value)? >> 8 & 0xFF)),
            Prefix::Low => Ok(Value::number(number_of(&value)? & 0xFF)),
            Prefix::Offset => offset_of(value),
            Prefix::Seg => paragraph_of(value),
            Prefix::Type => match width_of(&value) {
                0 => Err(Reason::NotConstant),
                width => Ok(Value::number(width)),
            },
            Prefix::Length => Ok(Value::number(count_of(&value)?.first as i64)),
            Prefix::LengthOf => Ok(Value::number(count_of(&value)?.all as i64)),
            Prefix::Size => size_of(&value, count_of(&value)?.first),
            Prefix::SizeOf => size_of(&value, count_of(&value)?.all),
            Prefix::Short => Ok(Value {
                is_short: true,
                ..value
            }),
        }
    }
}

impl Infix {
    /// The operator that a token is where none but an operator may stand; `None` if it is none.
    pub fn of(token: Token) -> Option<Infix> {
        match token {
            Token::Mark(Mark::Plus) => Some(Infix::Add),
            Token::Mark(Mark::Minus) => Some(Infix::Subtract),
            Token::Mark(Mark::Star) => Some(Infix::Multiply),
            Token::Mark(Mark::Slash) => Some(Infix::Divide),
            Token::Mark(Mark::Colon) => Some(Infix::Over),
            Token::Mark(Mark::Dot) => Some(Infix::Index),
            Token::Word(name) => Infix::of_word(name.text()),
            _ => None,
        }
    }

    /// The operator that a word is; `None` if it is none.
    fn of_word(word: &[u8]) -> Option<Infix> {
        match word {
            b"MOD" => Some(Infix::Modulo),
            b"SHL" => Some(Infix::ShiftLeft),
            b"SHR" => Some(Infix::ShiftRight),
            b"AND" => Some(Infix::And),
            b"OR" => Some(Infix::Or),
            b"XOR" => Some(Infix::Xor),
            b"EQ" => Some(Infix::Equal),
            b"NE" => Some(Infix::NotEqual),
            b"LT" => Some(Infix::Less),
            b"LE" => Some(Infix::LessEqual),
            b"GT" => Some(Infix::Greater),
            b"GE" => Some(Infix::GreaterEqual),
            b"PTR" => Some(Infix::Pointer),
            _ => None,
        }
    }

    /// How strongly it binds.
    pub fn strength(self) -> u8 {
        match self {
            Infix::Or | Infix::Xor => 2,
            Infix::And => 3,
            Infix::Equal
            | Infix::NotEqual
            | Infix::Less
            | Infix::LessEqual
            | Infix::Greater
            | Infix::GreaterEqual => 5,
            Infix::Add | Infix::Subtract => 6,
            Infix::Multiply
            | Infix::Divide
            | Infix::Modulo
            | Infix::ShiftLeft
            | Infix::ShiftRight => 7,
            Infix::Pointer => 10,
            Infix::Over => 11,
            Infix::Index => 12,
        }
    }

    /// What it makes of its operands.
    pub fn apply(self, left: Value, right: Value) -> Result<Value, Reason> {
        match self {
            Infix::Add => left.plus(right),
            Infix::Subtract => left.minus(right),
            Infix::Pointer => typed(left, right),
            Infix::Over => over(left, right),
            Infix::Index => match (left.kind, right.kind) {
                (Kind::Type(_), _) => typed(left, right),
                (Kind::Structure, _) => Ok(right),
                (_, Kind::Structure) => Ok(left),
                // a float
                (Kind::Number, Kind::Number) => Err(Reason::BadExpression),
                _ => Ok(left.plus(right)?.with_kind(Kind::Memory)),
            },
            _ => Ok(Value::number(self.calculate(number_of(&left)?, number_of(&right)?)?)),
        }
    }

    /// What it makes of two numbers.
    fn calculate(self, left: i64, right: i64) -> Result<i64, Reason> {
        match self {
            Infix::Multiply => left.checked_mul(right).ok_or(Reason::Overflow),
            Infix::Divide => left.checked_div(right).ok_or(Reason::DivisionByZero),
            Infix::Modulo => left.checked_rem(right).ok_or(Reason::DivisionByZero),
            Infix::ShiftLeft => shifted(left, right, true),
            Infix::ShiftRight => shifted(left, right, false),
            Infix::And => Ok(left & right),
            Infix::Or => Ok(left | right),
            Infix::Xor => Ok(left ^ right),
            Infix::Equal => Ok(truth(left == right)),
            Infix::NotEqual => Ok(truth(left != right)),
            Infix::Less => Ok(truth(left < right)),
            Infix::LessEqual => Ok(truth(left <= right)),
            Infix::Greater => Ok(truth(left > right)),
            Infix::GreaterEqual => Ok(truth(left >= right)),
            Infix::Add | Infix::Subtract | Infix::Pointer | Infix::Over | Infix::Index => {
                Err(Reason::BadExpression)
            }
        }
    }
}

/// -1 for true, 0 for false.
fn truth(holds: bool) -> i64 {
    if holds { -1 } else { 0 }
}

/// The 32 bits of a number, with a sign or without, shifted to the left or to the right.
fn shifted(number: i64, by: i64, is_left: bool) -> Result<i64, Reason> {
    let bits = match number {
        -0x8000_0000..=0xFFFF_FFFF => number & 0xFFFF_FFFF,
        _ => return Err(Reason::Overflow),
    };
    match by {
        0..=31 if is_left => Ok((bits << by as u32) & 0xFFFF_FFFF),
        0..=31 => Ok(bits >> by as u32),
        _ => Ok(0),
    }
}

/// The number that a value is.
fn number_of(value: &Value) -> Result<i64, Reason> {
    value.constant().ok_or(Reason::NotConstant)
}

/// How many bytes an item of what the value names has.
fn width_of(value: &Value) -> i64 {
    if let Some(width) = value.width {
        return width.bytes() as i64;
    }
    match value.kind {
        Kind::Type(Type::Data(width)) => width.bytes() as i64,
        Kind::Register(Register::Byte(_)) => 1,
        Kind::Register(_) => 2,
        Kind::Structure => value.number,
        _ => value.size as i64,
    }
}

/// The offset of what the value names.
fn offset_of(value: Value) -> Result<Value, Reason> {
    match value.kind {
        Kind::Register(_) | Kind::Type(_) => Err(Reason::BadExpression),
        _ if value.is_addressed() => Err(Reason::BadExpression),
        _ => Ok(Value {
            kind: Kind::Number,
            width: None,
            ..value
        }),
    }
}

/// The paragraph of the segment in which what the value names stands; that of a segment is known as a number.
fn paragraph_of(value: Value) -> Result<Value, Reason> {
    match (value.plus, value.kind) {
        (Some(_), _) => Ok(Value {
            plus: value.plus,
            is_paragraph: true,
            ..Value::of(Kind::Number)
        }),
        (None, Kind::Number) => Ok(value),
        _ => Err(Reason::BadExpression),
    }
}

/// How many items what the value names has.
fn count_of(value: &Value) -> Result<Count, Reason> {
    value.count.ok_or(Reason::NotConstant)
}

/// How many bytes so many items have of what the value names.
fn size_of(value: &Value, count: u32) -> Result<Value, Reason> {
    let size = width_of(value).checked_mul(count as i64);
    Ok(Value::number(size.ok_or(Reason::Overflow)?))
}

/// The value with a type.
pub fn typed(left: Value, right: Value) -> Result<Value, Reason> {
    match (left.kind, right.kind) {
        (Kind::Type(Type::Near), _) => Ok(right.with_kind(Kind::Near)),
        (Kind::Type(Type::Far), _) => Ok(right.with_kind(Kind::Far)),
        (Kind::Type(Type::Data(width)), Kind::Near | Kind::Far) => Ok(Value {
            kind: Kind::Memory,
            width: Some(width),
            ..right
        }),
        // a structure's size is that of its fields
        (Kind::Structure, _) => Ok(right),
        // a segment register may stand before the type
        (Kind::Type(Type::Data(width)), _) => Ok(Value {
            width: Some(width),
            over: left.over.or(right.over),
            ..right
        }),
        _ => Err(Reason::BadExpression),
    }
}

/// The value in the segment of a register, or of a segment's name.
fn over(left: Value, right: Value) -> Result<Value, Reason> {
    match (left.kind, right.kind) {
        (Kind::Register(Register::Segment(segment)), Kind::Type(_)) => Ok(Value {
            over: Some(segment),
            ..right
        }),
        (Kind::Register(Register::Segment(segment)), _) => Ok(Value {
            kind: Kind::Memory,
            over: Some(segment),
            ..right.addressed()?
        }),
        // the name of a segment or a group before one of its names
        (Kind::Number, _) if right.plus.is_some() => Ok(right),
        _ => Err(Reason::BadExpression),
    }
}
