//! Expressions.
use crate::operator::{Infix, Prefix, typed};
use crate::symbol::Symbols;
use crate::value::{Kind, Location, Type, Value, Width};
use masm_text::name::Name;
use masm_text::number::Spelling;
use masm_text::refusal::{Reason, Stop};
use masm_text::token::{Mark, Token};
use std::alloc::{AllocError, Global};

/// An operator whose right operand isn't whole yet.
#[derive(Clone, Copy)]
enum Waiting {
    Prefix(Prefix),
    Infix(Infix),
    Parenthesis,
    Bracket,
}

impl Waiting {
    /// How strongly it binds; an open bracket not at all.
    fn strength(self) -> u8 {
        match self {
            Waiting::Prefix(prefix) => prefix.strength(),
            Waiting::Infix(infix) => infix.strength(),
            Waiting::Parenthesis | Waiting::Bracket => 0,
        }
    }
}

/// An expression of which some tokens are read.
#[derive(Drop)]
struct Reader {
    values: Vec<Value>,
    waiting: Vec<Waiting>,
    /// Whether an operand is due, rather than an operator.
    wants_value: bool,
}

/// What an expression is read in the light of: the names, and where its line stands.
#[derive(Clone, Copy)]
pub struct Light<'s> {
    pub alloc: Global,
    pub symbols: &'s Symbols,
    /// Where the line's first byte stands, if that is known.
    pub at: Option<Location>,
    /// The number of the constant that the line defines, if it defines one.
    pub constant: Option<usize>,
    /// How many labels `@@` came before the line.
    pub anonymous: u32,
    /// The procedure around the line.
    pub procedure: Option<Name>,
}

impl<'s> Light<'s> {
    /// The place of the line's first byte. In a constant's line its label is one that no user can write.
    pub fn here(&self) -> Result<Value, Stop> {
        let name = match self.constant {
            None => Name::of(b"$"),
            Some(number) => Name::of(format!(in self.alloc; "..{number}")?.as_bytes()),
        };
        Ok(Value::label(name.ok_or(Reason::LongName)?, self.at))
    }

    /// The name by which a label is known here: one of the procedure's own, if it has one.
    pub fn known_as(&self, name: Name) -> Result<Name, AllocError> {
        if !self.symbols.has_locals {
            return Ok(name);
        }
        let Some(procedure) = self.procedure else {
            return Ok(name);
        };
        match local_name(self.alloc, procedure, name)? {
            Some(local) if self.symbols.get(local).is_some() => Ok(local),
            _ => Ok(name),
        }
    }
}

/// The value of an expression.
pub fn value_of(light: Light, tokens: &[Token]) -> Result<Value, Stop> {
    let mut reader = Reader {
        values: Vec::new(light.alloc),
        waiting: Vec::new(light.alloc),
        wants_value: true,
    };
    for (place, token) in tokens.iter().enumerate() {
        let is_shorthand = is_shorthand(light, *token, tokens.get(place + 1));
        reader.take(light, *token, is_shorthand)?;
    }
    reader.finish(light)
}

/// Whether a token is `b` or `w` before a dot, which is emu8086's BYTE PTR or WORD PTR.
fn is_shorthand(light: Light, token: Token, next: Option<&Token>) -> bool {
    let is_before_dot = next.is_some_and(|next| next.is_mark(Mark::Dot));
    is_before_dot && (token.is_word(b"B") || token.is_word(b"W")) && !is_defined(light, token)
}

/// Whether the token is a name that the source defines, though it is an operator elsewhere.
fn is_defined(light: Light, token: Token) -> bool {
    match token {
        Token::Word(name) => light.symbols.get(name).is_some(),
        _ => false,
    }
}

/// The name of the label `@@` of this number, which no user can write.
pub fn anonymous_name(alloc: Global, number: u32) -> Result<Name, Stop> {
    let text = format!(in alloc; ".{number}")?;
    Ok(Name::of(text.as_bytes()).ok_or(Reason::LongName)?)
}

/// The name of a label of a procedure's own, which no user can write; `None` if it would be too long.
pub fn local_name(alloc: Global, procedure: Name, label: Name) -> Result<Option<Name>, AllocError> {
    let mut text = Vec::from_slice(alloc, procedure.spelling())?;
    text.push(b'.')?;
    text.extend_from_slice(label.spelling())?;
    Ok(Name::of(text.as_slice()))
}

impl Reader {
    /// Goes on with a token, which is shorthand for a type if `is_shorthand` says so.
    fn take(&mut self, light: Light, token: Token, is_shorthand: bool) -> Result<(), Stop> {
        if !self.wants_value {
            return self.take_operator(light, token);
        }
        if let Some(prefix) = Prefix::of(token)
            && !is_defined(light, token)
        {
            return self.wait(Waiting::Prefix(prefix));
        }
        match token {
            Token::Mark(Mark::Open) => return self.wait(Waiting::Parenthesis),
            Token::Mark(Mark::OpenBracket) => return self.wait(Waiting::Bracket),
            _ => {}
        }
        let value = match token {
            Token::Word(name) if is_shorthand => shorthand(name),
            _ => operand(light, token)?,
        };
        self.values.push(value)?;
        self.wants_value = false;
        Ok(())
    }

    /// Has an operator wait for its right operand.
    fn wait(&mut self, waiting: Waiting) -> Result<(), Stop> {
        self.waiting.push(waiting)?;
        self.wants_value = true;
        Ok(())
    }

    /// Goes on with a token where an operator is due.
    fn take_operator(&mut self, light: Light, token: Token) -> Result<(), Stop> {
        if let Some(infix) = Infix::of(token) {
            self.reduce(light, infix.strength())?;
            return self.wait(Waiting::Infix(infix));
        }
        match token {
            Token::Mark(Mark::OpenBracket) => {
                // the sign is the number's: -2[BP] is [BP-2]
                let strength = match self.waiting.last() {
                    Some(Waiting::Prefix(Prefix::Minus)) => Prefix::Minus.strength(),
                    _ => Infix::Index.strength(),
                };
                self.reduce(light, strength)?;
                self.wait(Waiting::Infix(Infix::Index))?;
                self.wait(Waiting::Bracket)
            }
            Token::Mark(Mark::Close) => {
                self.reduce(light, 1)?;
                match self.waiting.pop() {
                    Some(Waiting::Parenthesis) => Ok(()),
                    _ => Err(Stop::Refused(Reason::BadExpression)),
                }
            }
            Token::Mark(Mark::CloseBracket) => {
                self.reduce(light, 1)?;
                self.close_bracket(light)
            }
            _ => Err(Stop::Refused(Reason::BadExpression)),
        }
    }

    /// Ends what stands in brackets: memory, or with MASM a number if nothing but a number stands there.
    fn close_bracket(&mut self, light: Light) -> Result<(), Stop> {
        let (Some(Waiting::Bracket), Some(value)) = (self.waiting.pop(), self.values.pop()) else {
            return Err(Stop::Refused(Reason::BadExpression));
        };
        let is_number = value.constant().is_some() && !light.symbols.is_loose;
        let kind = if is_number {
            Kind::Number
        } else {
            Kind::Memory
        };
        self.values.push(value.addressed()?.with_kind(kind))?;
        Ok(())
    }

    /// Applies the operators that bind at least as strongly as this, the last first.
    fn reduce(&mut self, light: Light, strength: u8) -> Result<(), Stop> {
        while let Some(waiting) = self.waiting.pop() {
            if waiting.strength() < strength {
                self.waiting.push(waiting)?;
                break;
            }
            apply(&mut self.values, light, waiting)?;
        }
        Ok(())
    }

    /// The value of the whole expression.
    fn finish(mut self, light: Light) -> Result<Value, Stop> {
        if self.wants_value {
            return Err(Stop::Refused(Reason::BadExpression));
        }
        self.reduce(light, 1)?;
        match (self.values.pop(), self.waiting.is_empty()) {
            (Some(value), true) if self.values.is_empty() => Ok(value),
            _ => Err(Stop::Refused(Reason::BadExpression)),
        }
    }
}

/// Applies an operator to the last values.
fn apply(values: &mut Vec<Value>, light: Light, waiting: Waiting) -> Result<(), Stop> {
    let right = values.pop().ok_or(Reason::BadExpression)?;
    let value = match waiting {
        Waiting::Prefix(Prefix::This) => typed(right, light.here()?)?,
        Waiting::Prefix(prefix) => prefix.apply(right)?,
        Waiting::Infix(infix) => {
            let left = values.pop().ok_or(Reason::BadExpression)?;
            infix.apply(left, right)?
        }
        Waiting::Parenthesis | Waiting::Bracket => {
            return Err(Stop::Refused(Reason::BadExpression));
        }
    };
    values.push(value)?;
    Ok(())
}

/// The type that shorthand stands for.
fn shorthand(name: Name) -> Value {
    let width = if name.is(b"W") {
        Width::Word
    } else {
        Width::Byte
    };
    Value::of(Kind::Type(Type::Data(width)))
}

/// The value of a token that is an operand.
fn operand(light: Light, token: Token) -> Result<Value, Stop> {
    match token {
        Token::Number(number, spelling) => Ok(Value::spelled(number, spelling)),
        Token::Text([code], _) => Ok(Value::spelled(*code as i64, Spelling::Character)),
        Token::Text([high, low], quote) if *high == quote && *low == quote => {
            Ok(Value::spelled(quote as i64, Spelling::Character))
        }
        Token::Text([high, low], _) => Ok(Value::number(*high as i64 * 256 + *low as i64)),
        Token::Word(name) => match name.text() {
            b"@B" if light.anonymous > 0 => anonymous(light, light.anonymous),
            b"@F" => anonymous(light, light.anonymous.saturating_add(1)),
            _ => Ok(light.symbols.value(light.known_as(name)?)?),
        },
        Token::Mark(Mark::Unknown) => Ok(Value::number(0)),
        Token::Mark(Mark::Here) => light.here(),
        Token::Text(..) | Token::Mark(_) => Err(Stop::Refused(Reason::BadExpression)),
    }
}

/// The place of the label `@@` of this number.
fn anonymous(light: Light, number: u32) -> Result<Value, Stop> {
    Ok(Value::label(anonymous_name(light.alloc, number)?, None))
}
