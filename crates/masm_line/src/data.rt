//! The items of lines of data.
use crate::output::{write_name, write_number, write_terms};
use crate::statement::{around_dup, inside, split_item};
use masm_text::number::Spelling;
use masm_text::refusal::{Reason, Stop};
use masm_text::token::Token;
use masm_value::expression::{Light, value_of};
use masm_value::symbol::Symbol;
use masm_value::value::{Count, Kind, Value, Width};
use std::alloc::AllocError;

/// How long the text of a line of data may become.
const TEXT_LIMIT: usize = 0x4_0000;

/// How deep DUP may stand in DUP.
const DUP_LIMIT: u8 = 8;

/// How items are written.
#[derive(Clone, Copy)]
struct Form {
    width: Width,
    /// How many words each item is written as; 0 for one item of its width.
    words: u8,
    /// Whether a DUP in a DUP is written as often as it says. Its items are counted without that.
    is_whole: bool,
}

/// The items of a line of data in the dialect.
#[derive(Drop)]
struct Items {
    text: Vec<u8>,
    /// How many items they are, each as often as DUP says.
    count: u32,
    /// Whether a DUP stands among them.
    has_dup: bool,
}

/// How many items of this width a line places.
pub fn count_of_items(light: Light, width: Width, tokens: &[Token]) -> Result<Count, Stop> {
    let form = Form {
        is_whole: false,
        ..form_of(light, width, tokens)
    };
    let items = items_of(light, form, tokens, DUP_LIMIT)?;
    let (first, _) = split_item(tokens);
    let first = match around_dup(first) {
        Some((count, _)) => dup_count(light, count)?,
        None => 1,
    };
    Ok(Count {
        all: items.count,
        first,
    })
}

/// The line of the dialect that places data of this width.
pub fn data_text(light: Light, width: Width, tokens: &[Token]) -> Result<Vec<u8>, Stop> {
    let form = form_of(light, width, tokens);
    let directive: &[u8] = match width {
        Width::Byte => b"DB ",
        Width::Double if form.words == 0 => b"DD ",
        _ => b"DW ",
    };
    let mut text = Vec::from_slice(light.alloc, directive)?;
    let items = items_of(light, form, tokens, DUP_LIMIT)?;
    text.extend_from_slice(items.text.as_slice())?;
    Ok(text)
}

/// How the items of a line are written: double words as words if a label stands there, whose segment MASM adds.
fn form_of(light: Light, width: Width, tokens: &[Token]) -> Form {
    let words = match width {
        Width::Byte | Width::Word => 0,
        Width::Double if tokens.iter().any(|token| is_place(light, token)) => 2,
        Width::Double => 0,
        Width::Quad => 4,
        Width::Ten => 5,
    };
    Form {
        width,
        words,
        is_whole: true,
    }
}

/// Whether the token is a label or the name of data.
fn is_place(light: Light, token: &Token) -> bool {
    match token {
        Token::Word(name) => matches!(
            light.symbols.get(*name),
            Some(Symbol::Near(_) | Symbol::Far | Symbol::Variable(_))
        ),
        _ => false,
    }
}

/// The items of a line of data, in which DUP stands in DUP at most `depth` times.
fn items_of(light: Light, form: Form, tokens: &[Token], depth: u8) -> Result<Items, Stop> {
    let mut items = Items {
        text: Vec::new(light.alloc),
        count: 0,
        has_dup: false,
    };
    let mut left = Some(tokens);
    while let Some(tokens) = left {
        let (item, after) = split_item(tokens);
        if !items.text.is_empty() {
            items.text.push(b',')?;
        }
        match around_dup(item) {
            Some((count, repeated)) => {
                if depth == 0 {
                    return Err(Stop::Refused(Reason::TooDeep));
                }
                let inner = inside(repeated).ok_or(Reason::BadData)?;
                let once = items_of(light, form, inner, depth - 1)?;
                let times = dup_count(light, count)?;
                repeat(&mut items, form, &once, times)?;
            }
            None => write_item(light, &mut items, form, item)?,
        }
        left = after;
    }
    Ok(items)
}

/// The count before DUP.
fn dup_count(light: Light, tokens: &[Token]) -> Result<u32, Stop> {
    let value = value_of(light, tokens)?;
    match value.constant().ok_or(Reason::NotConstant)? {
        count @ 1..=65535 => Ok(count as u32),
        _ => Err(Stop::Refused(Reason::BadData)),
    }
}

/// How many instances of a structure the tokens before DUP say, one if there are none.
pub fn instance_count(light: Light, tokens: &[Token]) -> Result<u32, Stop> {
    match tokens {
        [] => Ok(1),
        _ => dup_count(light, tokens),
    }
}

/// Adds items so many times.
fn repeat(items: &mut Items, form: Form, once: &Items, times: u32) -> Result<(), Stop> {
    let count = once.count.checked_mul(times).ok_or(Reason::Overflow)?;
    items.count = items.count.checked_add(count).ok_or(Reason::Overflow)?;
    items.has_dup = true;
    if !once.has_dup || !form.is_whole {
        write_number(&mut items.text, times as i64)?;
        items.text.extend_from_slice(b" DUP(")?;
        items.text.extend_from_slice(once.text.as_slice())?;
        items.text.push(b')')?;
        return Ok(());
    }
    for time in 0..times {
        if items.text.len() > TEXT_LIMIT {
            return Err(Stop::Refused(Reason::TooLong));
        }
        if time > 0 {
            items.text.push(b',')?;
        }
        items.text.extend_from_slice(once.text.as_slice())?;
    }
    Ok(())
}

/// Adds an item that isn't repeated.
fn write_item(light: Light, items: &mut Items, form: Form, item: &[Token]) -> Result<(), Stop> {
    if let [Token::Text(text, quote)] = item
        && form.width == Width::Byte
    {
        let count = write_text(&mut items.text, text, *quote)?;
        items.count = items.count.checked_add(count).ok_or(Reason::Overflow)?;
        return Ok(());
    }
    items.count = items.count.checked_add(1).ok_or(Reason::Overflow)?;
    let value = value_of(light, item)?.narrowed(Some(form.width));
    match value.kind {
        Kind::Register(_) | Kind::Type(_) => Err(Stop::Refused(Reason::BadData)),
        _ if value.is_addressed() || !fits(form.width, value.constant()) => {
            Err(Stop::Refused(Reason::BadData))
        }
        _ if form.words > 0 => write_words(&mut items.text, form, &value),
        _ => write_terms(&mut items.text, &value, false),
    }
}

/// Whether a number is one of so many bytes, with a sign or without; what isn't known yet may be.
fn fits(width: Width, number: Option<i64>) -> bool {
    match (width, number) {
        (Width::Byte, Some(number)) => -0x80 <= number && number <= 0xFF,
        (Width::Word, Some(number)) => -0x8000 <= number && number <= 0xFFFF,
        (Width::Double, Some(number)) => -0x8000_0000 <= number && number <= 0xFFFF_FFFF,
        _ => true,
    }
}

/// Writes an item as words: a place as its offset and its segment, a number from its lowest word on.
fn write_words(out: &mut Vec<u8>, form: Form, value: &Value) -> Result<(), Stop> {
    if let Some(number) = value.constant() {
        return match (form.width, value.spelling) {
            (Width::Ten, Some(Spelling::Decimal)) => write_decimal_words(out, number),
            _ => write_number_words(out, form, number),
        };
    }
    let name = value.plus.ok_or(Reason::BadData)?;
    if form.width != Width::Double {
        return Err(Stop::Refused(Reason::BadData));
    }
    write_terms(out, value, false)?;
    if matches!(value.kind, Kind::Number) {
        return Ok(out.extend_from_slice(b",0")?);
    }
    out.extend_from_slice(b",SEG ")?;
    write_name(out, name)
}

/// Writes a number as words, from its lowest one on.
fn write_number_words(out: &mut Vec<u8>, form: Form, number: i64) -> Result<(), Stop> {
    for place in 0..form.words {
        if place > 0 {
            out.push(b',')?;
        }
        // a fifth word, of ten bytes, has the sign alone
        write_number(out, number >> (16 * place as u32).min(63) & 0xFFFF)?;
    }
    Ok(())
}

/// Writes a number as ten bytes, of which nine have two decimal digits each, from the lowest ones on, and the last one
/// the sign.
fn write_decimal_words(out: &mut Vec<u8>, number: i64) -> Result<(), Stop> {
    let mut rest = number.unsigned_abs();
    if rest >= 1_000_000_000_000_000_000 {
        return Err(Stop::Refused(Reason::BadData));
    }
    for place in 0..5 {
        let sign = if number < 0 && place == 4 { 0x8000 } else { 0 };
        if place > 0 {
            out.push(b',')?;
        }
        write_number(out, decimal_word((rest % 10_000) as i64) | sign)?;
        rest /= 10_000;
    }
    Ok(())
}

/// The word that has the four decimal digits of a number in half a byte each.
fn decimal_word(digits: i64) -> i64 {
    digits % 10 | digits / 10 % 10 << 4 | digits / 100 % 10 << 8 | digits / 1000 % 10 << 12
}

/// Writes the characters of a text, and says how many they are: those that the dialect takes between quotes, the others
/// by their codes. A quote that stands twice is one.
fn write_text(out: &mut Vec<u8>, text: &[u8], quote: u8) -> Result<u32, Stop> {
    let mut count = 0u32;
    let mut is_open = false;
    let mut rest = text;
    while let [first, after @ ..] = rest {
        rest = after;
        if *first == quote
            && let [_, later @ ..] = after
        {
            rest = later;
        }
        is_open = write_character(out, *first, count > 0, is_open)?;
        count = count.checked_add(1).ok_or(Reason::Overflow)?;
    }
    if is_open {
        out.push(b'\'')?;
    }
    if count == 0 {
        return Err(Stop::Refused(Reason::BadData));
    }
    Ok(count)
}

/// Writes a character of a text, after others if `has_front` says so, and in quotes that are open if `is_open` does;
/// says whether quotes are open then.
fn write_character(
    out: &mut Vec<u8>,
    byte: u8,
    has_front: bool,
    is_open: bool,
) -> Result<bool, AllocError> {
    let is_plain = matches!(byte, b' '..=b'~') && byte != b'\'';
    if is_open && !is_plain {
        out.push(b'\'')?;
    }
    if has_front && !(is_open && is_plain) {
        out.push(b',')?;
    }
    if !is_plain {
        write_number(out, byte as i64)?;
        return Ok(false);
    }
    if !is_open {
        out.push(b'\'')?;
    }
    out.push(byte)?;
    Ok(true)
}
