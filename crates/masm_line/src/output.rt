//! Text of the dialect as it is written.
ghost use Rattle.std.specs.Prelude.{◌≤◌};

use dialect::register::Register;
use masm_text::name::Name;
use masm_text::number::Spelling;
use masm_text::refusal::{Reason, Stop};
use masm_value::value::Value;
use std::alloc::AllocError;

/// Writes a number in decimal digits.
pub fn write_number(out: &mut Vec<u8>, number: i64) -> Result<(), AllocError> {
    write_digits(out, number, 10, 1)
}

/// Writes a number to a base up to 16, in so many digits at least.
fn write_digits(out: &mut Vec<u8>, number: i64, base: u64, least: usize) -> Result<(), AllocError>
    requires some { 2 ≤ base }
    requires few { base ≤ 16 }
{
    if number < 0 {
        out.push(b'-')?;
    }
    let mut digits = [b'0'; 64];
    let mut rest = number.unsigned_abs();
    let mut first = 63;
    for index in 0..64 {
        first = 63 - index;
        digits[first] = digit_text((rest % base) as u8);
        rest /= base;
        if rest == 0 && index + 1 >= least {
            break;
        }
    }
    if digits[first] > b'9' {
        out.push(b'0')?;
    }
    out.extend_from_slice(&digits[first..])
}

/// The character of a digit below 16.
fn digit_text(digit: u8) -> u8 {
    match digit {
        0..=9 => b'0' + digit,
        _ => b'A' + (digit & 15) - 10,
    }
}

/// Writes a number as the user has spelled it, if the dialect has that.
pub fn write_spelled(
    out: &mut Vec<u8>,
    number: i64,
    spelling: Option<Spelling>,
) -> Result<(), AllocError> {
    match spelling {
        Some(Spelling::Hexadecimal(digits)) => {
            write_digits(out, number, 16, digits as usize)?;
            Ok(out.push(b'h')?)
        }
        Some(Spelling::Binary(digits)) => {
            write_digits(out, number, 2, digits as usize)?;
            Ok(out.push(b'b')?)
        }
        Some(Spelling::Character) if number != 39 && 32 <= number && number <= 126 => {
            out.push(b'\'')?;
            out.push(number as u8)?;
            Ok(out.push(b'\'')?)
        }
        _ => write_number(out, number),
    }
}

/// Writes a name as the dialect has it.
pub fn write_name(out: &mut Vec<u8>, name: Name) -> Result<(), Stop> {
    if name.is(b"$") {
        out.push(b'$')?;
        return Ok(());
    }
    let written = name.written().ok_or(Reason::LongName)?;
    out.extend_from_slice(written.spelling())?;
    Ok(())
}

/// Writes the labels and the number of a value; after registers, if `has_front` says so.
pub fn write_terms(out: &mut Vec<u8>, value: &Value, has_front: bool) -> Result<(), Stop> {
    let mut has_front = has_front;
    if let Some(name) = value.plus {
        if has_front {
            out.push(b'+')?;
        }
        if value.is_paragraph {
            out.extend_from_slice(b"SEG ")?;
        }
        write_name(out, name)?;
        has_front = true;
    }
    if let Some(name) = value.minus {
        out.push(b'-')?;
        write_name(out, name)?;
        has_front = true;
    }
    if value.number == 0 && has_front {
        return Ok(());
    }
    if has_front && value.number > 0 {
        out.push(b'+')?;
    }
    Ok(write_spelled(out, value.number, value.spelling)?)
}

/// Writes the brackets of an operand in memory.
pub fn write_brackets(out: &mut Vec<u8>, value: &Value) -> Result<(), Stop> {
    out.push(b'[')?;
    if let Some(base) = value.base {
        out.extend_from_slice(Register::Word(base).name().as_bytes())?;
    }
    if let Some(index) = value.index {
        if value.base.is_some() {
            out.push(b'+')?;
        }
        out.extend_from_slice(Register::Word(index).name().as_bytes())?;
    }
    write_terms(out, value, value.is_addressed())?;
    out.push(b']')?;
    Ok(())
}
