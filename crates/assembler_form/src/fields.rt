//! The numbers in a form's fields, once the operands' numbers are known.
ghost use Rattle.std.specs.Prelude.{◌≡◌, ◌-ℤ◌, ◌<◌, IfSome};
ghost use Rattle.isa.specs.Encoding.{FitsForm};
ghost use Rattle.assembler_form.specs.Fields.{byte_of, displacement_in, field_kind, modulo, number_in, segment_in, signed_byte_of, values_of, word_of};

use isa::form::{Form, Values};
use isa::layout::Field;
use isa::row::{Kind, Row};

/// The numbers that an instruction's operands name. One that no operand names is 0.
#[derive(Clone, Copy)]
pub struct Numbers {
    /// The value of the expression in brackets.
    pub displacement: i64,
    /// An immediate number, a port, a target, or a far address's offset.
    pub number: i64,
    /// A far address's segment.
    pub segment: i64,
}

/// The numbers in the fields of an instruction's bytes, for the assembler's second pass, if the next instruction stands
/// at the offset `next`. `None` if one is out of range: -128 to 255 for a byte, -32,768 to 65,535 for a word, and -128
/// to 127 for the distance of a short jump. A near target's distance wraps at 65,536.
#[tactic(auto, unfolding(crate::specs::Fields::values_of))]
pub fn values_of(form: &Form, next: i64, numbers: &Numbers) -> Option<Values>
    ensures value { result ≡ values_of form.now next numbers.now }
    ensures fits { IfSome result (FitsForm form.now) }
{
    let kind = field_kind(form.row);
    Some(Values {
        displacement: displacement_in(form.place.displacement(), numbers.displacement)?,
        number: number_in(kind, next, numbers)?,
        segment: segment_in(kind, numbers.segment)?,
    })
}

/// The kind of the operand that has a field of its own in the row's bytes, beside the displacement: an immediate
/// number, a target or an address. By it the number in the field is worked out; if no operand has one, a kind without a
/// number.
fn field_kind(row: Row) -> Kind
    ensures { result ≡ field_kind row }
{
    match row.first() {
        Kind::Imm8
        | Kind::Imm16
        | Kind::Signed8
        | Kind::Rel8
        | Kind::Rel16
        | Kind::At8
        | Kind::At16
        | Kind::Far => row.first(),
        _ => row.second(),
    }
}

/// The number in a displacement's field of this size, 0 if there is none; `None` if the displacement is out of its
/// range.
fn displacement_in(field: Field, displacement: i64) -> Option<u16>
    ensures { result ≡ displacement_in field displacement }
{
    match field {
        Field::Absent => Some(0),
        Field::Byte => signed_byte_of(displacement),
        Field::Word | Field::Far => word_of(displacement),
    }
}

/// The number in the field of an operand of this kind: an immediate number, an offset, or a target's distance from
/// `next`, the offset of the next instruction. 0 if the kind has no field; `None` if the number is out of its range.
fn number_in(kind: Kind, next: i64, numbers: &Numbers) -> Option<u16>
    ensures { result ≡ number_in kind next numbers.now }
{
    match kind {
        Kind::Imm8 => byte_of(numbers.number),
        Kind::Signed8 => signed_byte_of(numbers.number),
        Kind::Imm16 | Kind::Far => word_of(numbers.number),
        Kind::At8 | Kind::At16 => word_of(numbers.displacement),
        Kind::Rel8 => signed_byte_of(numbers.number.checked_sub(next)?),
        Kind::Rel16 => Some(difference_modulo_word(numbers.number, next)),
        _ => Some(0),
    }
}

/// The segment in the field of a far target, 0 for any other kind of operand; `None` if it is no word.
fn segment_in(kind: Kind, segment: i64) -> Option<u16>
    ensures { result ≡ segment_in kind segment }
{
    match kind {
        Kind::Far => word_of(segment),
        _ => Some(0),
    }
}

/// The byte that an immediate field has for a number, which the assembler takes signed or unsigned, from -128 to 255:
/// the number modulo 256; `None` for any other.
fn byte_of(number: i64) -> Option<u16>
    ensures { result ≡ byte_of number }
{
    match number {
        -128..=-1 => Some((number + 256) as u16),
        0..=255 => Some(number as u16),
        _ => None,
    }
}

/// A number that the processor extends by its sign, as it stands in its field of a byte: from -128 to 127, modulo 256;
/// `None` for any other. For displacements, signed immediate bytes and the distances of short jumps.
fn signed_byte_of(number: i64) -> Option<u16>
    ensures { result ≡ signed_byte_of number }
{
    match number {
        -128..=-1 => Some((number + 256) as u16),
        0..=127 => Some(number as u16),
        _ => None,
    }
}

/// A number as it stands in a field of a word: from -32,768 to 65,535, so signed or unsigned, modulo 65,536; `None` for
/// any other.
fn word_of(number: i64) -> Option<u16>
    ensures { result ≡ word_of number }
{
    match number {
        -32768..=-1 => Some((number + 65536) as u16),
        0..=65535 => Some(number as u16),
        _ => None,
    }
}

/// The distance of a near target from the next instruction, `number` less `other`, modulo 65,536: the processor's IP
/// wraps, so each target can be reached.
fn difference_modulo_word(number: i64, other: i64) -> u16
    ensures { result ≡ modulo 65536 (number -ℤ other) }
{
    let number = number.rem_euclid(65536);
    let other = other.rem_euclid(65536);
    (number - other).rem_euclid(65536) as u16
}
