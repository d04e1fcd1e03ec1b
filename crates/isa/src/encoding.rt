//! The bytes of an instruction.
ghost use Rattle.std.specs.Prelude.{◌≡◌, ◌≤◌, ◌<◌, ◌+◌, ◌/◌, ◌%◌, [], ◌∷◌, ◌++◌};
ghost use Rattle.arrayvec.specs.ArrayVec.{array_vec_len};
ghost use Rattle.isa.specs.Encoding.{addressing, code_number, encoding, field_bytes, reg_number, second_bytes, FitsCode, FitsField, FitsForm, FitsReg, FitsSecond, IsForm, IsPlace};
ghost use Rattle.isa.specs.Layout.{code_part};
ghost use Rattle.isa.specs.RowSearch.{HasDigit};

use crate::form::{Form, Place, Values};
use crate::layout::{CodePart, Field, RegPart, Second};
use arrayvec::ArrayVec;

/// Encodes an instruction without its prefixes, for the assembler and the trail. The caller sees to it that the form is
/// one of the table's, its row with what the row's parts take, and that each number fits its field and is 0 if the form
/// has no such field.
#[tactic(auto, unfolding(crate::specs::Encoding::encoding))]
pub fn encode(form: &Form, values: Values) -> ArrayVec<u8, 14>
    requires form { IsForm form.now }
    requires values { FitsForm form.now values }
    ensures { result.items ≡ encoding form.now values }
{
    let mut bytes = ArrayVec::new();
    bytes.push(opcode_byte(*form));
    push_second(&mut bytes, form.row.second_part(), form.reg, form.place);
    push_field(
        &mut bytes,
        form.place.displacement(),
        values.displacement,
        0,
    );
    push_field(&mut bytes, form.row.field(), values.number, values.segment);
    bytes
}

/// The first byte of an instruction: the row's opcode, with the register's or segment register's number that it holds.
fn opcode_byte(form: Form) -> u8
    requires { IsForm form }
    ensures { result ≡ form.row.opcode + code_number (code_part form.row) form.code }
{
    form.row.opcode() + form.row.code_part().number(form.code)
}

impl CodePart {
    /// What is added to the row's opcode for `code`, a register's or a segment register's number, to make the opcode
    /// byte.
    fn number(self, code: u8) -> u8
        requires { FitsCode self code }
        ensures { result ≡ code_number self code }
    {
        match self {
            CodePart::Fixed => 0,
            CodePart::Register => code,
            CodePart::Segment | CodePart::SegmentNotCs => 8 * code,
        }
    }
}

impl RegPart {
    /// The number to write in reg, bits 3 to 5 of the addressing byte: the row's digit, or else `reg`, the form's.
    fn number(self, reg: u8) -> u8
        ensures { result ≡ reg_number self reg }
    {
        match self {
            RegPart::Digit(digit) => digit,
            RegPart::Register | RegPart::Segment | RegPart::SegmentNotCs => reg,
        }
    }
}

/// The addressing byte, in which mod and r/m name `place` and reg holds `reg`.
fn addressing(reg: u8, place: Place) -> u8
    requires reg { reg < 8 }
    requires place { IsPlace place }
    ensures { result ≡ addressing reg place }
{
    64 * place.mode() + 8 * reg + place.rm()
}

/// Appends the byte after the opcode, if the row has one, when an instruction is encoded: the addressing byte, or the
/// fixed 0Ah of AAM and AAD.
fn push_second(bytes: &mut ArrayVec<u8, 14>, second: Second, reg: u8, place: Place)
    requires room { array_vec_len bytes.old < 14 }
    requires digit { HasDigit second }
    requires fits { FitsSecond second reg place }
    ensures items { bytes.new.items ≡ bytes.old.items ++ second_bytes second reg place }
    ensures len { array_vec_len bytes.new ≤ array_vec_len bytes.old + 1 }
{
    match second {
        Second::Absent => {}
        Second::Exactly(byte) => bytes.push(byte),
        Second::Addressing(part, _) => bytes.push(addressing(part.number(reg), place)),
    }
}

/// Appends a displacement, an immediate number or a far address to an instruction that is being encoded: 0, 1, 2 or 4
/// bytes, as `field` says. Only a far address has a segment.
fn push_field(bytes: &mut ArrayVec<u8, 14>, field: Field, number: u16, segment: u16)
    requires room { array_vec_len bytes.old + 4 ≤ 14 }
    requires fits { FitsField field number segment }
    ensures items { bytes.new.items ≡ bytes.old.items ++ field_bytes field number segment }
    ensures len { array_vec_len bytes.new ≤ array_vec_len bytes.old + 4 }
{
    match field {
        Field::Absent => {}
        Field::Byte => bytes.push(number as u8),
        Field::Word => push_word(bytes, number),
        Field::Far => {
            push_word(bytes, number);
            push_word(bytes, segment);
        }
    }
}

/// Appends a word to an instruction that is being encoded, low byte first.
fn push_word(bytes: &mut ArrayVec<u8, 14>, number: u16)
    requires { array_vec_len bytes.old + 2 ≤ 14 }
    ensures items { bytes.new.items ≡ bytes.old.items ++ (number % 256 ∷ number / 256 ∷ []) }
    ensures len { array_vec_len bytes.new ≡ array_vec_len bytes.old + 2 }
{
    bytes.push((number % 256) as u8);
    bytes.push((number / 256) as u8);
}
