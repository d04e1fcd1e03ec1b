//! What is written for the operands of an instruction.
ghost use Rattle.std.specs.Prelude.{◌≡◌};
ghost use Rattle.disassembler.specs.Written.{byte_operand, byte_register, escape_operand, far_size, memory_operand, segment_register, size_beside, target_operand, tells_size, word_operand, word_register, written_operand};

use dialect::keyword::Keyword;
use dialect::register::Register;
use isa::form::{Base, Form, Place, Values, sign_extended};
use isa::operation::{Control, Operation};
use isa::register::{ByteRegister, SegmentRegister, WordRegister};
use isa::row::Kind;

/// An operand in memory, as it is written.
#[derive(Clone, Copy)]
pub struct Memory {
    /// BYTE, WORD or FAR.
    pub size: Option<Keyword>,
    pub base: Option<Base>,
    pub displacement: Option<u16>,
}

/// What is written for an operand.
#[derive(Clone, Copy)]
pub enum Written {
    Nothing,
    Register(Register),
    /// The count 1 of a shift.
    One,
    /// A number of two hexadecimal digits.
    Byte(u8),
    /// A number of four hexadecimal digits.
    Word(u16),
    /// SHORT and a target.
    Short(u16),
    /// FAR, a segment and an offset.
    Far(u16, u16),
    Memory(Memory),
}

/// What the text of an instruction has for its operand of kind `kind`, beside one of kind `other`, which may make a
/// size word needless. A near jump's target is shown as the offset to which it goes, counted from `next`, that of the
/// next instruction.
#[tactic(auto, unfolding(crate::specs::Written::written_operand))]
pub(crate) fn written_operand(
    form: &Form,
    values: Values,
    next: u16,
    kind: Kind,
    other: Kind,
) -> Written
    ensures { result ≡ written_operand form.now values next kind other }
{
    match kind {
        Kind::Nothing | Kind::Ten => Written::Nothing,
        Kind::Al => Written::Register(Register::Byte(ByteRegister::Al)),
        Kind::Ax => Written::Register(Register::Word(WordRegister::Ax)),
        Kind::Cl => Written::Register(Register::Byte(ByteRegister::Cl)),
        Kind::Dx => Written::Register(Register::Word(WordRegister::Dx)),
        Kind::One => Written::One,
        Kind::Code8 => byte_register(form.code),
        Kind::Code16 => word_register(form.code),
        Kind::CodeSegment | Kind::CodeSegmentNotCs => segment_register(form.code),
        Kind::EscNumber => escape_operand(form.code, form.reg),
        Kind::Reg8 => byte_register(form.reg),
        Kind::Reg16 => word_register(form.reg),
        Kind::Segment | Kind::SegmentNotCs => segment_register(form.reg),
        Kind::Rm8 => byte_operand(
            form.place,
            size_beside(Keyword::Byte, other),
            values.displacement,
        ),
        Kind::Rm16 => word_operand(
            form.place,
            size_beside(Keyword::Word, other),
            values.displacement,
        ),
        Kind::Memory => word_operand(
            form.place,
            far_size(form.row.operation()),
            values.displacement,
        ),
        Kind::Imm8 => Written::Byte((values.number % 256) as u8),
        Kind::Imm16 => Written::Word(values.number),
        Kind::Signed8 => Written::Word(sign_extended(values.number)),
        Kind::Rel8 => target_operand(
            form.row.operation(),
            next.wrapping_add(sign_extended(values.number)),
        ),
        Kind::Rel16 => Written::Word(next.wrapping_add(values.number)),
        Kind::At8 | Kind::At16 => Written::Memory(Memory {
            size: None,
            base: None,
            displacement: Some(values.number),
        }),
        Kind::Far => Written::Far(values.segment, values.number),
    }
}

/// The byte register with this number, as an operand of an instruction's text.
fn byte_register(number: u8) -> Written
    ensures { result ≡ byte_register number }
{
    Written::Register(Register::Byte(ByteRegister::numbered(number)))
}

/// The word register with this number, as an operand of an instruction's text.
fn word_register(number: u8) -> Written
    ensures { result ≡ word_register number }
{
    Written::Register(Register::Word(WordRegister::numbered(number)))
}

/// The segment register with this number, as an operand of an instruction's text.
fn segment_register(number: u8) -> Written
    ensures { result ≡ segment_register number }
{
    Written::Register(Register::Segment(SegmentRegister::numbered(number)))
}

/// An ESC's number, 0 to 63, as an operand of its text: the high three bits from the opcode, the low three from reg.
fn escape_operand(code: u8, reg: u8) -> Written
    ensures { result ≡ escape_operand code reg }
{
    Written::Byte(((8 * u16::from(code) + u16::from(reg)) % 256) as u8)
}

/// A short jump's target in its text; JMP has SHORT before it, since the assembler would take its near form otherwise.
fn target_operand(operation: Operation, target: u16) -> Written
    ensures { result ≡ target_operand operation target }
{
    match operation {
        Operation::Control(Control::Jmp) => Written::Short(target),
        _ => Written::Word(target),
    }
}

/// Whether an operand of this kind tells the size of the one in memory beside it, so that its text needs no BYTE or
/// WORD; a shift's CL doesn't.
fn tells_size(kind: Kind) -> bool
    ensures { result ≡ tells_size kind }
{
    matches!(
        kind,
        Kind::Reg8 | Kind::Reg16 | Kind::Segment | Kind::SegmentNotCs
    )
}

/// The size word that an operand in memory has in an instruction's text; `None` beside an operand, of kind `other`,
/// that tells the size.
fn size_beside(size: Keyword, other: Kind) -> Option<Keyword>
    ensures { result ≡ size_beside size other }
{
    if tells_size(other) { None } else { Some(size) }
}

/// The size word of an operand in memory that is neither a byte nor a word: FAR for a jump or call through it, whose
/// text needs it; `None` for LEA, LES and LDS, which have none.
fn far_size(operation: Operation) -> Option<Keyword>
    ensures { result ≡ far_size operation }
{
    match operation {
        Operation::Control(_) => Some(Keyword::Far),
        _ => None,
    }
}

/// The operand of an instruction's text for a byte that mod and r/m name: a register or memory.
fn byte_operand(place: Place, size: Option<Keyword>, displacement: u16) -> Written
    ensures { result ≡ byte_operand place size displacement }
{
    match place {
        Place::Register(number) => byte_register(number),
        _ => memory_operand(place, size, displacement),
    }
}

/// The operand of an instruction's text for a word that mod and r/m name: a register or memory.
fn word_operand(place: Place, size: Option<Keyword>, displacement: u16) -> Written
    ensures { result ≡ word_operand place size displacement }
{
    match place {
        Place::Register(number) => word_register(number),
        _ => memory_operand(place, size, displacement),
    }
}

/// The operand of an instruction's text for a place in memory, with its size word; `Nothing` for any other place.
fn memory_operand(place: Place, size: Option<Keyword>, displacement: u16) -> Written
    ensures { result ≡ memory_operand place size displacement }
{
    let (base, displacement) = match place {
        Place::Absent | Place::Register(_) => return Written::Nothing,
        Place::Direct => (None, Some(displacement)),
        Place::Base(base) => (Some(base), None),
        Place::BaseByte(base) => (Some(base), Some(sign_extended(displacement))),
        Place::BaseWord(base) => (Some(base), Some(displacement)),
    };
    Written::Memory(Memory {
        size,
        base,
        displacement,
    })
}
