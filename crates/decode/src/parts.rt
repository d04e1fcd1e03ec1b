//! What stands in the parts of an instruction's bytes.
ghost use Rattle.std.specs.Prelude.{◌≡◌, ◌≤◌, ◌<◌, length};
ghost use Rattle.isa.specs.Layout.{field_size};
ghost use Rattle.decode.specs.Decoding.{base_of, code_of, number_at, place_at, place_of, prefix_of, reg_at, segment_at, reg_of};

use isa::form::{Base, Place, Prefix, Repeat};
use isa::layout::{CodePart, Field, RegPart, Second};
use isa::register::SegmentRegister;

/// The prefix that this byte is; `None` if it is none, so that the opcode stands there.
pub(crate) fn prefix_of(byte: u8) -> Option<Prefix>
    ensures { result ≡ prefix_of byte }
{
    match byte {
        0x26 => Some(Prefix::Segment(SegmentRegister::Es)),
        0x2E => Some(Prefix::Segment(SegmentRegister::Cs)),
        0x36 => Some(Prefix::Segment(SegmentRegister::Ss)),
        0x3E => Some(Prefix::Segment(SegmentRegister::Ds)),
        0xF0 => Some(Prefix::Lock),
        0xF2 => Some(Prefix::Repeat(Repeat::Repne)),
        0xF3 => Some(Prefix::Repeat(Repeat::Rep)),
        _ => None,
    }
}

/// The register's or segment register's number that the opcode byte `byte` holds besides the row's `opcode`; 0 if the
/// row has none.
pub(crate) fn code_of(part: CodePart, opcode: u8, byte: u8) -> u8
    ensures { result ≡ code_of part opcode byte }
{
    match part {
        CodePart::Fixed => 0,
        CodePart::Register => byte.saturating_sub(opcode),
        CodePart::Segment | CodePart::SegmentNotCs => byte.saturating_sub(opcode) / 8,
    }
}

/// The number in reg of the addressing byte `byte`; 0 if reg is the row's own digit, so that a form is spelled in one
/// way.
fn reg_of(part: RegPart, byte: u8) -> u8
    ensures { result ≡ reg_of part byte }
{
    match part {
        RegPart::Digit(_) => 0,
        RegPart::Register | RegPart::Segment | RegPart::SegmentNotCs => byte / 8 % 8,
    }
}

/// The registers of an address in memory that r/m names.
fn base_of(rm: u8) -> Base
    ensures { result ≡ base_of rm }
{
    match rm {
        0 => Base::BxSi,
        1 => Base::BxDi,
        2 => Base::BpSi,
        3 => Base::BpDi,
        4 => Base::Si,
        5 => Base::Di,
        6 => Base::Bp,
        _ => Base::Bx,
    }
}

/// What mod and r/m name: a register, or an address in memory by its registers and the size of its displacement.
fn place_of(mode: u8, rm: u8) -> Place
    ensures { result ≡ place_of mode rm }
{
    match mode {
        0 if rm == 6 => Place::Direct,
        0 => Place::Base(base_of(rm)),
        1 => Place::BaseByte(base_of(rm)),
        2 => Place::BaseWord(base_of(rm)),
        _ => Place::Register(rm),
    }
}

/// The register's number in reg of the byte after the opcode; 0 if the row has no addressing byte, or a digit of its
/// own in reg.
pub(crate) fn reg_at(second: Second, byte: u8) -> u8
    ensures { result ≡ reg_at second byte }
{
    match second {
        Second::Addressing(part, _) => reg_of(part, byte),
        Second::Absent | Second::Exactly(_) => 0,
    }
}

/// What mod and r/m of the byte after the opcode name; `Absent` if the row has no addressing byte.
pub(crate) fn place_at(second: Second, byte: u8) -> Place
    ensures { result ≡ place_at second byte }
{
    match second {
        Second::Addressing(..) => place_of(byte / 64, byte % 8),
        Second::Absent | Second::Exactly(_) => Place::Absent,
    }
}

/// The number in a field at the front of `bytes`, low byte first, or the offset of a far address; 0 if there is no
/// field.
pub(crate) fn number_at(field: Field, bytes: &[u8]) -> u16
    requires { field_size field ≤ length bytes.now }
    ensures { result ≡ number_at field bytes.now }
{
    match field {
        Field::Absent => 0,
        Field::Byte => u16::from(bytes[0]),
        Field::Word | Field::Far => u16::from(bytes[0]) + 256 * u16::from(bytes[1]),
    }
}

/// The segment of a far address at the front of `bytes`, which follows the offset; 0 for any other field.
pub(crate) fn segment_at(field: Field, bytes: &[u8]) -> u16
    requires { field_size field ≤ length bytes.now }
    ensures { result ≡ segment_at field bytes.now }
{
    match field {
        Field::Far => u16::from(bytes[2]) + 256 * u16::from(bytes[3]),
        Field::Absent | Field::Byte | Field::Word => 0,
    }
}
