//! What operands put into the parts of a row's bytes.
ghost use Rattle.std.specs.Prelude.{◌≡◌, ◌<◌, ◌≤◌};
ghost use Rattle.assembler_form.specs.OperandBytes.{escape_number, form_with, in_opcode, in_place, in_reg, place_of, place_with, place_without, register_number};

use crate::asked::Asked;
use crate::operand::{KnownMemory, KnownOperand, Number};
use crate::takes::is_within;
use dialect::register::Register;
use isa::form::{Base, Form, Place};
use isa::row::{Kind, Row};

impl Asked {
    /// The form of what a line asks in the row that was chosen for it: the row, and what the operands put into its
    /// opcode, reg, and mod and r/m.
    #[tactic(auto, unfolding(crate::specs::OperandBytes::form_with))]
    pub(crate) fn form_with(&self, row: Row) -> Form
        ensures { result ≡ form_with row self.now }
    {
        Form {
            row,
            code: self.first.code(row.first()) + self.second.code(row.second()),
            reg: self.first.reg(row.first()) + self.second.reg(row.second()),
            place: match self.first.place(row.first()) {
                Place::Absent => self.second.place(row.second()),
                place => place,
            },
        }
    }
}

/// What mod and r/m say of a base without a displacement. BP alone gets a displacement of a byte, since its bits
/// without one mean a bare offset.
fn place_without(base: Base) -> Place
    ensures { result ≡ place_without base }
{
    match base {
        Base::Bp => Place::BaseByte(base),
        _ => Place::Base(base),
    }
}

/// What mod and r/m say of a base with a displacement, in the shortest form: none for a constant 0, a byte for one from
/// -128 to 127, else a word, as for a number that isn't known yet.
fn place_with(base: Base, displacement: Number) -> Place
    ensures { result ≡ place_with base displacement }
{
    match displacement {
        Number::Constant(0) => place_without(base),
        Number::Constant(number) if is_within(number, -128, 127) => Place::BaseByte(base),
        _ => Place::BaseWord(base),
    }
}

impl KnownOperand {
    /// A register's number, as it stands in three bits of an instruction; any other operand has 0.
    fn register_number(self) -> u8
        ensures value { result ≡ register_number self }
        ensures bound { result < 8 }
    {
        match self {
            KnownOperand::Register(Register::Byte(register)) => register.number(),
            KnownOperand::Register(Register::Word(register)) => register.number(),
            KnownOperand::Register(Register::Segment(register)) => register.number(),
            _ => 0,
        }
    }

    /// The number from 0 to 63 that ESC hands to a coprocessor; any other operand has 0. Its bits go into the opcode
    /// and reg.
    fn escape_number(self) -> u8
        ensures value { result ≡ escape_number self }
        ensures bound { result < 64 }
    {
        match self {
            KnownOperand::One => 1,
            KnownOperand::Number(Number::Constant(number)) if is_within(number, 0, 63) =>
                number as u8,
            _ => 0,
        }
    }

    /// What mod and r/m name for an operand that stands there: a base with or without a displacement, a bare offset, or
    /// a register.
    fn place_named(self) -> Place
        ensures { result ≡ place_of self }
    {
        match self {
            KnownOperand::Memory(
                KnownMemory {
                    base,
                    displacement,
                    ..
                },
            ) => match base {
                Some(base) => place_with(base, displacement),
                None => Place::Direct,
            },
            _ => Place::Register(self.register_number()),
        }
    }

    /// What an operand puts into the register bits of the opcode, if the row has it as this kind: a register's number,
    /// or the upper three bits of ESC's number; else 0.
    fn code(self, kind: Kind) -> u8
        ensures value { result ≡ in_opcode kind self }
        ensures bound { result < 8 }
    {
        match kind {
            Kind::Code8 | Kind::Code16 | Kind::CodeSegment | Kind::CodeSegmentNotCs => {
                self.register_number()
            }
            Kind::EscNumber => self.escape_number() / 8,
            _ => 0,
        }
    }

    /// What an operand puts into the reg bits after the opcode, if the row has it as this kind: a register's number, or
    /// the lower three bits of ESC's number; else 0.
    fn reg(self, kind: Kind) -> u8
        ensures value { result ≡ in_reg kind self }
        ensures bound { result < 8 }
    {
        match kind {
            Kind::Reg8 | Kind::Reg16 | Kind::Segment | Kind::SegmentNotCs => self.register_number(),
            Kind::EscNumber => self.escape_number() % 8,
            _ => 0,
        }
    }

    /// What mod and r/m name for an operand, if the row has it as this kind; `Absent` if the kind doesn't stand there.
    fn place(self, kind: Kind) -> Place
        ensures { result ≡ in_place kind self }
    {
        match kind {
            Kind::Rm8 | Kind::Rm16 | Kind::Memory => self.place_named(),
            _ => Place::Absent,
        }
    }
}
