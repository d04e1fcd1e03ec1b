//! Instructions: a row of the table with what its operands name, and the numbers in its fields.
ghost use Rattle.std.specs.Prelude.{◌≡◌, ◌≤◌, ◌+◌, length};
ghost use Rattle.isa.specs.Encoding.{base_number, displacement_field, form_length, instr_length, mod_of, prefix_byte, rm_of, sign_extended};
ghost use Rattle.isa.specs.Prefixes.{chosen_segment, repeat_of};

use crate::layout::Field;
use crate::register::SegmentRegister;
use crate::row::Row;
use arrayvec::ArrayVec;

/// A byte, extended to a word by its sign, as an 8-bit displacement, immediate or jump distance is.
pub fn sign_extended(byte: u16) -> u16
    ensures { result ≡ sign_extended byte }
{
    if byte < 128 {
        byte
    } else {
        byte.wrapping_add(0xFF00)
    }
}

/// The registers that an address in memory is made of, numbered 0 to 7 in this order as r/m.
#[derive(Clone, Copy)]
pub enum Base {
    BxSi,
    BxDi,
    BpSi,
    BpDi,
    Si,
    Di,
    Bp,
    Bx,
}

impl Base {
    /// The number by which r/m names the base, for the addressing byte of an encoding.
    pub fn number(self) -> u8
        ensures { result ≡ base_number self }
    {
        match self {
            Base::BxSi => 0,
            Base::BxDi => 1,
            Base::BpSi => 2,
            Base::BpDi => 3,
            Base::Si => 4,
            Base::Di => 5,
            Base::Bp => 6,
            Base::Bx => 7,
        }
    }
}

/// What mod and r/m name.
#[derive(Clone, Copy)]
pub enum Place {
    /// The row has no addressing byte.
    Absent,
    /// The register with this number, below 8: a byte register, a word register, by the operand.
    Register(u8),
    /// Memory at the displacement, which is a word.
    Direct,
    /// Memory at the base, without a displacement.
    Base(Base),
    /// Memory at the base and a displacement of a byte, which is extended by its sign.
    BaseByte(Base),
    /// Memory at the base and a displacement of a word.
    BaseWord(Base),
}

impl Place {
    /// The number in mod, 0 to 3, for the addressing byte of an encoding.
    pub fn mode(self) -> u8
        ensures { result ≡ mod_of self }
    {
        match self {
            Place::Absent | Place::Direct | Place::Base(_) => 0,
            Place::BaseByte(_) => 1,
            Place::BaseWord(_) => 2,
            Place::Register(_) => 3,
        }
    }

    /// The number in r/m, 0 to 7, for the addressing byte of an encoding.
    pub fn rm(self) -> u8
        ensures { result ≡ rm_of self }
    {
        match self {
            Place::Absent => 0,
            Place::Register(number) => number,
            Place::Direct => 6,
            Place::Base(base) | Place::BaseByte(base) | Place::BaseWord(base) => base.number(),
        }
    }

    /// What displacement follows the addressing byte: none, a byte or a word; it decides the instruction's length, too.
    pub fn displacement(self) -> Field
        ensures { result ≡ displacement_field self }
    {
        match self {
            Place::Absent | Place::Register(_) | Place::Base(_) => Field::Absent,
            Place::BaseByte(_) => Field::Byte,
            Place::Direct | Place::BaseWord(_) => Field::Word,
        }
    }
}

/// What an instruction is, apart from the numbers in its fields. A part that the row lacks is 0 or absent, so that
/// an instruction has one spelling.
#[derive(Clone, Copy)]
pub struct Form {
    pub row: Row,
    /// What the opcode holds beside the row's number: the number of a register or of a segment register, or an ESC's
    /// number by 8.
    pub code: u8,
    /// What reg holds, unless it is the row's digit: a register's number, or the low three bits of an ESC's number.
    pub reg: u8,
    pub place: Place,
}

impl Form {
    /// How many bytes an instruction of this form has, its prefixes not counted. The numbers in its fields don't
    /// matter, so the assembler places lines before it knows their symbols.
    #[tactic(auto, unfolding(crate::specs::Encoding::form_length))]
    pub fn length(self) -> u8
        ensures value { result ≡ form_length self }
        ensures bound { result ≤ 10 }
    {
        1 + self.row.second_part().size()
            + self.place.displacement().size()
            + self.row.field().size()
    }
}

/// The numbers in an instruction's fields, as they stand there. A field that its form lacks is 0.
#[derive(Clone, Copy)]
pub struct Values {
    /// The displacement; a byte isn't extended by its sign yet.
    pub displacement: u16,
    /// An immediate number, a relative target or an offset; a byte isn't extended by its sign yet.
    pub number: u16,
    /// The segment of a far jump or call.
    pub segment: u16,
}

/// A repeat prefix: REPNE is F2h; REP, which is REPE too, is F3h.
#[derive(Clone, Copy)]
pub enum Repeat {
    Repne,
    Rep,
}

/// A prefix byte.
#[derive(Clone, Copy, Default)]
pub enum Prefix {
    /// 26h, 2Eh, 36h, 3Eh: the segment register that takes the place of the usual one.
    Segment(SegmentRegister),
    #[default]
    Lock,
    Repeat(Repeat),
}

impl Prefix {
    /// The byte that stands for the prefix in memory, for the assembler and the trail, which write instructions out.
    pub fn byte(self) -> u8
        ensures { result ≡ prefix_byte self }
    {
        match self {
            Prefix::Segment(SegmentRegister::Es) => 0x26,
            Prefix::Segment(SegmentRegister::Cs) => 0x2E,
            Prefix::Segment(SegmentRegister::Ss) => 0x36,
            Prefix::Segment(SegmentRegister::Ds) => 0x3E,
            Prefix::Lock => 0xF0,
            Prefix::Repeat(Repeat::Repne) => 0xF2,
            Prefix::Repeat(Repeat::Rep) => 0xF3,
        }
    }
}

/// An instruction, with its prefixes in order.
#[derive(Clone, Drop)]
pub struct Instr {
    pub prefixes: ArrayVec<Prefix, 7>,
    pub form: Form,
    pub values: Values,
}

impl Instr {
    /// A copy of the instruction; it takes no memory.
    pub fn copied(&self) -> Instr
        ensures { result ≡ self.now }
    {
        let mut prefixes = ArrayVec::new();
        let _ = prefixes.try_extend_from_slice(self.prefixes.as_slice());
        Instr {
            prefixes,
            form: self.form,
            values: self.values,
        }
    }

    /// How many bytes the instruction has, its prefixes counted; its text counts a jump's target from after them.
    pub fn length(&self) -> u8
        ensures value { result ≡ instr_length self.now }
        ensures bound { result ≤ 17 }
    {
        self.prefixes.len() as u8 + self.form.length()
    }

    /// The segment register that the instruction's last segment override names, in place of the usual one for its data;
    /// `None` if it has no override.
    pub fn chosen_segment(&self) -> Option<SegmentRegister>
        ensures { result ≡ chosen_segment self.now.prefixes.items }
    {
        self.prefixes
            .as_slice()
            .iter()
            .fold(None, |chosen, prefix| match prefix {
                Prefix::Segment(segment) => Some(*segment),
                _ => chosen,
            })
    }

    /// The instruction's last repeat prefix, which is the one that counts; `None` if it has none.
    pub fn repeat(&self) -> Option<Repeat>
        ensures { result ≡ repeat_of self.now.prefixes.items }
    {
        self.prefixes
            .as_slice()
            .iter()
            .fold(None, |last, prefix| match prefix {
                Prefix::Repeat(repeat) => Some(*repeat),
                _ => last,
            })
    }
}
