//! The text of an instruction.
ghost use Rattle.std.specs.Prelude.{◌≡◌, Some, ◌++◌};
ghost use Rattle.std.specs.List.{flat_map};
ghost use Rattle.disassembler.specs.declared.written.Written.TheVariants.{Far, Short};
ghost use Rattle.disassembler.specs.Text.{address_text, base_text, body_text, byte_text, instr_text, is_nop, memory_text, operand_text, operands_text, prefix_text, size_text, word_text};

use crate::written::{Memory, Written, written_operand};
use dialect::keyword::Keyword;
use dialect::mnemonic::Mnemonic;
use dialect::name::{operation_name, prefix_name};
use isa::form::{Base, Form, Instr, Prefix, Values};
use isa::operation::{Operation, Transfer};
use isa::row::Kind;
use std::fmt;

/// A number of two hexadecimal digits.
#[derive(Clone, Copy)]
struct HexByte(u8);

impl fmt::Display for HexByte {
    ghost output = { λ n. Some (byte_text n.0) };

    /// Writes an immediate byte, a port or an interrupt's number as a 0, two hexadecimal digits and h, as the assembler
    /// reads it.
    #[tactic(auto, using(std::proofs::lemmas::Fmt::hex_byte))]
    fn fmt<W: fmt::Write>(&self, f: &mut fmt::Formatter<W>) -> fmt::Result {
        let byte = self.0;
        write!(f, "0{byte:02X}h")
    }
}

/// A number of four hexadecimal digits.
#[derive(Clone, Copy)]
struct HexWord(u16);

impl fmt::Display for HexWord {
    ghost output = { λ n. Some (word_text n.0) };

    /// Writes a word or an offset as a 0, four hexadecimal digits and h, as the assembler reads it.
    #[tactic(auto, using(std::proofs::lemmas::Fmt::hex_byte))]
    fn fmt<W: fmt::Write>(&self, f: &mut fmt::Formatter<W>) -> fmt::Result {
        let high = (self.0 / 256) as u8;
        let low = (self.0 % 256) as u8;
        write!(f, "0{high:02X}{low:02X}h")
    }
}

/// The registers of an address in memory, as they stand in the brackets of an instruction's text.
#[tactic(auto, unfolding(dialect::specs::Words::words))]
fn base_text(base: Base) -> &'static str
    ensures { result.now ≡ base_text base }
{
    match base {
        Base::BxSi => "BX+SI",
        Base::BxDi => "BX+DI",
        Base::BpSi => "BP+SI",
        Base::BpDi => "BP+DI",
        Base::Si => "SI",
        Base::Di => "DI",
        Base::Bp => "BP",
        Base::Bx => "BX",
    }
}

/// What stands in the brackets of an operand in memory.
#[derive(Clone, Copy)]
struct Address(Option<Base>, Option<u16>);

impl fmt::Display for Address {
    ghost output = { λ a. Some (address_text a.0 a.1) };

    /// Writes what stands in the brackets of an operand in memory: its registers, its displacement, or both with a plus
    /// between them.
    fn fmt<W: fmt::Write>(&self, f: &mut fmt::Formatter<W>) -> fmt::Result {
        match (self.0, self.1) {
            (None, None) => Ok(()),
            (None, Some(displacement)) => {
                let displacement = HexWord(displacement);
                write!(f, "{displacement}")
            }
            (Some(base), None) => {
                let base = base_text(base);
                write!(f, "{base}")
            }
            (Some(base), Some(displacement)) => {
                let base = base_text(base);
                let displacement = HexWord(displacement);
                write!(f, "{base}+{displacement}")
            }
        }
    }
}

/// A size word and a blank, if there is one.
#[derive(Clone, Copy)]
struct SizeWord(Option<Keyword>);

impl fmt::Display for SizeWord {
    ghost output = { λ s. Some (size_text s.0) };

    /// Writes the size word before an operand in memory, such as WORD, and a blank; nothing if it has none.
    fn fmt<W: fmt::Write>(&self, f: &mut fmt::Formatter<W>) -> fmt::Result {
        match self.0 {
            None => Ok(()),
            Some(size) => {
                let size = size.name();
                write!(f, "{size} ")
            }
        }
    }
}

impl fmt::Display for Memory {
    ghost output = { λ m. Some (memory_text m) };

    /// Writes an operand in memory for an instruction's text: its size word, if it needs one, and its address in
    /// brackets.
    fn fmt<W: fmt::Write>(&self, f: &mut fmt::Formatter<W>) -> fmt::Result {
        let size = SizeWord(self.size);
        let address = Address(self.base, self.displacement);
        write!(f, "{size}[{address}]")
    }
}

/// SHORT and a target.
#[derive(Clone, Copy)]
struct Target(u16);

impl fmt::Display for Target {
    ghost output = { λ t. Some (operand_text (Short t.0)) };

    /// Writes the operand of a short JMP: SHORT and the offset to which it goes, so that the assembler chooses the
    /// short form again.
    fn fmt<W: fmt::Write>(&self, f: &mut fmt::Formatter<W>) -> fmt::Result {
        let short = Keyword::Short.name();
        let target = HexWord(self.0);
        write!(f, "{short} {target}")
    }
}

/// FAR and a target, by its segment and offset.
#[derive(Clone, Copy)]
struct Pointer(u16, u16);

impl fmt::Display for Pointer {
    ghost output = { λ p. Some (operand_text (Far p.0 p.1)) };

    /// Writes the operand of a far jump or call: FAR, the segment, a colon and the offset.
    fn fmt<W: fmt::Write>(&self, f: &mut fmt::Formatter<W>) -> fmt::Result {
        let far = Keyword::Far.name();
        let segment = HexWord(self.0);
        let offset = HexWord(self.1);
        write!(f, "{far} {segment}:{offset}")
    }
}

impl fmt::Display for Written {
    ghost output = { λ w. Some (operand_text w) };

    /// Writes an operand of an instruction's text; nothing if there is none.
    fn fmt<W: fmt::Write>(&self, f: &mut fmt::Formatter<W>) -> fmt::Result {
        match *self {
            Written::Nothing => Ok(()),
            Written::Register(register) => {
                let name = register.name();
                write!(f, "{name}")
            }
            Written::One => write!(f, "1"),
            Written::Byte(number) => fmt::Display::fmt(&HexByte(number), f),
            Written::Word(number) => fmt::Display::fmt(&HexWord(number), f),
            Written::Short(target) => fmt::Display::fmt(&Target(target), f),
            Written::Far(segment, offset) => fmt::Display::fmt(&Pointer(segment, offset), f),
            Written::Memory(memory) => fmt::Display::fmt(&memory, f),
        }
    }
}

/// The operands after a mnemonic.
#[derive(Clone, Copy)]
struct Operands(Written, Written);

impl fmt::Display for Operands {
    ghost output = { λ o. Some (operands_text o.0 o.1) };

    /// Writes the operands after a mnemonic: a blank and the first one, then a comma and the second; nothing if there
    /// are none.
    fn fmt<W: fmt::Write>(&self, f: &mut fmt::Formatter<W>) -> fmt::Result {
        let first = self.0;
        let second = self.1;
        match (first, second) {
            (Written::Nothing, _) => Ok(()),
            (_, Written::Nothing) => write!(f, " {first}"),
            _ => write!(f, " {first},{second}"),
        }
    }
}

/// Whether the form is XCHG AX,AX in one byte (90h), which is shown as NOP.
fn is_nop(form: &Form) -> bool
    ensures { result ≡ is_nop form.now }
{
    matches!(form.row.operation(), Operation::Transfer(Transfer::Xchg))
        && matches!(form.row.first(), Kind::Ax)
        && form.code == 0
}

/// An instruction without its prefixes, and the offset of the next one.
#[derive(Drop)]
struct Body<'a> {
    form: &'a Form,
    values: Values,
    next: u16,
}

impl fmt::Display for Body<'_> {
    ghost output = { λ b. Some (body_text b.form.now b.values b.next) };

    /// Writes an instruction without its prefixes: its mnemonic and operands; XCHG AX,AX as NOP.
    #[tactic(auto, unfolding(crate::specs::Text::body_text))]
    fn fmt<W: fmt::Write>(&self, f: &mut fmt::Formatter<W>) -> fmt::Result {
        let row = self.form.row;
        if is_nop(self.form) {
            let name = Mnemonic::Nop.name();
            return write!(f, "{name}");
        }
        let name = operation_name(row.operation());
        let first = written_operand(self.form, self.values, self.next, row.first(), row.second());
        let second = written_operand(self.form, self.values, self.next, row.second(), row.first());
        let operands = Operands(first, second);
        write!(f, "{name}{operands}")
    }
}

/// A prefix as it is written, and a blank.
#[derive(Clone, Copy)]
struct PrefixWord(Prefix);

impl fmt::Display for PrefixWord {
    ghost output = { λ p. Some (prefix_text p.0) };

    /// Writes a prefix and a blank, as they stand before a mnemonic; a segment override has a colon between them.
    fn fmt<W: fmt::Write>(&self, f: &mut fmt::Formatter<W>) -> fmt::Result {
        let name = prefix_name(self.0);
        match self.0 {
            Prefix::Segment(_) => write!(f, "{name}: "),
            Prefix::Lock | Prefix::Repeat(_) => write!(f, "{name} "),
        }
    }
}

/// Prefixes as they are written, in their order.
#[derive(Clone, Copy)]
struct Prefixes<'a>(&'a [Prefix]);

impl fmt::Display for Prefixes<'_> {
    ghost output = { λ p. Some (flat_map prefix_text p.0.now) };

    /// Writes an instruction's prefixes, in their order, before its mnemonic.
    fn fmt<W: fmt::Write>(&self, f: &mut fmt::Formatter<W>) -> fmt::Result {
        for prefix in self.0 {
            let word = PrefixWord(*prefix);
            write!(f, "{word}")?;
        }
        Ok(())
    }
}

/// An instruction that stands at an offset of the code segment, shown as text in the assembler's dialect: prefix words
/// in their order, the operation's first mnemonic, and the operands, joined by a comma. Numbers are a `0`, two or four
/// hexadecimal digits in upper case and `h`; a jump's target is an offset. `REP MOVSB`, `ADD WORD [BX+00201h],00403h`.
#[derive(Drop)]
pub struct InstrText<'a> {
    pub instr: &'a Instr,
    /// The offset of the instruction's first byte.
    pub ip: u16,
}

impl fmt::Display for InstrText<'_> {
    ghost output = { λ t. Some (instr_text t.instr.now t.ip) };

    /// Writes an instruction's text in the assembler's dialect, for the trail and the probe's listings.
    #[tactic(auto, unfolding(crate::specs::Text::instr_text))]
    fn fmt<W: fmt::Write>(&self, f: &mut fmt::Formatter<W>) -> fmt::Result {
        let prefixes = Prefixes(self.instr.prefixes.as_slice());
        let body = Body {
            form: &self.instr.form,
            values: self.instr.values,
            next: self.ip.wrapping_add(u16::from(self.instr.length())),
        };
        write!(f, "{prefixes}{body}")
    }
}
