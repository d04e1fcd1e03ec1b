//! What instructions in memory do, as text.
ghost use Rattle.std.specs.Prelude.{◌≡◌, ◌++◌, IfOk, OnOk, Some};
ghost use Rattle.std.specs.String.{string_bytes};
ghost use Rattle.probe_texts.specs.FormLines.{alters_text, changes_text, clocks_text, done_text, either_text, flow_word, leads_text, letter, move_text, or_word, port_text, reaches_text, sets_text, signed_text, target_text, with_name};

use crate::inquiry::Place;
use board_types::choice::ClockTable;
use board_types::digits::HexByte;
use board_types::regs::Flags;
use decode::decoding::Decoding;
use forms::accesses::{PortAccess, PortName, accesses_of, port_of};
use forms::changes::{alters_of, sets_segment, sets_word};
use forms::flow::{Flow, Target, flow_of, target_of};
use forms::stack::{StackMove, move_of};
use forms::step_clocks::{StepClocks, clocks_told};
use isa::form::Instr;
use isa::register::{SegmentRegister, WordRegister};
use std::alloc::{AllocError, Global};
use std::fmt;

/// Adds what an instruction at a place does, or that a byte which begins none does nothing, up to its line's end.
pub(crate) fn push_form(
    text: &mut String,
    stands: &Decoding,
    place: Place,
) -> Result<(), AllocError>
    ensures { OnOk result
        (string_bytes text.new ≡ string_bytes text.old ++ done_text stands.now place.segment place.offset) }
{
    match stands {
        Decoding::Found(instr, size) => {
            push_leads(text, instr, place.after(u16::from(*size)))?;
            push_changes(text, instr)?;
            push_reaches(text, instr)
        }
        Decoding::NoRow => text.push_str(
            " does nothing to none sp 0 sets none alters - mem 0 0 ports none clocks 0 0\n",
        ),
    }
}

/// Adds where an instruction leads and how it moves SP; the next one stands at `next`.
#[tactic(auto, unfolding(crate::specs::FormLines::leads_text))]
fn push_leads(text: &mut String, instr: &Instr, next: Place) -> Result<(), AllocError>
    ensures { OnOk result
        (string_bytes text.new ≡ string_bytes text.old ++ leads_text instr.now next.segment next.offset) }
{
    let flow = flow_word(flow_of(instr));
    let target = TargetText(target_of(instr), next);
    let by = MoveText(move_of(instr));
    write!(text, " does {flow} to {target} sp {by}")
}

/// The word for how an instruction leads on.
fn flow_word(flow: Flow) -> &'static str
    ensures { result.now ≡ flow_word flow }
{
    match flow {
        Flow::Next => "next",
        Flow::Jump => "jump",
        Flow::Branch => "branch",
        Flow::Call => "call",
        Flow::Return => "return",
        Flow::Enter => "enter",
        Flow::MayEnter => "may-enter",
        Flow::Halt => "halt",
        Flow::Repeat => "repeat",
    }
}

/// Where an instruction leads, if the next one stands at this place.
#[derive(Clone, Copy)]
struct TargetText(Target, Place);

impl fmt::Display for TargetText {
    ghost output = { λ t. Some (target_text t.0 t.1.segment t.1.offset) };

    /// Writes the place, if the instruction's bytes tell it, else what has it.
    fn fmt<W: fmt::Write>(&self, f: &mut fmt::Formatter<W>) -> fmt::Result {
        let next = self.1;
        match self.0 {
            Target::Next => write!(f, "{next}"),
            Target::Relative(distance) => {
                let place = next.after(distance);
                write!(f, "{place}")
            }
            Target::Far(segment, offset) => {
                let place = Place { segment, offset };
                write!(f, "{place}")
            }
            Target::Register => f.write_str("register"),
            Target::Memory => f.write_str("memory"),
            Target::Stack => f.write_str("stack"),
            Target::Vector(kind) => {
                let kind = HexByte(kind);
                write!(f, "vector {kind}")
            }
        }
    }
}

/// How SP moves.
#[derive(Clone, Copy)]
struct MoveText(StackMove);

impl fmt::Display for MoveText {
    ghost output = { λ m. Some (move_text m.0) };

    /// Writes the bytes by which SP moves, those if an interrupt is entered before a 0, or `loads`.
    fn fmt<W: fmt::Write>(&self, f: &mut fmt::Formatter<W>) -> fmt::Result {
        match self.0 {
            StackMove::By(bytes) => {
                let bytes = Signed(bytes);
                write!(f, "{bytes}")
            }
            StackMove::Or(bytes) => {
                let bytes = Signed(bytes);
                write!(f, "{bytes}/0")
            }
            StackMove::Loads => f.write_str("loads"),
        }
    }
}

/// Bytes by which SP moves, where it wraps.
#[derive(Clone, Copy)]
struct Signed(u16);

impl fmt::Display for Signed {
    ghost output = { λ n. Some (signed_text n.0) };

    /// Writes the upper half of all numbers as those below 0.
    fn fmt<W: fmt::Write>(&self, f: &mut fmt::Formatter<W>) -> fmt::Result {
        let up = self.0;
        if up <= 32767 {
            return write!(f, "{up}");
        }
        let down = 65536 - u32::from(up);
        write!(f, "-{down}")
    }
}

/// Adds which registers and flags an instruction may change.
#[tactic(auto, unfolding(crate::specs::FormLines::changes_text))]
fn push_changes(text: &mut String, instr: &Instr) -> Result<(), AllocError>
    ensures { OnOk result (string_bytes text.new ≡ string_bytes text.old ++ changes_text instr.now) }
{
    let sets = sets_text(*text.allocator(), instr)?;
    let sets = or_word(sets.as_str(), "none");
    let alters = alters_text(*text.allocator(), alters_of(instr))?;
    let alters = or_word(alters.as_str(), "-");
    write!(text, " sets {sets} alters {alters}")
}

/// Returns the names of the registers that an instruction may change, with commas between them.
#[tactic(auto, unfolding(crate::specs::FormLines::sets_text))]
fn sets_text(alloc: Global, instr: &Instr) -> Result<String, AllocError>
    ensures { IfOk result (λ text. string_bytes text ≡ sets_text instr.now) }
{
    let mut text = String::new(alloc);
    push_name(&mut text, sets_word(instr, WordRegister::Ax), "AX")?;
    push_name(&mut text, sets_word(instr, WordRegister::Bx), "BX")?;
    push_name(&mut text, sets_word(instr, WordRegister::Cx), "CX")?;
    push_name(&mut text, sets_word(instr, WordRegister::Dx), "DX")?;
    push_name(&mut text, sets_word(instr, WordRegister::Sp), "SP")?;
    push_name(&mut text, sets_word(instr, WordRegister::Bp), "BP")?;
    push_name(&mut text, sets_word(instr, WordRegister::Si), "SI")?;
    push_name(&mut text, sets_word(instr, WordRegister::Di), "DI")?;
    push_name(&mut text, sets_segment(instr, SegmentRegister::Ds), "DS")?;
    push_name(&mut text, sets_segment(instr, SegmentRegister::Es), "ES")?;
    push_name(&mut text, sets_segment(instr, SegmentRegister::Ss), "SS")?;
    Ok(text)
}

/// Adds a name to others, if it is to be there, after a comma if there are any.
#[tactic(auto, unfolding(crate::specs::FormLines::with_name))]
fn push_name(text: &mut String, is_there: bool, name: &str) -> Result<(), AllocError>
    ensures { OnOk result (string_bytes text.new ≡ with_name (string_bytes text.old) is_there name.now) }
{
    if !is_there {
        return Ok(());
    }
    let comma = if text.as_str().is_empty() { "" } else { "," };
    write!(text, "{comma}{name}")
}

/// A text, or a word if the text is empty.
fn or_word<'a>(text: &'a str, word: &'a str) -> &'a str
    ensures { result.now ≡ or_word text.now word.now }
{
    if text.is_empty() { word } else { text }
}

/// Returns the letters of the flags that an instruction may change.
#[tactic(auto, unfolding(crate::specs::FormLines::alters_text))]
fn alters_text(alloc: Global, flags: Flags) -> Result<String, AllocError>
    ensures { IfOk result (λ text. string_bytes text ≡ alters_text flags) }
{
    let o = letter(flags.overflow, "O");
    let d = letter(flags.direction, "D");
    let i = letter(flags.interrupt_enable, "I");
    let t = letter(flags.trap, "T");
    let s = letter(flags.sign, "S");
    let z = letter(flags.zero, "Z");
    let a = letter(flags.auxiliary_carry, "A");
    let p = letter(flags.parity, "P");
    let c = letter(flags.carry, "C");
    format!(in alloc; "{o}{d}{i}{t}{s}{z}{a}{p}{c}")
}

/// A flag's letter, if the flag may change.
fn letter(is_there: bool, name: &'static str) -> &'static str
    ensures { result.now ≡ letter is_there name.now }
{
    if is_there { name } else { "" }
}

/// Adds what an instruction reaches, and its clocks by both tables: the line's end.
#[tactic(auto, unfolding(crate::specs::FormLines::reaches_text))]
fn push_reaches(text: &mut String, instr: &Instr) -> Result<(), AllocError>
    ensures { OnOk result (string_bytes text.new ≡ string_bytes text.old ++ reaches_text instr.now) }
{
    let entered = accesses_of(instr, true);
    let not = accesses_of(instr, false);
    let read = Either(entered.read, not.read);
    let written = Either(entered.written, not.written);
    let port = PortText(port_of(instr));
    let first = ClocksText(clocks_told(instr, ClockTable::C1));
    let second = ClocksText(clocks_told(instr, ClockTable::C2));
    write!(
        text,
        " mem {read} {written} ports {port} clocks {first} {second}\n"
    )
}

/// A number if an interrupt is entered, and one if it isn't.
#[derive(Clone, Copy)]
struct Either(u8, u8);

impl fmt::Display for Either {
    ghost output = { λ n. Some (either_text n.0 n.1) };

    /// Writes both with a slash between them, or one if they are the same.
    fn fmt<W: fmt::Write>(&self, f: &mut fmt::Formatter<W>) -> fmt::Result {
        let entered = self.0;
        let not = self.1;
        if entered == not {
            return write!(f, "{not}");
        }
        write!(f, "{entered}/{not}")
    }
}

/// The port that an instruction reaches.
#[derive(Clone, Copy)]
struct PortText(Option<PortAccess>);

impl fmt::Display for PortText {
    ghost output = { λ p. Some (port_text p.0) };

    /// Writes the direction, the number that stands in the instruction or DX, and how many bytes there are, or `none`.
    fn fmt<W: fmt::Write>(&self, f: &mut fmt::Formatter<W>) -> fmt::Result {
        let Some(port) = self.0 else {
            return f.write_str("none");
        };
        let direction = if port.is_read { "in," } else { "out," };
        let size = if port.is_word { ",2" } else { ",1" };
        match port.name {
            PortName::InDx => write!(f, "{direction}DX{size}"),
            PortName::Number(number) => {
                let number = HexByte((number % 256) as u8);
                write!(f, "{direction}{number}{size}")
            }
        }
    }
}

/// An instruction's clocks by a table.
#[derive(Clone, Copy)]
struct ClocksText(StepClocks);

impl fmt::Display for ClocksText {
    ghost output = { λ c. Some (clocks_text c.0) };

    /// Writes a number, or how the clocks depend on what isn't in the instruction's bytes.
    fn fmt<W: fmt::Write>(&self, f: &mut fmt::Formatter<W>) -> fmt::Result {
        match self.0 {
            StepClocks::Always(clocks) => write!(f, "{clocks}"),
            StepClocks::Either(taken, not) => write!(f, "{taken}/{not}"),
            StepClocks::Counted(clocks) => write!(f, "{clocks}+4cl"),
            StepClocks::Repeated(once, each) => write!(f, "{once}+{each}n"),
        }
    }
}
