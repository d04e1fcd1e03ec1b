//! Instructions.
use crate::output::{write_brackets, write_terms};
use crate::statement::{is_among, split_item};
use dialect::meaning::{Meaning, meaning_of};
use dialect::mnemonic::Mnemonic;
use dialect::register::Register;
use isa::operation::{Control, Operation, Product, Transfer};
use isa::register::{SegmentRegister, WordRegister};
use masm_text::name::Name;
use masm_text::refusal::{Reason, Stop};
use masm_text::token::{Mark, Token};
use masm_value::expression::{Light, value_of};
use masm_value::value::{Kind, Value, Width};
use std::alloc::AllocError;

/// Which segments the segment registers are assumed to hold.
#[derive(Clone, Copy)]
pub struct Assumed {
    pub data: Option<usize>,
    pub extra: Option<usize>,
    pub stack: Option<usize>,
}

/// Where an instruction stands.
#[derive(Clone, Copy)]
pub struct Around {
    /// Whether it stands in a far procedure.
    pub is_far: bool,
    /// The segment in which it stands.
    pub segment: usize,
    pub assumed: Assumed,
}

/// What an instruction is written by.
#[derive(Clone, Copy)]
struct Setting<'s> {
    light: Light<'s>,
    around: Around,
    mnemonic: Mnemonic,
}

/// An instruction's operands.
#[derive(Clone, Copy)]
struct Operands {
    left: Option<Value>,
    right: Option<Value>,
}

impl<'s> Setting<'s> {
    /// The transfer that the mnemonic stands for, if it is one.
    fn transfer(&self) -> Option<Transfer> {
        match self.mnemonic {
            Mnemonic::Plain(Operation::Transfer(transfer)) => Some(transfer),
            _ => None,
        }
    }

    /// Whether the mnemonic is JMP or CALL.
    fn is_jump(&self) -> bool {
        matches!(self.mnemonic, Mnemonic::Jmp | Mnemonic::Call)
    }

    /// Whether the mnemonic is a shift or a rotation.
    fn is_shift(&self) -> bool {
        matches!(self.mnemonic, Mnemonic::Plain(Operation::Shift(_)))
    }

    /// How many times a shift is to be made: as often as a number says, which an 8086 doesn't take.
    fn times(&self, right: Option<Value>) -> u8 {
        match right.and_then(|value| value.constant()) {
            Some(times @ 1..=31) if self.is_shift() => times as u8,
            _ => 1,
        }
    }
}

/// The prefixes before a mnemonic, the mnemonic, what it means to the dialect, and what follows it.
#[derive(Drop)]
struct Split<'t, 'a> {
    front: Vec<u8>,
    word: Name,
    meaning: Option<Meaning>,
    rest: &'t [Token<'a>],
}

/// The lines that an instruction becomes: one, or more for a shift by a number.
pub fn instruction_lines(
    light: Light,
    around: Around,
    first: Name,
    rest: &[Token],
) -> Result<Vec<Vec<u8>>, Stop> {
    let Split {
        mut front,
        word,
        meaning,
        rest,
    } = after_prefixes(light, first, rest)?;
    let Some(Meaning::Mnemonic(mnemonic)) = meaning else {
        return other_lines(light, front, word, rest);
    };
    let setting = Setting {
        light,
        around,
        mnemonic,
    };
    let operands = operands_of(light, without_colon(rest))?;
    if is_later(mnemonic, operands) {
        return Err(Stop::Refused(Reason::LaterProcessor));
    }
    if matches!(setting.transfer(), Some(Transfer::Xlat)) {
        write_override(&mut front, operands.left)?;
    }
    front.extend_from_slice(mnemonic_text(setting, &word))?;
    let mut lines = Vec::new(light.alloc);
    for _ in 0..setting.times(operands.right) {
        let mut line = Vec::from_slice(light.alloc, front.as_slice())?;
        write_operands(&mut line, setting, operands)?;
        lines.push(line)?;
    }
    Ok(lines)
}

/// Takes the prefixes off an instruction.
fn after_prefixes<'t, 'a>(
    light: Light,
    first: Name,
    rest: &'t [Token<'a>],
) -> Result<Split<'t, 'a>, Stop> {
    let mut front = Vec::new(light.alloc);
    let mut word = first;
    let mut meaning = meaning_of(word.text());
    let mut rest = rest;
    while let [second, after @ ..] = rest {
        if matches!(meaning, Some(Meaning::Prefix(_))) {
            let Some(next) = second.word() else {
                break;
            };
            front.extend_from_slice(word.spelling())?;
            front.push(b' ')?;
            word = next;
            rest = after;
        } else if let [third, later @ ..] = after
            && let Some(next) = third.word()
            && second.is_mark(Mark::Colon)
        {
            front.extend_from_slice(word.spelling())?;
            front.extend_from_slice(b": ")?;
            word = next;
            rest = later;
        } else {
            break;
        }
        meaning = meaning_of(word.text());
    }
    Ok(Split {
        front,
        word,
        meaning,
        rest,
    })
}

/// Whether the instruction has a form that later processors added.
fn is_later(mnemonic: Mnemonic, operands: Operands) -> bool {
    match mnemonic {
        Mnemonic::Plain(Operation::Product(Product::Imul)) => operands.right.is_some(),
        Mnemonic::Plain(Operation::Transfer(Transfer::Push)) => {
            operands
                .left
                .is_some_and(|left| matches!(left.kind, Kind::Number))
        }
        _ => false,
    }
}

/// Writes an instruction's operands; of a shift that is made again and again the count is one.
fn write_operands(out: &mut Vec<u8>, setting: Setting, operands: Operands) -> Result<(), Stop> {
    let Operands { left, right } = operands;
    if matches!(setting.transfer(), Some(Transfer::Xlat)) {
        return Ok(());
    }
    if let Some(value) = left {
        out.push(b' ')?;
        write_operand(out, setting, value, right)?;
    }
    if let Some(value) = right {
        out.push(b',')?;
        if setting.times(right) > 1 {
            out.push(b'1')?;
        } else {
            write_operand(out, setting, value, left)?;
        }
    }
    Ok(())
}

/// The tokens without a colon at their end, which emu8086 takes after a target.
fn without_colon<'t, 'a>(tokens: &'t [Token<'a>]) -> &'t [Token<'a>] {
    match tokens {
        [front @ .., last] if last.is_mark(Mark::Colon) => front,
        _ => tokens,
    }
}

/// The values of at most two operands.
fn operands_of(light: Light, tokens: &[Token]) -> Result<Operands, Stop> {
    let mut operands = Operands {
        left: None,
        right: None,
    };
    if tokens.is_empty() {
        return Ok(operands);
    }
    let (left, rest) = split_item(tokens);
    operands.left = Some(value_of(light, left)?);
    if let Some(rest) = rest {
        // IMUL of a later processor has three operands
        let (right, None) = split_item(rest) else {
            return Err(Stop::Refused(Reason::BadOperand));
        };
        operands.right = Some(value_of(light, right)?);
    }
    Ok(operands)
}

/// The mnemonic that the dialect has: RETF for RET in a far procedure.
fn mnemonic_text<'n>(setting: Setting, word: &'n Name) -> &'n [u8] {
    match setting.mnemonic {
        Mnemonic::Plain(Operation::Control(Control::Ret)) if setting.around.is_far => b"RETF",
        _ => word.spelling(),
    }
}

/// The line of an instruction that the dialect has by another name: of strings whose width its operands tell, and so
/// on.
fn other_lines(
    light: Light,
    front: Vec<u8>,
    word: Name,
    rest: &[Token],
) -> Result<Vec<Vec<u8>>, Stop> {
    if is_among(word, LATER) {
        return Err(Stop::Refused(Reason::LaterProcessor));
    }
    let mut line = front;
    match word.text() {
        b"MOVS" | b"CMPS" | b"STOS" | b"LODS" | b"SCAS" => {
            let operands = operands_of(light, rest)?;
            match word.text() {
                b"MOVS" => write_override(&mut line, operands.right)?,
                b"CMPS" | b"LODS" => write_override(&mut line, operands.left)?,
                _ => {}
            }
            line.extend_from_slice(word.spelling())?;
            line.push(width_letter(operands)?)?;
        }
        b"XLATB" => line.extend_from_slice(b"XLAT")?,
        b"RETN" => {
            line.extend_from_slice(b"RET")?;
            if let [Token::Number(number, spelling)] = rest {
                line.push(b' ')?;
                write_terms(&mut line, &Value::spelled(*number, *spelling), false)?;
            }
        }
        _ => return Err(Stop::Refused(Reason::UnknownStatement)),
    }
    Ok(vec![in light.alloc; line]?)
}

/// Writes the segment register of an operand that isn't written, if it isn't DS.
fn write_override(out: &mut Vec<u8>, operand: Option<Value>) -> Result<(), AllocError> {
    match operand.and_then(|value| value.over) {
        None | Some(SegmentRegister::Ds) => Ok(()),
        Some(segment) => {
            out.extend_from_slice(Register::Segment(segment).name().as_bytes())?;
            out.extend_from_slice(b": ")
        }
    }
}

/// Instructions that only later processors have, or coprocessors.
const LATER: &str =
    "PUSHA POPA PUSHAD POPAD PUSHFD POPFD ENTER LEAVE BOUND INS INSB INSW OUTS OUTSB OUTSW MOVZX MOVSX SHLD \
    SHRD BT BTS BTR BTC BSF BSR CWDE CDQ BSWAP XADD CMPXCHG CPUID RDTSC SETC SETNC SETZ SETNZ SETE SETNE MOVSD STOSD LODSD \
    CMPSD SCASD IRETD JECXZ LFS LGS LSS FINIT FNINIT FLD FLDZ FLD1 FLDPI FST FSTP FILD FIST FISTP FBLD FBSTP FADD FADDP FSUB \
    FSUBP FMUL FMULP FDIV FDIVP FSQRT FABS FCHS FCOM FCOMP FCOMPP FTST FXCH FSTSW FNSTSW FSTCW FLDCW FWAIT";

/// The letter that ends the name of an instruction with strings.
fn width_letter(operands: Operands) -> Result<u8, Stop> {
    let left = operands.left.and_then(|value| value.width);
    let right = operands.right.and_then(|value| value.width);
    match left.or(right) {
        Some(Width::Byte) => Ok(b'B'),
        Some(Width::Word) => Ok(b'W'),
        _ => Err(Stop::Refused(Reason::NoSize)),
    }
}

/// The width that an operand tells.
fn width_of(value: &Value) -> Option<Width> {
    match value.kind {
        Kind::Register(Register::Byte(_)) => Some(Width::Byte),
        Kind::Register(_) => Some(Width::Word),
        _ => value.width,
    }
}

/// Writes an operand, of which `other` is beside it.
fn write_operand(
    out: &mut Vec<u8>,
    setting: Setting,
    value: Value,
    other: Option<Value>,
) -> Result<(), Stop> {
    let value = value.narrowed(other.and_then(|other| width_of(&other)));
    match value.kind {
        Kind::Register(register) => Ok(out.extend_from_slice(register.name().as_bytes())?),
        Kind::Memory => {
            write_size(out, setting, &value, other)?;
            write_segment(out, setting, &value)?;
            write_brackets(out, &value)
        }
        Kind::Near | Kind::Far if matches!(setting.transfer(), Some(Transfer::Lea)) => {
            write_brackets(out, &value)
        }
        Kind::Far if setting.is_jump() => {
            out.extend_from_slice(b"FAR ")?;
            write_terms(out, &value, false)
        }
        Kind::Number | Kind::Near | Kind::Far | Kind::Type(_) | Kind::Structure => {
            if is_short(&value) && matches!(setting.mnemonic, Mnemonic::Jmp) {
                out.extend_from_slice(b"SHORT ")?;
            }
            match (value.kind, value.constant()) {
                (Kind::Type(_) | Kind::Structure, Some(number)) => {
                    write_terms(out, &Value::number(number), false)
                }
                _ => write_terms(out, &value, false),
            }
        }
    }
}

/// Whether a target is reached by a short jump: by SHORT, or since it is so near to `$`, whose place MASM knows.
fn is_short(value: &Value) -> bool {
    match (value.plus, value.minus, value.number) {
        (Some(name), None, -126..=129) if name.is(b"$") => true,
        _ => value.is_short,
    }
}

/// Writes the size of an operand in memory, if its instruction wants one.
fn write_size(
    out: &mut Vec<u8>,
    setting: Setting,
    value: &Value,
    other: Option<Value>,
) -> Result<(), Stop> {
    if setting.is_jump() && value.width == Some(Width::Double) {
        return Ok(out.extend_from_slice(b"FAR ")?);
    }
    if matches!(
        setting.transfer(),
        Some(Transfer::Lea | Transfer::Les | Transfer::Lds)
    ) {
        return Ok(());
    }
    match size_of(setting, value, other)? {
        Some(Width::Byte) => Ok(out.extend_from_slice(b"BYTE ")?),
        Some(Width::Word) => Ok(out.extend_from_slice(b"WORD ")?),
        Some(_) => Err(Stop::Refused(Reason::BadOperand)),
        None => Ok(()),
    }
}

/// The width that is written before an operand in memory; `None` if a register or the mnemonic tells it.
fn size_of(setting: Setting, value: &Value, other: Option<Value>) -> Result<Option<Width>, Reason> {
    if value.width.is_some() {
        return Ok(value.width);
    }
    let is_loose = setting.light.symbols.is_loose;
    match other {
        Some(other) if !setting.is_shift() => match (other.kind, other.constant()) {
            (Kind::Register(_), _) => Ok(None),
            _ if other.width.is_some() => Ok(other.width),
            // MASM asks for a size
            _ if !is_loose => Err(Reason::NoSize),
            (_, Some(-128..=255)) => Ok(Some(Width::Byte)),
            _ => Ok(Some(Width::Word)),
        },
        _ => match setting.transfer() {
            _ if setting.is_jump() => Ok(None),
            Some(Transfer::Push | Transfer::Pop) => Ok(None),
            _ if is_loose => Ok(Some(Width::Byte)),
            _ => Err(Reason::NoSize),
        },
    }
}

/// Writes the segment register before an operand in memory: the one that is written, or that which is assumed to hold
/// the segment of the variable, if it isn't the one that the processor takes.
fn write_segment(out: &mut Vec<u8>, setting: Setting, value: &Value) -> Result<(), Stop> {
    let needed = match value.segment {
        Some(segment) if !setting.light.symbols.segments.is_tiny => {
            register_of(setting, segment, value.base)
        }
        _ => None,
    };
    if let Some(segment) = value.over.or(needed) {
        out.extend_from_slice(Register::Segment(segment).name().as_bytes())?;
        out.push(b':')?;
    }
    Ok(())
}

/// The segment register that an operand in this segment needs; `None` if it is the one that the processor takes, or if
/// none is assumed to hold the segment.
fn register_of(
    setting: Setting,
    segment: usize,
    base: Option<WordRegister>,
) -> Option<SegmentRegister> {
    let segments = &setting.light.symbols.segments;
    let wanted = Some(segments.leader(segment));
    let Assumed { data, extra, stack } = setting.around.assumed;
    let by_stack = matches!(base, Some(WordRegister::Bp));
    if (if by_stack { stack } else { data }) == wanted {
        return None;
    }
    let held = [
        (data, SegmentRegister::Ds),
        (extra, SegmentRegister::Es),
        (
            Some(segments.leader(setting.around.segment)),
            SegmentRegister::Cs,
        ),
        (stack, SegmentRegister::Ss),
    ];
    let found = held.iter().find(|one| one.0 == wanted)?;
    Some(found.1)
}
