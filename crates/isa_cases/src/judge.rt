//! Whether a case's values are those of the program.
ghost use Rattle.isa.specs.Encoding.{FitsForm, IsForm};

use crate::code::{Code, SEGMENT};
use anyhow::{Result, bail, ensure};
use board_types::choice::ClockTable;
use decode::decode::decoding_at;
use decode::decoding::Decoding;
use disassembler::text::InstrText;
use isa::clocks::cost;
use isa::encoding::encode;
use isa::form::{Instr, Prefix};
use isa::outcome::Outcome;
use std::alloc::Global;

/// Judges a line about one instruction alone: `cost BYTES CL FOUND CLOCKS`, or `IP BYTES LENGTH` and its text, if
/// given. Fails with what differs, or with why the line can't be read.
pub fn judge(alloc: Global, case: &str, words: &[&str]) -> Result<()> {
    match *words {
        ["cost", bytes, cl, found, clocks] => judge_cost(bytes, cl, found, clocks),
        [ip, bytes, length, ref more @ ..] => {
            let code = Code::read(ip, bytes)?;
            let text = case.splitn(4, ' ').nth(3).filter(|_| !more.is_empty());
            judge_code(alloc, &code, length, text)
        }
        _ => bail!("no such case"),
    }
}

/// Judges the instruction at a case's offset: fails unless it encodes to its own bytes and has this length and, if one
/// is wanted, this text.
fn judge_code(alloc: Global, code: &Code, length: &str, text: Option<&str>) -> Result<()> {
    let found = decoding_at(code, SEGMENT, code.ip);
    if let Decoding::Found(instr, size) = &found {
        ensure!(is_encoded(instr, *size, code), "encoded as other bytes");
    }
    judge_found(alloc, &found, code.ip, length, text)
}

/// Whether the decoded instruction, encoded again, gives the bytes that stand there, prefixes included, `length` of
/// them.
fn is_encoded(instr: &Instr, length: u8, code: &Code) -> bool
    requires form { IsForm instr.now.form }
    requires values { FitsForm instr.now.form instr.now.values }
{
    let prefixes = instr.prefixes.as_slice();
    let again = encode(&instr.form, instr.values);
    prefixes.len() + again.len() == usize::from(length)
        && has_prefixes(code, prefixes)
        && has_bytes(code, prefixes.len(), again.as_slice())
}

/// Whether a case's bytes begin with these prefixes, in order, as the instruction's encoding has them.
fn has_prefixes(code: &Code, prefixes: &[Prefix]) -> bool {
    for (i, prefix) in prefixes.iter().enumerate() {
        if prefix.byte() != code.at(i) {
            return false;
        }
    }
    true
}

/// Whether a case's bytes from the index `start` on are these, those of an instruction encoded again without its
/// prefixes.
fn has_bytes(code: &Code, start: usize, bytes: &[u8]) -> bool {
    for (i, byte) in bytes.iter().enumerate() {
        if *byte != code.at(start.saturating_add(i)) {
            return false;
        }
    }
    true
}

/// Fails unless what was decoded at an offset has a case's length and, if one is wanted, text, or is no row of the
/// encoding table if the length is `none`. Cases of an instruction by itself and of the cache end here.
pub fn judge_found(
    alloc: Global,
    found: &Decoding,
    ip: u16,
    length: &str,
    text: Option<&str>,
) -> Result<()> {
    let Decoding::Found(instr, size) = found else {
        let none = length == "none" && text.unwrap_or("").is_empty();
        ensure!(none, "no row");
        return Ok(());
    };
    ensure!(length.parse().ok() == Some(*size), "found {size} bytes");
    match text {
        Some(text) => judge_text(alloc, &InstrText { instr, ip }, text),
        None => Ok(()),
    }
}

/// Fails unless the disassembler shows the instruction as a case's text, and then with what it shows.
fn judge_text(alloc: Global, shown: &InstrText, text: &str) -> Result<()> {
    let shown = shown.to_string(alloc)?;
    ensure!(shown.as_str() == text, "shown as {shown}");
    Ok(())
}

/// Judges a `cost` line: fails unless a step of the instruction that finds CL and what `found` says (letters `t`, `f`,
/// `z`, `d`) takes so many clocks by table C1.
fn judge_cost(bytes: &str, cl: &str, found: &str, clocks: &str) -> Result<()> {
    let code = Code::read("100", bytes)?;
    let outcome = Outcome {
        taken: found.contains('t'),
        cl: cl.parse()?,
        first_step: found.contains('f'),
        cx_zero: found.contains('z'),
        fault: found.contains('d'),
    };
    match decoding_at(&code, SEGMENT, code.ip) {
        Decoding::NoRow => bail!("no row"),
        Decoding::Found(instr, _) => {
            let taken = cost(&instr, &outcome, ClockTable::C1).0;
            if taken != clocks.parse()? {
                bail!("costs {taken}");
            }
            Ok(())
        }
    }
}
