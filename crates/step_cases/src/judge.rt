//! Whether what was done is what a line wants.

use crate::bench::{Bench, Done, boundary_name};
use crate::ram::{Access, Ram};
use crate::words::{NAMES, access_in, cell_in, read_words, words_in, words_of};
use anyhow::{Result, bail, ensure};
use board_types::state::State;
use execute::cpu::Cpu;
use std::alloc::Global;

/// The fields of a line that say what is found after a step.
#[derive(Clone, Copy)]
pub struct Wanted<'a> {
    after: &'a str,
    written: &'a str,
    ports: &'a str,
    cost: &'a str,
    due: &'a str,
}

impl<'a> Wanted<'a> {
    /// Reads what a line wants from its fields from REGS AFTER on; any fields after these aren't judged. Fails if one
    /// is missing.
    pub fn read(fields: &[&'a str]) -> Result<Wanted<'a>> {
        let [after, written, ports, cost, due, ..] = *fields else {
            bail!("no such line");
        };
        Ok(Wanted {
            after,
            written,
            ports,
            cost,
            due,
        })
    }
}

/// Compares what was done at a boundary with what a line wants: registers, bytes written, port accesses, clocks, and
/// what is due next. Fails with what differs, or with why a field can't be read.
pub fn judge(alloc: Global, bench: &Bench, done: &Done, wanted: &Wanted) -> Result<()> {
    judge_registers(bench, wanted.after)?;
    judge_written(alloc, &bench.ram, wanted.written)?;
    judge_accesses(alloc, bench.ram.accesses(), wanted.ports)?;
    judge_told(bench.ram.accesses(), done.told.as_slice())?;
    if done.clocks != wanted.cost.trim().parse()? {
        bail!("costs {}", done.clocks);
    }
    judge_due(&bench.cpu, wanted.due)
}

/// Fails, with the first that differs, unless the processor's registers and flags word are the 14 words of a case's
/// text.
pub fn judge_registers(bench: &Bench, text: &str) -> Result<()> {
    let wanted = read_words(text)?;
    let found = words_of(bench.cpu.regs());
    for (i, name) in NAMES.iter().enumerate() {
        if found[i] != wanted[i] {
            bail!("{name} {:04X}", found[i]);
        }
    }
    Ok(())
}

/// Fails unless the processor keeps the two operands and the result that a `kept` line names, or nothing if the text is
/// `none`.
pub fn judge_kept(bench: &Bench, text: &str) -> Result<()> {
    match bench.cpu.kept() {
        Some((first, second, value)) => ensure!(
            are_kept([first, second, value], text) == Some(true),
            "keeps {first:04X} {second:04X} {value:04X}"
        ),
        None => ensure!(text.trim() == "none", "nothing is kept"),
    }
    Ok(())
}

/// Whether the operands and the result that the processor keeps are the three words of a `kept` line; `None` if one is
/// missing or no number.
fn are_kept(kept: [u16; 3], text: &str) -> Option<bool> {
    let mut words = text.split_whitespace();
    for found in kept {
        if u16::from_str_radix(words.next()?, 16).ok()? != found {
            return Some(false);
        }
    }
    Some(true)
}

/// Fails unless the step wrote each byte of a case's list WRITTEN, and no other.
fn judge_written(alloc: Global, ram: &Ram, list: &str) -> Result<()> {
    let words = words_in(alloc, list)?;
    if let Some(word) = unwritten(ram, &words) {
        bail!("{word} isn't written");
    }
    if let Some(addr) = unnamed(ram, &words) {
        bail!("{addr:05X} is written");
    }
    Ok(())
}

/// The first word of a case's list WRITTEN whose byte wasn't written, or stands there with another value, or can't be
/// read.
fn unwritten<'a>(ram: &Ram, words: &[&'a str]) -> Option<&'a str> {
    for word in words {
        match cell_in(word) {
            Some((addr, byte)) if ram.written().contains(&addr) && ram.holds(addr, byte) => {}
            _ => return Some(*word),
        }
    }
    None
}

/// The first address that the step wrote and that no word of a case's list WRITTEN names.
fn unnamed(ram: &Ram, words: &[&str]) -> Option<u32> {
    for addr in ram.written() {
        if !names(words, *addr) {
            return Some(*addr);
        }
    }
    None
}

/// Whether one of the words of a case's list WRITTEN is of this address.
fn names(words: &[&str], addr: u32) -> bool {
    for word in words {
        if let Some((place, _)) = cell_in(word)
            && place == addr
        {
            return true;
        }
    }
    false
}

/// Fails unless the step's port accesses are those of a case's list PORTS, in order.
fn judge_accesses(alloc: Global, found: &[Access], list: &str) -> Result<()> {
    let words = words_in(alloc, list)?;
    let same = found.len() == words.len() && are_accesses(found, &words);
    ensure!(same, "{} port accesses, or others", found.len());
    Ok(())
}

/// Whether these port accesses are those of the words, pair by pair; the caller has compared how many there are.
fn are_accesses(found: &[Access], words: &[&str]) -> bool {
    for (access, word) in found.iter().zip(words) {
        if access_in(word) != Some(*access) {
            return false;
        }
    }
    true
}

/// Fails unless the port writes that a step made are, in order, those that `port_writes` predicted. From the
/// prediction the board knows the speaker's next level before the step's clocks are over.
fn judge_told(found: &[Access], told: &[(u16, u8)]) -> Result<()> {
    ensure!(are_told(found, told), "other port writes than told");
    Ok(())
}

/// Whether the writes among these port accesses are the predicted ones, in order, no more and no fewer.
fn are_told(found: &[Access], told: &[(u16, u8)]) -> bool {
    let mut told = told.iter();
    for access in found {
        if let Access::Write(port, byte) = *access {
            match told.next() {
                Some(write) if write.0 == port && write.1 == byte => {}
                _ => return false,
            }
        }
    }
    told.next().is_none()
}

/// Fails unless a case's field DUE, `STATE MARKS ..`, is true of the processor's state, and of the next boundary
/// without a request and with one. The marks aren't judged, since they can't be seen.
fn judge_due(cpu: &Cpu, text: &str) -> Result<()> {
    let state = state_name(cpu.state());
    let alone = boundary_name(cpu.may_take(false));
    let requested = boundary_name(cpu.may_take(true));
    ensure!(
        are_due([state, alone, requested], text) == Some(true),
        "{state}, then {alone}, {requested} at a request"
    );
    Ok(())
}

/// Whether a case's field DUE names this state and these boundaries, without a request and with one, its marks skipped;
/// `None` if a word is missing.
fn are_due(found: [&str; 3], text: &str) -> Option<bool> {
    let mut words = text.split_whitespace();
    let state = words.next()? == found[0];
    let _marks = words.next()?;
    let alone = words.next()? == found[1];
    let requested = words.next()? == found[2];
    Some(state && alone && requested && words.next().is_none())
}

/// The name of the processor's state in a case's field DUE.
fn state_name(state: State) -> &'static str {
    match state {
        State::Running => "running",
        State::Halted => "halted",
        State::Jammed => "jammed",
    }
}
