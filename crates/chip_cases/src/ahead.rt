//! A counter, or the raster, any number of ticks ahead, and when its output changes next.
use anyhow::{Context, Result, ensure};
use board_types::choice::TimerKind;
use board_types::line::Line;
use board_types::timed::Timed;
use mda_text::mda::{Mda, STATUS_PORT};
use pit8253::pit::Pit;
use std::alloc::Global;
use std::str::{Split, SplitWhitespace};

/// A control word for counter 0: mode 0, two bytes, binary. The running count stays, and is then read low byte first.
const READS_BOTH: u8 = 0x30;

/// A read-back of counter 0's status.
const READS_STATUS: u8 = 0xE2;

/// Judges a `counter` case: makes its operations on counter 0 of a timer of this kind at power-on. Then, on a copy for
/// each of the other parts, makes the part's ticks, none for the first, and compares the counter with its words.
pub fn follow_counter(kind: TimerKind, case: &str) -> Result<()> {
    let mut parts = case.split('|');
    let mut pit = Pit::with(kind);
    operate(&mut pit, parts.next().context("no operations")?)?;
    let now = parts.next().context("no state")?;
    compare(kind, pit, now, now.split_whitespace())?;
    compare_ahead(kind, pit, parts)
}

/// Compares a copy of the counter with each further part of a `counter` case, as many ticks ahead as the part's first
/// word says, so that advancing by any number of ticks at once is judged.
fn compare_ahead(kind: TimerKind, pit: Pit, parts: Split<char>) -> Result<()> {
    for part in parts {
        let mut words = part.split_whitespace();
        let ticks = decimal(words.next()).context("no ticks")?;
        compare(kind, ahead(pit, ticks), part, words)?;
    }
    Ok(())
}

/// A copy of the timer that has been advanced by so many ticks at once; the timer itself stays for the case's other
/// parts.
fn ahead(mut pit: Pit, ticks: u64) -> Pit {
    pit.advance(ticks);
    pit
}

/// Makes the operations in the first part of a `counter` case, in order, and fails with the first that doesn't come out
/// as it says.
fn operate(pit: &mut Pit, operations: &str) -> Result<()> {
    for operation in operations.split_whitespace() {
        ensure!(comes_out(pit, operation) == Some(true), "{operation}");
    }
    Ok(())
}

/// Makes one operation of a `counter` case: a level of the gate, ticks, an access of a byte, or none. Returns whether
/// it came out as it says, or `None` if it can't be read.
fn comes_out(pit: &mut Pit, operation: &str) -> Option<bool> {
    let (name, value) = operation.split_at_checked(1)?;
    match name {
        "G" => pit.set_gate(0, Line::from_bool(value == "1")),
        "T" => pit.advance(decimal(Some(value))?),
        "P" => {}
        _ => return access(pit, name, u8::from_str_radix(value, 16).ok()?),
    }
    Some(true)
}

/// Makes one access of a `counter` case: writes a control word (`C`) or a read-back (`B`), or writes (`W`) or reads
/// (`R`) a byte of counter 0. Returns false if another byte than this is read.
fn access(pit: &mut Pit, name: &str, byte: u8) -> Option<bool> {
    match name {
        "C" | "B" => pit.write(3, byte),
        "W" => pit.write(0, byte),
        "R" => return Some(pit.read(0) == byte),
        _ => return None,
    }
    Some(true)
}

/// Compares counter 0 with a part's words: OUT, the count as it reads, the status of an 8254, and the ticks until OUT
/// changes. Fails with the count and the part.
fn compare(kind: TimerKind, pit: Pit, part: &str, words: SplitWhitespace) -> Result<()> {
    let count = count_of(pit);
    ensure!(
        shows(kind, pit, count, words) == Some(true),
        "count {count:04X} at {part}"
    );
    Ok(())
}

/// Whether a part's words are true of counter 0: OUT, the count, the status if it is an 8254, and the ticks until OUT
/// changes; `None` if one is missing.
fn shows(kind: TimerKind, pit: Pit, count: u16, mut words: SplitWhitespace) -> Option<bool> {
    let high = words.next()? == "1";
    let same = hexadecimal(words.next())? == count;
    let status = match kind {
        TimerKind::I8253 => true,
        TimerKind::I8254 => hexadecimal(words.next())? == status_of(pit),
    };
    let told = is_told(pit.until_change(0), words.next());
    Some(pit.out(0).is_high() == high && same && status && told)
}

/// The running count of counter 0, for a case to compare: read from a copy of the timer, low byte first, after a
/// control word that leaves it.
fn count_of(mut pit: Pit) -> u16 {
    pit.write(3, READS_BOTH);
    let low = u16::from(pit.read(0));
    256 * u16::from(pit.read(0)) + low
}

/// The status byte of an 8254's counter 0, for a case to compare: read by a read-back from a copy of the timer.
fn status_of(mut pit: Pit) -> u16 {
    pit.write(3, READS_STATUS);
    u16::from(pit.read(0))
}

/// Judges a `raster` case: lets the raster of an adapter at power-on go on by as many clocks as each part says, one
/// part after another, and compares the status and the clocks until its bit 0 changes with the part.
pub fn follow_raster(alloc: Global, case: &str) -> Result<()> {
    let mut mda = Mda::new(alloc)?;
    let answer = follow_parts(&mut mda, case);
    drop(mda);
    answer
}

/// Follows the parts of a `raster` case on one adapter, which `follow_raster` drops afterwards, up to the first that
/// differs.
fn follow_parts(mda: &mut Mda, case: &str) -> Result<()> {
    for part in case.split('|') {
        follow_part(mda, part)?;
    }
    Ok(())
}

/// Follows one part of a `raster` case: lets the adapter's clocks pass, and fails if the status or the clocks until it
/// changes aren't the part's.
fn follow_part(mda: &mut Mda, part: &str) -> Result<()> {
    let mut words = part.split_whitespace();
    mda.advance(decimal(words.next()).context("no clocks")?);
    let status = mda.read_port(STATUS_PORT);
    ensure!(
        stands(mda, status, words) == Some(true),
        "status {status:02X} at {part}"
    );
    Ok(())
}

/// Whether a part's words, the status byte and the clocks until its bit 0 changes, are true of the adapter; `None` if
/// one is missing.
fn stands(mda: &Mda, status: u8, mut words: SplitWhitespace) -> Option<bool> {
    let same = hexadecimal(words.next())? == u16::from(status);
    Some(same && is_told(mda.until_change(), words.next()))
}

/// Whether a word of a case says how long it takes until an output or the status changes: in ticks or clocks, or `none`
/// for never.
fn is_told(turn: Option<u64>, word: Option<&str>) -> bool {
    match turn {
        Some(_) => turn == decimal(word),
        None => word == Some("none"),
    }
}

/// The number that a word of a case gives in decimal; `None` if there is no word, or it is no number.
fn decimal(word: Option<&str>) -> Option<u64> {
    word?.parse().ok()
}

/// The number that a word of a case gives in hexadecimal; `None` if there is no word, or it isn't of 16 bits.
fn hexadecimal(word: Option<&str>) -> Option<u16> {
    u16::from_str_radix(word?, 16).ok()
}
