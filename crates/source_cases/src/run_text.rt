//! What a run file gives.
use board_types::choice::{ClockTable, TimerKind};
use board_types::keys::StampedKey;
use loader::run_file::RunFile;
use loader::run_reader::read_run_text;
use std::alloc::{AllocError, Global};

/// The answer to a `run:` case: what the run file asks for, or its fault's number.
pub fn answer_to(alloc: Global, text: String) -> Result<String, AllocError> {
    match read_run_text(alloc, text.as_bytes()) {
        Ok(run) => told(alloc, &run),
        Err(fault) => format!(in alloc; "{}", fault.number()),
    }
}

/// The text of what a run file asks for, as a case's answer has it: its settings, then each key's stamp and code.
fn told(alloc: Global, run: &RunFile) -> Result<String, AllocError> {
    let mut text = settings(alloc, run)?;
    for key in run.keys.as_slice() {
        push_key(alloc, &mut text, *key)?;
    }
    Ok(text)
}

/// Adds a key's stamp and code, after blanks, to the answer to a run file.
fn push_key(alloc: Global, text: &mut String, key: StampedKey) -> Result<(), AllocError> {
    let stamp = key.stamp.get();
    let key = format!(in alloc; " {stamp} {}", key.code)?;
    text.push_str(key.as_str())
}

/// The answer's text for a run file's settings: RAM in KB, SW1, SW2, timer, table of clocks, budget, separated by
/// blanks.
fn settings(alloc: Global, run: &RunFile) -> Result<String, AllocError> {
    let (ram_kb, sw1, sw2) = (run.ram_kb, run.sw1, run.sw2);
    let timer = timer_name(run.timer);
    let clocks = clocks_name(run.clocks);
    let budget = run.budget.get();
    format!(in alloc; "{ram_kb} {sw1} {sw2} {timer} {clocks} {budget}")
}

/// The timer's name in the answer to a run file.
fn timer_name(timer: TimerKind) -> &'static str {
    match timer {
        TimerKind::I8253 => "8253",
        TimerKind::I8254 => "8254",
    }
}

/// The clock table's name in the answer to a run file.
fn clocks_name(clocks: ClockTable) -> &'static str {
    match clocks {
        ClockTable::C1 => "C1",
        ClockTable::C2 => "C2",
    }
}
