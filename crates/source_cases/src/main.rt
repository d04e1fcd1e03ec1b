//! Cases of outside values for the assembler and the loader. Of a case that differs, the answer that it got is printed.
//!
//! A case is one line, in one of seven forms. For the assembler:
//!
//! `TEXT => ANSWER`, a line of a whole source: TEXT is line 8 of a source whose other lines define names and place it
//! at 1000:1000 (`BEFORE` and `AFTER` in src/placed.rt). The answer is the bytes that stand there in hexadecimal,
//! `none` for no byte, or `fault N`, followed by ` line M` if it is another line's.
//!
//! `TEXT => alone ANSWER`, a line by itself: `2`, `3` or `4` if the text has that fault whatever the other lines are,
//! `-` if it is a line of the dialect. In TEXT `^` stands for a carriage return.
//!
//! `front SIZE => front ANSWER`, the first SIZE bytes of examples/hello.asm (`SOURCE` in src/front.rt). The answer is
//! `fault N line M`, or the bytes of the image, each run after its address and a colon.
//!
//! `back PREFIX TAIL STEP => same COUNT`, from bytes to text and back: each opcode stands after the byte PREFIX, or
//! after none if it is `none`, and before each addressing byte, or number below 16, that is a multiple of STEP, and the
//! four bytes of TAIL (STEP is decimal, the bytes are hexadecimal). The text of each instruction there is assembled at
//! the instruction's address, and what then stands there must have the same text. It may be another row of the encoding
//! table, or have no displacement if that was 0; XCHG and TEST may have their operands exchanged. The answer counts the
//! instructions; the text of the first that comes back as another is printed.
//!
//! For the loader, with `|` in TEXT and ANSWER for a line feed and `^` for a carriage return:
//!
//! `hex: TEXT => ANSWER`, a HEX text. The answer is the HEX text that is written of the image that it gives, or its
//! fault's number, followed by a blank and the fault's line if it has one.
//!
//! `run: TEXT => ANSWER`, a run file. The answer is `ram`, `sw1`, `sw2`, the timer, the table of clocks, the budget
//! and, for each key, its stamp and code, separated by blanks; or its fault's number. Numbers are decimal.
//!
//! `read: SIZE MOST LIMIT => ANSWER`, SIZE bytes over memory, of which a read gives at most MOST and LIMIT are wanted.
//! The answer is how many bytes are read, and by how many reads. Besides, each of these reads fails in turn: the whole
//! is then refused as failed, and no read is made after it.
#![tactic(auto)]

mod alone;
mod back;
mod code;
mod front;
mod hex_text;
mod pieces;
mod placed;
mod reads;
mod run_text;
mod trip;

use anyhow::{Context, Result, ensure};
use cases::judge_cases;
use std::alloc::{AllocError, Global};
use std::io;

/// Judges the cases on standard input, each by itself.
fn main(rt: HostRuntime) -> io::Result<()> {
    judge_cases(&rt, judge)
}

/// Judges a case `TEXT => ANSWER`: fails, with the answer it got, if that isn't the one it has, or the case can't be
/// read.
fn judge(alloc: Global, case: &str) -> Result<()> {
    let (text, wanted) = case.split_once(" => ").context("no answer")?;
    let answer = answer_to(alloc, text, wanted)?;
    ensure!(answer.as_str() == wanted, "{answer}");
    Ok(())
}

/// The assembler's or the loader's answer to a case's text, in the form that the text or the wanted answer shows.
fn answer_to(alloc: Global, text: &str, wanted: &str) -> Result<String> {
    match text.split_once(": ") {
        Some(("hex", text)) => hex_text::answer_to(alloc, unfolded(alloc, text)?),
        Some(("run", text)) => Ok(run_text::answer_to(alloc, unfolded(alloc, text)?)?),
        Some(("read", text)) => reads::answer_to(alloc, text),
        _ => source_answer(alloc, text, wanted),
    }
}

/// The assembler's answer to a case's text, in the form that the first word of the wanted answer shows: for a line
/// alone, a front of a source, a way back to text, or a line in a whole source.
fn source_answer(alloc: Global, text: &str, wanted: &str) -> Result<String> {
    match wanted.split(' ').next() {
        Some("alone") => alone::answer_to(alloc, text),
        Some("front") => front::answer_to(alloc, text),
        Some("same") => back::answer_to(alloc, text),
        _ => Ok(placed::answer_to(alloc, text)?),
    }
}

/// The text of several lines that a case for the loader has in one: `|` becomes a line feed, `^` a carriage return.
fn unfolded(alloc: Global, text: &str) -> Result<String, AllocError> {
    text.replace(alloc, '|', "\n")?.replace(alloc, '^', "\r")
}
