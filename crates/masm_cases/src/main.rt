//! Cases of outside values for the front end for MASM. Of a case that differs, the answer that it got is printed.
//!
//! A case is one line; in it `|` stands for a line feed. It has one of these forms:
//!
//! `TEXT => LINES`, a whole source, and its translation.
//!
//! `line: TEXT => LINES`, what becomes of TEXT as line 15 and the lines after it of a program of MASM with two segments
//! (`FRONT` and `BACK` in src/placed.rt); `emu: TEXT => LINES` so in a program of emu8086, of which TEXT is line 2.
//!
//! `map: TEXT => PLACES`, the place of each line of the translation: `2`, or `1:2` for line 2 of an included text. The
//! source is what stands before the first `##`; after each `##` comes a name, a `|` and a text that may be included.
//!
//! `no: TEXT => REFUSALS`, a source that can't be translated: for each refusal its line and the name of its reason, or
//! `wants NAME` after the line that includes a text that isn't there. `note: TEXT => NOTES` so for notes.
//!
//! `origin: TEXT => masm 1`, which assembler a source is written for, and the line that tells it; `-` if none tells.
#![tactic(auto)]

mod answers;
mod placed;
mod sources;

use anyhow::{Context, Result, ensure};
use cases::judge_cases;
use std::alloc::Global;
use std::io;

/// Judges the cases on standard input, each by itself.
fn main(rt: HostRuntime) -> io::Result<()> {
    judge_cases(&rt, judge)
}

/// Judges a case `TEXT => ANSWER`: fails, with the answer it got, if that isn't the one it has, or the case can't be
/// read.
fn judge(alloc: Global, case: &str) -> Result<()> {
    let (text, wanted) = case.split_once(" => ").context("no answer")?;
    let answer = answer_to(alloc, text)?;
    ensure!(answer.as_str() == wanted, "{answer}");
    Ok(())
}

/// The front end's answer to a case's text, in the form that the text shows.
fn answer_to(alloc: Global, text: &str) -> Result<String> {
    match text.split_once(": ") {
        Some(("line", text)) => placed::masm_answer(alloc, text),
        Some(("emu", text)) => placed::emu_answer(alloc, text),
        Some(("map", text)) => answers::map_answer(alloc, text),
        Some(("no", text)) => answers::refused_answer(alloc, text),
        Some(("note", text)) => answers::notes_answer(alloc, text),
        Some(("origin", text)) => answers::origin_answer(alloc, text),
        _ => answers::whole_answer(alloc, text),
    }
}
