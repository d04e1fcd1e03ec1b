//! Cases of whole runs of the program, from words and files to what it prints. Of a case that differs, what differs is
//! printed.
//!
//! A case is one line of parts, separated by ` ;; `. In texts `|` stands for a line feed, `\HH` for the byte of two
//! hexadecimal digits, `\_HH` for HH blanks. The parts: `words WORD ..` (those after the program's name; without this
//! part there are none), `file NAME TEXT` (no other file can be opened), `input TEXT` (on standard input), `reads N`
//! (the read after the first N, of the files and standard input together, fails), `writes N` (likewise a write of each
//! output), `each` (besides, each read and each write of standard output fails in turn, and no other: the status is 3,
//! standard error stays empty, and what is printed is the beginning of what is printed without the failure), `status
//! N`; `out TEXT` and `err TEXT` (all of standard output and of standard error; nothing without this part), `begins
//! TEXT` (how standard output begins) and `usage TEXT` (which stands in standard error).
#![tactic(auto)]

mod case;
mod run;
mod spelled;
mod texts;

use anyhow::{Result, ensure};
use case::Case;
use cases::judge_cases;
use run::{Failing, Ran, run};
use std::alloc::Global;
use std::io;

/// Judges the cases on standard input, each a whole run of `pcboard`.
fn main(rt: HostRuntime) -> io::Result<()> {
    judge_cases(&rt, |alloc, text| judge(alloc, Case { text }))
}

/// Runs the program on a case, with the reads and writes failing that the case says, and again for each failing call if
/// it has the part `each`. Fails with what isn't as the case says.
fn judge(alloc: Global, case: Case<'_>) -> Result<()> {
    let failing = Failing {
        read: case.count("reads"),
        out: case.count("writes"),
        err: case.count("writes"),
    };
    let ran = run(alloc, case, failing)?;
    judge_answer(case, &ran)?;
    if case.part("each").is_some() {
        judge_failing_reads(alloc, case, &ran)?;
        judge_failing_writes(alloc, case, &ran)?;
    }
    Ok(())
}

/// Fails unless a run's exit status, standard output and standard error are those that the case wants.
fn judge_answer(case: Case<'_>, ran: &Ran) -> Result<()> {
    ensure!(
        case.count("status") == Some(u64::from(ran.status)),
        "status"
    );
    let prints = match case.part("begins") {
        Some(text) => ran.out.begins(text),
        None => ran.out.is(case.part("out").unwrap_or("")),
    };
    ensure!(prints, "what is printed");
    let tells = match case.part("usage") {
        Some(text) => ran.out.is("") && ran.err.has(text),
        None => ran.err.is(case.part("err").unwrap_or("")),
    };
    ensure!(tells, "what is told");
    Ok(())
}

/// Makes each read of a run fail in turn, in runs of their own: each must end with status 3, a silent standard error
/// and a beginning of the output of `whole`, the run without failures.
fn judge_failing_reads(alloc: Global, case: Case<'_>, whole: &Ran) -> Result<()> {
    for number in 0..whole.reads {
        let failing = Failing {
            read: Some(number),
            ..Failing::NONE
        };
        let ran = run(alloc, case, failing)?;
        ensure!(ran.is_cut_off(whole), "what a failing read leaves");
    }
    Ok(())
}

/// Makes each write of standard output fail in turn, in runs of their own: each must end with status 3, a silent
/// standard error and a beginning of the output of `whole`, the run without failures.
fn judge_failing_writes(alloc: Global, case: Case<'_>, whole: &Ran) -> Result<()> {
    for number in 0..whole.out.writes() {
        let failing = Failing {
            out: Some(number),
            ..Failing::NONE
        };
        let ran = run(alloc, case, failing)?;
        ensure!(ran.is_cut_off(whole), "what a failing write leaves");
    }
    Ok(())
}
