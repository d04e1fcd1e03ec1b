//! The frame of a program of cases: it reads cases of outside values from standard input, one a line, has them judged,
//! and prints the first that differ, each with the number of its line, and then how many cases there were and how many
//! of them differ. A blank line and a line that begins with `#` are no cases.
//!
//! A long line may be broken, as in a string of Rust's: one that ends with `\` goes on in the next, after that one's
//! blanks. So a case with its program and its report stands in one place, where it can be read without another file.
#![tactic(auto)]

ghost use Rattle.std.specs.Prelude.{◌≡◌};
ghost use Rattle.cases.specs.declared.Judged.TheVariants.{Case};

mod case;
mod tally;
#[cfg(test)]
mod tests;

use anyhow::Result;
use case::Case;
use std::alloc::Global;
use std::io;
use std::io::{BufRead, BufReader, Write};
use tally::Tally;

/// At most this many of the cases that differ are printed.
const SHOWN: u64 = 20;

/// What a line was that didn't differ.
#[derive(Clone, Copy)]
pub enum Judged {
    /// A setting for the cases after it, which doesn't count as one.
    Setting,
    /// A case.
    Case,
}

/// A judge that answers nothing judges cases alone.
impl From<()> for Judged {
    ghost from_gives = { λ _ judged. judged ≡ Case };

    /// Counts each line as a case if the judge answers `()`, as most programs of cases do, which have no settings.
    fn from(_: ()) -> Judged {
        Judged::Case
    }
}

/// Judges the cases on standard input, as the whole `main` of a program of cases, and prints those that differ and how
/// many. `judge` fails with what differs, or with why the line can't be read; the line is then a case that differs.
/// Fails if standard input can't be read, standard output can't be written, or there is no memory.
pub fn judge_cases<R, A, J>(rt: &R, judge: J) -> io::Result<()>
where
    R: Input + Print + AllocGlobal,
    A: Into<Judged>,
    J: FnMut(Global, &str) -> Result<A>,
    requires { J.IsAlwaysCallable judge }
{
    let alloc = rt.alloc();
    let cases = BufReader::new(alloc, rt.reader())?;
    judge_from(alloc, cases, &mut io::writer(rt), judge)
}

/// Judges the cases that `cases` reads, and prints to `out` the first 20 that differ, and the tally: `judge_cases`
/// without the host's streams, so that tests can give their own.
fn judge_from<B, W, A, J>(alloc: Global, cases: B, out: &mut W, mut judge: J) -> io::Result<()>
where
    B: BufRead + Drop,
    W: Write,
    A: Into<Judged>,
    J: FnMut(Global, &str) -> Result<A>,
    requires { J.IsAlwaysCallable judge }
{
    let mut tally = Tally::new();
    let mut case = Case::new(alloc);
    for (i, line) in cases.lines(alloc).enumerate() {
        let line = line?;
        if !case.add_line(i + 1, &line)? {
            continue;
        }
        let answer = judge(alloc, &case.text).map(A::into);
        case.text.clear();
        tally = tally.with(&answer);
        if let Err(difference) = answer
            && tally.differing <= SHOWN
        {
            writeln!(out, "line {}: {difference:#}", case.number)?;
        }
    }
    if !case.text.is_empty() {
        writeln!(out, "line {}: goes on in no line", case.number)?;
    }
    writeln!(out, "{} cases, {} differ", tally.cases, tally.differing)
}
