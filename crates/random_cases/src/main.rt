//! Random programs: each board that runs one must show what a board shows that makes each clock as a turn of its own.
//!
//! A case is one line: what is compared, a seed, the clocks of a run, and a width, all in decimal. The seed decides the
//! program (`program.rt`): loops of random instructions in RAM that store into one another, into themselves and into
//! what follows, jump into the middle of instructions, load segment registers, and are interrupted by timer and
//! keyboard.
//!
//! `budgets`: runs from power-on, of this number of clocks and of each of the `width` numbers below; `text`, `apart` and
//! `rounds` likewise, for programs that access text memory, that stand in two pieces a multiple of 2,048 bytes apart, or
//! whose loops are blocks that lead back to their own start. `keys`: runs with
//! a key stamped at each of the `width` clocks before the last 300. `stops`: runs that go on until the processor is
//! free at an offset, for `width` offsets one after the other. Registers, state, trail, speaker changes and RAM are
//! compared.
#![tactic(auto)]

mod beside;
mod chance;
mod code;
mod instructions;
mod operands;
mod program;
mod shown;

use anyhow::{Context, Result, bail};
use beside::{compare_budgets, compare_keys, compare_stops};
use cases::judge_cases;
use program::Shape;
use std::alloc::Global;
use std::io;

/// Judges the cases on standard input, each by itself.
fn main(rt: HostRuntime) -> io::Result<()> {
    judge_cases(&rt, judge)
}

/// Judges a case `KIND SEED CLOCKS WIDTH`: compares runs of the seed's random program in the way that the kind names.
/// Fails with the first that differs, and the seed.
fn judge(alloc: Global, case: &str) -> Result<()> {
    let mut words = case.split_whitespace();
    let kind = words.next().context("no kind")?;
    let seed = number(words.next())?;
    let clocks = number(words.next())?;
    let width = number(words.next())?;
    let compared = match kind {
        "budgets" => compare_budgets(alloc, Shape::Mixed, seed, clocks, width),
        "text" => compare_budgets(alloc, Shape::Text, seed, clocks, width),
        "apart" => compare_budgets(alloc, Shape::Apart, seed, clocks, width),
        "rounds" => compare_budgets(alloc, Shape::Rounds, seed, clocks, width),
        "keys" => compare_keys(alloc, seed, clocks, width),
        "stops" => compare_stops(alloc, seed, clocks, width),
        _ => bail!("nothing has this name"),
    };
    match compared {
        Ok(()) => Ok(()),
        Err(fault) => bail!("seed {seed}: {fault}"),
    }
}

/// The number that a word of a case gives in decimal, below 2^32.
fn number(word: Option<&str>) -> Result<u64> {
    let number = word.context("no number")?.parse::<u32>().ok();
    Ok(u64::from(number.context("not a number")?))
}
