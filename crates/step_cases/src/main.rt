//! Cases of outside values for the processor. The lines `table`, `begin` and `memory` are no cases: they only set it
//! up. `table C1` and `table C2` say by which table clocks count from there on, at first by C1.
//!
//! One step, over memory that takes a byte at every address:
//!
//! `OP REGS | CODE | READ | REGS AFTER | WRITTEN | PORTS | COST | DUE`
//!
//! - OP: `step`, a new processor with REGS makes one step of the instruction CODE at CS:IP; `again`, the processor of
//!   the line before goes on with its repeat; `request` and `single`, a new processor enters the interrupt of type
//!   CODE.
//! - REGS: AX CX DX BX SP BP SI DI ES CS SS DS IP and the flags word.
//! - READ: the bytes of memory that it finds besides, as `AAAAA=VV`. WRITTEN: those that it writes, with their values
//!   after the step.
//! - PORTS: its port accesses in order, as `I0040=C3` and `O0040=C3`. Port p gives 7 p + 3, modulo 256.
//! - COST: clocks, decimal. All other numbers are hexadecimal.
//! - DUE: `running`, `halted` or `jammed`; marks, which aren't judged; what the next boundary is without a request and
//!   with one: `instruction`, `iteration`, `single`, `request` or `nothing`.
//!
//! An empty list is `-`. What follows DUE, after a `|`, isn't read.
//!
//! One boundary after another: `begin REGS`, a new processor over memory of 00h; `memory AAAAA BYTES`, bytes from that
//! address on; and then for each boundary
//!
//! `at R TYPE | TAKEN | REGS AFTER | WRITTEN | PORTS | COST | DUE`
//!
//! with R 1 if an interrupt of that TYPE is requested, else 0, and TAKEN what the boundary is; or
//!
//! `kept OP CODE | KEPT | REGS AFTER`
//!
//! with OP as above, for the processor as it stands, and KEPT the operands and the result that it keeps then, or
//! `none`. A new processor keeps none.
//!
//! What the second table counts: a step of a new processor, by the first table and then by the second,
//!
//! `calls REGS | CODE | READ | WORDS BYTES`
//!
//! reads and writes this many words and bytes (decimal) in memory, a word by two calls of the bus, and takes 4 clocks
//! more by the second table for each of the words.
#![tactic(auto)]

mod bench;
mod judge;
mod ram;
mod words;

use bench::Bench;
use cases::judge_cases;
use std::io;

/// Judges the cases on standard input over one bench, whose processor and memory go on from line to line.
fn main(rt: HostRuntime) -> io::Result<()> {
    let mut bench = Bench::new(rt.alloc())?;
    judge_cases(&rt, |alloc, line| bench.follow_line(alloc, line))
}
