//! Cases of outside values for the chips: each case makes steps on a chip of its own and says what it must answer;
//! those of the text adapter, `mda`, are commands to one adapter, one after another.
//!
//! A case is one line: the name of what it is made on, a colon, and steps separated by semicolons. A step is a verb,
//! the place if it has one, and values, one access for each: what is written, or what is wanted of the answer. Levels
//! are `H` and `L`. Numbers are hexadecimal, except where (decimal) stands below; the answer that came is printed in
//! hexadecimal, `none` as 2^63.
//!
//! `pit`, an 8253 at power-on: `write PORT BYTE ..`, `read PORT BYTE ..`, `gate N LEVEL`, `tick TICKS` (decimal), `out
//! N LEVEL`, `wave N LEVEL ..` (OUT after a tick for each level) and `each N BYTE-LEVEL ..`, as `each 0 03L 02H` (what
//! counter N reads after a tick for each, and the level of its OUT). `pit_8254`, an 8254, has the same steps.
//!
//! `pic`, an 8259A at power-on: `write A0 BYTE ..`, `read A0 BYTE ..`, `line N LEVEL`, `request TRUTH`, `acknowledge
//! VECTOR ..`.
//!
//! `ppi`, an 8255A after reset, with no key in the latch and counter 2 low: `switches SW1 SW2` (an 8255A with these),
//! `latch BYTE` and `out2 LEVEL` (what the board brings to its pins from now on), `write PORT BYTE ..`, `read PORT BYTE
//! ..`, `lines BYTE` (the levels of port B's lines).
//!
//! `keyboard`: `arrive CODE ..`, `settle LINES` (of port B), `latch CODE` or `latch none`, `lost COUNT` (decimal),
//! `take CODE ..` (settles to 40h and to C0h: the code that the latch showed before it was cleared), `copy` (puts the
//! keyboard aside and goes on with a copy) and `swap` (goes on with the one put aside).
//!
//! `memory`: `put ADDRESS BYTE` into the image, `get ADDRESS BYTE` or `none` from it, `ram KB FAULT` (decimal: the
//! fault's number of a memory of that size with this image, or `taken`), `write ADDRESS BYTE`, `read ADDRESS BYTE`,
//! `copy` (goes on with a copy).
//!
//! `keys`: `at CLOCK` (decimal), `push CODE FAULT` (the fault's number, decimal, or `taken`), `copy` (goes on with a
//! copy), `count COUNT` (decimal), `key PLACE CODE` (the place counted from 0).
//!
//! `words`, of addresses, flags and clocks: `loadable ADDRESS TRUTH`, `text ADDRESS TRUTH`, `scan CODE TRUTH`, `segment
//! WORD` and `physical OFFSET ADDRESS`, `set FLAG ..` (from `carry` to `overflow`) and `flags WORD`, `clock CLOCK
//! CLOCK` or `clock CLOCK none` (decimal: whether there is such a clock).
//!
//! `counter`, counter 0 of an 8253 at power-on, its case in parts separated by `|`: first operations, `Cxx` (a control
//! word), `Wxx` (a byte written), `Rxx` (a byte read), `G0` and `G1` (its gate), `Tn` (n ticks, decimal), `P` (none);
//! then `OUT COUNT UNTIL` (0 or 1; four digits as it reads; the ticks until OUT changes, decimal, or `none`), and parts
//! `TICKS OUT COUNT UNTIL`, each that many ticks (decimal) after the operations. `counter_8254`, counter 0 of an 8254,
//! has operations `Bxx` (a read-back), too, and after each COUNT the status as a read-back gives it. `raster`, that of
//! an adapter at power-on: parts `CLOCKS STATUS UNTIL`, each that many clocks (decimal) after the one before.
//!
//! `mda`, a text adapter that goes on from case to case. A case is one command, its numbers hexadecimal: `new` (an
//! adapter at power-on), `copy` (goes on with a copy), `out PORT BYTE`, `in PORT BYTE`, `poke OFFSET BYTE ..` (to text
//! memory, from the offset on) and `peek OFFSET BYTE`, `clocks N` (they pass), `cell ROW COLUMN BYTE` (the character
//! that it shows), `mark NUMBER` (a mark, with its number), `changed MARK ROW COLUMN ..` (all cells that have changed
//! since), `all MARK` (all 2,000 have), `line ROW TEXT` (the screen's text there, without the blanks at its end).
#![tactic(auto)]

mod adapter;
mod ahead;
mod bench;
mod chips;
mod memories;
mod verb;
mod words;

use ahead::{follow_counter, follow_raster};
use anyhow::{Context, Result, bail};
use bench::follow;
use board_types::choice::TimerKind;
use cases::judge_cases;
use chips::Port;
use mda_text::mda::Mda;
use memories::{Keyboards, Memories};
use pic8259::controller::Pic;
use pit8253::pit::Pit;
use std::alloc::Global;
use std::io;
use words::{KeyCodes, Words};

/// Judges the cases on standard input; `mda` cases share one text adapter, which goes on from case to case.
fn main(rt: HostRuntime) -> io::Result<()> {
    let mut mda = Mda::new(rt.alloc())?;
    judge_cases(&rt, |alloc, case| judge(&mut mda, alloc, case))
}

/// Judges a case: makes its steps on a new chip, or a new counterpart, of the kind that the case begins with. Fails
/// with the first step that differs or can't be read.
fn judge(mda: &mut Mda, alloc: Global, case: &str) -> Result<()> {
    let (name, steps) = case.split_once(':').context("no colon")?;
    match name {
        "pit" => follow(Pit::new(), steps),
        "pit_8254" => follow(Pit::with(TimerKind::I8254), steps),
        "pic" => follow(Pic::new(), steps),
        "ppi" => follow(Port::new(), steps),
        "keyboard" => follow(Keyboards::new(alloc)?, steps),
        "memory" => follow(Memories::new(alloc), steps),
        "keys" => follow(KeyCodes::new(alloc), steps),
        "words" => follow(Words::new(), steps),
        "counter" => follow_counter(TimerKind::I8253, steps),
        "counter_8254" => follow_counter(TimerKind::I8254, steps),
        "raster" => follow_raster(alloc, steps),
        "mda" => adapter::obey(mda, alloc, steps),
        _ => bail!("nothing has this name"),
    }
}
