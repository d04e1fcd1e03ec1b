//! Cases of outside values for the system board. Of a case that differs, the step that didn't come out is printed.
//!
//! A case is one line: `chips`, `board`, `heap`, `session`, `timer` or `timer_8254`, a colon, and steps separated by
//! semicolons, each a verb and its words. Ports, addresses, bytes and registers are hexadecimal; clocks, counts, sizes
//! in KB, fault numbers and the screen's lines, from 0, are decimal. Levels are `H` and `L`.
//!
//! Before the chips or the board are made: `put ADDRESS BYTE ..` into the image, from the address on, `keys STAMP CODE
//! ..`, `switches SW1 SW2`, `timer 8253` (as without this step) or `timer 8254`, `clocks C1` (as without this step) or
//! `clocks C2`, the table of a board's clocks, and `ram KB taken`, which makes them, or `ram KB FAULT`, which is
//! refused (with a fault of this number; after a board's fault comes its name).
//!
//! `chips`: `in PORT BYTE`, `out PORT BYTE`, `write ADDRESS BYTE`, `read ADDRESS BYTE`, `arrive CODE`, `settle`, `lost
//! COUNT`, `sync CLOCK`, `request LEVEL`, `acknowledge VECTOR`, `speaker LEVEL`, `next PORT BYTE LEVEL` (the speaker's
//! level at the next clock after a write to the port), `screen LINE 'TEXT'` (the text, and spaces up to 80 characters),
//! `copy` (goes on with a copy).
//!
//! `board`: `run CLOCKS`, `refused CLOCKS FAULT NAME`, `clock CLOCK`, `state STATE`, `regs NAME=WORD ..` (all that
//! aren't 0, from AX to FL), `byte ADDRESS BYTE`, `bytes ADDRESS BYTE ..` (from the address on), `lost COUNT`, `changes
//! CLOCK-LEVEL ..` (all of the speaker's, as `72H 76L`), `decodes LEAST MOST` (how often an instruction was decoded
//! since power-on), `screen LINE 'TEXT'`, `alone LINE 'TEXT'` (and the rest of the screen is blank), `blank` (the whole
//! screen), `copy` (goes on with a copy), `keep` (a copy of the board as it stands), `again CLOCKS` (goes on with a
//! copy of the one that was kept, and runs it), `until CLOCKS CLOCK NUMBER CONDITION ..` (a run that stops at this
//! clock, by the condition of this number, or at no stop if the number is 0; a condition is `free`, `at CS IP`, `byte
//! ADDRESS BYTE`, `sound` or `halted`), `last CLOCKS CLOCK NUMBER CONDITION ..` (a run to its end: the last clock at
//! which a condition held, start and end included, is this one, with the condition of this number, or none held if the
//! number is 0), `trail COUNT` (of entries), `begun INDEX CLOCK CS IP BYTE ..` (the trail's entry at this index, from
//! 0: an instruction), `entered INDEX CLOCK CS IP TYPE`, `work STEPS WORK` (of the run before it, of that one alone:
//! the turns that it took are at least its steps and at most three times its work plus three), `cut CLOCKS` (a run of
//! these clocks comes to the same report and trail if copies cut it in two, at any clock, by `run` and by `run_until`
//! with a stop that never holds; the board itself stays), `single CLOCKS` (a copy that is run clock by clock shows at
//! each what one run up to there shows, including its memory: of each 4,096 bytes the first and the last 64), `ticking
//! CLOCKS` (a copy that makes each clock as a turn of its own does so, too; only the board's leaps are left out, since
//! its timer lags as theirs does), `pieces CLOCKS ..` (a copy that makes these runs one after another comes to what one
//! run of their sum comes to).
//!
//! `heap`, a board with its list of the speaker's changes in a heap of 4,096 bytes: `ram KB COUNT` makes it, with room
//! for a number of changes, and then there are `fill BYTES` (all of the heap is taken up but this many bytes), `free`
//! (it is given back), `reserve COUNT taken` or `reserve COUNT FAULT NAME` (room for a number of changes more), and the
//! steps of `board` except `copy`, `keep`, `again` and those that compare or count runs.
//!
//! `session`, a session of the debugger on the board of `tone.rt`: `heap SIZE CLOCK` (how many bytes there are to list
//! copies of its board in, and at which clock it begins), and then `COMMAND = REPLY` (of a refusal its name), `kept
//! LEAST MOST` (how many copies are kept), `lost COUNT` (of keys) and `as run` (clock, lost keys and the speaker's
//! changes are those of a board that is run there from power-on).
//!
//! `timer`, the chips of a board with 16 KB, which make the timer's ticks late and many at once, beside a timer that
//! makes each by itself: `out PORT BYTE`, `gate LEVEL` (of counter 2), `pass CLOCKS` (OUT2 has to agree after them),
//! `in PORT` (the two bytes have to agree), `edge N` (the next edge of OUT0 or OUT2, or none, has to be the one that
//! single ticks find), `copy`. `timer_8254` has an 8254 in both places.
#![tactic(auto)]

mod bench;
mod boards;
mod chips;
mod cuts;
mod heap;
mod lasts;
mod parts;
mod session;
mod stops;
mod timer;
mod tone;
mod trail;
mod words;

use anyhow::{Context, Result, bail};
use bench::follow;
use board_types::choice::TimerKind;
use boards::BoardBench;
use cases::judge_cases;
use chips::ChipsBench;
use heap::follow_in_heap;
use session::follow_session;
use std::alloc::Global;
use std::io;
use timer::TimerBench;

/// Judges the cases on standard input, each by itself.
fn main(rt: HostRuntime) -> io::Result<()> {
    judge_cases(&rt, judge)
}

/// Judges a case: makes its steps on what the name before the colon stands for. Fails with the first that doesn't come
/// out.
fn judge(alloc: Global, case: &str) -> Result<()> {
    let (name, steps) = case.split_once(':').context("no colon")?;
    match name {
        "chips" => follow(ChipsBench::new(alloc), steps),
        "board" => follow(BoardBench::new(alloc), steps),
        "heap" => follow_in_heap(alloc, steps),
        "session" => follow_session(alloc, steps),
        "timer" => follow_timers(alloc, TimerKind::I8253, steps),
        "timer_8254" => follow_timers(alloc, TimerKind::I8254, steps),
        _ => bail!("nothing has this name"),
    }
}

/// Makes the steps of a `timer` case beside a timer of this kind. Fails with the first that doesn't come out.
fn follow_timers(alloc: Global, kind: TimerKind, steps: &str) -> Result<()> {
    let bench = TimerBench::new(alloc, kind).context("no memory")?;
    follow(bench, steps)
}
