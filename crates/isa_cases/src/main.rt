//! Cases of outside values for the instructions. A case is one line:
//!
//! `IP BYTES LENGTH TEXT`, `IP BYTES LENGTH` or `IP BYTES none`: the instruction that stands at the offset IP, how many
//! bytes it has, and its text, one blank after the length. Encoded again, it must give the bytes that stand there.
//! BYTES may go on after it; all further bytes are 90h.
//!
//! `cost BYTES CL FOUND CLOCKS`: what a step of the instruction costs that found CL and `t`, a jump or interrupt that
//! is taken; `f`, the first step; `z`, CX 0; `d`, a division without a quotient; `-`, none of them.
//!
//! `fetch CS IP LENGTH TEXT` or `fetch CS IP none`: what a decode cache gives at CS:IP, each time that it is asked. The
//! cache is over a megabyte of memory, of which every byte is 90h at first. `new ..`, which is no case, clears memory
//! and empties the cache; `set AAAAA BYTES`, which is no case either, writes bytes from that address on.
//!
//! `rounds N READS CS IP ..`: N rounds of fetches at these offsets read at most READS bytes of the memory.
//!
//! BYTES, AAAAA, CS and IP are hexadecimal, the other numbers decimal.
#![tactic(auto)]

mod cached;
mod code;
mod judge;
mod memory;

use cached::CachedMemory;
use cases::judge_cases;
use std::io;

/// Judges the cases on standard input over one memory with its cache, which `new` clears.
fn main(rt: HostRuntime) -> io::Result<()> {
    let mut memory = CachedMemory::new(rt.alloc())?;
    judge_cases(&rt, |alloc, line| memory.follow_line(alloc, line))
}
