//! The programmable interval timer (Intel 8253 and 8254 data sheets): three independent counters of sixteen bits, each
//! with six modes, binary or decimal counting, one-byte or two-byte access, a latch, a gate, and on the 8254 a status
//! that is read back. The program parts_alone shows how its calls are used.
#![tactic(auto)]

mod count;
pub mod counter;
pub mod image;
pub mod laws;
pub mod pit;
pub mod program;
