//! What the processor does over a bus, with its accesses noted or not: a step, an iteration of a repeat, the entry of
//! an interrupt.
#![tactic(auto)]

pub mod notes;
mod noting;
