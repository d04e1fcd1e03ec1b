//! String instructions (8086 Family User's Manual, "String Instructions"): an element, an iteration of a repeat, and
//! whether another follows. A part of `execute`, which alone uses it.
#![tactic(auto)]

pub mod elements;
pub mod laws;
pub mod repeat;
pub mod strings;
