//! Data transfer (8086 Family User's Manual, "Data Transfer Instructions"): MOV to LDS, the stack, the flags word and
//! the ports. A part of `execute`, which alone uses it.
#![tactic(auto)]

pub mod flags_word;
pub mod laws;
pub mod ports;
