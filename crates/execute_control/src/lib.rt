//! Jumps, loops, calls, returns, interrupts inside instructions, and the operations on single flags (8086 Family
//! User's Manual). A part of `execute`, which alone uses it.
#![tactic(auto)]

pub mod control;
pub mod flag_operation;
pub mod jump;
pub mod laws;
