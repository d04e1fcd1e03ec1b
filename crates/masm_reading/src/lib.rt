//! The first pass over a source of MASM: macros, conditions and included texts are replaced by the lines that they stand
//! for, and names get their meanings.
#![tactic(auto)]

pub mod action;
pub mod condition;
pub mod frames;
pub mod macros;
pub mod names;
pub mod reading;
pub mod state;
