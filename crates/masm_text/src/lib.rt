//! The user's texts of MASM, TASM and emu8086: their lines, names and numbers, and why a line is refused.
#![tactic(auto)]

pub mod name;
pub mod number;
pub mod place;
pub mod raw;
pub mod refusal;
pub mod token;
