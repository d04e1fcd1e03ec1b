//! The text of an instruction, in the assembler's dialect.
#![tactic(auto)]

pub mod text;
pub mod written;
