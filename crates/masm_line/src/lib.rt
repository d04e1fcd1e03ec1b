//! What a line of MASM says, and data and instructions as lines of the dialect.
#![tactic(auto)]

pub mod data;
pub mod instruction;
pub mod output;
pub mod statement;
