//! The assembler's dialect as text: what each line of a source says by itself.
#![tactic(auto)]

pub mod expression;
pub mod laws;
pub mod operand;
mod part;
pub mod read;
pub mod statement;
