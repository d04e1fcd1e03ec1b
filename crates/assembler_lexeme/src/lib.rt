//! The tokens of a line: numbers, names, quoted texts, words of the dialect and marks.
#![tactic(auto)]

pub mod fault;
pub mod lexeme;
pub mod name;
mod number;
pub mod sequence;
pub mod token;
