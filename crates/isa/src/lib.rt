//! The 8086's instruction set as a table: which bytes each instruction has, and how many clocks it takes.
#![tactic(auto)]

pub mod clocks;
pub mod encoding;
pub mod form;
pub mod laws;
pub mod layout;
pub mod operation;
pub mod outcome;
pub mod parts;
pub mod register;
pub mod row;
pub mod table;
pub mod words;
