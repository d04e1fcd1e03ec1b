//! The words of the command line: what the program `pcboard` is asked to do.
#![tactic(auto)]

pub mod line;
pub mod probe_line;
pub mod task;
