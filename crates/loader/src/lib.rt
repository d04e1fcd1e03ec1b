//! What is loaded into the board: run files, JSON texts that say how long a board runs, with how much memory, which
//! switches, timer and table of clocks, and which keys; and images as Intel HEX texts.
#![tactic(auto)]

pub mod hex_fault;
pub mod hex_reader;
pub mod hex_record;
pub mod hex_writer;
pub mod laws;
pub mod run_fault;
pub mod run_file;
pub mod run_reader;
mod spaces;
