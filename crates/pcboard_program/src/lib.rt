//! What the program `pcboard` does: it reads sources, HEX texts and run files, runs the board, and prints reports and
//! HEX texts. Another program can share all but its words and its answers to typed lines.
#![tactic(auto)]

mod debugging;
pub mod program;
pub mod ready;
pub mod report;
pub mod run;
pub mod tool;
