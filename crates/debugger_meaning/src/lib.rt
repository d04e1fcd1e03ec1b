//! What the debugger's words mean: the words of a line, commands, answers and faults, what is printed of memory and of
//! the trail, and, as definitions, what a session is and how it answers. A crate of its own beside `debugger`, so that
//! what needs no board that runs can be proved without waiting for `board`.
#![tactic(auto)]

pub mod answer;
pub mod command;
pub mod dump;
pub mod fault;
pub mod laws;
pub mod trail_text;
pub mod word;
