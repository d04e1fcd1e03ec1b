//! The debugger: commands, each a line of words, are answered from a board that runs and stops.
#![tactic(auto)]

mod checkpoints;
mod dump;
pub mod session;
mod trail_text;
pub mod typed;
