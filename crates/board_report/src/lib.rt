//! The report of a board as text.
#![tactic(auto)]

pub mod text;
