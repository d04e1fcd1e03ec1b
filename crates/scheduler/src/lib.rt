//! When each part of a board is next due to do something, and which of them is due first.
#![tactic(auto)]

pub mod deadlines;
