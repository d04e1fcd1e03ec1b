//! The plain board, which is the definition of the system board: what stands at a clock and what one clock makes of it,
//! and what holds of every such board. The definitions are in `specs/`; here are the types that they speak of, and the
//! laws. Nothing here runs a board: the crate `board` does.
#![tactic(auto)]

pub mod act;
pub mod change;
pub mod config;
pub mod fault;
pub mod laws;
pub mod speaker;
pub mod stop;
pub mod trail;
