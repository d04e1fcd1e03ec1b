//! What happens in a plain board's clocks: what begins, each byte that the processor writes to memory and each of its
//! port accesses, its changes of state, the keys, and the wires. The definitions are in `specs/`; here are their types,
//! and the laws, also of a key that is still to come. Nothing here runs a board.
#![tactic(auto)]

pub mod access;
pub mod clock_laws;
pub mod event;
pub mod laws;
