//! The monochrome text adapter: text memory, the MC6845's start and cursor, the mode register, the status port and the
//! screen's text. The program parts_alone shows how its calls are used.
#![tactic(auto)]

pub mod changes;
pub mod difference;
pub mod laws;
pub mod mda;
pub mod registers;
mod snapshot;
