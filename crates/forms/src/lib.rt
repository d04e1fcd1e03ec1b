//! What an instruction does, as its bytes alone tell: where it leads, how it moves SP, which registers and flags it may
//! change, what it reaches, and its clocks by both tables.
#![tactic(auto)]

pub mod accesses;
pub mod changes;
pub mod flow;
pub mod laws;
mod operands;
pub mod stack;
pub mod step_clocks;
