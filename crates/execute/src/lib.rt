//! The processor's instructions, each an exact step over any bus (8086 Family User's Manual, "Instruction Set").
#![tactic(auto)]

mod acts;
pub mod by_slot;
pub mod change;
pub mod course;
pub mod cpu;
mod effect;
mod jumps_by_slot;
pub mod laws;
pub mod made;
mod operands_by_slot;
pub mod parts;
mod perform;
pub mod port_writes;
mod ports_by_slot;
mod shown;
mod stack_by_slot;
pub mod step;
pub mod still;
pub mod store;
mod strings_by_slot;

pub use bus::Bus;
