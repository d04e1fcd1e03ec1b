//! What all instructions share: the registers, where an operand stands, the stack, and how an interrupt is entered
//! (8086 Family User's Manual). A part of `execute`, which alone uses it.
#![tactic(auto)]

pub mod flags;
pub mod last_operation;
pub mod location;
mod named;
pub mod overflow;
pub mod registers;
pub mod stack;
pub mod width;
