//! The Intel 8259A interrupt controller, alone and in 8086 mode: eight request lines, their mask and priority, and the
//! vector that an acknowledge answers. The program parts_alone shows how its calls are used.
#![tactic(auto)]

pub mod controller;
pub mod image;
pub mod laws;
mod levels;

pub use controller::Pic;
