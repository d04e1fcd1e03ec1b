//! What stands on the bus beside the processor: memory, the interrupt controller, the timer, the parallel port, the
//! keyboard and the text adapter, and the wires between them (IBM PC Technical Reference, "System Board" and "IBM
//! Monochrome Display and Parallel Printer Adapter").
#![tactic(auto)]

pub mod cells;
pub mod chips;
pub mod laws;
pub mod port;
mod sound;
mod timer;
