//! The 8255A Programmable Peripheral Interface as the IBM PC's system board wires it. The program parts_alone shows how
//! its calls are used.
#![tactic(auto)]

pub mod image;
pub mod laws;
pub mod ppi;
