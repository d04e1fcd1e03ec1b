//! What holds of each source that the assembler accepts: its bytes decode back, its lines stand where they are counted
//! to, its data go low byte first, and neither case nor names count. Also the order of faults, and what the text of a
//! decoded instruction says to the assembler.
#![tactic(auto)]

pub mod data;
pub mod disassembly;
pub mod faults;
pub mod laws;
pub mod places;
pub mod sameness;
