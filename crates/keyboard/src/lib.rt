//! The key codes on their way to the processor: a queue, the latch and a count of lost codes. The program parts_alone
//! shows how its calls are used.
#![tactic(auto)]

pub mod keyboard;
pub mod laws;
