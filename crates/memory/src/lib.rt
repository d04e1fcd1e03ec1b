//! The memory of the system board outside the text adapter: RAM from 0, the ROM at F0000h, and nothing elsewhere (IBM
//! PC Technical Reference, "System Memory Map"). The program parts_alone shows how its calls are used.
#![tactic(auto)]

pub mod laws;
pub mod map;
pub mod region;
