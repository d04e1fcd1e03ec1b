//! The instruction decoder: what the bytes at CS:IP say (8086 Family User's Manual, "Machine Instruction Encoding
//! and Decoding").
#![tactic(auto)]

pub mod decode;
pub mod decoded;
pub mod decoding;
pub mod laws;
pub mod parts;
