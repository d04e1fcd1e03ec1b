//! The processor by definition: what it goes on with, what a step, an iteration and an entry make of it over any bus,
//! and what holds of them (8086 Family User's Manual, "Instruction Set", "Interrupts"). A crate of its own beside
//! `execute`, so that the plain board can be proved without waiting for the code.
#![tactic(auto)]

pub mod boundary;
pub mod laws;
pub mod repeating;
pub mod shadow;
