//! Arithmetic, logic, the adjustments, shifts and rotates, multiplication and division (8086 Family User's Manual,
//! "Arithmetic Instructions", "Logical", "Shift Instructions", "Rotate Instructions"). A part of `execute`, whose
//! string instructions compare by it too.
#![tactic(auto)]

pub mod adjust;
pub mod arithmetic;
pub mod laws;
pub mod numbers;
pub mod product;
pub mod shift;
pub mod single;
pub mod sums;
pub mod unary;
