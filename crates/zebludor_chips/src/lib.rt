//! The timer, the interrupt controller and the parallel port for callers in C: a chip is an image of numbers, in the
//! caller's memory. Every call is total: numbers are taken modulo what there is; 0 is a low level or false, and any
//! other number is high or true. `c/zebludor.h` declares the calls.
#![tactic(auto)]

pub mod controller;
pub mod counter;
mod levels;
pub mod port;
pub mod timer;
