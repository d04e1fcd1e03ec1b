//! The programs, their runs and their sessions for callers in C, over texts in the caller's memory. `c/zebludor.h`
//! declares the calls.
#![tactic(auto)]

pub mod answerer;
pub mod buffer;
pub mod calls;
pub mod handle;
pub mod parts;
mod printing;
pub mod programs;
pub mod run;
pub mod session;
mod sources;
mod texts;
pub mod translations;
mod words;
