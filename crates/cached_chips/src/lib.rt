//! What the processor of the system board reaches: memory and chips, with a cache of what is decoded there.
#![tactic(auto)]

pub mod cached;
mod shown;
