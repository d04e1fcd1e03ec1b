//! What a program reads and writes, byte for byte: inputs and outputs that may fail, files that are read by their names,
//! and wrappers that note for contracts what the reads gave and the writes took, and whether one failed. Their lists take
//! no memory, and no code can read them; no other crate can change what they note but by a read or a write.
#![tactic(auto)]

pub mod byte_input;
pub mod byte_output;
mod file_log;
pub mod files;
pub mod heard;
pub mod kept;
mod log;
pub mod opener;
