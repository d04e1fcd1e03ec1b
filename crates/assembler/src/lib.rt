//! The assembler: from a source in this board's dialect to the image that it gives, with a listing and the names that
//! it defines.
#![tactic(auto)]

pub mod assembly;
mod early;
pub mod fault;
mod kept_line;
pub mod listing;
mod placing;
mod reading;
