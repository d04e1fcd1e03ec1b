//! What expressions of MASM stand for, in the light of the names of a source.
#![tactic(auto)]

pub mod expression;
pub mod operator;
pub mod segment;
pub mod symbol;
pub mod value;
