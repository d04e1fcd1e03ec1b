//! What a statement of the assembler's dialect means in the light of the names that are known: values of expressions,
//! the form of an instruction and the numbers that its operands name, sizes, and bytes.
#![tactic(auto)]

pub mod bytes;
pub mod constant;
pub mod data;
pub mod instruction;
pub mod seed;
pub mod symbol;
pub mod value;
