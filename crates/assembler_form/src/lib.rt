//! Which row of the encoding table a statement's operands take, in the assembler's dialect: the first in the table's
//! order that takes them, what they put into the parts of its bytes, and the numbers in its fields.
#![tactic(auto)]

pub mod asked;
pub mod choose;
pub mod fields;
pub mod laws;
pub mod operand;
mod parts;
mod takes;
