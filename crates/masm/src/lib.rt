//! A front end that turns sources of MASM, TASM and emu8086 into the assembler's dialect.
#![tactic(auto)]

pub mod layout;
pub mod origin;
pub mod translate;
pub mod translation;
pub mod writer;
pub mod writing;
