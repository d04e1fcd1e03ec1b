//! The words of the assembler's dialect: mnemonics with their aliases, registers, prefixes and the words of statements
//! and operands. The assembler reads them and the disassembler writes them; both take them from here.
#![tactic(auto)]

pub mod keyword;
pub mod laws;
pub mod meaning;
pub mod mnemonic;
pub mod name;
pub mod register;
pub mod size;
