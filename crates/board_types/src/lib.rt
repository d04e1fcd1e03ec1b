//! The words that every part of the board shares: the processor clock, a wire's level, the bits of a byte, addresses,
//! the bytes of an image, the stamped key codes, the 8086's register file, the lines of a text, and the digits of
//! numbers.
#![tactic(auto)]

pub mod address;
pub mod bits;
pub mod bytes;
pub mod choice;
pub mod clock;
pub mod digits;
pub mod image;
pub mod keys;
pub mod line;
pub mod regs;
pub mod state;
pub mod text;
pub mod timed;
