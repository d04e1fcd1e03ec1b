//! Machine code that is put together.

ghost use Rattle.std.specs.Prelude.{◌<◌};

use crate::chance::Chance;
use std::alloc::{AllocError, Global};

/// Bytes of instructions, from offset 0 on.
#[derive(Drop)]
pub struct Code {
    pub bytes: Vec<u8>,
    /// The offsets of the instructions' last bytes.
    lasts: Vec<u16>,
}

impl Code {
    /// Code of no bytes, to which a random program's instructions are put.
    pub fn new(alloc: Global) -> Self {
        Code {
            bytes: Vec::new(alloc),
            lasts: Vec::new(alloc),
        }
    }

    /// The offset at which the next byte of the random code is put, for jumps and stores near it; below 4,096.
    pub fn here(&self) -> u16
        ensures { result < 4096 }
    {
        (self.bytes.len() % 4096) as u16
    }

    /// Puts a byte at the end of the random code. Fails only if there is no memory.
    pub fn put(&mut self, byte: u8) -> Result<(), AllocError> {
        self.bytes.push(byte)?;
        Ok(())
    }

    /// Puts bytes at the end of the random code. Fails only if there is no memory.
    pub fn put_all(&mut self, bytes: &[u8]) -> Result<(), AllocError> {
        for byte in bytes {
            self.bytes.push(*byte)?;
        }
        Ok(())
    }

    /// Puts a word at the end of the random code, its low byte first, as instructions have numbers. Fails only if there
    /// is no memory.
    pub fn put_word(&mut self, word: u16) -> Result<(), AllocError> {
        self.put_all(&word.to_le_bytes())
    }

    /// Ends an instruction here, and notes its last byte as one that a random store may change (`some_last`).
    pub fn close(&mut self) -> Result<(), AllocError> {
        let last = self.here().saturating_sub(1);
        self.lasts.push(last)?;
        Ok(())
    }

    /// Draws the offset of the last byte of one of the instructions, mostly part of a number, for a store that changes
    /// the code.
    pub fn some_last(&self, chance: &mut Chance) -> u16 {
        let index = chance.below((self.lasts.len() % 4096) as u16);
        self.lasts.get(usize::from(index)).copied().unwrap_or(0)
    }
}
