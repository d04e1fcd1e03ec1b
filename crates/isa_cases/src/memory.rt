//! A megabyte of memory that counts how often it is read.
ghost use Rattle.std.specs.Prelude.{◌≡◌, ◌<◌, ◌^◌, slice_set};

use board_types::address::ADDRESS_COUNT;
use board_types::bytes::Bytes;
use std::alloc::{AllocError, Global};
use std::cell::Cell;
use std::marker::Model;

/// The byte at every address of a clear memory.
const CLEAR: u8 = 0x90;

/// A byte for each address, all of which can be written.
#[derive(Drop)]
pub struct Memory {
    cells: Vec<u8>,
    reads: Cell<u64>,
    /// The addresses that were written since the memory was clear.
    touched: Vec<u32>,
}

impl Model for Memory {
    ghost use Rattle.std.specs.Prelude.{ℕ, List};

    ghost Value = { List ℕ };

    ghost view = { λ m. m.cells.items };
}

impl Memory {
    /// A clear memory that hasn't been read, for the decode cache of the cases.
    pub fn new(alloc: Global) -> Result<Memory, AllocError> {
        Ok(Memory {
            cells: vec![in alloc; CLEAR; ADDRESS_COUNT as usize]?,
            reads: Cell::new(0),
            touched: Vec::new(alloc),
        })
    }

    /// Makes each byte that was written 90h again, as in a new memory, for the next case; the count of reads stays.
    pub fn clear(&mut self) {
        for &addr in &self.touched {
            if let Some(cell) = self.cells.get_mut(addr as usize) {
                *cell = CLEAR;
            }
        }
        self.touched.clear();
    }

    /// Writes `byte` at `addr`, and notes the address so that `clear` needs to set back only those that were written.
    pub fn put(&mut self, addr: u32, byte: u8)
        ensures { self.new ≡ slice_set self.old addr byte }
    {
        let _ = self.touched.push(addr);
        if let Some(cell) = self.cells.get_mut(addr as usize) {
            *cell = byte;
        }
    }

    /// How often a byte was read since the memory was made, for `rounds` to see how many a cache saves.
    pub fn reads(&self) -> u64 {
        self.reads.get()
    }
}

impl Bytes for Memory {
    ghost use Rattle.std.specs.Prelude.{slice_index};

    ghost byte_at = { slice_index };

    /// Reads a byte for the decoding of an instruction, and counts it.
    fn byte(&self, addr: u32) -> u8 {
        self.reads.set(self.reads.get().saturating_add(1));
        self.cells.get(addr as usize).copied().unwrap_or(0)
    }
}
