//! Memory and ports that note what a step does to them.

use anyhow::{Result, bail};
use board_types::address::ADDRESS_COUNT;
use board_types::bytes::Bytes;
use bus::Bus;
use std::alloc::{AllocError, Global};
use std::cell::Cell;

/// What a step does to a port: it reads or writes a byte.
#[derive(Clone, Copy, PartialEq, Eq)]
pub enum Access {
    Read(u16, u8),
    Write(u16, u8),
}

/// A megabyte of memory that takes a byte at every address, and ports, each of which gives 7 times its number plus 3,
/// modulo 256. A clear memory is 00h.
#[derive(Drop)]
pub struct Ram {
    cells: Vec<u8>,
    /// The addresses that were written since the memory was clear, in order.
    touched: Vec<u32>,
    /// How many of `touched` were there before the step.
    found: usize,
    /// How often the step has read a byte of memory.
    reads: Cell<usize>,
    accesses: Vec<Access>,
}

impl Ram {
    /// A clear memory, with nothing noted, for the bench over which all cases are judged.
    pub fn new(alloc: Global) -> Result<Ram, AllocError> {
        Ok(Ram {
            cells: vec![in alloc; 0; ADDRESS_COUNT as usize]?,
            touched: Vec::new(alloc),
            found: 0,
            reads: Cell::new(0),
            accesses: Vec::new(alloc),
        })
    }

    /// Sets the bytes written since the memory was clear back to 00h, before a new processor begins, and begins to note
    /// afresh.
    pub fn clear(&mut self) {
        for &addr in &self.touched {
            if let Some(cell) = self.cells.get_mut(addr as usize) {
                *cell = 0;
            }
        }
        self.touched.clear();
        self.begin_step();
    }

    /// Puts `byte` at `addr` to set up a case; `begin_step` then leaves it out of what the step writes. Fails if there
    /// is no such address.
    pub fn put(&mut self, addr: u32, byte: u8) -> Result<()> {
        if addr >= ADDRESS_COUNT {
            bail!("no such address");
        }
        self.write8(addr, byte);
        Ok(())
    }

    /// Begins to note what the next step writes, how often it reads memory, and what it does to ports.
    pub fn begin_step(&mut self) {
        self.found = self.touched.len();
        self.reads.set(0);
        self.accesses.clear();
    }

    /// The addresses that the step has written, in order, to be compared with a case's list WRITTEN.
    pub fn written(&self) -> &[u32] {
        self.touched.get(self.found..).unwrap_or(&[])
    }

    /// How often the step has read or written a byte of memory, for a `calls` case; a word counts twice.
    pub fn calls(&self) -> usize {
        self.reads.get().saturating_add(self.written().len())
    }

    /// Whether the byte at `addr` is `byte`, as a case's list WRITTEN says.
    pub fn holds(&self, addr: u32, byte: u8) -> bool {
        self.cells.get(addr as usize).copied() == Some(byte)
    }

    /// What the step has done to ports, in order, to be compared with a case's list PORTS.
    pub fn accesses(&self) -> &[Access] {
        self.accesses.as_slice()
    }
}

impl Bus for Ram {
    ghost use Rattle.std.specs.Prelude.{ℕ, List, refl};
    ghost use Rattle.step_cases.specs.Ram.{ram_bus};
    ghost use Rattle.step_cases.specs.BusLaws.{ram_keeps_bytes};

    ghost State = { List ℕ };

    ghost state = { λ ram. ram.cells.items };

    ghost meaning = { ram_bus };

    /// Reads a byte of memory for a step, and counts the read for `calls` cases; a word is read by two of them.
    fn read8(&self, addr: u32) -> u8 {
        self.reads.set(self.reads.get().saturating_add(1));
        self.cells.get(addr as usize).copied().unwrap_or(0)
    }

    /// Writes a byte of memory for a step, and notes its address; memory takes a byte at every address, there is no
    /// ROM.
    fn write8(&mut self, addr: u32, value: u8) {
        let _ = self.touched.push(addr);
        if let Some(cell) = self.cells.get_mut(addr as usize) {
            *cell = value;
        }
    }

    /// Reads a port for a step, and notes it: port p gives 7 p + 3, modulo 256, so that a case can tell ports apart.
    fn in8(&mut self, port: u16) -> u8 {
        let byte = ((7 * u32::from(port) + 3) % 256) as u8;
        let _ = self.accesses.push(Access::Read(port, byte));
        byte
    }

    /// Notes the port write of a step, for a case to compare; nothing else comes of it.
    fn out8(&mut self, port: u16, value: u8) {
        let _ = self.accesses.push(Access::Write(port, value));
    }

    ghost keeps_bytes = { ram_keeps_bytes };
}

impl Bytes for Ram {
    ghost use Rattle.std.specs.Prelude.{slice_index};

    ghost byte_at = { λ ram address. slice_index ram.cells.items address };

    /// Reads a byte of memory to decode an instruction; unlike the processor's own reads, it isn't counted.
    fn byte(&self, addr: u32) -> u8 {
        self.cells.get(addr as usize).copied().unwrap_or(0)
    }
}
