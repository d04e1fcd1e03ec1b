//! The keyboard, the image and the memory.
use crate::bench::Bench;
use crate::verb::{NONE, Verb};
use board_types::address::ADDRESS_COUNT;
use board_types::image::{Image, is_loadable};
use keyboard::keyboard::Keyboard;
use memory::map::Memory;
use memory::region::is_text_address;
use std::alloc::{AllocError, Global};
use std::mem;

/// A keyboard, and another that is put aside.
#[derive(Drop)]
pub struct Keyboards {
    keyboard: Keyboard,
    aside: Keyboard,
}

impl Keyboards {
    /// Two keyboards at power-on, with no codes, with which a `keyboard` case begins.
    pub fn new(alloc: Global) -> Result<Self, AllocError> {
        Ok(Keyboards {
            keyboard: Keyboard::new(alloc)?,
            aside: Keyboard::new(alloc)?,
        })
    }
}

impl Bench for Keyboards {
    /// Makes a step's access to the keyboard: a code that arrives, port B's lines, the latch, a copy. Returns what is
    /// seen, if anything is, else `value`; `None` for no such access.
    fn access(&mut self, verb: Verb, _place: u64, value: u64) -> Option<u64> {
        match verb {
            Verb::Arrive => self.keyboard.arrive(u8::try_from(value).ok()?),
            Verb::Settle => self.keyboard.settle(u8::try_from(value).ok()?),
            Verb::Latch => return Some(number_or_none(self.keyboard.latch())),
            Verb::Lost => return Some(self.keyboard.lost()),
            Verb::Take => {
                self.keyboard.settle(0x40);
                let code = self.keyboard.latch();
                self.keyboard.settle(0xC0);
                return Some(number_or_none(code.xor(self.keyboard.latch())));
            }
            Verb::Copy => {
                let copy = self.keyboard.copy().ok()?;
                let keyboard = mem::replace(&mut self.keyboard, copy);
                drop(mem::replace(&mut self.aside, keyboard));
            }
            Verb::Swap => mem::swap(&mut self.keyboard, &mut self.aside),
            _ => return None,
        }
        Some(value)
    }
}

/// The number by which a step compares a byte that may be missing, as an empty latch's: `NONE` if it is.
fn number_or_none(byte: Option<u8>) -> u64 {
    match byte {
        Some(byte) => u64::from(byte),
        None => NONE,
    }
}

/// An image, and the memory that was made with it.
#[derive(Drop)]
pub struct Memories {
    alloc: Global,
    image: Image,
    memory: Option<Memory>,
}

impl Memories {
    /// An empty image, without a memory, with which a `memory` case begins.
    pub fn new(alloc: Global) -> Self {
        Memories {
            alloc,
            image: Image::new(alloc),
            memory: None,
        }
    }

    /// Makes a memory of `ram_kb` KB with the image so far, for the step `ram`. Returns the number of the fault with
    /// which it is refused, or 0 if it is made.
    fn make(&mut self, ram_kb: u16) -> u64 {
        match Memory::new(self.alloc, ram_kb, &self.image) {
            Ok(memory) => {
                drop(self.memory.replace(memory));
                0
            }
            Err(fault) => u64::from(fault.number()),
        }
    }
}

impl Bench for Memories {
    /// Makes a step's access to the image (`put`, `get`), makes the memory (`ram`), or else accesses that. Returns what
    /// is read, if anything is, else `value`; `None` for no such access.
    fn access(&mut self, verb: Verb, place: u64, value: u64) -> Option<u64> {
        let addr = u32::try_from(place).ok()?;
        match verb {
            Verb::Put if is_loadable(addr) => {
                self.image.put(addr, u8::try_from(value).ok()?).ok()?;
                Some(value)
            }
            Verb::Get => Some(number_or_none(self.image.get(addr))),
            Verb::Ram => Some(self.make(u16::try_from(addr).ok()?)),
            _ => access_memory(self.memory.as_mut()?, verb, addr, value),
        }
    }
}

/// Makes a step's access to the memory that was made: writes or reads a byte, or goes on with a copy. `None` for no
/// such access, or an address of text memory, which isn't the memory's own.
fn access_memory(memory: &mut Memory, verb: Verb, addr: u32, value: u64) -> Option<u64> {
    if addr >= ADDRESS_COUNT || is_text_address(addr) {
        return None;
    }
    match verb {
        Verb::Write => memory.write(addr, u8::try_from(value).ok()?),
        Verb::Read => return Some(u64::from(memory.read(addr))),
        Verb::Copy => {
            let copy = memory.copy().ok()?;
            drop(mem::replace(memory, copy));
        }
        _ => return None,
    }
    Some(value)
}
