//! What chips and boards are made of.
ghost use Rattle.std.specs.Prelude.{◌≡◌, [], IfOk};

use crate::words::Words;
use board::board::Board;
use board_plain::config::Config;
use board_plain::fault::BoardFault;
use board_types::choice::{ClockTable, TimerKind};
use board_types::image::{Image, is_loadable};
use board_types::keys::Keys;
use memory::map::MemoryFault;
use std::alloc::Global;
use wiring::chips::Chips;

/// The image, the key codes to come, the switches, the timer and the table of clocks.
#[derive(Drop)]
pub struct Parts {
    pub alloc: Global,
    pub image: Image,
    pub keys: Keys,
    pub sw1: u8,
    pub sw2: u8,
    pub timer: TimerKind,
    pub clocks: ClockTable,
}

impl Parts {
    /// The parts with which each case begins: an empty image, no key codes, all switches 0, an 8253 and table C1.
    pub fn new(alloc: Global) -> Self {
        Parts {
            alloc,
            image: Image::new(alloc),
            keys: Keys::new(alloc),
            sw1: 0,
            sw2: 0,
            timer: TimerKind::I8253,
            clocks: ClockTable::C1,
        }
    }

    /// Chips with `ram_kb` KB that are made of these parts, for a `chips` case; refused as their memory is.
    pub fn chips(&self, ram_kb: u16) -> Result<Chips, MemoryFault> {
        Chips::new(
            self.alloc,
            &self.image,
            ram_kb,
            self.sw1,
            self.sw2,
            self.timer,
        )
    }

    /// A board with `ram_kb` KB that is made of these parts, at power-on, for `board` and `heap` cases.
    pub fn board(&self, ram_kb: u16) -> Result<Board, BoardFault>
        ensures { IfOk result (λ board. board.changes ≡ []) }
    {
        let config = Config {
            ram_kb,
            sw1: self.sw1,
            sw2: self.sw2,
            timer: self.timer,
            clocks: self.clocks,
        };
        Board::new(self.alloc, &self.image, config, self.keys.copy()?)
    }

    /// Makes a step that changes the parts, before the chips or the board are made of them; `None` for any other step.
    pub fn set(&mut self, verb: &str, mut words: Words) -> Option<bool> {
        match verb {
            "put" => self.put(words),
            "keys" => self.push(words),
            "switches" => {
                self.sw1 = words.byte()?;
                self.sw2 = words.byte()?;
                Some(true)
            }
            "timer" => {
                self.timer = words.timer()?;
                Some(true)
            }
            "clocks" => {
                self.clocks = words.clocks()?;
                Some(true)
            }
            _ => None,
        }
    }

    /// Puts bytes into the image, from an address on, for the step `put`; `None` if an address isn't loadable.
    fn put(&mut self, mut words: Words) -> Option<bool> {
        let mut addr = words.address()?;
        for word in words.0.split_whitespace() {
            let byte = u8::from_str_radix(word, 16).ok()?;
            if !is_loadable(addr) {
                return None;
            }
            self.image.put(addr, byte).ok()?;
            addr += 1;
        }
        Some(true)
    }

    /// Adds key codes with one stamp, for the step `keys`; `None` if a word can't be read or the list refuses a code.
    fn push(&mut self, mut words: Words) -> Option<bool> {
        let stamp = words.clock()?;
        for word in words.0.split_whitespace() {
            let code = u8::from_str_radix(word, 16).ok()?;
            self.keys.push(stamp, code).ok()?;
        }
        Some(true)
    }
}
