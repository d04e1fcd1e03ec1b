//! Key codes, addresses, flags and clocks.
use crate::bench::Bench;
use crate::verb::{NONE, Verb};
use board_types::address::physical;
use board_types::clock::Clock;
use board_types::image::is_loadable;
use board_types::keys::{Keys, is_scan_code};
use board_types::regs::Flags;
use memory::region::is_text_address;
use std::alloc::Global;

/// Stamped key codes, and the clock of the next.
#[derive(Drop)]
pub struct KeyCodes {
    keys: Keys,
    stamp: u64,
}

impl KeyCodes {
    /// No key codes, at clock 0, with which a `keys` case begins.
    pub fn new(alloc: Global) -> Self {
        KeyCodes {
            keys: Keys::new(alloc),
            stamp: 0,
        }
    }

    /// Adds a code, stamped with the clock that the last `at` gave, to the list of stamped key codes, for the step
    /// `push`. Returns the fault's number, or 0 if it is taken; `None` if there is no such clock.
    fn push(&mut self, code: u64) -> Option<u64> {
        let stamp = Clock::new(self.stamp)?;
        match self.keys.push(stamp, u8::try_from(code).ok()?) {
            Ok(()) => Some(0),
            Err(fault) => Some(u64::from(fault.number())),
        }
    }
}

impl Bench for KeyCodes {
    /// Makes a step's access to the list of stamped key codes: the next stamp, a code, a copy, the count, or the code
    /// at a place. Returns what is read, if anything is, else `value`; `None` for no such access.
    fn access(&mut self, verb: Verb, place: u64, value: u64) -> Option<u64> {
        match verb {
            Verb::At => self.stamp = value,
            Verb::Push => return self.push(place),
            Verb::Copy => self.keys = self.keys.copy().ok()?,
            Verb::Count if self.keys.is_empty() => return Some(0),
            Verb::Count => return Some(self.keys.len() as u64),
            Verb::Key => {
                let key = self.keys.as_slice().get(usize::try_from(place).ok()?)?;
                return Some(u64::from(key.code));
            }
            _ => return None,
        }
        Some(value)
    }
}

/// A segment and flags; the other verbs need no state.
#[derive(Drop)]
pub struct Words {
    segment: u16,
    flags: Flags,
}

impl Words {
    /// Segment 0 and no flag set, with which a `words` case begins.
    pub fn new() -> Self {
        Words {
            segment: 0,
            flags: Flags::default(),
        }
    }

    /// Sets the flag that the step `set` names, by its number in the steps' `NAMES` (0 is carry, 8 and above overflow),
    /// so that a case can judge the flags' word.
    fn set(&mut self, flag: u64) {
        match flag {
            0 => self.flags.carry = true,
            1 => self.flags.parity = true,
            2 => self.flags.auxiliary_carry = true,
            3 => self.flags.zero = true,
            4 => self.flags.sign = true,
            5 => self.flags.trap = true,
            6 => self.flags.interrupt_enable = true,
            7 => self.flags.direction = true,
            _ => self.flags.overflow = true,
        }
    }
}

impl Bench for Words {
    /// Makes a step's judgement of an address, a key code, a flags word or a clock, or sets what later ones rest on.
    /// Returns what is found, if anything is, else `value`; `None` for no such step.
    fn access(&mut self, verb: Verb, place: u64, value: u64) -> Option<u64> {
        let addr = u32::try_from(place).ok();
        match verb {
            Verb::Loadable => return Some(u64::from(is_loadable(addr?))),
            Verb::Text => return Some(u64::from(is_text_address(addr?))),
            Verb::Scan => return Some(u64::from(is_scan_code(u8::try_from(place).ok()?))),
            Verb::Segment => self.segment = u16::try_from(value).ok()?,
            Verb::Physical => {
                let offset = u16::try_from(place).ok()?;
                return Some(u64::from(physical(self.segment, offset)));
            }
            Verb::Set => self.set(value),
            Verb::Flags => return Some(u64::from(self.flags.word())),
            Verb::Clock => {
                return match Clock::new(place) {
                    Some(clock) => Some(clock.get()),
                    None => Some(NONE),
                };
            }
            _ => return None,
        }
        Some(value)
    }
}
