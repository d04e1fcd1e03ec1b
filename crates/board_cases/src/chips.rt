//! Steps on the chips of a system board without its processor.
use crate::bench::Bench;
use crate::parts::Parts;
use crate::words::Words;
use board_types::bytes::Bytes;
use bus::Bus;
use std::alloc::Global;
use std::mem;
use wiring::chips::Chips;

/// The parts, and the chips that were made of them.
#[derive(Drop)]
pub struct ChipsBench {
    parts: Parts,
    chips: Option<Chips>,
}

impl ChipsBench {
    /// Parts without chips, with which a `chips` case begins.
    pub fn new(alloc: Global) -> Self {
        ChipsBench {
            parts: Parts::new(alloc),
            chips: None,
        }
    }

    /// Makes the chips of the parts, for the step `ram KB taken`, or sees them refused with the fault's number.
    fn build(&mut self, mut words: Words) -> Option<bool> {
        match self.parts.chips(words.size()?) {
            Ok(chips) => {
                self.put(chips);
                Some(words.word()? == "taken")
            }
            Err(fault) => Some(words.count()? == u64::from(fault.number())),
        }
    }

    /// Puts newly made chips into the bench, in place of any before.
    fn put(&mut self, chips: Chips) {
        drop(self.chips.replace(chips));
    }
}

impl Bench for ChipsBench {
    /// Makes a step of a `chips` case: on the parts until the chips are made, then on these.
    fn make(&mut self, verb: &str, words: Words) -> Option<bool> {
        match &mut self.chips {
            Some(chips) => act(chips, verb, words),
            None if verb == "ram" => self.build(words),
            None => self.parts.set(verb, words),
        }
    }
}

/// Makes a step that changes the chips, such as a port access or the passing of clocks, or one that only looks at them.
/// Returns whether what is read is what the case says.
fn act(chips: &mut Chips, verb: &str, mut words: Words) -> Option<bool> {
    match verb {
        "in" => return Some(chips.in8(words.port()?) == words.byte()?),
        "acknowledge" => return Some(chips.acknowledge() == words.byte()?),
        "sync" => return sync(chips, words),
        "out" => chips.out8(words.port()?, words.byte()?),
        "write" => chips.write8(words.address()?, words.byte()?),
        "arrive" => chips.arrive(words.byte()?),
        "settle" => chips.settle(),
        "copy" => return go_on_with_a_copy(chips),
        _ => return tells(chips, verb, words),
    }
    Some(true)
}

/// Replaces the chips by a copy, for the step `copy` of `chips` and `timer` cases; `None` if there is no memory for it.
pub fn go_on_with_a_copy(chips: &mut Chips) -> Option<bool> {
    let copy = chips.copy().ok()?;
    drop(mem::replace(chips, copy));
    Some(true)
}

/// Whether the chips show what a case's step says of memory, keys, the interrupt request, the speaker or the screen;
/// they stay.
fn tells(chips: &Chips, verb: &str, mut words: Words) -> Option<bool> {
    match verb {
        "read" => has_byte(chips, words),
        "lost" => Some(chips.lost() == words.count()?),
        "request" => Some(chips.request() == words.high()?),
        "speaker" => Some(chips.speaker() == words.high()?),
        "next" => {
            let write = (words.port()?, words.byte()?);
            Some(chips.level_after(&[write]) == words.high()?)
        }
        "screen" => words.are_shown(chips.text().ok()?.as_str()),
        _ => None,
    }
}

/// Brings the chips to a clock, for the step `sync`; `None` if that is past. Returns whether they stand there then.
fn sync(chips: &mut Chips, mut words: Words) -> Option<bool> {
    let to = words.clock()?;
    if to.get() < chips.clock().get() {
        return None;
    }
    chips.sync(to);
    Some(chips.clock() == to)
}

/// Whether memory has this byte at an address, for the step `read`, as the bus reads it and as instructions are
/// decoded.
fn has_byte(chips: &Chips, mut words: Words) -> Option<bool> {
    let addr = words.address()?;
    let wanted = words.byte()?;
    Some(chips.read8(addr) == wanted && chips.byte(addr) == wanted)
}
