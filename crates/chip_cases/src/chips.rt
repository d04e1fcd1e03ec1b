//! The timer, the interrupt controller and the parallel port.
use crate::bench::Bench;
use crate::verb::{NONE, Verb};
use board_types::line::Line;
use pic8259::controller::Pic;
use pit8253::pit::Pit;
use ppi8255::ppi::{Inputs, Ppi};

/// The value or place of a case's step as a byte for a chip; `None` if it isn't one, so that the step is refused.
fn byte(value: u64) -> Option<u8> {
    u8::try_from(value).ok()
}

/// The level of a line that a step's value stands for: high for 1, else low.
fn level(value: u64) -> Line {
    Line::from_bool(value == 1)
}

impl Bench for Pit {
    /// Makes a step's access to the timer: its port or counter is `place`, `value` what is written, the gate's level or
    /// the number of ticks. Returns what is read, if anything is, else `value`; `None` for no such access.
    fn access(&mut self, verb: Verb, place: u64, value: u64) -> Option<u64> {
        let n = byte(place)?;
        if n >= 4 {
            return None;
        }
        match verb {
            Verb::Write => self.write(n, byte(value)?),
            Verb::Read => return Some(u64::from(self.read(n))),
            Verb::Tick => self.advance(value),
            Verb::Gate if n < 3 => self.set_gate(n, level(value)),
            Verb::Out if n < 3 => return Some(u64::from(self.out(n).is_high())),
            Verb::Wave if n < 3 => {
                self.advance(1);
                return Some(u64::from(self.out(n).is_high()));
            }
            Verb::Each if n < 3 => {
                self.advance(1);
                let count = u64::from(self.read(n));
                return Some(count + 0x100 * u64::from(self.out(n).is_high()));
            }
            _ => return None,
        }
        Some(value)
    }
}

impl Bench for Pic {
    /// Makes a step's access to the interrupt controller: `place` is A0 or a request line, `value` what is written or a
    /// level. Returns what is read, if anything is, else `value`; `None` for no such access.
    fn access(&mut self, verb: Verb, place: u64, value: u64) -> Option<u64> {
        let n = byte(place)?;
        match verb {
            Verb::Write if n < 2 => self.write(n == 1, byte(value)?),
            Verb::Read if n < 2 => return Some(u64::from(self.read(n == 1))),
            Verb::Line if n < 8 => self.set_line(n, level(value)),
            Verb::Request => return Some(u64::from(self.request())),
            Verb::Acknowledge => return Some(u64::from(self.acknowledge())),
            _ => return None,
        }
        Some(value)
    }
}

/// A parallel port and what the board brings to its pins.
#[derive(Drop)]
pub struct Port {
    ppi: Ppi,
    inputs: Inputs,
}

impl Port {
    /// A port after reset with all switches 0, no key in the latch and counter 2 low, with which a `ppi` case begins.
    pub fn new() -> Self {
        Port {
            ppi: Ppi::new(0, 0),
            inputs: Inputs {
                latch: None,
                out2: Line::Low,
            },
        }
    }
}

impl Bench for Port {
    /// Makes a step's access to the parallel port or to what is at its pins: switches, the keyboard's latch, counter
    /// 2's output. Returns what is read, if anything is, else `value`; `None` for no such access.
    fn access(&mut self, verb: Verb, place: u64, value: u64) -> Option<u64> {
        let n = byte(place)?;
        match verb {
            Verb::Write if n < 4 => self.ppi.write(n, byte(value)?),
            Verb::Read if n < 4 => return Some(u64::from(self.ppi.read(n, self.inputs))),
            Verb::Lines => return Some(u64::from(self.ppi.port_b())),
            Verb::Switches => self.ppi = Ppi::new(n, byte(value)?),
            Verb::Latch => self.inputs.latch = if value == NONE {
                None
            } else {
                Some(byte(value)?)
            },
            Verb::Out2 => self.inputs.out2 = level(value),
            _ => return None,
        }
        Some(value)
    }
}
