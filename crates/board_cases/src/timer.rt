//! Steps on the timer of the chips, which makes its ticks late and many at once, beside a timer that is ticked one by
//! one.
ghost use Rattle.std.specs.Prelude.{◌<◌, IfSome};

use crate::bench::Bench;
use crate::chips::go_on_with_a_copy;
use crate::words::Words;
use board_types::choice::TimerKind;
use board_types::clock::Clock;
use board_types::image::Image;
use board_types::line::Line;
use board_types::timed::Timed;
use bus::Bus;
use pit8253::pit::Pit;
use std::alloc::Global;
use wiring::chips::Chips;

/// An output that stays for this many ticks stays for good: no count is above 65,536.
const TICKS_TO_TRY: u64 = 70_000;

/// The chips, and a timer that gets the same calls.
#[derive(Drop)]
pub struct TimerBench {
    chips: Chips,
    pit: Pit,
}

impl TimerBench {
    /// The chips' timer and the one that is ticked by itself, both of this kind at power-on, with port B of the 8255A
    /// as an output, for a `timer` case. `None` if there is no memory.
    pub fn new(alloc: Global, kind: TimerKind) -> Option<Self> {
        let image = Image::new(alloc);
        let mut chips = Chips::new(alloc, &image, 16, 0, 0, kind).ok()?;
        chips.out8(0x63, 0x99);
        Some(TimerBench {
            chips,
            pit: Pit::with(kind),
        })
    }

    /// Writes a byte to a port of both timers, for the step `out`; `None` if the port isn't the timer's.
    fn write(&mut self, mut words: Words) -> Option<bool> {
        let (port, value) = (timer_port(&mut words)?, words.byte()?);
        self.chips.out8(0x40 + u16::from(port), value);
        self.pit.write(port, value);
        Some(true)
    }

    /// Whether both timers give the same byte at a port, for the step `in`.
    fn read(&mut self, mut words: Words) -> Option<bool> {
        let port = timer_port(&mut words)?;
        Some(self.chips.in8(0x40 + u16::from(port)) == self.pit.read(port))
    }

    /// Sets gate 2 of both timers, that of the board by bit 0 of port B, for the step `gate`.
    fn set_gate(&mut self, mut words: Words) -> Option<bool> {
        let high = words.high()?;
        self.chips.out8(0x61, u8::from(high));
        self.chips.settle();
        self.pit
            .set_gate(2, if high { Line::High } else { Line::Low });
        Some(true)
    }

    /// Passes clocks for both timers, the other one tick by tick (every fourth clock), for the step `pass`. Returns
    /// whether OUT2 agrees after them.
    fn pass(&mut self, mut words: Words) -> Option<bool> {
        let from = self.chips.clock().get();
        let to = Clock::new(from.checked_add(words.count()?)?)?;
        self.chips.sync(to);
        for _ in 0..to.get() / 4 - from / 4 {
            self.pit.advance(1);
        }
        let out_2 = self.chips.in8(0x62) & 0x20 != 0;
        Some(out_2 == self.pit.out(2).is_high())
    }

    /// Whether the chips foresee the next edge of OUT0 or OUT2, or none, as single ticks find it, for the step `edge`.
    fn foresees(&self, mut words: Words) -> Option<bool> {
        let n = words.byte()?;
        if n != 0 && n != 2 {
            return None;
        }
        let edge = self.chips.edge(n).map(Clock::get);
        Some(edge == edge_by_ticks(&self.pit, n, self.chips.clock()))
    }
}

impl Bench for TimerBench {
    /// Makes a step of a `timer` case on both timers, and returns whether they agree after it; `None` for no such step.
    fn make(&mut self, verb: &str, words: Words) -> Option<bool> {
        match verb {
            "out" => self.write(words),
            "in" => self.read(words),
            "gate" => self.set_gate(words),
            "pass" => self.pass(words),
            "edge" => self.foresees(words),
            "copy" => go_on_with_a_copy(&mut self.chips),
            _ => None,
        }
    }
}

/// The number, from 0, of the timer's port that a step's next word gives (40h to 43h); `None` if it isn't the timer's.
fn timer_port(words: &mut Words) -> Option<u8>
    ensures { IfSome result (λ port. port < 4) }
{
    let port = words.port()?;
    (0x40 <= port && port < 0x44).then_some((port % 4) as u8)
}

/// The clock at whose tick an output turns first after `from`, found by making the ticks on a copy, to be compared with
/// what the chips foresee. `None` if it doesn't turn.
fn edge_by_ticks(pit: &Pit, n: u8, from: Clock) -> Option<u64>
    requires { n < 3 }
{
    let mut counter = pit.counter(n);
    let level = counter.out();
    for ticks in 1..TICKS_TO_TRY {
        counter.advance(1);
        if counter.out() != level {
            return Some(4 * (from.get() / 4 + ticks));
        }
    }
    None
}
