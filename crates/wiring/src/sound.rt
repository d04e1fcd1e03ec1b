//! The timer and the parallel port: the speaker depends on these alone.
ghost use Rattle.std.specs.Prelude.{◌≡◌};
ghost use Rattle.wiring.specs.Wires.{pit_after_clock};
ghost use Rattle.wiring.specs.declared.sound.Sound.{Sound};
ghost use Rattle.wiring.specs.Sound.{HasNumber, sound_after_settling, sound_after_write, is_sound_high};

use crate::port::Port;
use board_types::bits::bit;
use board_types::line::Line;
use pit8253::pit::Pit;
use ppi8255::ppi::Ppi;

/// Copies of the timer and the parallel port, with which the speaker's next level is worked out ahead.
#[derive(Clone, Copy)]
pub struct Sound {
    pub(crate) pit: Pit,
    pub(crate) ppi: Ppi,
}

impl Sound {
    /// Gives gate 2 the level of line 0 of port B, as the wires settle after a write or a tick.
    pub(crate) fn settle(&mut self)
        ensures { self.new ≡ sound_after_settling self.old }
    {
        let line = Line::from_bool(bit(self.ppi.port_b(), 0));
        self.pit.set_gate(2, line);
    }

    /// Lets the clock `clock` be reached, after which the speaker's level is asked for: the counters tick if its
    /// number is divisible by 4.
    #[tactic(auto, using(crate::proofs::Speaker::one_tick))]
    pub(crate) fn tick(&mut self, clock: u64)
        ensures { self.new ≡ record self.old { pit = pit_after_clock self.old.pit clock } }
    {
        if clock % 4 == 0 {
            self.pit.advance(1);
        }
    }

    /// Writes `value` to `port`, if that is the timer's or the parallel port's: others don't touch the speaker.
    pub(crate) fn write(&mut self, port: Port, value: u8)
        requires { HasNumber port }
        ensures { self.new ≡ sound_after_write self.old port value }
    {
        match port {
            Port::Timer(number) => self.pit.write(number, value),
            Port::Parallel(number) => self.ppi.write(number, value),
            Port::Controller(_) | Port::Adapter(_) | Port::Nothing => (),
        }
    }

    /// Whether the speaker is high: line 1 of port B and OUT2 are both 1.
    pub(crate) fn is_high(&self) -> bool
        ensures { result ≡ is_sound_high self.now }
    {
        bit(self.ppi.port_b(), 1) && self.pit.out(2).is_high()
    }
}

/// Writes `value` to `port`, if that is the parallel port's, so that the levels of port B after a program's writes are
/// known without the other chips.
pub(crate) fn write_parallel(ppi: &mut Ppi, port: Port, value: u8)
    requires { HasNumber port }
    ensures { (sound : Sound) → sound.ppi ≡ ppi.old → ppi.new ≡ (sound_after_write sound port value).ppi }
{
    match port {
        Port::Parallel(number) => ppi.write(number, value),
        Port::Timer(_) | Port::Controller(_) | Port::Adapter(_) | Port::Nothing => (),
    }
}
