//! The timer: three counters, reached through four ports (Intel 8253 data sheet, "Block Diagram"; Intel 8254 data
//! sheet, "Read-Back Command").
ghost use Rattle.std.specs.Prelude.{◌≡◌, ◌≤◌, ◌<◌, ◌↔◌, IfSome, IsTrue};
ghost use Rattle.board_types.specs.Timed.{IsUntilTurn};
ghost use Rattle.board_types.specs.declared.choice.TimerKind.{TimerKind};
ghost use Rattle.board_types.specs.declared.choice.TimerKind.TheVariants.{I8253};
ghost use Rattle.board_types.specs.declared.line.Line.{Line};
ghost use Rattle.pit8253.specs.PitNumbers.{pit_of};
ghost use Rattle.pit8253.specs.Counter as one;
ghost use Rattle.pit8253.specs.Counter.{CounterState, out_of};
ghost use Rattle.pit8253.specs.Pit.{power_on, counter, after_ticks, after_read_back, after_control_word, after_write, byte_at, after_read, after_gate};

use crate::counter::Counter;
use crate::image::PitImage;
use board_types::choice::TimerKind;
use board_types::line::Line;
use board_types::timed::Timed;
use std::marker::Model;

/// The 8253 or the 8254: counters 0, 1 and 2. Its ports are numbered by A1 and A0, from 0 to 3.
#[derive(Clone, Copy)]
pub struct Pit {
    counter_0: Counter,
    counter_1: Counter,
    counter_2: Counter,
}

impl Model for Pit {
    ghost use Rattle.pit8253.specs.Pit.{PitState};

    ghost Value = { PitState };

    ghost view = { λ p. record { counter_0 = p.counter_0; counter_1 = p.counter_1; counter_2 = p.counter_2 } };

    ghost inverse = { λ p. record { counter_0 = p.counter_0; counter_1 = p.counter_1; counter_2 = p.counter_2 } };
}

impl Pit {
    /// Makes an 8253 at power-on, for callers that don't choose the kind.
    pub fn new() -> Self
        ensures { result ≡ power_on I8253 }
    {
        Pit::with(TimerKind::I8253)
    }

    /// Makes a timer of this kind at power-on, for a board or an image: each counter in mode 0 with no count, gates 0
    /// and 1 high, gate 2 low.
    #[tactic(auto, unfolding(crate::specs::Pit::power_on))]
    pub fn with(kind: TimerKind) -> Self
        ensures { result ≡ power_on kind }
    {
        Pit {
            counter_0: Counter::new(kind, Line::High),
            counter_1: Counter::new(kind, Line::High),
            counter_2: Counter::new(kind, Line::Low),
        }
    }

    /// Makes the timer that an image stands for, so that a call from C can go on with it; any numbers stand for some
    /// timer.
    #[tactic(auto, unfolding(crate::specs::PitNumbers::pit_of))]
    pub fn from_image(image: &PitImage) -> Self
        ensures { result ≡ pit_of image.now }
    {
        Pit {
            counter_0: Counter::from_image(&image.counter_0),
            counter_1: Counter::from_image(&image.counter_1),
            counter_2: Counter::from_image(&image.counter_2),
        }
    }

    /// The timer as plain numbers, of which `from_image` makes it again: for callers in C, and for the probe, which
    /// prints them.
    #[tactic(auto, unfolding(crate::specs::PitNumbers::pit_of))]
    pub fn image(&self) -> PitImage
        ensures { pit_of result ≡ self.now }
    {
        PitImage {
            counter_0: self.counter_0.image(),
            counter_1: self.counter_1.image(),
            counter_2: self.counter_2.image(),
        }
    }

    /// Answers a program's IN at `port`, below 4: a byte of the counter of that number, or FFh at port 3. The read of
    /// a latch's last byte ends the latch.
    #[tactic(auto, unfolding(crate::specs::Pit::byte_at, crate::specs::Pit::after_read))]
    pub fn read(&mut self, port: u8) -> u8
        requires { port < 4 }
        ensures byte { result ≡ byte_at self.old port }
        ensures state { self.new ≡ after_read self.old port }
    {
        match port {
            0 => self.counter_0.read(),
            1 => self.counter_1.read(),
            2 => self.counter_2.read(),
            _ => 0xFF,
        }
    }

    /// Does a program's OUT at `port`, below 4: a byte of a count for the counter of that number, or a control word at
    /// port 3. A control word whose bits 7 and 6 are 11 is a read-back, which an 8253 ignores.
    #[tactic(auto, unfolding(crate::specs::Pit::after_write))]
    pub fn write(&mut self, port: u8, value: u8)
        requires { port < 4 }
        ensures { self.new ≡ after_write self.old port value }
    {
        match port {
            0 => self.counter_0.write(value),
            1 => self.counter_1.write(value),
            2 => self.counter_2.write(value),
            _ => self.write_control(value),
        }
    }

    /// Gives gate `n`, below 3, the level `line`, as the board's wire drives it: on the board only gate 2 moves, with
    /// port B.
    #[tactic(auto, unfolding(crate::specs::Pit::after_gate))]
    pub fn set_gate(&mut self, n: u8, line: Line)
        requires { n < 3 }
        ensures { self.new ≡ after_gate self.old n line }
    {
        match n {
            0 => self.counter_0.set_gate(line),
            1 => self.counter_1.set_gate(line),
            _ => self.counter_2.set_gate(line),
        }
    }

    /// Whether giving the level `line` to gate 2 changes nothing, so that a timer that lags needn't catch up: the gate
    /// has it already, and OUT2 is as that level makes it.
    #[tactic(auto, unfolding(crate::specs::Pit::after_gate))]
    pub fn keeps_gate_2(&self, line: Line) -> bool
        ensures { IsTrue result ↔ after_gate self.now 2 line ≡ self.now }
    {
        self.counter_2.keeps_gate(line)
    }

    /// The level of OUT `n`, below 3: OUT0 is wired to the interrupt controller, OUT2 to the speaker and the parallel
    /// port.
    pub fn out(&self, n: u8) -> Line
        requires { n < 3 }
        ensures { result ≡ (counter self.now n).out }
    {
        self.counter(n).out()
    }

    /// Counter `n` as it is now, below 3: a copy.
    pub fn counter(&self, n: u8) -> Counter
        requires { n < 3 }
        ensures { result ≡ counter self.now n }
    {
        match n {
            0 => self.counter_0,
            1 => self.counter_1,
            _ => self.counter_2,
        }
    }

    /// After how many ticks, from 1 on, OUT `n` first changes, so that a board can go up to there at once: as long as
    /// nothing is written and gate `n` stays. `None` if it never does, else at most 65,537; `n` is below 3.
    pub fn until_change(&self, n: u8) -> Option<u64>
        requires { n < 3 }
        ensures turn { IsUntilTurn one.after_ticks out_of (counter self.now n) result }
        ensures bound { IfSome result (λ ticks. ticks ≤ 65537) }
    {
        match n {
            0 => self.counter_0.until_change(),
            1 => self.counter_1.until_change(),
            _ => self.counter_2.until_change(),
        }
    }

    /// Lets `ticks` ticks of the three counters pass; takes as long whatever their number, so that a board can pass
    /// many clocks at once.
    #[tactic(auto, using(crate::proofs::PitTicks::each_counter))]
    pub fn advance(&mut self, ticks: u64)
        ensures { self.new ≡ after_ticks self.old ticks }
    {
        self.counter_0.advance(ticks);
        self.counter_1.advance(ticks);
        self.counter_2.advance(ticks);
    }

    /// Takes a control word, a byte written to port 3: its bits 7 and 6 name the counter that it is for, and 11 is a
    /// read-back.
    fn write_control(&mut self, word: u8)
        ensures { self.new ≡ after_control_word self.old word }
    {
        match word / 64 {
            0 => self.counter_0.write_control(word),
            1 => self.counter_1.write_control(word),
            2 => self.counter_2.write_control(word),
            _ => self.read_back(word),
        }
    }

    /// Gives a read-back to each counter that it names, 0, 1 and 2 by its bits 1, 2 and 3, so that an 8254 latches
    /// counts or statuses.
    fn read_back(&mut self, word: u8)
        ensures { self.new ≡ after_read_back self.old word }
    {
        if word / 2 % 2 == 1 {
            self.counter_0.read_back(word);
        }
        if word / 4 % 2 == 1 {
            self.counter_1.read_back(word);
        }
        if word / 8 % 2 == 1 {
            self.counter_2.read_back(word);
        }
    }
}
