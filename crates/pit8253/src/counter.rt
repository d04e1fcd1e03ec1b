//! One counter of the timer (Intel 8253 data sheet, "Mode Definition"; Intel 8254 data sheet, "Read-Back Command").
ghost use Rattle.std.specs.Prelude.{◌≡◌, ◌≤◌, ◌<◌, ◌/◌, ◌%◌, ◌+◌, ◌*◌, ◌↔◌, IfSome, IsTrue};
ghost use Rattle.board_types.specs.declared.choice.TimerKind.{TimerKind};
ghost use Rattle.board_types.specs.declared.line.Line.{Line};
ghost use Rattle.pit8253.specs.Program.{mode_of, access_of, radix_of, modulus, count_of, digits_of};
ghost use Rattle.pit8253.specs.PitLaws.{size, ticks_left, after_fall, after_strobe_fall, after_rate_fall, falls_left, half_left, after_half_fall};
ghost use Rattle.pit8253.specs.Ahead.{after_rests, after_rate, half_ticks, after_turn, after_halves, after_square, after_run, until_end, until_pulse, until_half, until_strobe, until_rest, until_turn, differ, a_tick_later};
ghost use Rattle.pit8253.specs.PitNumbers.{counter_of};
ghost use Rattle.pit8253.specs.Counter.{power_on, is_awaited, out_at_load, after_load, loads_less, after_square_load, after_due_load, out_at_control, reading, after_latch, after_program, after_control_word, loads_when_written, after_full_count, out_at_write, after_write, next_byte, after_read, status_of, after_status_latch, after_read_back, rises, is_triggered, out_at_gate, after_gate};

use crate::count::{
    count_after, count_of, digits_of, half_of, high_byte, left_after, length_of, low_byte, word_of,
};
use crate::image;
use crate::image::CounterImage;
use crate::program::{Access, Mode, Progress, Radix};
use board_types::choice::TimerKind;
use board_types::line::Line;
use board_types::timed::Timed;
use std::marker::Model;

/// A counter: its mode, its count, its latch, its gate and its output.
#[derive(Clone, Copy)]
pub struct Counter {
    kind: TimerKind,
    mode: Mode,
    access: Access,
    radix: Radix,
    first_byte: Option<u8>,
    newest: u16,
    progress: Progress,
    load_due: bool,
    count: u16,
    count_radix: Radix,
    strobe_due: bool,
    is_null: bool,
    keeps_zero: bool,
    latch: Option<u16>,
    status: Option<u8>,
    high_next: bool,
    gate: Line,
    out: Line,
}

impl Model for Counter {
    ghost use Rattle.std.specs.Prelude.{◌<◌};
    ghost use Rattle.pit8253.specs.Counter.{CounterState};
    ghost use Rattle.pit8253.specs.Program.{modulus};

    ghost Value = { CounterState };

    ghost view = { λ c. record {
      kind = c.kind;
      mode = c.mode;
      access = c.access;
      radix = c.radix;
      first_byte = c.first_byte;
      newest = c.newest;
      progress = c.progress;
      load_due = c.load_due;
      count = c.count;
      count_radix = c.count_radix;
      strobe_due = c.strobe_due;
      is_null = c.is_null;
      keeps_zero = c.keeps_zero;
      latch = c.latch;
      status = c.status;
      high_next = c.high_next;
      gate = c.gate;
      out = c.out;
    } };

    ghost inverse = { λ c. record {
      kind = c.kind;
      mode = c.mode;
      access = c.access;
      radix = c.radix;
      first_byte = c.first_byte;
      newest = c.newest;
      progress = c.progress;
      load_due = c.load_due;
      count = c.count;
      count_radix = c.count_radix;
      strobe_due = c.strobe_due;
      is_null = c.is_null;
      keeps_zero = c.keeps_zero;
      latch = c.latch;
      status = c.status;
      high_next = c.high_next;
      gate = c.gate;
      out = c.out;
    } };

    ghost invariant = { λ c. (c.newest < modulus c.radix) × (c.count < modulus c.count_radix) };
}

impl Counter {
    /// Makes a counter at power-on, its gate at the level `gate`: mode 0, two bytes, binary, no count, OUT low. A
    /// control word, too, goes back to that, but for what it sets or leaves.
    pub fn new(kind: TimerKind, gate: Line) -> Self
        ensures { result ≡ power_on kind gate }
    {
        Counter {
            kind,
            mode: Mode::TerminalCount,
            access: Access::LowThenHigh,
            radix: Radix::Binary,
            first_byte: None,
            newest: 0,
            progress: Progress::Awaited,
            load_due: false,
            count: 0,
            count_radix: Radix::Binary,
            strobe_due: false,
            is_null: true,
            keeps_zero: false,
            latch: None,
            status: None,
            high_next: false,
            gate,
            out: Line::Low,
        }
    }

    /// Makes the counter that an image stands for, so that a call from C or the probe can go on with it; any numbers
    /// stand for some counter.
    #[tactic(auto, unfolding(crate::specs::PitNumbers::counter_of))]
    pub fn from_image(image: &CounterImage) -> Self
        ensures { result ≡ counter_of image.now }
    {
        let radix = radix_of(image.radix);
        let count_radix = radix_of(image.count_radix);
        Counter {
            kind: image::kind_of(image.kind),
            mode: mode_of(image.mode % 8),
            access: image::access_of(image.access % 4),
            radix,
            first_byte: image::byte_where(image.has_first_byte, image.first_byte),
            newest: image::count_within(radix, image.newest),
            progress: image::progress_of(image.progress),
            load_due: image::flag_of(image.load_due),
            count: image::count_within(count_radix, image.count),
            count_radix,
            strobe_due: image::flag_of(image.strobe_due),
            is_null: image::flag_of(image.is_null),
            keeps_zero: image::flag_of(image.keeps_zero),
            latch: image::word_where(image.has_latch, image.latch),
            status: image::byte_where(image.has_status, image.status),
            high_next: image::flag_of(image.high_next),
            gate: image::line_of(image.gate),
            out: image::line_of(image.out),
        }
    }

    /// The counter as plain numbers, of which `from_image` makes it again: for callers in C, and for the probe, which
    /// prints them.
    #[tactic(auto, unfolding(crate::specs::PitNumbers::counter_of))]
    pub fn image(&self) -> CounterImage
        ensures { counter_of result ≡ self.now }
    {
        let (has_first_byte, first_byte) = image::byte_numbers(self.first_byte);
        let (has_latch, latch) = image::word_numbers(self.latch);
        let (has_status, status) = image::byte_numbers(self.status);
        CounterImage {
            newest: self.newest,
            count: self.count,
            latch,
            mode: image::mode_number(self.mode),
            access: image::access_number(self.access),
            radix: image::radix_number(self.radix),
            count_radix: image::radix_number(self.count_radix),
            progress: image::progress_number(self.progress),
            first_byte,
            has_first_byte,
            has_latch,
            load_due: image::flag_number(self.load_due),
            strobe_due: image::flag_number(self.strobe_due),
            high_next: image::flag_number(self.high_next),
            gate: image::line_number(self.gate),
            out: image::line_number(self.out),
            kind: image::kind_number(self.kind),
            status,
            has_status,
            is_null: image::flag_number(self.is_null),
            keeps_zero: image::flag_number(self.keeps_zero),
        }
    }

    /// The level of OUT, the counter's output pin.
    pub fn out(&self) -> Line
        ensures { result ≡ self.now.out }
    {
        self.out
    }

    /// Takes a control word that names this counter, of which bits 5 to 0 count here: access 00 latches the count, any
    /// other programs the counter anew.
    #[tactic(auto, unfolding(crate::specs::Counter::after_control_word))]
    pub fn write_control(&mut self, word: u8)
        ensures { self.new ≡ after_control_word self.old word }
    {
        let access = match word / 16 % 4 {
            0 => return self.latch(),
            1 => Access::LowByte,
            2 => Access::HighByte,
            _ => Access::LowThenHigh,
        };
        self.program(mode_of(word / 2 % 8), access, radix_of(word % 2));
    }

    /// Holds the count that the counter shows for the reads to come, so that a program reads both bytes of one moment;
    /// a count that is latched already stays. For access 00 and an 8254's read-back.
    #[tactic(auto, unfolding(crate::specs::Counter::after_latch))]
    pub fn latch(&mut self)
        ensures { self.new ≡ after_latch self.old }
    {
        self.latch = Some(self.reading());
    }

    /// Takes a read-back that names this counter: an 8254 latches the count if bit 5 of `word` is 0, and the status if
    /// bit 4 is 0; an 8253 does nothing.
    #[tactic(auto, unfolding(crate::specs::Counter::after_read_back))]
    pub fn read_back(&mut self, word: u8)
        ensures { self.new ≡ after_read_back self.old word }
    {
        if self.kind == TimerKind::I8253 {
            return;
        }
        if word / 32 % 2 == 0 {
            self.latch();
        }
        if word / 16 % 2 == 0 {
            self.latch_status();
        }
    }

    /// Takes a byte of a count that a program writes. With two-byte access the low byte comes first; with one-byte
    /// access the other byte is 0.
    #[tactic(auto, unfolding(crate::specs::Counter::after_write))]
    pub fn write(&mut self, value: u8)
        ensures { self.new ≡ after_write self.old value }
    {
        match self.access {
            Access::LowByte => self.keep_full_count(u16::from(value)),
            Access::HighByte => self.keep_full_count(256 * u16::from(value)),
            Access::LowThenHigh => match self.first_byte {
                Some(low) => self.keep_full_count(word_of(low, value)),
                None => self.keep_first_byte(value),
            },
        }
    }

    /// Answers a program's read: with the latched status, or else with a byte of the latched or the running count, by
    /// the access; the read of a latch's last byte ends the latch.
    #[tactic(auto, unfolding(crate::specs::Counter::next_byte, crate::specs::Counter::after_read))]
    pub fn read(&mut self) -> u8
        ensures byte { result ≡ next_byte self.old }
        ensures state { self.new ≡ after_read self.old }
    {
        if let Some(status) = self.status {
            self.status = None;
            return status;
        }
        let word = self.reading();
        match self.access {
            Access::LowByte => {
                self.latch = None;
                low_byte(word)
            }
            Access::HighByte => {
                self.latch = None;
                high_byte(word)
            }
            Access::LowThenHigh if self.high_next => {
                self.latch = None;
                self.high_next = false;
                high_byte(word)
            }
            Access::LowThenHigh => {
                self.high_next = true;
                low_byte(word)
            }
        }
    }

    /// Gives the gate the level `line`. In modes 1, 2, 3 and 5 a rise after a full count triggers a load; in modes 2
    /// and 3 a low gate sets OUT high.
    #[tactic(auto, unfolding(crate::specs::Counter::after_gate))]
    pub fn set_gate(&mut self, line: Line)
        ensures { self.new ≡ after_gate self.old line }
    {
        let triggers = rises(self.gate, line)
            && is_triggered(self.mode)
            && !is_awaited(self.progress);
        self.load_due = self.load_due || triggers;
        self.out = out_at_gate(self.mode, line, self.out);
        self.gate = line;
    }

    /// Whether giving the level `line` to the gate changes nothing, so that a timer that lags needn't catch up: the
    /// gate has it already, and OUT is as that level makes it.
    #[tactic(auto, using(crate::proofs::GateKept::gate_kept, crate::proofs::GateKept::gate_was, crate::proofs::GateKept::out_was))]
    pub fn keeps_gate(&self, line: Line) -> bool
        ensures { IsTrue result ↔ after_gate self.now line ≡ self.now }
    {
        self.gate == line && out_at_gate(self.mode, line, self.out) == self.out
    }

    /// Programs the counter anew, for a control word: a latch, a trigger and a count that wait are dropped, OUT is as
    /// the mode begins, and kind, gate and running count stay.
    fn program(&mut self, mode: Mode, access: Access, radix: Radix)
        ensures { self.new ≡ after_program self.old mode access radix }
    {
        *self = Counter {
            mode,
            access,
            radix,
            count: self.count,
            count_radix: self.count_radix,
            out: out_at_control(mode),
            ..Counter::new(self.kind, self.gate)
        };
    }

    /// The sixteen bits that reads show and a latch holds: the latched count, or else the running count, as binary or
    /// decimal digits.
    fn reading(&self) -> u16
        ensures { result ≡ reading self.now }
    {
        match self.latch {
            Some(word) => word,
            None => digits_of(self.count_radix, self.count),
        }
    }

    /// Takes a count whose bytes have all been written as the newest one. In modes 0 and 4, and as the first in modes
    /// 2 and 3, the next tick loads it; in mode 0 OUT goes low.
    fn keep_full_count(&mut self, word: u16)
        ensures { self.new ≡ after_full_count self.old word }
    {
        self.first_byte = None;
        self.newest = count_of(self.radix, word);
        self.load_due = self.load_due || loads_when_written(self.mode, self.progress);
        self.is_null = true;
        if is_awaited(self.progress) {
            self.progress = Progress::Written;
        }
        if self.mode == Mode::TerminalCount {
            self.out = Line::Low;
        }
    }

    /// Keeps the low byte of two until the high byte is written; in mode 0 it already sets OUT low, and no tick counts
    /// until then.
    fn keep_first_byte(&mut self, low: u8)
        ensures { self.new ≡ record self.old { first_byte = Some low; out = out_at_write self.old.mode self.old.out } }
    {
        self.first_byte = Some(low);
        if self.mode == Mode::TerminalCount {
            self.out = Line::Low;
        }
    }

    /// Loads the newest count as the running one and sets OUT to `out`: in the tick after a write or a trigger, or at
    /// the end of a period. A strobe is to come again.
    fn load(&mut self, out: Line)
        ensures { self.new ≡ after_load self.old out }
    {
        self.count = self.newest;
        self.count_radix = self.radix;
        self.progress = Progress::Loaded;
        self.load_due = false;
        self.strobe_due = true;
        self.is_null = false;
        self.keeps_zero = false;
        self.out = out;
    }

    /// Whether mode 3 loads the newest count less 1, so that each tick falls by 2: on an 8254, if it is odd and not 1.
    fn loads_less(&self) -> bool
        ensures { result ≡ loads_less self.now }
    {
        self.kind == TimerKind::I8254 && self.newest % 2 == 1 && self.newest != 1
    }

    /// Loads the newest count as mode 3 does and sets OUT to `out`. An 8254 loads an odd one above 1 less 1, and with
    /// OUT high it then shows 0 for a tick of its own, so that the half is as long as an 8253's.
    fn square_load(&mut self, out: Line)
        ensures { self.new ≡ after_square_load self.old out }
    {
        let less = self.loads_less();
        self.load(out);
        if less {
            self.count = self.newest.saturating_sub(1);
            self.keeps_zero = out == Line::High;
        }
    }

    /// Makes the load that a write or a trigger asked for, in the next tick, and sets OUT as a load does in the mode.
    fn load_due_count(&mut self)
        ensures { self.new ≡ after_due_load self.old self.old.mode }
    {
        let out = out_at_load(self.mode, self.out);
        match self.mode {
            Mode::SquareWave => self.square_load(out),
            _ => self.load(out),
        }
    }

    /// Holds the status for the next read, for an 8254's read-back; a status that is latched already stays.
    #[tactic(auto, unfolding(crate::specs::Counter::after_status_latch))]
    fn latch_status(&mut self)
        ensures { self.new ≡ after_status_latch self.old }
    {
        if self.status.is_none() {
            self.status = Some(self.status());
        }
    }

    /// The byte that a read-back latches: bit 7 OUT, bit 6 null count, bits 5 and 4 the access, 3 to 1 the mode, 0 the
    /// radix.
    fn status(&self) -> u8
        ensures { result ≡ status_of self.now }
    {
        128 * image::line_number(self.out)
            + 64 * image::flag_number(self.is_null)
            + 16 * image::access_number(self.access)
            + 2 * image::mode_number(self.mode)
            + image::radix_number(self.radix)
    }

    /// How many ticks bring the running count to 0, at 1 a tick: from 1 to 65,536, since 0 is the largest count.
    fn ticks_left(&self) -> u64
        ensures ticks { result ≡ ticks_left self.now }
        ensures some { 0 < result }
        ensures bound { result ≤ 65536 }
    {
        length_of(self.count_radix, self.count)
    }

    /// The newest count's length in ticks, from 1 to 65,536: in modes 2 and 3 OUT comes round after it.
    fn period(&self) -> u64
        ensures ticks { result ≡ size self.now }
        ensures some { 0 < result }
        ensures bound { result ≤ 65536 }
    {
        length_of(self.radix, self.newest)
    }

    /// Lets `ticks` ticks pass in which no load is due from a write or a trigger, for `advance`: counts as the mode
    /// does if a count is loaded and the gate lets it, and else stands still.
    #[tactic(auto, unfolding(crate::specs::Ahead::after_run))]
    fn run(&mut self, ticks: u64)
        ensures { self.new ≡ after_run self.old ticks }
    {
        if self.progress != Progress::Loaded {
            return self.rest(ticks);
        }
        let enabled = self.gate == Line::High;
        match self.mode {
            Mode::TerminalCount if enabled && self.first_byte.is_none() => self.fall(ticks),
            Mode::OneShot => self.fall(ticks),
            Mode::RateGenerator if enabled => self.divide(ticks),
            Mode::SquareWave if enabled => self.square(ticks),
            Mode::SoftwareStrobe if enabled => self.strobe(ticks),
            Mode::HardwareStrobe => self.strobe(ticks),
            _ => self.rest(ticks),
        }
    }

    /// Lets `ticks` ticks pass that don't count, for `run`: only a strobe ends, since in modes 4 and 5 OUT goes high
    /// at the first of them.
    fn rest(&mut self, ticks: u64)
        ensures { self.new ≡ after_rests self.old self.old.mode ticks }
    {
        match self.mode {
            Mode::SoftwareStrobe | Mode::HardwareStrobe if ticks > 0 => self.out = Line::High,
            _ => (),
        }
    }

    /// Lets the count fall by `ticks` as in modes 0 and 1: OUT goes high at 0, and the count goes on below it. As long
    /// as it stays above 0, neither its length nor a remainder is needed: most calls are short.
    #[tactic(auto, using(crate::proofs::Shorter::falls_short))]
    fn fall(&mut self, ticks: u64)
        ensures { self.new ≡ after_fall self.old ticks }
    {
        let left = left_after(self.count, ticks);
        if left > 0 {
            self.count = left;
            return;
        }
        if ticks >= self.ticks_left() {
            self.out = Line::High;
        }
        self.count = count_after(self.count_radix, self.count, ticks);
    }

    /// Lets `ticks` ticks pass in mode 2: the end of the period loads the newest count, and of the whole periods after
    /// it only the remainder is made.
    #[tactic(auto, unfolding(crate::specs::Ahead::after_rate), using(crate::proofs::Shorter::divides_short))]
    fn divide(&mut self, ticks: u64)
        ensures { self.new ≡ after_rate self.old ticks }
    {
        let short = left_after(self.count, ticks);
        if short > 1 {
            self.count = short;
            return;
        }
        let left = self.ticks_left();
        if ticks < left {
            return self.fall_in_period(ticks);
        }
        self.load(Line::High);
        self.fall_in_period((ticks - left) % self.period());
    }

    /// Lets the count fall by `ticks` in mode 2, which don't reach the end of the period: OUT goes low for its last
    /// tick.
    fn fall_in_period(&mut self, ticks: u64)
        ensures { self.new ≡ after_rate_fall self.old ticks }
    {
        let last = self.ticks_left() - 1;
        if ticks > 0 && ticks == last {
            self.out = Line::Low;
        }
        self.count = count_after(self.count_radix, self.count, ticks);
    }

    /// Lets `ticks` ticks pass in mode 3: the count falls by 2, the end of a half loads the newest count and turns
    /// OUT, and of the whole periods after it only the remainder is made.
    #[tactic(auto, unfolding(crate::specs::Ahead::after_square), using(crate::proofs::Shorter::squares_short))]
    fn square(&mut self, ticks: u64)
        ensures { self.new ≡ after_square self.old ticks }
    {
        let short = left_after(half_of(self.count, self.out), ticks);
        if short > 0 && ticks > 0 {
            self.count = 2 * short;
            return;
        }
        let half = self.half_ticks();
        if ticks < half {
            return self.fall_in_half(ticks);
        }
        let period = self.period();
        self.turn();
        self.run_halves((ticks - half) % period);
    }

    /// Lets `ticks` ticks pass in mode 3 in which OUT turns at most once: what `square` leaves after whole periods.
    #[tactic(auto, unfolding(crate::specs::Ahead::after_halves))]
    fn run_halves(&mut self, ticks: u64)
        ensures { self.new ≡ after_halves self.old ticks }
    {
        let half = self.half_ticks();
        if ticks < half {
            return self.fall_in_half(ticks);
        }
        self.turn();
        self.fall_in_half(ticks - half);
    }

    /// How many falls by 2 bring the count to 0 in mode 3; an odd count has one more in the high half than in the low
    /// one. If a 0 is kept for a tick, a count of 0 has no fall left.
    fn falls_left(&self) -> u64
        ensures ticks { result ≡ falls_left self.now }
        ensures bound { 2 * result ≤ modulus self.now.count_radix }
    {
        let left = if self.keeps_zero {
            u64::from(self.count)
        } else {
            self.ticks_left()
        };
        match self.out {
            Line::High => (left + 1) / 2,
            Line::Low => left / 2,
        }
    }

    /// How many ticks of mode 3 end the half, at a count other than 1: one for each fall, and one for a 0 that an 8254
    /// keeps for a tick.
    fn half_left(&self) -> u64
        ensures ticks { result ≡ half_left self.now }
        ensures bound { result ≤ 32769 }
    {
        let falls = self.falls_left();
        if self.keeps_zero { falls + 1 } else { falls }
    }

    /// After how many ticks mode 3 loads the newest count and turns OUT: a count of 1 is loaded anew at the next tick.
    fn half_ticks(&self) -> u64
        ensures ticks { result ≡ half_ticks self.now }
        ensures bound { result ≤ 32769 }
    {
        if self.count == 1 { 1 } else { self.half_left() }
    }

    /// Lets the count fall for `ticks` ticks of mode 3 that don't reach the end of the half: it is then twice the
    /// number of falls that are left.
    fn fall_in_half(&mut self, ticks: u64)
        ensures { self.new ≡ after_half_fall self.old ticks }
    {
        if ticks > 0 {
            let left = self.falls_left().saturating_sub(ticks);
            self.count = (2 * left) as u16;
        }
    }

    /// Ends a half of mode 3: loads the newest count and turns OUT to its other level; after a count of 1, or with a
    /// newest count of 1, OUT is high instead.
    #[tactic(auto, unfolding(crate::specs::Ahead::after_turn))]
    fn turn(&mut self)
        ensures { self.new ≡ after_turn self.old }
    {
        let out = if self.count == 1 || self.newest == 1 {
            Line::High
        } else {
            self.out.opposite()
        };
        self.square_load(out);
    }

    /// Lets the count fall by `ticks` as in modes 4 and 5: OUT is low for the one tick that reaches 0, once for each
    /// load.
    #[tactic(auto, using(crate::proofs::Shorter::strobes_short))]
    fn strobe(&mut self, ticks: u64)
        ensures { self.new ≡ after_strobe_fall self.old ticks }
    {
        let short = left_after(self.count, ticks);
        if short > 0 && ticks > 0 {
            self.count = short;
            self.out = Line::High;
            return;
        }
        let left = self.ticks_left();
        if ticks > 0 {
            self.out = if ticks == left && self.strobe_due {
                Line::Low
            } else {
                Line::High
            };
        }
        self.strobe_due = self.strobe_due && ticks < left;
        self.count = count_after(self.count_radix, self.count, ticks);
    }

    /// After how many ticks OUT first changes if no load is due, for `until_change`; `None` if it never does, else
    /// from 1 to 65,536.
    #[tactic(auto, unfolding(crate::specs::Ahead::until_turn))]
    fn until_turn(&self) -> Option<u64>
        ensures turn { result ≡ until_turn self.now }
        ensures bound { IfSome result (λ ticks. ticks ≤ 65536) }
    {
        if self.progress != Progress::Loaded {
            return self.until_rest();
        }
        let enabled = self.gate == Line::High;
        match self.mode {
            Mode::TerminalCount if enabled && self.first_byte.is_none() => self.until_end(),
            Mode::OneShot => self.until_end(),
            Mode::RateGenerator if enabled => self.until_pulse(),
            Mode::SquareWave if enabled => self.until_half(),
            Mode::SoftwareStrobe if enabled => self.until_strobe(),
            Mode::HardwareStrobe => self.until_strobe(),
            _ => self.until_rest(),
        }
    }

    /// After how many ticks OUT first changes while the counter doesn't count: 1 if a strobe of mode 4 or 5 is low,
    /// and else `None`, never.
    fn until_rest(&self) -> Option<u64>
        ensures turn { result ≡ until_rest self.now self.now.mode }
        ensures bound { IfSome result (λ ticks. ticks ≤ 65536) }
    {
        match self.mode {
            Mode::SoftwareStrobe | Mode::HardwareStrobe if self.out == Line::Low => Some(1),
            _ => None,
        }
    }

    /// After how many ticks OUT first changes in modes 0 and 1: it goes high at the end of the count; `None` if it is
    /// high already.
    fn until_end(&self) -> Option<u64>
        ensures turn { result ≡ until_end self.now }
        ensures bound { IfSome result (λ ticks. ticks ≤ 65536) }
    {
        match self.out {
            Line::High => None,
            Line::Low => Some(self.ticks_left()),
        }
    }

    /// After how many ticks OUT first changes in mode 2: it goes low for the last tick of a period and then high;
    /// `None` if it stays high, at a count of 1.
    fn until_pulse(&self) -> Option<u64>
        ensures turn { result ≡ until_pulse self.now }
        ensures bound { IfSome result (λ ticks. ticks ≤ 65536) }
    {
        let left = self.ticks_left();
        let period = self.period();
        match self.out {
            Line::Low => Some(left),
            Line::High if left > 1 => Some(left - 1),
            Line::High if period > 1 => Some(period),
            Line::High => None,
        }
    }

    /// After how many ticks OUT first changes in mode 3: mostly at the end of the half; `None` if it stays high, with
    /// a newest count of 1.
    fn until_half(&self) -> Option<u64>
        ensures turn { result ≡ until_half self.now }
        ensures bound { IfSome result (λ ticks. ticks ≤ 65536) }
    {
        let period = self.period();
        match self.out {
            Line::High if self.newest == 1 => None,
            Line::High if self.count == 1 => Some(1 + (period + 1) / 2),
            Line::High | Line::Low => Some(self.half_ticks()),
        }
    }

    /// After how many ticks OUT first changes in modes 4 and 5: it goes low at the end of the count if the strobe is
    /// still to come, and mostly high at the tick after; `None` if the strobe is over.
    fn until_strobe(&self) -> Option<u64>
        ensures turn { result ≡ until_strobe self.now }
        ensures bound { IfSome result (λ ticks. ticks ≤ 65536) }
    {
        let left = self.ticks_left();
        match self.out {
            Line::High if self.strobe_due => Some(left),
            Line::High => None,
            Line::Low if left == 1 && self.strobe_due => Some(2),
            Line::Low => Some(1),
        }
    }
}

/// A counter's output is OUT.
impl Timed for Counter {
    ghost use Rattle.std.proofs.Common.{sym};
    ghost use Rattle.std.specs.Prelude.{◌≡◌, ◌≤◌, IfSome};
    ghost use Rattle.board_types.proofs.Iterate.{iterate_add};
    ghost use Rattle.board_types.specs.Timed.{IsUntilTurn};
    ghost use Rattle.pit8253.specs.Counter.{after_tick, after_ticks, out_of};

    ghost after = { after_ticks };

    ghost output = { out_of };

    /// Lets `ticks` ticks pass: falling edges of CLK, the first of which makes a load that is due. Takes as long
    /// whatever their number, so that a board can pass many clocks at once.
    fn advance(&mut self, ticks: u64)
        ensures { self.new ≡ after_ticks self.old ticks }
    {
        if ticks == 0 {
            return;
        }
        if self.load_due {
            self.load_due_count();
            self.run(ticks - 1);
        } else {
            self.run(ticks);
        }
    }

    /// After how many ticks, from 1 on, OUT first changes, so that a board can go up to there at once: as long as
    /// nothing is written and the gate stays. `None` if it never does, and else at most 65,537.
    fn until_change(&self) -> Option<u64>
        ensures turn { IsUntilTurn after_ticks out_of self.now result }
        ensures bound { IfSome result (λ ticks. ticks ≤ 65537) }
    {
        if !self.load_due {
            return self.until_turn();
        }
        let mut loaded = *self;
        loaded.load_due_count();
        if differ(self.out, loaded.out) {
            return Some(1);
        }
        a_tick_later(loaded.until_turn())
    }

    ghost adds = { λ c k m. sym (iterate_add after_tick k m c) };
}

/// The level of OUT that a load after a write or a trigger gives: low in mode 1, high in modes 2 to 5, in mode 0 as it
/// was.
fn out_at_load(mode: Mode, out: Line) -> Line
    ensures { result ≡ out_at_load mode out }
{
    match mode {
        Mode::TerminalCount => out,
        Mode::OneShot => Line::Low,
        Mode::RateGenerator | Mode::SquareWave | Mode::SoftwareStrobe | Mode::HardwareStrobe =>
            Line::High,
    }
}

/// The level of OUT that a control word gives: low in mode 0, high in any other.
fn out_at_control(mode: Mode) -> Line
    ensures { result ≡ out_at_control mode }
{
    if mode == Mode::TerminalCount {
        Line::Low
    } else {
        Line::High
    }
}

/// Whether a full count that is written is loaded at the next tick: always in modes 0 and 4, in modes 2 and 3 if it is
/// the first after the control word, never in modes 1 and 5, which wait for a trigger.
fn loads_when_written(mode: Mode, progress: Progress) -> bool
    ensures { result ≡ loads_when_written mode progress }
{
    match mode {
        Mode::TerminalCount | Mode::SoftwareStrobe => true,
        Mode::RateGenerator | Mode::SquareWave => is_awaited(progress),
        Mode::OneShot | Mode::HardwareStrobe => false,
    }
}

/// Whether a rise of the gate triggers a load in this mode: in modes 1, 2, 3 and 5.
fn is_triggered(mode: Mode) -> bool
    ensures { result ≡ is_triggered mode }
{
    match mode {
        Mode::TerminalCount | Mode::SoftwareStrobe => false,
        Mode::OneShot | Mode::RateGenerator | Mode::SquareWave | Mode::HardwareStrobe => true,
    }
}

/// Whether the gate goes from low to high, which can trigger a load.
fn rises(before: Line, after: Line) -> bool
    ensures { result ≡ rises before after }
{
    before == Line::Low && after == Line::High
}

/// Whether OUT has another level after a load than before it, for `until_change`.
fn differ(before: Line, after: Line) -> bool
    ensures { result ≡ differ before after }
{
    before != after
}

/// Adds the tick that makes a load to the ticks that come after it, for `until_change`; `None`, for never, stays
/// `None`.
fn a_tick_later(turn: Option<u64>) -> Option<u64>
    requires { IfSome turn (λ ticks. ticks ≤ 65536) }
    ensures later { result ≡ a_tick_later turn }
    ensures bound { IfSome result (λ ticks. ticks ≤ 65537) }
{
    match turn {
        Some(ticks) => Some(1 + ticks),
        None => None,
    }
}

/// Whether no full count has been written since the control word: then a trigger loads nothing.
fn is_awaited(progress: Progress) -> bool
    ensures { result ≡ is_awaited progress }
{
    progress == Progress::Awaited
}

/// The level of OUT once the gate is at `gate`: in modes 2 and 3 a low gate sets it high, and else it stays as it was.
fn out_at_gate(mode: Mode, gate: Line, out: Line) -> Line
    ensures { result ≡ out_at_gate mode gate out }
{
    match mode {
        Mode::RateGenerator | Mode::SquareWave if gate == Line::Low => Line::High,
        _ => out,
    }
}

/// The mode that bits 3 to 1 of a control word, or the number of an image, stand for: 6 and 7 are modes 2 and 3.
fn mode_of(bits: u8) -> Mode
    requires { bits < 8 }
    ensures { result ≡ mode_of bits }
{
    match bits {
        0 => Mode::TerminalCount,
        1 => Mode::OneShot,
        4 => Mode::SoftwareStrobe,
        5 => Mode::HardwareStrobe,
        2 | 6 => Mode::RateGenerator,
        _ => Mode::SquareWave,
    }
}

/// The radix that bit 0 of a control word, or the number of an image, stands for: 0 is binary, and any other number
/// decimal.
fn radix_of(bit: u8) -> Radix
    ensures { result ≡ radix_of bit }
{
    if bit == 0 {
        Radix::Binary
    } else {
        Radix::Decimal
    }
}
