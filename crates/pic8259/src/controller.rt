//! The controller's registers and the commands that change them. The headings named are those of the Intel
//! 8259A data sheet.
ghost use Rattle.std.specs.Prelude.{◌≡◌, ◌<◌, ◌≤◌, IfSome, length, slice_index_or, find, map, take, ◌+◌, ℕ, None, All, true, false};

use crate::image;
use crate::image::PicImage;
use crate::levels::LevelSet;
use board_types::bits::bit;
use board_types::line::Line;
use std::marker::Model;

/// The word that an initialisation sequence waits for ("Initialization Command Words").
#[derive(Clone, Copy)]
pub enum Expected {
    Icw2,
    Icw3,
    Icw4,
    /// No sequence is under way.
    Operation,
}

/// An Intel 8259A, alone on its board. It takes interrupts in 8086 mode only.
#[derive(Clone, Copy)]
pub struct Pic {
    /// The level with the lowest priority; the one after it has the highest.
    lowest: u8,
    high: LevelSet,
    risen: LevelSet,
    masked: LevelSet,
    served: LevelSet,
    expected: Expected,
    is_cascaded: bool,
    asks_icw4: bool,
    is_level_triggered: bool,
    vector_base: u8,
    slaves: u8,
    is_8086: bool,
    auto_end: bool,
    is_specially_nested: bool,
    rotates: bool,
    special_mask: bool,
    polled: bool,
    reads_served: bool,
}

impl Model for Pic {
    ghost use Rattle.std.specs.Prelude.{◌≤◌, ◌<◌, slice_index};
    ghost use Rattle.std.proofs.Common.{ap};
    ghost use Rattle.pic8259.specs.Levels.{order_with_lowest};
    ghost use Rattle.pic8259.specs.Masks.{last-order_with_lowest};
    ghost use Rattle.pic8259.specs.Pic.{PicState};

    ghost Value = { PicState };

    ghost view = { λ a. record {
      order = order_with_lowest a.lowest;
      high = a.high;
      risen = a.risen;
      masked = a.masked;
      served = a.served;
      expected = a.expected;
      is_cascaded = a.is_cascaded;
      asks_icw4 = a.asks_icw4;
      is_level_triggered = a.is_level_triggered;
      vector_base = a.vector_base;
      slaves = a.slaves;
      is_8086 = a.is_8086;
      auto_end = a.auto_end;
      is_specially_nested = a.is_specially_nested;
      rotates = a.rotates;
      special_mask = a.special_mask;
      polled = a.polled;
      reads_served = a.reads_served;
    } };

    ghost invariant = { λ a. (a.lowest < 8) × (a.vector_base ≤ 248) };

    ghost inverse = { λ s. record {
      lowest = slice_index s.order 7;
      high = s.high;
      risen = s.risen;
      masked = s.masked;
      served = s.served;
      expected = s.expected;
      is_cascaded = s.is_cascaded;
      asks_icw4 = s.asks_icw4;
      is_level_triggered = s.is_level_triggered;
      vector_base = s.vector_base;
      slaves = s.slaves;
      is_8086 = s.is_8086;
      auto_end = s.auto_end;
      is_specially_nested = s.is_specially_nested;
      rotates = s.rotates;
      special_mask = s.special_mask;
      polled = s.polled;
      reads_served = s.reads_served;
    } };

    ghost inverse_ok = { λ a h. ap (λ n. record a { lowest = n }) (last-order_with_lowest a.lowest h.0) };
}

impl Pic {
    ghost use Rattle.pic8259.specs.PicNumbers.{pic_of};
    ghost use Rattle.pic8259.specs.Inhibited.{is_inhibited};
    ghost use Rattle.std.specs.List.{list_any};
    ghost use Rattle.std.specs.Option.{option_map_or};
    ghost use Rattle.pic8259.specs.declared.controller.Expected.TheVariants.{Icw2, Icw3, Icw4, Operation};
    ghost use Rattle.pic8259.specs.Levels.{all_levels, contains, no_levels, up_to};
    ghost use Rattle.pic8259.specs.AskingLevels.{is_pending, requests};
    ghost use Rattle.pic8259.specs.Pic.{power_on, is_requesting, is_ready, asks, blocks, may_be_taken, level_to_take, after_taking, after_acknowledge, vector, byte_at, after_read, after_line, after_icw1, after_word, after_end, after_lowering, highest_served, after_ocw2, after_ocw3, after_command, after_write, is_operating, expected_after_icw3};

    /// Makes a controller at power-on: every line low, nothing masked or in service, edge mode, no initialisation
    /// sequence begun. ICW1, too, goes back to that, but for what it leaves.
    #[tactic(auto, unfolding(crate::specs::Levels::order_with_lowest))]
    pub fn new() -> Pic
        ensures { result ≡ power_on }
    {
        Pic {
            lowest: 7,
            high: LevelSet::from_byte(0),
            risen: LevelSet::from_byte(0),
            masked: LevelSet::from_byte(0),
            served: LevelSet::from_byte(0),
            expected: Expected::Operation,
            is_cascaded: false,
            asks_icw4: false,
            is_level_triggered: false,
            vector_base: 0,
            slaves: 0,
            is_8086: false,
            auto_end: false,
            is_specially_nested: false,
            rotates: false,
            special_mask: false,
            polled: false,
            reads_served: false,
        }
    }

    /// Makes the controller that an image stands for, so that a call from C or the probe can go on with it; any
    /// numbers stand for some controller.
    #[tactic(auto, unfolding(crate::specs::PicNumbers::pic_of))]
    pub fn from_image(image: &PicImage) -> Pic
        ensures { result ≡ pic_of image.now }
    {
        Pic {
            lowest: image.lowest % 8,
            high: LevelSet::from_byte(image.high),
            risen: LevelSet::from_byte(image.risen),
            masked: LevelSet::from_byte(image.masked),
            served: LevelSet::from_byte(image.served),
            expected: image::expected_of(image.expected),
            is_cascaded: image::flag_of(image.is_cascaded),
            asks_icw4: image::flag_of(image.asks_icw4),
            is_level_triggered: image::flag_of(image.is_level_triggered),
            vector_base: image::base_of(image.vector_base),
            slaves: image.slaves,
            is_8086: image::flag_of(image.is_8086),
            auto_end: image::flag_of(image.auto_end),
            is_specially_nested: image::flag_of(image.is_specially_nested),
            rotates: image::flag_of(image.rotates),
            special_mask: image::flag_of(image.special_mask),
            polled: image::flag_of(image.polled),
            reads_served: image::flag_of(image.reads_served),
        }
    }

    /// The controller as plain numbers, of which `from_image` makes it again: for callers in C, and for the probe,
    /// which prints them.
    #[tactic(auto, unfolding(crate::specs::PicNumbers::pic_of))]
    pub fn image(&self) -> PicImage
        ensures { pic_of result ≡ self.now }
    {
        PicImage {
            lowest: self.lowest,
            high: self.high.byte(),
            risen: self.risen.byte(),
            masked: self.masked.byte(),
            served: self.served.byte(),
            expected: image::expected_number(self.expected),
            is_cascaded: image::flag_number(self.is_cascaded),
            asks_icw4: image::flag_number(self.asks_icw4),
            is_level_triggered: image::flag_number(self.is_level_triggered),
            vector_base: self.vector_base(),
            slaves: self.slaves,
            is_8086: image::flag_number(self.is_8086),
            auto_end: image::flag_number(self.auto_end),
            is_specially_nested: image::flag_number(self.is_specially_nested),
            rotates: image::flag_number(self.rotates),
            special_mask: image::flag_number(self.special_mask),
            polled: image::flag_number(self.polled),
            reads_served: image::flag_number(self.reads_served),
        }
    }

    /// Sets the request line of level `n`, from 0 to 7, as the device on it drives it. A line that goes from low to
    /// high has risen, and stays so until its level is taken or ICW1 is written ("Edge and Level Triggered Modes").
    #[tactic(auto, unfolding(crate::specs::Pic::after_line))]
    pub fn set_line(&mut self, n: u8, line: Line)
        requires { n < 8 }
        ensures { self.new ≡ after_line self.old n line }
    {
        match line {
            Line::Low => self.high.remove(n),
            Line::High => {
                if !self.high.contains(n) {
                    self.risen.insert(n);
                }
                self.high.insert(n);
            }
        }
    }

    /// Whether level `n`, from 0 to 7, has risen since it was last taken: then further rises change nothing, and the
    /// board needn't stop at each one of OUT0, which drives IR0.
    pub fn has_risen(&self, n: u8) -> bool
        requires { n < 8 }
        ensures { result ≡ contains self.now.risen n }
    {
        self.risen.contains(n)
    }

    /// Answers a program's IN at address line A0. A pending poll is answered at either port: it takes a level as an
    /// acknowledge does and gives 80h plus its number, or gives 0. Else A0 = 1 gives the mask, and A0 = 0 the requests
    /// or the levels in service ("Poll Command", "Reading the 8259A Status").
    #[tactic(auto, unfolding(crate::specs::Pic::byte_at, crate::specs::Pic::after_read))]
    pub fn read(&mut self, a0: bool) -> u8
        ensures value { result ≡ byte_at self.old a0 }
        ensures state { self.new ≡ after_read self.old }
    {
        if self.polled {
            self.answer_poll()
        } else if a0 {
            self.masked.byte()
        } else if self.reads_served {
            self.served.byte()
        } else {
            self.requests().byte()
        }
    }

    /// Does a program's OUT at address line A0. At A0 = 0 the value is ICW1, OCW2 or OCW3, by its bits 4 and 3; at A0
    /// = 1 it is the word that the initialisation sequence waits for, and else the mask ("Programming the 8259A").
    #[tactic(auto, unfolding(crate::specs::Pic::after_write))]
    pub fn write(&mut self, a0: bool, value: u8)
        ensures state { self.new ≡ after_write self.old a0 value }
        ensures lines { length self.old.high ≡ 8 }
    {
        self.high.has_eight();
        if !a0 {
            self.write_command(value);
            return;
        }
        match self.expected {
            Expected::Icw2 => self.write_icw2(value),
            Expected::Icw3 => self.write_icw3(value),
            Expected::Icw4 => self.write_icw4(value),
            Expected::Operation => self.write_ocw1(value),
        }
    }

    /// Whether the interrupt output INT, which goes to the processor, is high: an acknowledge would take a level.
    pub fn request(&self) -> bool
        ensures { result ≡ is_requesting self.now }
    {
        self.find_level().is_some()
    }

    /// Whether level `n`, from 0 to 7, requests nothing whatever its line does, as long as nothing is written or
    /// taken: the controller isn't ready, or the level is masked, or not above one in service. If so for IR0, the
    /// board goes on over the timer's edges.
    #[inline(never)]
    pub fn is_inhibited(&self, n: u8) -> bool
        requires { n < 8 }
        ensures { result ≡ is_inhibited self.now n }
    {
        !self.is_ready() || self.masked.contains(n) || self.is_blocked(n)
    }

    /// Whether level `n`, below 8, can't be taken, for `is_inhibited`, because a level that blocks stands at or before
    /// its place in the order of priority.
    #[tactic(auto, using(crate::proofs::Walk::none_blocks))]
    fn is_blocked(&self, n: u8) -> bool
        requires { n < 8 }
        ensures { result ≡ list_any (blocks self.now) (up_to self.now.order n) }
    {
        // mostly no level is in service, and then the order isn't gone through
        if self.served.is_empty() {
            return false;
        }
        let order = self.order();
        let mut is_blocked = false;
        for place in 0..self.place(n) + 1 {
            is_blocked |= self.blocks(order[place]);
        }
        is_blocked
    }

    /// The place of level `n` in the order of priority, from 0 for the highest: `is_blocked` looks no further.
    #[tactic(auto, using(crate::proofs::Order::stands_at))]
    fn place(&self, n: u8) -> usize
        requires { n < 8 }
        ensures bound { result < 8 }
        ensures level { slice_index_or self.now.order result 0 ≡ n }
    {
        usize::from((n + 7 - self.lowest) % 8)
    }

    /// Answers the processor's interrupt acknowledge: takes the first level in the order of priority that asks, is
    /// unmasked and isn't blocked, and gives its vector. If there is none, the vector is that of level 7 and nothing
    /// changes ("Interrupt Sequence").
    pub fn acknowledge(&mut self) -> u8
        ensures vector { result ≡ vector self.old }
        ensures state { self.new ≡ after_acknowledge self.old }
        ensures lines { length self.old.high ≡ 8 }
    {
        self.high.has_eight();
        let base = self.vector_base();
        match self.take_level() {
            Some(level) => base + level,
            None => base + 7,
        }
    }

    /// Bits 7 to 3 of each vector, to which `acknowledge` adds the level: at most 248, so that the sum is a byte.
    fn vector_base(&self) -> u8
        ensures value { result ≡ self.now.vector_base }
        ensures bound { result ≤ 248 }
    {
        self.vector_base
    }

    /// Answers the read after a poll command: takes a level as an acknowledge does and gives 80h plus its number, or
    /// gives 0 if there is none; the poll is over.
    fn answer_poll(&mut self) -> u8
        ensures value { result ≡ option_map_or (λ level. 0x80 + level) (level_to_take self.old) 0 }
        ensures state { self.new ≡ record (after_acknowledge self.old) { polled = false } }
    {
        let level = self.take_level();
        self.polled = false;
        match level {
            Some(level) => 0x80 + level,
            None => 0,
        }
    }

    /// Takes the level that an acknowledge or a poll takes, and gives its number; if there is none, gives `None` and
    /// changes nothing.
    #[tactic(auto, unfolding(crate::specs::Pic::after_acknowledge))]
    fn take_level(&mut self) -> Option<u8>
        ensures level { result ≡ level_to_take self.old }
        ensures bound { IfSome result (λ level. level < 8) }
        ensures state { self.new ≡ after_acknowledge self.old }
    {
        let level = self.find_level()?;
        self.serve(level);
        Some(level)
    }

    /// Puts a level, below 8, that an acknowledge or a poll takes into service and forgets its rise; under automatic
    /// end of interrupt it doesn't come into service, but becomes the lowest if rotation is set.
    #[tactic(auto, using(crate::proofs::Order::turned_to_lowest), unfolding(crate::specs::Pic::after_taking))]
    fn serve(&mut self, level: u8)
        requires { level < 8 }
        ensures { self.new ≡ after_taking self.old level }
    {
        self.risen.remove(level);
        if !self.auto_end {
            self.served.insert(level);
        } else if self.rotates {
            self.lowest = level;
        }
    }

    /// The levels that ask, for a read of the requests and for `pending`: those whose line is high and, in edge mode,
    /// has risen since they were last taken.
    fn requests(&self) -> LevelSet
        ensures { result ≡ requests self.now }
    {
        if self.is_level_triggered {
            self.high.intersection(LevelSet::from_byte(0xFF))
        } else {
            self.high.intersection(self.risen)
        }
    }

    /// Whether `level`, below 8, asks for an interrupt: its line is high and, in edge mode, has risen since it was
    /// last taken.
    fn asks(&self, level: u8) -> bool
        requires { level < 8 }
        ensures { result ≡ asks self.now level }
    {
        self.high.contains(level) && (self.is_level_triggered || self.risen.contains(level))
    }

    /// Whether `level`, below 8, asks and is unmasked: an acknowledge takes the first such level that isn't blocked.
    fn is_pending(&self, level: u8) -> bool
        requires { level < 8 }
        ensures { result ≡ is_pending self.now level }
    {
        self.asks(level) && !self.masked.contains(level)
    }

    /// The levels that ask and are unmasked. If there are none, no level may be taken, and `find_level` needn't go
    /// through the order.
    #[tactic(auto, using(crate::proofs::Walk::none_pending))]
    fn pending(&self) -> LevelSet
        ensures levels { result ≡ map (is_pending self.now) all_levels }
        ensures none { result ≡ no_levels → find (may_be_taken self.now) self.now.order ≡ None }
    {
        self.requests().difference(self.masked)
    }

    /// Whether `level`, below 8, keeps itself and those after it in the order from being taken: it is in service, and
    /// not masked in special mask mode.
    fn blocks(&self, level: u8) -> bool
        requires { level < 8 }
        ensures { result ≡ blocks self.now level }
    {
        self.served.contains(level) && !(self.special_mask && self.masked.contains(level))
    }

    /// Whether an acknowledge or a poll can take levels at all: no initialisation sequence is under way, and 8086 mode
    /// is set.
    fn is_ready(&self) -> bool
        ensures { result ≡ is_ready self.now }
    {
        self.is_operating() && self.is_8086
    }

    /// The levels, the highest priority first: the list in which the level to take, or the one to end, is looked for.
    #[tactic(auto, unfolding(crate::specs::Levels::order_with_lowest))]
    fn order(&self) -> [u8; 8]
        ensures order { result ≡ self.now.order }
        ensures size { length result ≡ 8 }
        ensures levels { All (λ level. level < 8) result }
        ensures places { (place : ℕ) → place < 8
            → up_to result (slice_index_or result place 0) ≡ take (place + 1) result }
    {
        let lowest = self.lowest;
        [
            (lowest + 1) % 8,
            (lowest + 2) % 8,
            (lowest + 3) % 8,
            (lowest + 4) % 8,
            (lowest + 5) % 8,
            (lowest + 6) % 8,
            (lowest + 7) % 8,
            (lowest + 8) % 8,
        ]
    }

    /// The level that an acknowledge or a poll would take; `None` if there is none, and then INT is low. Mostly none
    /// is pending, and then the order isn't gone through.
    #[tactic(auto, unfolding(crate::specs::Pic::level_to_take))]
    fn find_level(&self) -> Option<u8>
        ensures level { result ≡ level_to_take self.now }
        ensures bound { IfSome result (λ level. level < 8) }
    {
        if !self.is_ready() || self.pending().is_empty() {
            return None;
        }
        self.first_to_take()
    }

    /// The first level in the order of priority that is pending and isn't blocked, for `find_level`; `None` if there
    /// is none.
    #[inline(never)]
    fn first_to_take(&self) -> Option<u8>
        ensures level { result ≡ find (may_be_taken self.now) self.now.order }
        ensures bound { IfSome result (λ level. level < 8) }
    {
        let mut is_blocked = false;
        for level in self.order() {
            is_blocked |= self.blocks(level);
            if !is_blocked && self.is_pending(level) {
                return Some(level);
            }
        }
        None
    }

    /// The level that a plain end of interrupt ends: the first in the order that is in service and not excepted by
    /// special mask mode; `None` if there is none.
    #[tactic(auto, unfolding(crate::specs::Pic::highest_served))]
    fn highest_served(&self) -> Option<u8>
        ensures level { result ≡ highest_served self.now }
        ensures bound { IfSome result (λ level. level < 8) }
    {
        for served in self.order() {
            if self.blocks(served) {
                return Some(served);
            }
        }
        None
    }

    /// Takes a byte written at A0 = 0: ICW1 if its bit 4 is set, else OCW3 or OCW2 by bit 3. The last two are ignored
    /// while an initialisation sequence is under way.
    #[tactic(auto, unfolding(crate::specs::Pic::after_command))]
    fn write_command(&mut self, value: u8)
        ensures { self.new ≡ after_command self.old value }
    {
        if bit(value, 4) {
            self.write_icw1(value);
        } else if self.is_operating() {
            if bit(value, 3) {
                self.write_ocw3(value);
            } else {
                self.write_ocw2(bit(value, 7), bit(value, 6), bit(value, 5), value % 8);
            }
        }
    }

    /// Whether no initialisation sequence is under way: only then are OCW2 and OCW3 heard and levels taken.
    fn is_operating(&self) -> bool
        ensures { result ≡ is_operating self.now.expected }
    {
        matches!(self.expected, Expected::Operation)
    }

    /// Begins an initialisation sequence with ICW1: all is as at power-on but for the lines, the vector's bits and
    /// ICW3, and the word says whether ICW3 and ICW4 follow, and whether the mode is level or edge.
    #[tactic(auto, unfolding(crate::specs::Pic::after_icw1, crate::specs::Levels::order_with_lowest))]
    fn write_icw1(&mut self, value: u8)
        ensures { self.new ≡ after_icw1 self.old value }
    {
        *self = Pic {
            high: self.high,
            expected: Expected::Icw2,
            is_cascaded: !bit(value, 1),
            asks_icw4: bit(value, 0),
            is_level_triggered: bit(value, 3),
            vector_base: self.vector_base,
            slaves: self.slaves,
            ..Pic::new()
        };
    }

    /// Takes ICW2, the sequence's second word, which has the vector's bits 7 to 3, and waits for the next word that
    /// ICW1 announced.
    #[tactic(auto, unfolding(crate::specs::Pic::after_word))]
    fn write_icw2(&mut self, value: u8)
        ensures { self.new ≡ after_word self.old Icw2 value }
    {
        self.vector_base = value / 8 * 8;
        self.expected = if self.is_cascaded {
            Expected::Icw3
        } else {
            self.expected_after_icw3()
        };
    }

    /// Stores ICW3, without effect since the controller is alone, and waits for ICW4 if ICW1 announced it.
    #[tactic(auto, unfolding(crate::specs::Pic::after_word))]
    fn write_icw3(&mut self, value: u8)
        ensures { self.new ≡ after_word self.old Icw3 value }
    {
        self.slaves = value;
        self.expected = self.expected_after_icw3();
    }

    /// The word that the sequence waits for once ICW3 is written or left out: ICW4 if ICW1 announced it, else none.
    fn expected_after_icw3(&self) -> Expected
        ensures { result ≡ expected_after_icw3 self.now }
    {
        if self.asks_icw4 {
            Expected::Icw4
        } else {
            Expected::Operation
        }
    }

    /// Takes ICW4, which ends the sequence: it sets 8086 mode, automatic end of interrupt and, without effect, special
    /// fully nested mode.
    #[tactic(auto, unfolding(crate::specs::Pic::after_word))]
    fn write_icw4(&mut self, value: u8)
        ensures { self.new ≡ after_word self.old Icw4 value }
    {
        self.is_8086 = bit(value, 0);
        self.auto_end = bit(value, 1);
        self.is_specially_nested = bit(value, 4);
        self.expected = Expected::Operation;
    }

    /// Sets the mask with OCW1, a byte written at A0 = 1 outside a sequence: a level whose bit is 1 isn't taken.
    #[tactic(auto, unfolding(crate::specs::Pic::after_word))]
    fn write_ocw1(&mut self, value: u8)
        ensures { self.new ≡ after_word self.old Operation value }
    {
        self.masked = LevelSet::from_byte(value);
    }

    /// Does what OCW2 says by its bits 7, 6 and 5 (`rotate`, `specific`, `end`): ends a level in service, makes one
    /// the lowest, or both, or turns rotation under automatic end of interrupt on or off.
    #[tactic(auto, unfolding(crate::specs::Pic::after_ocw2))]
    fn write_ocw2(&mut self, rotate: bool, specific: bool, end: bool, level: u8)
        requires { level < 8 }
        ensures { self.new ≡ after_ocw2 self.old rotate specific end level }
    {
        match (rotate, specific, end) {
            (false, false, true) => self.end_highest(false),
            (false, true, true) => self.end_level(level),
            (true, false, true) => self.end_highest(true),
            (true, true, true) => {
                self.end_level(level);
                self.make_lowest(level);
            }
            (true, false, false) => self.rotates = true,
            (false, false, false) => self.rotates = false,
            (true, true, false) => self.make_lowest(level),
            (false, true, false) => {}
        }
    }

    /// Does a plain end of interrupt, such as the word 20h: ends the first level that is in service and not excepted
    /// by special mask mode, and makes it the lowest if `rotate`; nothing changes if there is none.
    #[tactic(auto, unfolding(crate::specs::Pic::after_ocw2))]
    fn end_highest(&mut self, rotate: bool)
        ensures { self.new ≡ after_ocw2 self.old rotate false true 0 }
    {
        if let Some(level) = self.highest_served() {
            self.end_level(level);
            if rotate {
                self.make_lowest(level);
            }
        }
    }

    /// Takes `level`, below 8, out of service, for an OCW2 that names it or a plain end of interrupt.
    #[tactic(auto, unfolding(crate::specs::Pic::after_end))]
    fn end_level(&mut self, level: u8)
        requires { level < 8 }
        ensures { self.new ≡ after_end self.old level }
    {
        self.served.remove(level);
    }

    /// Gives `level`, below 8, the lowest priority and the one after it the highest, for an OCW2 that rotates.
    #[tactic(auto, using(crate::proofs::Order::turned_to_lowest), unfolding(crate::specs::Pic::after_lowering))]
    fn make_lowest(&mut self, level: u8)
        requires { level < 8 }
        ensures { self.new ≡ after_lowering self.old level }
    {
        self.lowest = level;
    }

    /// Does what OCW3 says: sets or clears special mask mode, chooses whether reads give the requests or the levels in
    /// service, and sets a poll command or withdraws it.
    #[tactic(auto, unfolding(crate::specs::Pic::after_ocw3))]
    fn write_ocw3(&mut self, value: u8)
        ensures { self.new ≡ after_ocw3 self.old value }
    {
        if bit(value, 6) {
            self.special_mask = bit(value, 5);
        }
        if bit(value, 1) {
            self.reads_served = bit(value, 0);
        }
        self.polled = bit(value, 2);
    }
}
