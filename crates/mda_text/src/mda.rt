//! The monochrome text adapter (Motorola MC6845 data sheet; IBM PC Technical Reference, "IBM Monochrome Display and
//! Parallel Printer Adapter").
ghost use Rattle.std.specs.Prelude.{◌≡◌, ◌<◌, ◌≤◌, ◌+◌, ◌*◌, ◌/◌, ◌%◌, ◌++◌, ◌==◌, IfOk, OnOk, map, length};
ghost use Rattle.std.specs.List.{range_with_len, flat_map};
ghost use Rattle.std.specs.String.{string_bytes};
ghost use Rattle.board_types.specs.Bits.{has_bit};
ghost use Rattle.mda_text.specs.Mda.{MdaState, power_on, text_byte, with_text_byte, with_high, with_low, register_byte, with_register, status, byte_at, after_write, after_clocks};
ghost use Rattle.mda_text.specs.Registers.{registers_of};
ghost use Rattle.mda_text.specs.Screen.{cell, character_at, character_of, glyph, screen_row, screen_text, nth_character, characters};
ghost use Rattle.mda_text.specs.Marks.{after_mark, number_after, is_changed, changed_cells};

use crate::changes::ChangedCells;
use crate::registers::{RASTER_CLOCKS, RETRACE_START, Registers};
use crate::snapshot::{SECTION_BYTES, Snapshot};
use board_types::address::TEXT_SIZE;
use board_types::timed::Timed;
use std::alloc::{AllocError, Global};
use std::marker::Model;

/// The MC6845's address register.
pub const INDEX_PORT: u16 = 0x3B4;

/// The MC6845's register that the address register names.
pub const REGISTER_PORT: u16 = 0x3B5;

/// The mode register.
pub const MODE_PORT: u16 = 0x3B8;

/// The status port.
pub const STATUS_PORT: u16 = 0x3BA;

/// How many rows the screen has.
pub const ROWS: u8 = 25;

/// How many columns the screen has.
pub const COLUMNS: u8 = 80;

/// How many cells the screen has.
pub const CELL_COUNT: u16 = 2000;

/// How many words text memory has: a code and an attribute each.
pub(crate) const WORD_COUNT: u32 = 2048;

/// The adapter, with the characters that its last mark kept, and a copy of what that mark found in text memory.
#[derive(Drop)]
pub struct Mda {
    pub(crate) bytes: Vec<u8>,
    index: u8,
    pub(crate) start: u16,
    cursor: u16,
    pub(crate) video: bool,
    /// Processor clocks since the beam stood at the raster's start. It may have come round since.
    beam: u64,
    kept: Vec<u8>,
    pub(crate) last_mark: u64,
    next_mark: u64,
    pub(crate) snapshot: Snapshot,
}

impl Model for Mda {
    ghost use Rattle.std.specs.Prelude.{◌≡◌, ◌%◌, IsTrue, length};
    ghost use Rattle.mda_text.specs.Mda.{MdaState};
    ghost use Rattle.mda_text.specs.Snapshot.{Recalls};

    ghost Value = { MdaState };

    ghost view = { λ m. record {
      bytes = m.bytes.items;
      index = m.index;
      start = m.start;
      cursor = m.cursor;
      video = m.video;
      raster = m.beam % 259;
      kept = m.kept.items;
      last_mark = m.last_mark;
      next_mark = m.next_mark;
    } };

    ghost invariant = { λ m. (length m.bytes.items ≡ 4096) × (length m.kept.items ≡ 2000)
        × (length m.snapshot.bytes.items ≡ 4096)
        × (IsTrue m.snapshot.taken → Recalls m.bytes.items m.kept.items m.snapshot.bytes.items m.snapshot.start
        m.snapshot.video m.snapshot.written) };
}

impl Mda {
    /// Makes the text adapter at power-on, all its bytes 0. Fails only if there is no memory for its 4,096 bytes, and
    /// for the 2,000 characters and the 4,096 bytes that a mark keeps.
    #[tactic(auto, unfolding(crate::specs::Mda::power_on))]
    pub fn new(alloc: Global) -> Result<Mda, AllocError>
        ensures { IfOk result (λ mda. mda ≡ power_on) }
    {
        Ok(Mda {
            bytes: vec![in alloc; 0; TEXT_SIZE as usize]?,
            index: 0,
            start: 0,
            cursor: 0,
            video: false,
            beam: 0,
            kept: vec![in alloc; 0; CELL_COUNT as usize]?,
            last_mark: 0,
            next_mark: 1,
            snapshot: Snapshot {
                bytes: vec![in alloc; 0; TEXT_SIZE as usize]?,
                start: 0,
                video: false,
                written: [false; 128],
                taken: false,
            },
        })
    }

    /// Copies the adapter, in memory of its own, so that a copy of a board goes on apart from it. Fails only if there
    /// is no memory for it.
    pub fn copy(&self) -> Result<Mda, AllocError>
        ensures { IfOk result (λ mda. mda ≡ self.now) }
    {
        Ok(Mda {
            bytes: self.bytes.clone()?,
            index: self.index,
            start: self.start,
            cursor: self.cursor,
            video: self.video,
            beam: self.beam,
            kept: self.kept.clone()?,
            last_mark: self.last_mark,
            next_mark: self.next_mark,
            snapshot: Snapshot {
                bytes: self.snapshot.bytes.clone()?,
                start: self.snapshot.start,
                video: self.snapshot.video,
                written: self.snapshot.written,
                taken: self.snapshot.taken,
            },
        })
    }

    /// The registers, and where the beam stands, after `clocks` more processor clocks: what the probe shows of an
    /// adapter whose clocks are still to be made.
    #[tactic(auto, using(crate::proofs::Raster::clocks_come_round))]
    pub fn registers_after(&self, clocks: u64) -> Registers
        ensures { result ≡ registers_of (after_clocks self.now clocks) }
    {
        let raster = (self.raster() + clocks % RASTER_CLOCKS) % RASTER_CLOCKS;
        Registers {
            index: self.index,
            start: self.start,
            cursor: self.cursor,
            video: self.video,
            raster: raster as u16,
        }
    }

    /// The byte that a program's IN from `port` gives: FFh if the adapter doesn't answer there, and at 3B4h and 3B8h,
    /// which can only be written.
    #[tactic(auto, unfolding(crate::specs::Mda::byte_at))]
    pub fn read_port(&self, port: u16) -> u8
        ensures { result ≡ byte_at self.now port }
    {
        match port {
            REGISTER_PORT => self.register(),
            STATUS_PORT => self.status(),
            _ => 0xFF,
        }
    }

    /// Does a program's OUT of `value` to `port`; if the adapter doesn't answer there, and at 3BAh, nothing happens.
    #[tactic(auto, unfolding(crate::specs::Mda::after_write))]
    pub fn write_port(&mut self, port: u16, value: u8)
        ensures { self.new ≡ after_write self.old port value }
    {
        match port {
            INDEX_PORT => self.index = value % 32,
            REGISTER_PORT => self.set_register(value),
            MODE_PORT => self.video = value >> 3 & 1 == 1,
            _ => {}
        }
    }

    /// The byte at `offset` of text memory, below 4,096: a code at an even offset, an attribute at an odd one.
    #[inline(always)]
    #[tactic(auto, unfolding(crate::specs::Mda::text_byte))]
    pub fn read_mem(&self, offset: u16) -> u8
        requires { offset < 4096 }
        ensures byte { result ≡ text_byte self.now offset }
        ensures whole { length self.now.bytes ≡ 4096 }
    {
        self.bytes[offset as usize]
    }

    /// Writes `value` at `offset` of text memory, below 4,096, and notes the section as written since the last mark.
    #[inline(always)]
    #[tactic(auto, unfolding(crate::specs::Mda::with_text_byte))]
    pub fn write_mem(&mut self, offset: u16, value: u8)
        requires { offset < 4096 }
        ensures { self.new ≡ with_text_byte self.old offset value }
    {
        self.bytes[offset as usize] = value;
        self.snapshot.written[offset as usize / SECTION_BYTES] = true;
    }

    /// The word whose low byte stands at `offset` of text memory, below 4,095, in one call: of a cell, at an even offset,
    /// its code is the low byte.
    #[inline(always)]
    pub fn read_word(&self, offset: u16) -> u16
        requires { offset < 4095 }
        ensures { result ≡ text_byte self.now offset + 256 * text_byte self.now (offset + 1) }
    {
        u16::from(self.read_mem(offset)) + 256 * u16::from(self.read_mem(offset + 1))
    }

    /// Writes `word` at `offset` of text memory, below 4,095, its low byte first, in one call.
    #[inline(always)]
    pub fn write_word(&mut self, offset: u16, word: u16)
        requires { offset < 4095 }
        ensures { self.new ≡ with_text_byte (with_text_byte self.old offset (word % 256)) (offset + 1) (word / 256) }
    {
        self.write_mem(offset, (word % 256) as u8);
        self.write_mem(offset + 1, (word / 256) as u8);
    }

    /// The character that the cell at `row`, below 25, and `column`, below 80, shows, an ASCII code from 20h to 7Eh:
    /// for the screen's text, and for a display that draws changed cells.
    #[tactic(auto, unfolding(crate::specs::Screen::cell, crate::specs::Screen::character_at))]
    pub fn cell(&self, row: u8, column: u8) -> u8
        requires row_within { row < 25 }
        requires column_within { column < 80 }
        ensures value { result ≡ cell self.now row column }
        ensures printable { result < 127 }
    {
        let first = u32::from(self.start);
        let word = (first + 80 * u32::from(row) + u32::from(column)) % WORD_COUNT;
        let offset = 2 * word as u16;
        character_of(self.video, self.read_mem(offset), self.read_mem(offset + 1))
    }

    /// Keeps the characters that are shown now, so that a display can later ask `changed_since` which cells to draw,
    /// and gives the mark's number: 1 and then one more each time, up to the greatest `u64`, and always 0 after it.
    #[tactic(auto, unfolding(crate::specs::Marks::after_mark))]
    pub fn mark(&mut self) -> u64
        ensures number { result ≡ self.old.next_mark }
        ensures state { self.new ≡ after_mark self.old }
    {
        self.keep_characters();
        self.take_snapshot();
        self.last_mark = self.next_mark;
        if self.next_mark != 0 {
            self.next_mark = self.next_mark.wrapping_add(1);
        }
        self.last_mark
    }

    /// The cells that a display must draw anew: in reading order, those whose character isn't the one that `mark`
    /// kept, if it is the last mark that was made; for any other number, and for 0, all 2,000 cells.
    pub fn changed_since(&self, mark: u64) -> ChangedCells<'_>
        ensures cells { result ≡ changed_cells self.now mark }
        ensures within { length result ≤ 2000 }
    {
        ChangedCells::new(self, mark)
    }

    /// The screen's text, which a board and a report show: 25 lines of 80 characters, each ended by a line feed. Fails
    /// only if there is no memory for it.
    #[tactic(auto, unfolding(crate::specs::Screen::screen_text))]
    pub fn text(&self) -> Result<String, AllocError>
        ensures { IfOk result (λ text. string_bytes text ≡ screen_text self.now) }
    {
        let mut text = String::new(*self.bytes.allocator());
        for row in 0..ROWS {
            self.push_row(&mut text, row)?;
        }
        Ok(text)
    }

    /// Adds the 80 characters of a row, below 25, and a line feed to the screen's text. Fails only if there is no
    /// memory for them.
    #[tactic(auto, unfolding(crate::specs::Screen::screen_row))]
    fn push_row(&self, text: &mut String, row: u8) -> Result<(), AllocError>
        requires { row < 25 }
        ensures { OnOk result (string_bytes text.new ≡ string_bytes text.old ++ screen_row self.now row) }
    {
        for column in 0..COLUMNS {
            text.push(char::from(self.cell(row, column)))?;
        }
        text.push('\n')?;
        Ok(())
    }

    /// Whether the cell that is the `n`-th in reading order, below 2,000, must be drawn anew: it shows another
    /// character than `mark` kept, or `mark` is 0 or not the last one.
    #[tactic(auto, unfolding(crate::specs::Marks::is_changed))]
    pub(crate) fn is_changed(&self, mark: u64, n: u16) -> bool
        requires { n < 2000 }
        ensures { result ≡ is_changed self.now mark n }
    {
        mark != self.last_mark || mark == 0 || self.nth_character(n) != self.kept[n as usize]
    }

    /// The character that the `n`-th cell in reading order, below 2,000, shows, for a mark to keep or to compare with.
    #[tactic(auto, unfolding(crate::specs::Screen::nth_character))]
    fn nth_character(&self, n: u16) -> u8
        requires { n < 2000 }
        ensures { result ≡ nth_character self.now n }
    {
        let columns = u16::from(COLUMNS);
        self.cell((n / columns) as u8, (n % columns) as u8)
    }

    /// Replaces the characters that the last mark kept by those that are shown now, for a new mark; until the snapshot
    /// is taken anew, none counts.
    fn keep_characters(&mut self)
        ensures { self.new ≡ record self.old { kept = characters self.old } }
    {
        // one character is kept for each cell
        let _ = &self.kept;
        for n in 0..CELL_COUNT {
            self.kept[n as usize] = self.nth_character(n);
            // the characters that are kept are no longer the snapshot's
            self.snapshot.taken = false;
        }
    }

    /// The byte that port 3B5h gives: of R14 or R15, the cursor, if the address register names one of them, and else
    /// 0.
    fn register(&self) -> u8
        ensures { result ≡ register_byte self.now self.now.index }
    {
        match self.index {
            14 => (self.cursor / 256) as u8,
            15 => (self.cursor % 256) as u8,
            _ => 0,
        }
    }

    /// Writes `value` to the MC6845's register that the address register names: R12 and R13 hold the start address,
    /// R14 and R15 the cursor; any other write is lost.
    fn set_register(&mut self, value: u8)
        ensures { self.new ≡ with_register self.old self.old.index value }
    {
        match self.index {
            12 => self.start = with_high(self.start, value),
            13 => self.start = with_low(self.start, value),
            14 => self.cursor = with_high(self.cursor, value),
            15 => self.cursor = with_low(self.cursor, value),
            _ => {}
        }
    }

    /// Where the beam stands in its raster, from 0 to 258 processor clocks after the start, which decides the status.
    fn raster(&self) -> u64
        ensures place { result ≡ self.now.raster }
        ensures bound { result < 259 }
    {
        self.beam % RASTER_CLOCKS
    }

    /// The byte that the status port 3BAh gives.
    fn status(&self) -> u8
        ensures { result ≡ status self.now }
    {
        self.registers_after(0).status()
    }
}

/// The adapter's tick is a processor clock, and its output is bit 0 of the status port.
impl Timed for Mda {
    ghost use Rattle.std.proofs.Common.{sym};
    ghost use Rattle.std.specs.Prelude.{◌≡◌};
    ghost use Rattle.board_types.proofs.Iterate.{iterate_add};
    ghost use Rattle.board_types.specs.Timed.{IsUntilTurn};
    ghost use Rattle.mda_text.specs.Mda.{after_clock, after_clocks, retrace};

    ghost after = { after_clocks };

    ghost output = { retrace };

    /// Lets `ticks` processor clocks pass, however many at once: the beam moves on, and nothing else changes.
    #[tactic(auto, using(crate::proofs::Raster::clocks_are_counted, crate::proofs::Raster::clocks_come_round))]
    fn advance(&mut self, ticks: u64)
        ensures { self.new ≡ after_clocks self.old ticks }
    {
        // the clocks are only counted; where the beam stands is worked out when it is asked for
        self.beam = match self.beam.checked_add(ticks) {
            Some(beam) => beam,
            None => self.raster() + ticks % RASTER_CLOCKS,
        };
    }

    /// After how many processor clocks bit 0 of the status port changes, so that they can be passed at once: it is 0
    /// for 219 and 1 for 40 in turn, so never `None`.
    fn until_change(&self) -> Option<u64>
        ensures { IsUntilTurn after_clocks retrace self.now result }
    {
        let raster = self.raster();
        if raster < RETRACE_START {
            return Some(RETRACE_START - raster);
        }
        Some(RASTER_CLOCKS - raster)
    }

    ghost adds = { λ m k n. sym (iterate_add after_clock k n m) };
}

/// A register pair of 14 bits, start or cursor, with its high part, which has six bits, replaced.
fn with_high(word: u16, byte: u8) -> u16
    ensures { result ≡ with_high word byte }
{
    u16::from(byte % 64) * 256 + word % 256
}

/// A register pair of 14 bits, start or cursor, with its low part replaced.
fn with_low(word: u16, byte: u8) -> u16
    ensures { result ≡ with_low word byte }
{
    word / 256 * 256 + u16::from(byte)
}

/// What a cell with this code and attribute shows, an ASCII code: a space if the video is off, the attribute shows
/// nothing or the code is 0.
fn character_of(video: bool, code: u8, attribute: u8) -> u8
    ensures value { result ≡ character_of video code attribute }
    ensures printable { result < 127 }
{
    if !video || attribute & 0x77 == 0 || code == 0 {
        b' '
    } else {
        glyph(code)
    }
}

/// The ASCII code by which a cell's code is shown as text: itself if it is printable, and else a full stop.
fn glyph(code: u8) -> u8
    ensures value { result ≡ glyph code }
    ensures printable { result < 127 }
{
    if 0x20 <= code && code <= 0x7E {
        code
    } else {
        b'.'
    }
}
