//! What a processor reaches: memory and ports, as a trait, with the meaning of each access as a record of operations
//! on a state.
#![tactic(auto)]

ghost use Rattle.std.specs.Prelude.{◌≡◌, ◌<◌, ◌^◌, ℕ, IsTrue};
ghost use Rattle.bus.specs.Bus.{BusMeaning, with_word_at, word_at};
ghost use Rattle.bus.specs.BusPromises.{IsBus};
ghost use Rattle.bus.specs.Guards.{SameGuarded};

pub mod guard;

use crate::guard::Guard;
use board_types::address::physical;

/// Memory and ports, as an instruction reaches them. Contracts see what the bus reaches as a state of its own, which
/// may be kept in another form.
pub trait Bus {
    // what the bus reaches, and what each access makes of it
    ghost State: { Type 0 };

    ghost state: { Self → State };

    ghost meaning: { BusMeaning State };

    /// The byte at the physical address `addr`, below 100000h, which an instruction reads there. Reading it changes
    /// nothing.
    fn read8(&self, addr: u32) -> u8
        requires { addr < 2 ^ 20 }
        ensures { result ≡ meaning.byte_at (state self.now) addr };

    /// Writes `value` at the physical address `addr`, below 100000h; without memory that takes it, the write is lost.
    fn write8(&mut self, addr: u32, value: u8)
        requires { addr < 2 ^ 20 }
        ensures { state self.new ≡ meaning.after_write (state self.old) addr value };

    /// The byte that `port` gives. IN reads it, which may change a chip's state.
    fn in8(&mut self, port: u16) -> u8
        ensures value { result ≡ meaning.input (state self.old) port }
        ensures state { state self.new ≡ meaning.after_input (state self.old) port };

    /// Writes `value` to `port`, for OUT.
    fn out8(&mut self, port: u16, value: u8)
        ensures { state self.new ≡ meaning.after_output (state self.old) port value };

    /// The word at a segment and an offset, for a word operand or POP; the high byte's offset wraps in the segment. A
    /// bus that reaches both bytes at once has a body of its own.
    #[tactic(auto, unfolding(crate::specs::Bus::word_at))]
    fn read_word(&self, segment: u16, offset: u16) -> u16
        ensures { result ≡ word_at meaning (state self.now) segment offset }
    {
        let low = self.read8(physical(segment, offset));
        let high = self.read8(physical(segment, offset.wrapping_add(1)));
        u16::from(low) + 256 * u16::from(high)
    }

    /// Writes a word at a segment and an offset, low byte first, for a word operand or PUSH; the high byte's offset
    /// wraps in the segment. A bus that reaches both bytes at once has a body of its own.
    #[tactic(auto, unfolding(crate::specs::Bus::with_word_at))]
    fn write_word(&mut self, segment: u16, offset: u16, word: u16)
        ensures { state self.new ≡ with_word_at meaning (state self.old) segment offset word }
    {
        let high = physical(segment, offset.wrapping_add(1));
        self.write8(physical(segment, offset), (word % 256) as u8);
        self.write8(high, (word / 256) as u8);
    }

    /// Writes a word at a segment and an offset, for a step by a slot. Returns whether it is known that no guarded byte has
    /// changed, so that the next slot of a block is still what stands in memory. A bus that runs blocks has a body of its
    /// own.
    fn put_word(&mut self, segment: u16, offset: u16, word: u16, guard: Guard) -> bool
        ensures state { state self.new ≡ with_word_at meaning (state self.old) segment offset word }
        ensures guarded { IsTrue result → SameGuarded guard (meaning.byte_at (state self.old)) (meaning.byte_at (state self.new)) }
    {
        let _ = guard;
        self.write_word(segment, offset, word);
        false
    }

    /// Writes a byte at the physical address `addr`, below 100000h, for a step by a slot, and returns what `put_word`
    /// returns.
    fn put_byte(&mut self, addr: u32, value: u8, guard: Guard) -> bool
        requires { addr < 2 ^ 20 }
        ensures state { state self.new ≡ meaning.after_write (state self.old) addr value }
        ensures guarded { IsTrue result → SameGuarded guard (meaning.byte_at (state self.old)) (meaning.byte_at (state self.new)) }
    {
        let _ = guard;
        self.write8(addr, value);
        false
    }

    // a byte that is written reads back if its address takes bytes, all else stays, and no port changes memory
    ghost keeps_bytes: { IsBus meaning };
}
