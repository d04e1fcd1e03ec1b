//! Changes of registers and memory while a board stands at a clock.
ghost use Rattle.std.specs.Prelude.{◌≡◌, ◌<◌, ◌≤◌, ◌^◌, length};
ghost use Rattle.board_plain.specs.Changes.{HasPlace, changed, takes};
ghost use Rattle.board_plain.specs.declared.change.Change.TheVariants as changes;

use crate::board::Board;
use crate::engine::Engine;
use board_plain::change::{Change, Register, says_where, with_register};
use std::alloc::Allocator;

impl<A: Allocator> Board<A> {
    /// Whether the board can be changed so: a byte needs a cell at its address, in RAM, text memory or ROM.
    #[tactic(auto, unfolding(board_plain::specs::Changes::takes))]
    pub fn takes(&self, change: &Change) -> bool
        ensures { result ≡ takes change.now self.now.plain }
    {
        match change {
            Change::Register(..) => true,
            Change::Byte(addr, _) => self.engine.chips.has_cell(*addr),
        }
    }

    /// Makes a change of the board as it stands, for a session that asks what happens then. The lists of the speaker's
    /// changes and of the trail stay.
    pub fn change(&mut self, change: &Change)
        requires { HasPlace change.now }
        ensures changed { self.new ≡ record self.old { plain = changed change.now self.old.plain } }
        ensures few { length self.old.trail ≤ 32 }
    {
        self.engine.change(change);
    }
}

impl Engine {
    /// Makes a change of the engine as it stands.
    fn change(&mut self, change: &Change)
        requires { HasPlace change.now }
        ensures { self.new ≡ changed change.now self.old }
    {
        match change {
            Change::Register(register, word) => self.set_register(*register, *word),
            Change::Byte(addr, byte) => self.put(*addr, *byte),
        }
    }

    /// Gives a register another word. If it is CS or IP, the processor runs on from there.
    #[tactic(auto, unfolding(board_plain::specs::Changes::with_regs, board_plain::specs::Changes::run_on, board_plain::specs::Plain::registers_of))]
    fn set_register(&mut self, register: Register, word: u16)
        ensures { self.new ≡ changed (changes.Register register word) self.old }
    {
        let regs = with_register(self.cpu.regs(), register, word);
        self.cpu.take_regs(regs);
        if says_where(register) {
            self.cpu.run_on();
        }
    }

    /// Puts another byte into a cell, and forgets up to which clock all is quiet.
    #[tactic(auto, unfolding(board_plain::specs::Changes::with_cell_byte))]
    fn put(&mut self, addr: u32, byte: u8)
        requires { addr < 2 ^ 20 }
        ensures { self.new ≡ changed (changes.Byte addr byte) self.old }
    {
        self.quiet.to = 0;
        self.chips.put(addr, byte);
    }
}
