//! Bytes that a session puts into cells of memory, which no bus does.
ghost use Rattle.std.specs.Prelude.{◌≡◌, ◌<◌, ◌^◌};
ghost use Rattle.wiring.specs.Cells.{has_cell, with_cell};

use crate::chips::Chips;
use board_types::address::{ROM_START, TEXT_START};
use memory::region::is_text_address;

impl Chips {
    /// Whether `addr` has a cell, in RAM, text memory or ROM, whose byte a session may change.
    #[tactic(auto, unfolding(crate::specs::Cells::has_cell))]
    pub fn has_cell(&self, addr: u32) -> bool
        ensures { result ≡ has_cell self.now addr }
    {
        is_text_address(addr) || self.memory.has_ram(addr) || addr >= ROM_START
    }

    /// Puts `value` into the cell of `addr`, below 100000h, in the ROM as well: for a session that changes memory, not
    /// for the processor.
    #[tactic(auto, using(crate::proofs::Leap::settled_memory, crate::proofs::Leap::settled_text), unfolding(crate::specs::Cells::with_cell))]
    pub fn put(&mut self, addr: u32, value: u8)
        requires { addr < 2 ^ 20 }
        ensures { self.new ≡ with_cell self.old addr value }
    {
        if is_text_address(addr) {
            self.mda.write_mem((addr - TEXT_START) as u16, value);
        } else {
            self.memory.put(addr, value);
        }
    }
}
