//! What the chips hold at the present clock, even while they lag.
ghost use Rattle.std.specs.Prelude.{◌≡◌};
ghost use Rattle.mda_text.specs.Registers.{registers_of};

use crate::cached::CachedChips;
use keyboard::keyboard::Keyboard;
use mda_text::registers::Registers;
use pic8259::Pic;
use pit8253::pit::Pit;
use ppi8255::ppi::Ppi;

impl CachedChips {
    /// The interrupt controller, for a view of the board; it doesn't change while chips lag.
    pub fn controller(&self) -> Pic
        ensures { result ≡ self.now.pic }
    {
        self.chips.controller()
    }

    /// The timer as it stands at the present clock, for a view of the board: a copy, to which the ticks that lagging
    /// chips miss are added.
    pub fn timer(&self) -> Pit
        ensures { result ≡ self.now.pit }
    {
        let mut pit = self.chips.timer();
        pit.advance(self.seen_clock.get() / 4 - self.chips.clock().get() / 4);
        pit
    }

    /// The parallel port, for a view of the board; it doesn't change while chips lag.
    pub fn parallel_port(&self) -> Ppi
        ensures { result ≡ self.now.ppi }
    {
        self.chips.parallel_port()
    }

    /// The keyboard with its latch and queue, for a view of the board; it doesn't change while chips lag.
    pub fn keyboard(&self) -> &Keyboard
        ensures { result.now ≡ self.now.keyboard }
    {
        self.chips.keyboard()
    }

    /// The text adapter's registers as they stand at the present clock, for a view of the board: the beam's movement
    /// that lagging chips miss is added.
    pub fn adapter(&self) -> Registers
        ensures { result ≡ registers_of self.now.mda }
    {
        let lag = self.seen_clock.get() - self.chips.clock().get();
        self.chips.adapter_after(lag)
    }
}
