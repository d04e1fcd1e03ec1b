//! What a board's chips hold at its clock, and the state of its processor between two boundaries.
ghost use Rattle.std.specs.Prelude.{◌≡◌, ◌≤◌, is_some, map};
ghost use Rattle.board_plain.specs.Plain.{clock_of, codes_at, speaker_level};
ghost use Rattle.board_types.specs.declared.keys.StampedKey.{StampedKey};
ghost use Rattle.mda_text.specs.Registers.{registers_of};

use crate::board::Board;
use board_types::clock::Clock;
use board_types::keys::StampedKey;
use board_types::line::Line;
use execute_meaning::shadow::Shadow;
use keyboard::keyboard::Keyboard;
use mda_text::registers::Registers;
use pic8259::Pic;
use pit8253::pit::Pit;
use ppi8255::ppi::Ppi;
use std::alloc::Allocator;

impl<A: Allocator> Board<A> {
    /// The interrupt controller as it stands at the board's clock, for the probe to show.
    pub fn controller(&self) -> Pic
        ensures { result ≡ self.now.plain.chips.pic }
    {
        self.engine.chips.controller()
    }

    /// The timer as it stands at the board's clock, for the probe to show.
    pub fn timer(&self) -> Pit
        ensures { result ≡ self.now.plain.chips.pit }
    {
        self.engine.chips.timer()
    }

    /// The parallel port as it stands at the board's clock, for the probe to show.
    pub fn parallel_port(&self) -> Ppi
        ensures { result ≡ self.now.plain.chips.ppi }
    {
        self.engine.chips.parallel_port()
    }

    /// The keyboard with its latch and queue, for the probe to show.
    pub fn keyboard(&self) -> &Keyboard
        ensures { result.now ≡ self.now.plain.chips.keyboard }
    {
        self.engine.chips.keyboard()
    }

    /// The keys that came at this clock, in order, for the probe's events and stops. The board must have reached it.
    pub fn keys_at(&self, clock: Clock) -> &[StampedKey]
        requires { clock ≤ clock_of self.now.plain }
        ensures { map (λ (k : StampedKey). k.code) result.now ≡ codes_at self.now.plain.keys clock }
    {
        self.engine.keys_at(clock)
    }

    /// The text adapter's registers as they stand at the board's clock, for the probe to show.
    pub fn adapter(&self) -> Registers
        ensures { result ≡ registers_of self.now.plain.chips.mda }
    {
        self.engine.chips.adapter()
    }

    /// The speaker's level at the board's clock, for the probe to show and to tell its changes.
    pub fn speaker(&self) -> Line
        ensures { result ≡ speaker_level self.now.plain }
    {
        Line::from_bool(self.engine.is_high())
    }

    /// The clocks that the processor's last step or entry still takes, for the probe to show; 0 if it is free.
    pub fn busy(&self) -> u16
        ensures { result ≡ self.now.plain.busy }
    {
        self.engine.busy
    }

    /// Which interrupts the last instruction keeps off until one more has run, as after STI or MOV to a segment
    /// register, for the probe to show.
    pub fn shadow(&self) -> Shadow
        ensures { result ≡ self.now.plain.cpu.shadow }
    {
        self.engine.cpu.shadow()
    }

    /// Whether a single step is due, the interrupt 1 that follows an instruction begun with TF set, for the probe to
    /// show.
    pub fn is_step_due(&self) -> bool
        ensures { result ≡ self.now.plain.cpu.step_due }
    {
        self.engine.cpu.is_step_due()
    }

    /// Whether a repeat is under way, of which the next iteration follows, for the probe to show.
    pub fn is_repeating(&self) -> bool
        ensures { result ≡ is_some self.now.plain.cpu.repeat }
    {
        self.engine.cpu.is_repeating()
    }
}
