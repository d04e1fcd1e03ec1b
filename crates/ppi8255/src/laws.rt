//! What holds of every parallel port and every access, over the definitions alone.
ghost use Rattle.std.specs.Prelude.{◌≡◌, ℕ, false, List};
ghost use Rattle.board_types.specs.Bits.{has_bit};
ghost use Rattle.ppi8255.specs.declared.ppi.Inputs.{Inputs};
ghost use Rattle.ppi8255.specs.Ppi.{PpiState};
ghost use Rattle.ppi8255.specs.PpiLaws.{ReadsBack, BeginsAnew, SetsOneBit, ShowsSwitches, DiffersUnseen, LooksAlike};

/// A read of a port that is an output gives what was last written to it, whatever is on its pins.
pub fn reads_back()
    ensures { (s : PpiState) (byte : ℕ) (inputs : Inputs) → ReadsBack s byte inputs }
{}

/// After a mode word the parallel port is as if nothing but that word had been written since reset: its latches are
/// cleared, and only the switches stay.
pub fn begins_anew()
    ensures { (s : PpiState) (word : ℕ) → BeginsAnew s word }
{}

/// The bit set/reset word changes the bit of port C that it names, and nothing else.
pub fn sets_one_bit()
    ensures { (s : PpiState) (word : ℕ) → has_bit word 7 ≡ false → SetsOneBit s word }
{}

/// Port C as an input shows four switches of SW2 or the fifth, by line 2 of port B, counter 2's output on bit 5, and 0
/// on bits 4, 6 and 7.
pub fn shows_switches()
    ensures { (s : PpiState) (inputs : Inputs) → ShowsSwitches s inputs }
{}

/// What the latch of an input holds is never seen: ports that differ in nothing else give the same reads, and the
/// same levels of port B, now and after any writes.
pub fn hides_latches_of_inputs()
    ensures { (s t : PpiState) (writes : List (ℕ × ℕ)) → DiffersUnseen s t → LooksAlike s t writes }
{}
