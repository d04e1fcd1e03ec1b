//! What the adapter holds beside its text memory.
ghost use Rattle.std.specs.Prelude.{◌≡◌};
ghost use Rattle.mda_text.specs.Mda.{MdaState, status};
ghost use Rattle.mda_text.specs.Registers.{registers_of};

/// The beam is back where it was after this number of processor clocks.
pub(crate) const RASTER_CLOCKS: u64 = 259;

/// The beam goes back in the clocks of the raster from this one on.
pub(crate) const RETRACE_START: u64 = 219;

/// The adapter's registers, and where its beam stands.
#[derive(Clone, Copy, Debug, PartialEq, Eq)]
pub struct Registers {
    /// The MC6845's address register: the number, below 32, of the register that port 3B5h reaches.
    pub index: u8,
    /// R12 and R13: the word that is shown first.
    pub start: u16,
    /// R14 and R15: the word that has the cursor.
    pub cursor: u16,
    /// Whether the video is enabled.
    pub video: bool,
    /// Where the beam stands in its raster of 259 processor clocks.
    pub raster: u16,
}

impl Registers {
    /// The byte that the status port 3BAh gives: bit 0 is 1 while the beam goes back, in the last 40 of 259 clocks, and
    /// the upper four bits are always 1.
    #[inline]
    pub fn status(self) -> u8
        ensures { (m : MdaState) → self ≡ registers_of m → result ≡ status m }
    {
        if u64::from(self.raster) % RASTER_CLOCKS >= RETRACE_START {
            0xF1
        } else {
            0xF0
        }
    }
}
