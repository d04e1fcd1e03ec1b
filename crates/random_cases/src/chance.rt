//! What is left to chance.
ghost use Rattle.std.specs.Prelude.{◌≤◌, ◌-◌};

use rand_core::utils::NextWord;
use rand_pcg::Pcg32;

/// A sequence of random numbers that its seed decides.
#[derive(Drop)]
pub struct Chance(Pcg32);

impl Chance {
    /// The sequence of a case's seed, from which its random program is drawn; the seed gives it again.
    pub fn new(seed: u64) -> Self {
        Chance(Pcg32::new(seed, 0))
    }

    /// Draws a number below `end`, or 0 if that is 0.
    pub fn below(&mut self, end: u16) -> u16
        ensures { result ≤ end - 1 }
    {
        let number = (self.0.next_word() % 65536) as u16;
        number.checked_rem(end).unwrap_or(0)
    }

    /// Draws any byte, such as a displacement or an operand.
    pub fn byte(&mut self) -> u8 {
        (self.0.next_word() % 256) as u8
    }

    /// Draws whether something happens that happens once in `times` times.
    pub fn once_in(&mut self, times: u16) -> bool {
        self.below(times) == 0
    }

    /// Draws one of these bytes, such as an opcode, or 0 if there is none.
    pub fn pick(&mut self, bytes: &[u8]) -> u8 {
        let index = self.below((bytes.len() % 256) as u16);
        bytes.get(usize::from(index)).copied().unwrap_or(0)
    }
}
