//! Parts that go on by themselves as time passes.
ghost use Rattle.std.specs.Prelude.{◌≡◌, ℕ, ◌+◌};
ghost use Rattle.board_types.specs.Timed.{IsUntilTurn};
ghost use Rattle.board_types.specs.declared.line.Line.{Line};

/// A part that goes on by itself as time passes, and gives out a level. Time is counted in ticks of the clock that
/// drives the part.
pub trait Timed {
    // the state after this number of ticks
    ghost after: { Self → ℕ → Self };

    // the level that the part gives out
    ghost output: { Self → Line };

    /// Lets `ticks` ticks pass in one go, as one after the other would, so that a part may lag until it is looked at.
    fn advance(&mut self, ticks: u64)
        ensures { self.new ≡ after self.old ticks };

    /// After how many ticks, from 1 on, the output first differs from what it is now, as long as nothing else happens;
    /// `None` if it never does. Up to then the board may leave the part alone.
    fn until_change(&self) -> Option<u64>
        ensures { IsUntilTurn after output self.now result };

    // letting some ticks pass, and then more, is letting all of them pass
    ghost adds: { (s : Self) (k m : ℕ) → after (after s k) m ≡ after s (k + m) };
}
