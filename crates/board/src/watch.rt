//! The IPs at which a run may have to look for a stop.
ghost use Rattle.std.specs.Prelude.{ℕ, ◌+◌, ◌<◌, ◌≤◌, IsTrue};
ghost use Rattle.board_types.specs.Address.{offset_after};

/// What a run watches for.
pub(crate) trait Watch {
    // nothing that is watched for is at this IP
    ghost unwatched: { Self → ℕ → Type 0 };

    /// Whether something that is watched for may be at this IP; if a step has led there, the run ends to look.
    fn has(&self, ip: u16) -> bool
        ensures { ¬ (IsTrue result) → unwatched self.now ip };

    /// Whether it is known that nothing is watched for at any of `size` IPs from `start` on, so that a block there is
    /// run without looks between its steps.
    fn spares(&self, start: u16, size: u16) -> bool
        requires { start + size ≤ 65536 }
        ensures { IsTrue result → (k : ℕ) → k < size → unwatched self.now (offset_after start k) };
}

/// Watches for nothing: a run without stops.
#[derive(Clone, Copy)]
pub(crate) struct Nothing;

impl Watch for Nothing {
    ghost use Rattle.board.specs.IpRange.{all_unwatched};

    ghost unwatched = { λ _. all_unwatched };

    /// Never: a run without stops looks nowhere.
    #[inline(always)]
    fn has(&self, _: u16) -> bool {
        false
    }

    /// Always: a run without stops makes any block whole.
    #[inline(always)]
    fn spares(&self, _: u16, _: u16) -> bool {
        true
    }
}
