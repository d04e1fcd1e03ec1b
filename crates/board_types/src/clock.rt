//! A point in time, counted in processor clocks from power-on.
ghost use Rattle.std.specs.Prelude.{◌≡◌, ◌+◌, ◌^◌, ◌≤◌};
ghost use Rattle.std.specs.Option.{SomeIff};

use std::marker::Model;

/// A number of processor clocks since power-on, from 0 to 2^40.
#[derive(Clone, Copy, Debug, PartialEq, Eq, PartialOrd, Ord)]
pub struct Clock {
    clocks: u64,
}

impl Model for Clock {
    ghost use Rattle.std.specs.Prelude.{ℕ, ◌≤◌, ◌^◌};

    ghost Value = { ℕ };

    ghost view = { λ c. c.clocks };

    ghost invariant = { λ c. c.clocks ≤ 2 ^ 40 };

    ghost inverse = { λ n. record { clocks = n } };
}

impl Clock {
    /// The last clock that a board can reach.
    pub const LAST: u64 = 1 << 40;

    /// The clock that is `clocks` clocks after power-on; `None` if that lies past 2^40, which no board can reach.
    pub fn new(clocks: u64) -> Option<Clock>
        ensures { SomeIff result (clocks ≤ 2 ^ 40) clocks }
    {
        if clocks <= Clock::LAST {
            Some(Clock { clocks })
        } else {
            None
        }
    }

    /// The clock that lies `clocks` clocks after this one, as at the end of a step; the caller knows that it isn't past
    /// 2^40.
    #[inline(always)]
    pub fn after(self, clocks: u16) -> Clock
        requires { self + clocks ≤ 2 ^ 40 }
        ensures { result ≡ self + clocks }
    {
        Clock {
            clocks: self.clocks + u64::from(clocks),
        }
    }

    /// The number of clocks since power-on, at most 2^40.
    pub fn get(self) -> u64
        ensures value { result ≡ self }
        ensures bound { result ≤ 2 ^ 40 }
    {
        self.clocks
    }
}
