//! The level of a wire.
ghost use Rattle.std.specs.Prelude.{◌≡◌};
ghost use Rattle.board_types.specs.LineLevel.{from_bool, is_high, opposite};

/// A wire's level.
#[derive(Clone, Copy, Debug, PartialEq, Eq)]
pub enum Line {
    Low,
    High,
}

impl Line {
    /// The level of a wire that is high if `high` holds, to drive it by a bit or a condition.
    pub fn from_bool(high: bool) -> Line
        ensures { result ≡ from_bool high }
    {
        if high { Line::High } else { Line::Low }
    }

    /// Whether the level is high.
    pub fn is_high(self) -> bool
        ensures { result ≡ is_high self }
    {
        match self {
            Line::Low => false,
            Line::High => true,
        }
    }

    /// The other level, for a counter's OUT that turns over.
    pub fn opposite(self) -> Line
        ensures { result ≡ opposite self }
    {
        match self {
            Line::Low => Line::High,
            Line::High => Line::Low,
        }
    }
}
