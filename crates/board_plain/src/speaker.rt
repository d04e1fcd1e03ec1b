//! Changes of the speaker's level.

use board_types::clock::Clock;
use board_types::line::Line;

/// A change of the speaker's level, at a clock.
#[derive(Clone, Copy, Debug, PartialEq, Eq)]
pub struct SpeakerChange {
    pub clock: Clock,
    pub level: Line,
}
