//! What a run stops at.

use arrayvec::ArrayVec;
use board_types::clock::Clock;

/// What a run may stop at, at any clock, also in the midst of an instruction.
#[derive(Clone, Copy, Debug, PartialEq, Eq, Default)]
pub enum Condition {
    /// The processor is free: the clocks of its last step or entry are over, even if it is halted or jammed.
    #[default]
    Free,
    /// The processor is free at this CS:IP, whether or not an interrupt is taken there.
    At(u16, u16),
    /// The byte at this physical address, below 100000h, is this one.
    Byte(u32, u8),
    /// The speaker is high.
    Sound,
    /// The processor is halted.
    Halted,
}

/// The conditions that a run may stop at, numbered from 1.
pub type Stops = ArrayVec<Condition, 16>;

/// Where a run stopped: the least number of a condition that holds there, and the clock.
#[derive(Clone, Copy, Debug, PartialEq, Eq)]
pub struct Stop {
    pub number: usize,
    pub clock: Clock,
}

/// A run's stop, if it met one.
pub type Stopped = Option<Stop>;
