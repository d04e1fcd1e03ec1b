//! How a board is fitted out.

use board_types::choice::{ClockTable, TimerKind};

/// How a board is fitted out.
#[derive(Clone, Copy, Debug, PartialEq, Eq)]
pub struct Config {
    /// RAM in units of 1,024 bytes.
    pub ram_kb: u16,
    /// The first switch block.
    pub sw1: u8,
    /// The five switches of the second block that the board reads, 0 to 31.
    pub sw2: u8,
    /// Which chip the timer is.
    pub timer: TimerKind,
    /// The table by which the processor's clocks count.
    pub clocks: ClockTable,
}
