//! What a run file says.
use board_types::choice::{ClockTable, TimerKind};
use board_types::clock::Clock;
use board_types::keys::Keys;

/// What a run file says of how a board is run: its memory, switches, timer and clock table, for how long, and with
/// which keys.
#[derive(Drop)]
pub struct RunFile {
    /// The size of the RAM in units of 1,024 bytes.
    pub ram_kb: u16,
    /// The first switch block, of eight switches.
    pub sw1: u8,
    /// The five switches of the second block that port C reads.
    pub sw2: u8,
    /// Which chip the timer is; in version 1 the 8253.
    pub timer: TimerKind,
    /// By which table the processor's clocks count; in version 1 by C1.
    pub clocks: ClockTable,
    /// How many processor clocks the board runs, from power-on.
    pub budget: Clock,
    /// The key codes that reach the keyboard, each with its clock.
    pub keys: Keys,
}

/// A key as a run file writes it, `[stamp, code]`.
#[derive(Clone, Copy)]
pub struct KeyEntry {
    /// The clock at which the code reaches the keyboard.
    pub stamp: Clock,
    /// Any number; whether it is a key's scan code is judged later.
    pub code: u64,
}
