//! The trail's entries: instructions that were begun and interrupts that were entered.

use arrayvec::ArrayVec;
use board_types::clock::Clock;
use isa::form::Instr;

/// How many entries the trail keeps.
pub const TRAIL_LENGTH: usize = 32;

/// An event, with the clock and the CS:IP at which it began; an entry pushes that CS:IP.
#[derive(Drop)]
pub struct TrailEntry {
    pub clock: Clock,
    pub cs: u16,
    pub ip: u16,
    pub event: TrailEvent,
}

/// What began at a clock at which the processor was free.
#[derive(Drop)]
pub enum TrailEvent {
    /// An instruction, with the bytes that stood at its CS:IP then.
    Instruction {
        instr: Instr,
        bytes: ArrayVec<u8, 15>,
    },
    /// The entry of an interrupt of this type, by request or by the single step.
    Entry(u8),
}
