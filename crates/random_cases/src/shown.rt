//! What a board shows.
ghost use Rattle.std.specs.Prelude.{◌≤◌, ◌^◌};

use board::board::Board;
use board_plain::trail::{TRAIL_LENGTH, TrailEntry, TrailEvent};
use board_types::address::{TEXT_SIZE, TEXT_START};

/// What two boards that ran the same random program show differently, for a case to report, or `None`. The first 16 KB
/// of RAM and text memory are compared if `whole`, else only the code and its data.
pub fn difference(one: &Board, other: &Board, whole: bool) -> Option<&'static str> {
    if one.clock() != other.clock() {
        return Some("the clocks");
    }
    if one.regs() != other.regs() {
        return Some("the registers");
    }
    if one.state() != other.state() || one.lost() != other.lost() {
        return Some("the states");
    }
    if one.speaker_changes() != other.speaker_changes() {
        return Some("the speaker's changes");
    }
    if !have_same_trail(one, other) {
        return Some("the trails");
    }
    if !have_same_memory(one, other, whole) {
        return Some("bytes of RAM");
    }
    None
}

/// Whether two boards have the same bytes in the first 16 KB of RAM and in text memory if `whole`, else only in the
/// random code and its data.
fn have_same_memory(one: &Board, other: &Board, whole: bool) -> bool {
    if whole {
        return have_same_bytes(one, other, 0, 0x4000)
            && have_same_bytes(one, other, TEXT_START, TEXT_START + TEXT_SIZE);
    }
    have_same_bytes(one, other, 0x1000, 0x1400)
}

/// Whether two boards have the same bytes from an address on, up to another one.
fn have_same_bytes(one: &Board, other: &Board, start: u32, end: u32) -> bool
    requires { end ≤ 2 ^ 20 }
{
    for addr in start..end {
        if one.byte(addr) != other.byte(addr) {
            return false;
        }
    }
    true
}

/// Whether two boards list the same instructions and interrupts in their trails, the last 32.
fn have_same_trail(one: &Board, other: &Board) -> bool {
    for index in 0..TRAIL_LENGTH {
        if !have_same_entry(one, other, index) {
            return false;
        }
    }
    true
}

/// Whether the trails of two boards have the same entry at this index, or neither has one.
fn have_same_entry(one: &Board, other: &Board, index: usize) -> bool {
    match (one.trail(index), other.trail(index)) {
        (None, None) => true,
        (Some(one), Some(other)) => are_the_same(&one, &other),
        _ => false,
    }
}

/// Whether two trail entries have the same clock, place and event, in a comparison of boards.
fn are_the_same(one: &TrailEntry, other: &TrailEntry) -> bool {
    one.clock == other.clock
        && one.cs == other.cs
        && one.ip == other.ip
        && tell_the_same(&one.event, &other.event)
}

/// Whether two trail entries tell of the same interrupt type, or of instructions with the same bytes.
fn tell_the_same(one: &TrailEvent, other: &TrailEvent) -> bool {
    match (one, other) {
        (TrailEvent::Entry(one), TrailEvent::Entry(other)) => one == other,
        (
            TrailEvent::Instruction { bytes: one, .. },
            TrailEvent::Instruction { bytes: other, .. },
        ) => { one.as_slice() == other.as_slice() }
        _ => false,
    }
}
