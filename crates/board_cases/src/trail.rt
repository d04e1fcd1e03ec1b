//! The trail of a board.
use crate::words::Words;
use board::board::Board;
use board_plain::trail::{TRAIL_LENGTH, TrailEntry, TrailEvent};
use std::alloc::{Allocator, Global};

/// Whether the board's trail has exactly `count` entries, for the step `trail`.
pub fn has_entries<A: Allocator>(board: &Board<A>, count: usize) -> bool {
    board.trail(count).is_none() && (count == 0 || board.trail(count - 1).is_some())
}

/// Whether the trail's entry is an instruction with these bytes that began at this clock, CS and IP, for the step
/// `begun`.
pub fn is_begun(entry: &TrailEntry, mut words: Words) -> Option<bool> {
    let here = stands_at(entry, &mut words)?;
    let TrailEvent::Instruction { instr, bytes } = &entry.event else {
        return Some(false);
    };
    let mut wanted = words.0.split_whitespace();
    for byte in bytes.as_slice() {
        if u8::from_str_radix(wanted.next()?, 16).ok()? != *byte {
            return Some(false);
        }
    }
    Some(here && wanted.next().is_none() && bytes.len() == usize::from(instr.length()))
}

/// Whether the trail's entry is an interrupt of this type that was entered at this clock, CS and IP, for the step
/// `entered`.
pub fn is_entered(entry: &TrailEntry, mut words: Words) -> Option<bool> {
    let here = stands_at(entry, &mut words)?;
    let wanted = words.byte()?;
    match &entry.event {
        TrailEvent::Entry(kind) => Some(here && *kind == wanted),
        TrailEvent::Instruction { .. } => Some(false),
    }
}

/// Whether the trail's entry has the clock, CS and IP of a step's next words; `None` if one can't be read.
fn stands_at(entry: &TrailEntry, words: &mut Words) -> Option<bool> {
    let clock = words.clock()?;
    let cs = words.port()?;
    let ip = words.port()?;
    Some(entry.clock == clock && entry.cs == cs && entry.ip == ip)
}

/// Adds a board's trail, entry by entry, to the text by which runs are compared.
pub fn push_trail(alloc: Global, text: &mut String, board: &Board) -> Option<()> {
    for index in 0..TRAIL_LENGTH {
        let Some(entry) = board.trail(index) else {
            return Some(());
        };
        push_entry(alloc, text, &entry)?;
    }
    Some(())
}

/// Adds one entry of a trail, its clock, place and event, to the text by which runs are compared.
fn push_entry(alloc: Global, text: &mut String, entry: &TrailEntry) -> Option<()> {
    let place = place_text(alloc, entry)?;
    text.push_str(place.as_str()).ok()?;
    push_event(alloc, text, &entry.event)
}

/// The text of a trail entry's clock, CS and IP, on a line of its own, by which runs are compared.
fn place_text(alloc: Global, entry: &TrailEntry) -> Option<String> {
    let (clock, cs, ip) = (entry.clock.get(), entry.cs, entry.ip);
    format!(in alloc; "\n{clock} {cs}:{ip}").ok()
}

/// Adds an interrupt's type, or an instruction's bytes, to the text of a trail entry by which runs are compared.
fn push_event(alloc: Global, text: &mut String, event: &TrailEvent) -> Option<()> {
    match event {
        TrailEvent::Instruction { bytes, .. } => push_bytes(alloc, text, bytes.as_slice()),
        TrailEvent::Entry(kind) => {
            let entered = format!(in alloc; " entry {kind}").ok()?;
            text.push_str(entered.as_str()).ok()
        }
    }
}

/// Adds an instruction's bytes, in decimal, to the text of a trail entry.
fn push_bytes(alloc: Global, text: &mut String, bytes: &[u8]) -> Option<()> {
    for byte in bytes {
        let word = format!(in alloc; " {byte}").ok()?;
        text.push_str(word.as_str()).ok()?;
    }
    Some(())
}
