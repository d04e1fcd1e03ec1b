//! An entry of the trail as text.
ghost use Rattle.std.specs.Prelude.{◌≡◌, IfOk, Some};
ghost use Rattle.std.specs.String.{string_bytes};
ghost use Rattle.std.specs.List.{flat_map};
ghost use Rattle.board_types.specs.Digits.{hex_byte_text};
ghost use Rattle.debugger_meaning.specs.TrailText.{entry_line, event_text};

use board_plain::trail::{TrailEntry, TrailEvent};
use board_types::digits::{HexByte, HexWord};
use disassembler::text::InstrText;
use std::alloc::{AllocError, Global};
use std::fmt;

/// An instruction's bytes, two hexadecimal digits each without blanks, in a line of the trail or of an event list.
#[derive(Clone, Copy)]
pub struct Bytes<'a>(pub &'a [u8]);

impl fmt::Display for Bytes<'_> {
    ghost output = { λ b. Some (flat_map hex_byte_text b.0.now) };

    /// Writes the bytes in two hexadecimal digits each, without blanks, in a line of the trail or of an event list.
    fn fmt<W: fmt::Write>(&self, f: &mut fmt::Formatter<W>) -> fmt::Result {
        for byte in self.0 {
            let byte = HexByte(*byte);
            write!(f, "{byte}")?;
        }
        Ok(())
    }
}

/// What an entry of the trail says began, an instruction or an interrupt's entry, with its IP, from which the
/// disassembler works out where jumps lead.
#[derive(Drop)]
struct Event<'a> {
    event: &'a TrailEvent,
    ip: u16,
}

impl fmt::Display for Event<'_> {
    ghost output = { λ e. Some (event_text e.event.now e.ip) };

    /// Writes an instruction's bytes and its text as a source has it, or `entry` and the interrupt's type: the end of a
    /// line of the trail.
    fn fmt<W: fmt::Write>(&self, f: &mut fmt::Formatter<W>) -> fmt::Result {
        match self.event {
            TrailEvent::Instruction { instr, bytes } => {
                let bytes = Bytes(bytes.as_slice());
                let text = InstrText { instr, ip: self.ip };
                write!(f, "{bytes} {text}")
            }
            TrailEvent::Entry(kind) => {
                let kind = HexByte(*kind);
                write!(f, "entry {kind}")
            }
        }
    }
}

/// Returns an entry's line in what the command `trail` shows: its clock, CS:IP, and the instruction with its bytes or
/// the type of the interrupt that was entered.
#[tactic(auto, unfolding(crate::specs::TrailText::entry_line))]
pub fn entry_line(alloc: Global, entry: &TrailEntry) -> Result<String, AllocError>
    ensures { IfOk result (λ text. string_bytes text ≡ entry_line entry.now) }
{
    let clock = entry.clock.get();
    let cs = HexWord(entry.cs);
    let ip = HexWord(entry.ip);
    let event = Event {
        event: &entry.event,
        ip: entry.ip,
    };
    format!(in alloc; "{clock} {cs}:{ip} {event}\n")
}
