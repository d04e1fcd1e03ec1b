//! The events of a board as lines.
ghost use Rattle.std.specs.Prelude.{◌≡◌, ◌++◌, OnOk, Some};
ghost use Rattle.std.specs.String.{string_bytes};
ghost use Rattle.probe_texts.specs.Listed.{access_text, begun_text, event_line, key_word, state_word, wire_name};
ghost use Rattle.probe_texts.specs.Signals.{signal_line};

use crate::shown::digit;
use board_plain::trail::{TrailEntry, TrailEvent};
use board_types::digits::{HexByte, HexWord};
use board_types::state::State;
use debugger_meaning::dump::Address;
use debugger_meaning::trail_text::Bytes;
use events::access::Access;
use events::event::{Event, KeyEvent, Wire};
use std::alloc::AllocError;
use std::fmt;

/// What begins, an instruction or an interrupt's entry, as the words of its line in the answer to `events`.
#[derive(Drop)]
struct BegunText<'a>(&'a TrailEntry);

impl fmt::Display for BegunText<'_> {
    ghost output = { λ b. Some (begun_text b.0.now b.0.now.event) };

    /// Writes `start`, CS:IP and the instruction's bytes, or `entry` and the interrupt's type.
    fn fmt<W: fmt::Write>(&self, f: &mut fmt::Formatter<W>) -> fmt::Result {
        match &self.0.event {
            TrailEvent::Instruction { instr: _, bytes } => {
                let cs = HexWord(self.0.cs);
                let ip = HexWord(self.0.ip);
                let bytes = Bytes(bytes.as_slice());
                write!(f, "start {cs}:{ip} {bytes}")
            }
            TrailEvent::Entry(kind) => {
                let kind = HexByte(*kind);
                write!(f, "entry {kind}")
            }
        }
    }
}

/// An access, as the words of its line in the answer to `events`.
#[derive(Clone, Copy)]
struct AccessText(Access);

impl fmt::Display for AccessText {
    ghost output = { λ a. Some (access_text a.0) };

    /// Writes `write` and the address, or `in` or `out` and the port, and the byte.
    fn fmt<W: fmt::Write>(&self, f: &mut fmt::Formatter<W>) -> fmt::Result {
        match self.0 {
            Access::Write(address, byte) => {
                let address = Address(address);
                let byte = HexByte(byte);
                write!(f, "write {address} {byte}")
            }
            Access::In(port, byte) => {
                let port = HexWord(port);
                let byte = HexByte(byte);
                write!(f, "in {port} {byte}")
            }
            Access::Out(port, byte) => {
                let port = HexWord(port);
                let byte = HexByte(byte);
                write!(f, "out {port} {byte}")
            }
        }
    }
}

/// The word for a new state of the processor in the answer to `events`.
fn state_word(state: State) -> &'static str
    ensures { result.now ≡ state_word state }
{
    match state {
        State::Running => "woken",
        State::Halted => "halted",
        State::Jammed => "jammed",
    }
}

/// The word for what becomes of a key's code in the answer to `events`.
fn key_word(what: KeyEvent) -> &'static str
    ensures { result.now ≡ key_word what }
{
    match what {
        KeyEvent::Arrives => "arrives",
        KeyEvent::IsLost => "lost",
        KeyEvent::IsLatched => "latched",
    }
}

/// A wire's name in the answers to `events` and `signals`.
fn wire_name(wire: Wire) -> &'static str
    ensures { result.now ≡ wire_name wire }
{
    match wire {
        Wire::Out0 => "OUT0",
        Wire::Out2 => "OUT2",
        Wire::Ir0 => "IR0",
        Wire::Ir1 => "IR1",
        Wire::Int => "INT",
        Wire::Speaker => "speaker",
    }
}

/// Adds an event's line to the answer to `events`: its clock, and what happens then.
#[tactic(auto, unfolding(crate::specs::Listed::event_line))]
pub fn push_event(text: &mut String, event: &Event) -> Result<(), AllocError>
    ensures { OnOk result (string_bytes text.new ≡ string_bytes text.old ++ event_line event.now) }
{
    match event {
        Event::Began(entry) => {
            let clock = entry.clock.get();
            let begun = BegunText(entry);
            write!(text, "{clock} {begun}\n")
        }
        Event::Reached(clock, access) => {
            let clock = clock.get();
            let access = AccessText(*access);
            write!(text, "{clock} {access}\n")
        }
        Event::Became(clock, state) => {
            let clock = clock.get();
            let word = state_word(*state);
            write!(text, "{clock} {word}\n")
        }
        Event::Keyed(clock, what, code) => {
            let clock = clock.get();
            let code = HexByte(*code);
            let word = key_word(*what);
            write!(text, "{clock} key {code} {word}\n")
        }
        Event::Wired(clock, wire, level) => {
            let clock = clock.get();
            let name = wire_name(*wire);
            let level = digit(*level);
            write!(text, "{clock} wire {name} {level}\n")
        }
    }
}

/// Adds an event's line to the answer to `signals`: the clock, the wire and its level; no line unless a wire changes.
pub fn push_signal(text: &mut String, event: &Event) -> Result<(), AllocError>
    ensures { OnOk result (string_bytes text.new ≡ string_bytes text.old ++ signal_line event.now) }
{
    match event {
        Event::Wired(clock, wire, level) => {
            let clock = clock.get();
            let name = wire_name(*wire);
            let level = digit(*level);
            write!(text, "{clock} {name} {level}\n")
        }
        Event::Began(_) | Event::Reached(..) | Event::Became(..) | Event::Keyed(..) => Ok(()),
    }
}
