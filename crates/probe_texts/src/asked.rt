//! Which events are asked for.
ghost use Rattle.std.specs.Prelude.{◌≡◌, fold};
ghost use Rattle.std.specs.List.{list_any};
ghost use Rattle.probe_texts.specs.Asked.{asked_with, nothing_asked, with_kind};
ghost use Rattle.probe_texts.specs.Listed.{is_listed, lists, lists_access, lists_begun};

use crate::kinds::Kind;
use board_plain::trail::TrailEvent;
use events::access::Access;
use events::event::Event;

/// The kinds of events that a run has to look for, whatever ranges they have; of the others none is made.
#[derive(Clone, Copy)]
pub struct Asked {
    pub starts: bool,
    pub entries: bool,
    /// Writes, and accesses to ports.
    pub accesses: bool,
    pub keys: bool,
    pub wires: bool,
    pub states: bool,
}

impl Asked {
    /// Asks for no events, before kinds are added.
    pub fn nothing() -> Asked
        ensures { result ≡ nothing_asked }
    {
        Asked {
            starts: false,
            entries: false,
            accesses: false,
            keys: false,
            wires: false,
            states: false,
        }
    }

    /// Asks for the events of one kind, too.
    fn with(self, kind: Kind) -> Asked
        ensures { result ≡ with_kind self kind }
    {
        let mut asked = self;
        match kind {
            Kind::Starts => asked.starts = true,
            Kind::Entries => asked.entries = true,
            Kind::Writes(..) | Kind::Ports(..) => asked.accesses = true,
            Kind::Keys => asked.keys = true,
            Kind::Wires => asked.wires = true,
            Kind::States => asked.states = true,
        }
        asked
    }

    /// Asks for the events of some more kinds, those of a line `events` or of a stop `when`.
    pub fn with_kinds(self, kinds: &[Kind]) -> Asked
        ensures { result ≡ asked_with self kinds.now }
    {
        let mut asked = self;
        for kind in kinds {
            asked = asked.with(*kind);
        }
        asked
    }
}

/// Whether one of some kinds lists an event, for `events` and for stops `when`.
pub fn is_listed(kinds: &[Kind], event: &Event) -> bool
    ensures { result ≡ is_listed kinds.now event.now }
{
    kinds.iter().any(|kind| lists(*kind, event))
}

/// Whether a kind lists an event: that of its name, and of its range if it has one.
fn lists(kind: Kind, event: &Event) -> bool
    ensures { result ≡ lists event.now kind }
{
    match event {
        Event::Began(entry) => lists_begun(kind, &entry.event),
        Event::Reached(_, access) => lists_access(kind, *access),
        Event::Became(..) => matches!(kind, Kind::States),
        Event::Keyed(..) => matches!(kind, Kind::Keys),
        Event::Wired(..) => matches!(kind, Kind::Wires),
    }
}

/// Whether a kind lists what began: `starts` an instruction, `entries` an interrupt's entry.
fn lists_begun(kind: Kind, event: &TrailEvent) -> bool
    ensures { result ≡ lists_begun kind event.now }
{
    match (kind, event) {
        (Kind::Starts, TrailEvent::Instruction { .. }) => true,
        (Kind::Entries, TrailEvent::Entry(_)) => true,
        _ => false,
    }
}

/// Whether a kind lists an access: writes and ports of its range.
fn lists_access(kind: Kind, access: Access) -> bool
    ensures { result ≡ lists_access kind access }
{
    match (kind, access) {
        (Kind::Writes(first, last), Access::Write(address, _)) => first <= address
            && address <= last,
        (Kind::Ports(first, last), Access::In(port, _)) => first <= port && port <= last,
        (Kind::Ports(first, last), Access::Out(port, _)) => first <= port && port <= last,
        _ => false,
    }
}
