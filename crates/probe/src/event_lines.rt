//! The events of a run as lines: of some kinds, or of the wires alone.
ghost use Rattle.std.specs.Prelude.{ℕ, ◌≡◌, ◌∷◌, [], List, ⊤};
ghost use Rattle.std.specs.List.{flat_map};
ghost use Rattle.std.specs.String.{string_bytes};
ghost use Rattle.events.specs.Events.{events_in};
ghost use Rattle.probe.specs.Making.{AnswersMaking};
ghost use Rattle.probe_texts.specs.Asked.{asked_with, nothing_asked};
ghost use Rattle.probe_texts.specs.Listed.{events_text, listed_lines};
ghost use Rattle.probe_texts.specs.Signals.{signal_line, signals_text};
ghost use Rattle.probe_texts.specs.declared.kinds.Kind.{Kind};
ghost use Rattle.probe_texts.specs.declared.kinds.Kind.TheVariants.{Wires};

use crate::making::{Visitor, make, shown, with_clock};
use crate::seen::Turn;
use crate::telling::tell_turn;
use board::board::Board;
use debugger::session::Session;
use debugger_meaning::answer::Answer;
use debugger_meaning::fault::DebugFault;
use events::event::Event;
use execute_noted::notes::{Accesses, Unnoted};
use probe_texts::asked::{Asked, is_listed};
use probe_texts::event_text::{push_event, push_signal};
use probe_texts::kinds::Kind;
use probe_texts::telling::Listener;
use std::alloc::{AllocError, Global};

/// The lines of the events of some kinds, for `events`.
#[derive(Drop)]
struct EventLines<'a> {
    text: String,
    kinds: &'a [Kind],
}

impl Listener for EventLines<'_> {
    ghost Manner = { List Kind };

    ghost manner = { λ l. l.kinds.now };

    ghost has = { λ l events. string_bytes l.text ≡ listed_lines l.kinds.now events };

    ghost MayFail = { ⊤ };

    /// Adds the event's line, if it is of one of the kinds.
    fn hear(&mut self, event: &Event) -> Result<(), AllocError> {
        if !is_listed(self.kinds, event) {
            return Ok(());
        }
        push_event(&mut self.text, event)
    }
}

impl Visitor<Accesses> for EventLines<'_> {
    ghost Manner = { List Kind };

    ghost manner = { λ l. l.kinds.now };

    ghost asks = { asked_with nothing_asked };

    ghost saw = { λ l s n. string_bytes l.text ≡ listed_lines l.kinds.now (events_in s n) };

    /// Asks for the kinds of the line `events`.
    fn asked(&self) -> Asked {
        Asked::nothing().with_kinds(self.kinds)
    }

    /// Adds the lines of a turn's events.
    fn see(&mut self, turn: &Turn, notes: &Accesses, board: &Board) -> Result<(), AllocError> {
        tell_turn(turn, notes.as_slice(), board, self)
    }
}

/// Answers the inquiry `events`: runs for `count` clocks, whatever the stops are, and answers a line for each event of
/// these kinds. Refused as `make` says.
pub(crate) fn tell_events(
    session: &mut Session,
    alloc: Global,
    count: u64,
    kinds: &[Kind],
) -> Result<Answer, DebugFault>
    ensures { AnswersMaking count (events_text kinds.now session.old.board.plain count) session.old result session.new }
{
    let mut lines = EventLines {
        text: String::new(alloc),
        kinds,
    };
    let end = make(session, count, &mut Accesses::new(), &mut lines)?;
    shown(session, with_clock(alloc, lines.text.as_str(), end))
}

/// The lines of the changes of wires, for `signals`.
#[derive(Drop)]
struct SignalLines {
    text: String,
}

impl Listener for SignalLines {
    ghost Manner = { ℕ };

    ghost manner = { λ l. 0 };

    ghost has = { λ l events. string_bytes l.text ≡ flat_map signal_line events };

    ghost MayFail = { ⊤ };

    /// Adds the line of a wire that changes.
    fn hear(&mut self, event: &Event) -> Result<(), AllocError> {
        push_signal(&mut self.text, event)
    }
}

impl Visitor<Unnoted> for SignalLines {
    ghost Manner = { ℕ };

    ghost manner = { λ l. 0 };

    ghost asks = { λ u. asked_with nothing_asked (Wires ∷ []) };

    ghost saw = { λ l s n. string_bytes l.text ≡ flat_map signal_line (events_in s n) };

    /// Asks for the wires alone.
    fn asked(&self) -> Asked {
        Asked::nothing().with_kinds([Kind::Wires].as_slice())
    }

    /// Adds the lines of the wires that change in a turn, of which no accesses are looked at.
    fn see(&mut self, turn: &Turn, _notes: &Unnoted, board: &Board) -> Result<(), AllocError> {
        tell_turn(turn, [].as_slice(), board, self)
    }
}

/// Answers the inquiry `signals`: runs for `count` clocks, whatever the stops are, and answers a line for each change
/// of the wires. Refused as `make` says.
pub(crate) fn tell_signals(
    session: &mut Session,
    alloc: Global,
    count: u64,
) -> Result<Answer, DebugFault>
    ensures { AnswersMaking count (signals_text session.old.board.plain count) session.old result session.new }
{
    let mut lines = SignalLines {
        text: String::new(alloc),
    };
    let end = make(session, count, &mut Unnoted, &mut lines)?;
    shown(session, with_clock(alloc, lines.text.as_str(), end))
}
