//! The events of a turn, one after another.
ghost use Rattle.std.specs.Prelude.{◌≡◌, ◌-◌, ◌≤◌, ◌++◌, IsTrue, OnErr, OnOk, List, length, map, slice_get};
ghost use Rattle.std.specs.Option.{option_to_list};
ghost use Rattle.board.specs.OneTurn.{begun_of};
ghost use Rattle.board_plain.specs.Board.{BoardState};
ghost use Rattle.board_plain.specs.Plain.{clock_of, codes_at};
ghost use Rattle.board_plain.specs.Trail.{last};
ghost use Rattle.board_plain.specs.declared.trail.TrailEntry.{TrailEntry};
ghost use Rattle.events.specs.Accesses.{accesses_next};
ghost use Rattle.events.specs.declared.event.Event.{Event};
ghost use Rattle.probe.specs.Seen.{IsLooked, IsMade, asked_in, keys_told};
ghost use Rattle.probe_texts.specs.Told.{begun_seen, type_asked};

use crate::seen::Turn;
use board::board::Board;
use board::one_turn::Begun;
use board_plain::trail::TrailEntry;
use board_types::clock::Clock;
use events::access::Access;
use events::event::Event;
use probe_texts::asked::Asked;
use probe_texts::telling::{
    Listener, tell_accesses, tell_arrivals, tell_latched, tell_state, tell_wires,
};
use std::alloc::AllocError;

/// Tells what happened in a turn, in order: each of its events that is asked for. These accesses were made in it, and the
/// board stands at its end. What happens in a turn happens in its first clock, and what is asked for is still as that
/// clock left it.
pub(crate) fn tell_turn<L: Listener>(
    turn: &Turn,
    accesses: &[Access],
    board: &Board,
    listener: &mut L,
) -> Result<(), AllocError>
    requires few { length board.now.trail ≤ 32 }
    requires looked { IsLooked turn.now board.now }
    ensures told { OnOk result ((old : BoardState) (events : List Event) → (made : IsMade turn.now old board.now)
        → (IsTrue turn.now.asked.accesses → accesses.now ≡ accesses_next old.plain) → L.has listener.old events
        → L.has listener.new (events ++ asked_in turn.now.asked old.plain made.one.passed)) }
    ensures manner { L.manner listener.new ≡ L.manner listener.old }
    ensures fault { OnErr result L.MayFail }
{
    let (asked, before, after) = (turn.asked, turn.before, turn.after);
    let clock = Clock::new(before.clock).unwrap();
    let next = Clock::new(before.clock + 1).unwrap();
    tell_begun(asked, turn.begun, board, listener)?;
    tell_accesses(asked.accesses, clock, accesses, listener)?;
    tell_state(asked.states, clock, before.state, after.state, listener)?;
    tell_keys(turn, next, board, listener)?;
    tell_wires(next, before.levels, after.levels, listener)
}

/// Tells what began in a turn, if anything did and it is asked for: its bytes are in the trail's last entry.
fn tell_begun<L: Listener>(
    asked: Asked,
    begun: Option<Begun>,
    board: &Board,
    listener: &mut L,
) -> Result<(), AllocError>
    requires few { length board.now.trail ≤ 32 }
    ensures told { OnOk result ((before entries : List TrailEntry) (events : List Event)
        → map begun_of entries ≡ option_to_list begun → board.now.trail ≡ last 32 (before ++ entries)
        → L.has listener.old events → L.has listener.new (events ++ begun_seen asked entries)) }
    ensures manner { L.manner listener.new ≡ L.manner listener.old }
    ensures fault { OnErr result L.MayFail }
{
    let Some(begun) = begun else {
        return Ok(());
    };
    if !type_asked(asked, begun.entered) {
        return Ok(());
    }
    match last_entry(board) {
        Some(entry) => listener.hear(&Event::Began(entry)),
        None => Ok(()),
    }
}

/// Whether what began in a turn is asked for: an instruction, or, with a type, the entry of an interrupt. It saves a look
/// at the trail if it isn't.
fn type_asked(asked: Asked, entered: Option<u8>) -> bool
    ensures { result ≡ type_asked asked entered }
{
    match entered {
        None => asked.starts,
        Some(_) => asked.entries,
    }
}

/// Returns the last entry of a board's trail, which says what began last, with an instruction's bytes; `None` if the
/// trail is empty.
fn last_entry(board: &Board) -> Option<TrailEntry>
    requires { length board.now.trail ≤ 32 }
    ensures { result ≡ slice_get board.now.trail (length board.now.trail - 1) }
{
    let mut count = 32;
    while count > 0 {
        count -= 1;
        if let Some(entry) = board.trail(count) {
            return Some(entry);
        }
    }
    None
}

/// Tells what becomes of the keys at `clock`, a turn's first, if keys are asked for.
fn tell_keys<L: Listener>(
    turn: &Turn,
    clock: Clock,
    board: &Board,
    listener: &mut L,
) -> Result<(), AllocError>
    requires room { turn.now.before.waiting ≤ 16 }
    requires few { turn.now.after.waiting ≤ 16 }
    requires reached { clock ≤ clock_of board.now.plain }
    ensures told { OnOk result ((events : List Event) → L.has listener.old events
        → L.has listener.new (events ++ keys_told turn.now clock (codes_at board.now.plain.keys clock)
        board.now.plain.chips.keyboard)) }
    ensures manner { L.manner listener.new ≡ L.manner listener.old }
    ensures fault { OnErr result L.MayFail }
{
    if !turn.asked.keys {
        return Ok(());
    }
    let held = tell_arrivals(clock, turn.before.waiting, board.keys_at(clock), listener)?;
    if turn.after.waiting + 1 != held {
        return Ok(());
    }
    tell_latched(clock, board.keyboard().latch(), listener)
}
