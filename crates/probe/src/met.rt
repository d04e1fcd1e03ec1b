//! Which stop is met at a clock, by what happened in the clock that led to it.
ghost use Rattle.std.specs.Prelude.{◌≡◌, ◌+◌, ◌≤◌, ◌^◌, All, List, length};
ghost use Rattle.board_plain.specs.Board.{BoardState};
ghost use Rattle.events.specs.Accesses.{accesses_next};
ghost use Rattle.probe.specs.Met.{earlier, heard, is_there, met, met_here, one_differs, waiting_for, waits_for, write_differs};
ghost use Rattle.probe.specs.declared.watched.Watched.{Watched};
ghost use Rattle.probe.specs.ProbeStops.{standing, stands};
ghost use Rattle.probe.specs.Seen.{IsLooked, IsMade, asked_in};
ghost use Rattle.probe.specs.Watched.{IsWatched, stops_of};
ghost use Rattle.probe_texts.specs.Requests.{HasBytes};

use crate::bytes::Copied;
use crate::seen::Turn;
use crate::telling::tell_turn;
use crate::watched::Watched;
use board::board::Board;
use events::access::Access;
use events::event::Event;
use probe_texts::asked::is_listed;
use probe_texts::stops::Stop;
use probe_texts::telling::Listener;
use std::alloc::AllocError;

/// Returns the least number, from 1, of a stop that is met at the board's clock, by what stands there or by what
/// happened in the turn of one clock that led to it, in which these accesses were made. A turn's events are told once,
/// whatever the stops are.
pub(crate) fn met(
    watches: &[Watched],
    turn: &Turn,
    accesses: &[Access],
    board: &Board,
) -> Option<usize>
    requires within { All IsWatched watches.now }
    requires few { length board.now.trail ≤ 32 }
    requires looked { IsLooked turn.now board.now }
    ensures { (old : BoardState) → (made : IsMade turn.now old board.now) → accesses.now ≡ accesses_next old.plain
        → result ≡ met watches.now (asked_in turn.now.asked old.plain made.one.passed) accesses.now board.now.plain }
{
    let mut heard = Heard {
        watches,
        number: None,
    };
    let told = tell_turn(turn, accesses, board, &mut heard);
    if told.is_err() {
        return None;
    }
    earlier(heard.number, met_here(watches, accesses, board))
}

/// Returns the smaller of two numbers of stops; the one that there is, if the other is `None`.
fn earlier(a: Option<usize>, b: Option<usize>) -> Option<usize>
    ensures { result ≡ earlier a b }
{
    match (a, b) {
        (Some(a), Some(b)) => Some(a.min(b)),
        (Some(a), None) => Some(a),
        (None, b) => b,
    }
}

/// Returns the least number of a stop that is met by what stands at the board's clock, or by bytes that these accesses
/// have changed.
#[tactic(auto, unfolding(crate::specs::Met::met_here))]
fn met_here(watches: &[Watched], accesses: &[Access], board: &Board) -> Option<usize>
    requires { All IsWatched watches.now }
    ensures { result ≡ met_here watches.now accesses.now board.now.plain }
{
    for index in 0..watches.len() {
        if is_there(&watches[index], accesses, board) {
            return Some(index + 1);
        }
    }
    None
}

/// Whether a stop is met by what stands at the board's clock, or by bytes that these accesses have changed; no if it
/// waits for events.
fn is_there(watched: &Watched, accesses: &[Access], board: &Board) -> bool
    requires { IsWatched watched.now }
    ensures { result ≡ is_there watched.now.stop watched.now.copied accesses.now board.now.plain }
{
    match &watched.stop {
        Stop::Standing(condition) => board.holds(*condition),
        Stop::When(_) => false,
        Stop::Changes(address, count) => {
            one_differs(*address, *count, accesses, &watched.copied, board)
        }
    }
}

/// The least number of a stop that waits for one of the events heard.
#[derive(Clone, Copy)]
struct Heard<'a> {
    watches: &'a [Watched],
    number: Option<usize>,
}

impl Listener for Heard<'_> {
    ghost Manner = { List Watched };

    ghost manner = { λ h. h.watches.now };

    ghost has = { λ h events. h.number ≡ heard h.watches.now events };

    ghost MayFail = { ⊥ };

    /// Looks for the first stop that waits for this event.
    fn hear(&mut self, event: &Event) -> Result<(), AllocError> {
        self.number = earlier(self.number, waiting_for(self.watches, event));
        Ok(())
    }
}

/// Returns the least number of a stop that waits for an event.
#[tactic(auto, unfolding(crate::specs::Met::waiting_for))]
fn waiting_for(watches: &[Watched], event: &Event) -> Option<usize>
    ensures { result ≡ waiting_for event.now watches.now }
{
    for index in 0..watches.len() {
        if waits_for(&watches[index].stop, event) {
            return Some(index + 1);
        }
    }
    None
}

/// Whether a stop waits for an event.
fn waits_for(stop: &Stop, event: &Event) -> bool
    ensures { result ≡ waits_for event.now stop.now }
{
    match stop {
        Stop::When(kinds) => is_listed(kinds.as_slice(), event),
        Stop::Standing(_) | Stop::Changes(..) => false,
    }
}

/// Returns the least number, from 1, of a stop that holds as a condition at the board's clock; after a leap, and at a
/// session's first clock, no other stop can be met.
#[tactic(auto, unfolding(crate::specs::ProbeStops::standing))]
pub(crate) fn standing(watches: &[Watched], board: &Board) -> Option<usize>
    requires { All IsWatched watches.now }
    ensures { result ≡ standing (stops_of watches.now) board.now.plain }
{
    for index in 0..watches.len() {
        if stands(&watches[index].stop, board) {
            return Some(index + 1);
        }
    }
    None
}

/// Whether a stop holds as a condition at the board's clock; no if it waits for events or changes of bytes.
#[tactic(auto, unfolding(crate::specs::ProbeStops::stands))]
fn stands(stop: &Stop, board: &Board) -> bool
    requires { HasBytes stop.now }
    ensures { result ≡ stands stop.now board.now.plain }
{
    match stop {
        Stop::Standing(condition) => board.holds(*condition),
        Stop::When(_) | Stop::Changes(..) => false,
    }
}

/// Whether one of `count` bytes from `address` on has been written in the clock just made and differs from its copy, so
/// that a stop `changes` is met.
fn one_differs(
    address: u32,
    count: u32,
    accesses: &[Access],
    copied: &Copied,
    board: &Board,
) -> bool
    requires { address + count ≤ 2 ^ 20 }
    ensures { result ≡ one_differs address count accesses.now copied.now board.now.plain }
{
    for access in accesses {
        if write_differs(address, count, *access, copied, board) {
            return true;
        }
    }
    false
}

/// Whether an access has written one of `count` bytes from `address` on, which now differs from its copy.
fn write_differs(address: u32, count: u32, access: Access, copied: &Copied, board: &Board) -> bool
    requires { address + count ≤ 2 ^ 20 }
    ensures { result ≡ write_differs address count copied.now board.now.plain access }
{
    match access {
        Access::Write(at, _) => address <= at && at < address + count && copied.differs(at, board),
        Access::In(..) | Access::Out(..) => false,
    }
}
