//! Searches for the clocks at which a stop is met.
ghost use Rattle.std.specs.Prelude.{◌≡◌, ◌+◌, ◌-◌, ◌<◌, ◌≤◌, ◌^◌, All, if◌then◌else◌, IfOk, MatchResult, None, length};
ghost use Rattle.std.specs.Result.{IfErr};
ghost use Rattle.board.specs.Found.{found_at};
ghost use Rattle.board_plain.specs.Plain.{clock_of};
ghost use Rattle.debugger_meaning.specs.SessionInvariant.{LacksMemory};
ghost use Rattle.probe.specs.Looked.{IsFoundIn, LooksOn, RanShort, RanToStop};
ghost use Rattle.probe.specs.Met.{asked_with_stop};
ghost use Rattle.probe.specs.ProbeStops.{standing};
ghost use Rattle.probe.specs.Seen.{IsLooked};
ghost use Rattle.probe.specs.Watched.{asked_of, IsWatched, KeepsStops, stops_of};

use crate::met::{met, standing};
use crate::running::Running;
use crate::seen::Turn;
use crate::watched::{Watched, copy_bytes, renew_bytes};
use board::board::Board;
use board_types::clock::Clock;
use debugger_meaning::fault::DebugFault;
use events::access::Access;
use execute_noted::notes::Accesses;
use probe_texts::asked::Asked;
use probe_texts::stops::Stop;
use std::alloc::AllocError;

/// Returns the least number of a stop that is met at the end of a turn of the board, in a run or a search, and brings
/// copies of bytes up to date. The turn was one clock, or a leap in which nothing happened.
pub(crate) fn found(
    watches: &mut [Watched],
    turn: &Turn,
    accesses: &[Access],
    board: &Board,
) -> Option<usize>
    requires within { All IsWatched watches.old }
    requires few { length board.now.trail ≤ 32 }
    requires looked { IsLooked turn.now board.now }
    ensures keeps { KeepsStops watches.old watches.new }
    ensures clock { clock_of board.now.plain ≡ turn.now.before.clock + 1
        → LooksOn turn.now accesses.now board.now watches.old watches.new result }
    ensures leap { turn.now.before.clock + 1 < clock_of board.now.plain
        → result ≡ standing (stops_of watches.old) board.now.plain }
    ensures copied { turn.now.before.clock + 1 < clock_of board.now.plain → watches.new ≡ watches.old }
{
    if board.clock().get() != turn.before.clock + 1 {
        return standing(watches, board);
    }
    let number = met(watches, turn, accesses, board);
    renew_bytes(watches, accesses, board);
    number
}

/// Tells which events these stops have to look for: seeing some of them takes time, and a run that needn't see the wires
/// leaps further.
pub(crate) fn asked_by(watches: &[Watched]) -> Asked
    ensures { result ≡ asked_of watches.now }
{
    let mut asked = Asked::nothing();
    for watched in watches {
        asked = asked_with(asked, &watched.stop);
    }
    asked
}

/// Adds the events for which a stop waits to those that are looked for.
fn asked_with(asked: Asked, stop: &Stop) -> Asked
    ensures { result ≡ asked_with_stop asked stop.now }
{
    match stop {
        Stop::When(kinds) => asked.with_kinds(kinds.as_slice()),
        Stop::Standing(_) | Stop::Changes(..) => asked,
    }
}

/// Returns the clock up to which a turn may lead in a run to `end` that began at `start`. The run's first clock is a
/// turn of its own: what holds at the start may still hold after it, and has to be met there.
pub(crate) fn turn_end(clock: u64, start: u64, end: Clock) -> Clock
    requires { clock < end }
    ensures first { clock ≡ start → result ≡ clock + 1 }
    ensures after { start < clock → result ≡ end }
    ensures later { clock < result }
    ensures within { result ≤ end }
{
    if clock == start {
        next_clock(clock, end)
    } else {
        end
    }
}

/// Returns the clock after `clock`: a run that looks for stops at each clock lets a turn go no further, unless it leaps
/// over clocks in which nothing happens.
pub(crate) fn next_clock(clock: u64, end: Clock) -> Clock
    requires { clock < end }
    ensures { result ≡ clock + 1 }
{
    Clock::new(clock + 1).unwrap()
}

/// Runs a board to the clock `end`, or up to the first clock after the start at which a stop is met. Returns the least
/// number of those that are met there, `None` at the end. Refused at the clock that was reached if there is no memory.
pub(crate) fn run_to_stop<R: Running<Accesses>>(
    run: &mut R,
    watches: &mut [Watched],
    end: Clock,
) -> Result<Option<usize>, AllocError>
    requires within { All IsWatched watches.old }
    requires few { length (R.state run.old).trail ≤ 32 }
    requires from { clock_of (R.state run.old).plain ≤ end }
    ensures ran { MatchResult result (RanToStop (stops_of watches.old) end (R.state run.old) (R.state run.new))
        (λ fault. RanShort (stops_of watches.old) end (R.state run.old) (R.state run.new)) }
    ensures rest { R.rest run.new ≡ R.rest run.old }
    ensures keeps { KeepsStops watches.old watches.new }
{
    copy_bytes(watches, run.now());
    let mut accesses = Accesses::new();
    let start = run.now().clock().get();
    let mut turn = Turn::none(run.now(), asked_by(watches));
    'turns: while run.now().clock() < end {
        let to = turn_end(turn.after.clock, start, end);
        let next = next_clock(turn.after.clock, to);
        let Ok(begun) = run.make_turn(next, to, &mut accesses, !turn.asked.wires) else {
            return Err(AllocError);
        };
        turn.next(begun, run.now());
        let number = found(watches, &turn, accesses.as_slice(), run.now());
        if number.is_some() {
            return Ok(number);
        }
    }
    Ok(None)
}

/// Searches a stretch for `back stop`: returns the last clock up to `to`, after the board's own, at which a stop is
/// met, with the least number of those that are; the board's own clock, too, if it is the session's first (`is_first`),
/// which no clock precedes.
pub(crate) fn last_met(
    board: &mut Board,
    watches: &mut [Watched],
    is_first: bool,
    to: Clock,
) -> Result<Option<(Clock, usize)>, DebugFault>
    requires within { All IsWatched watches.old }
    requires from { clock_of board.old.plain ≤ to }
    requires few { length board.old.trail ≤ 32 }
    ensures found { IfOk result
        (IsFoundIn (stops_of watches.old) is_first (to - clock_of board.old.plain) board.old.plain) }
    ensures fault { IfErr result LacksMemory }
    ensures keeps { KeepsStops watches.old watches.new }
{
    copy_bytes(watches, board);
    let mut accesses = Accesses::new();
    let mut here = standing(watches, board);
    let mut last = found_first(is_first, here, board.clock());
    let mut turn = Turn::none(board, asked_by(watches));
    'turns: while board.clock() < to {
        let next = next_clock(turn.after.clock, to);
        let Ok(begun) = board.run_turn(next, to, &mut accesses, !turn.asked.wires) else {
            return Err(DebugFault::Memory(None));
        };
        turn.next(begun, board);
        let clock = board.clock();
        let before_end = found_before(last, here, turn.before.clock, clock);
        let number = found(watches, &turn, accesses.as_slice(), board);
        last = found_at(before_end, number, clock);
        here = standing_now(number, watches, board);
    }
    Ok(last)
}

/// Returns what a search back has found as it begins: the stop `here` that holds, if the board stands at the session's
/// first clock, and else nothing yet.
fn found_first(is_first: bool, here: Option<usize>, clock: Clock) -> Option<(Clock, usize)>
    ensures { result ≡ (if is_first then found_at None here clock else None) }
{
    if is_first {
        found_at(None, here, clock)
    } else {
        None
    }
}

/// Returns what a search back has found up to the clock before a turn's end: if the turn is a leap, the stop `here`,
/// which holds at each clock that it passes.
fn found_before(
    last: Option<(Clock, usize)>,
    here: Option<usize>,
    start: u64,
    end: Clock,
) -> Option<(Clock, usize)>
    requires { start < end }
    ensures far { start + 1 < end → result ≡ found_at last here (end - 1) }
    ensures once { end ≡ start + 1 → result ≡ last }
{
    if end.get() == start + 1 {
        return last;
    }
    found_at(last, here, Clock::new(end.get() - 1).unwrap())
}

/// Returns the least number of a stop that holds as a condition after a turn of a search back: it then holds at each
/// clock of a leap that comes next. `number` is a stop that is met; without one none holds, and no look is needed.
fn standing_now(number: Option<usize>, watches: &[Watched], board: &Board) -> Option<usize>
    requires within { All IsWatched watches.now }
    requires none { number ≡ None → standing (stops_of watches.now) board.now.plain ≡ None }
    ensures { result ≡ standing (stops_of watches.now) board.now.plain }
{
    match number {
        None => None,
        Some(_) => standing(watches, board),
    }
}

/// Returns what a search back has found last: this stop at this clock, or, if there is none, what it found before.
fn found_at(
    last: Option<(Clock, usize)>,
    number: Option<usize>,
    clock: Clock,
) -> Option<(Clock, usize)>
    ensures { result ≡ found_at last number clock }
{
    match number {
        Some(number) => Some((clock, number)),
        None => last,
    }
}
