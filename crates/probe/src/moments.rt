//! How runs end with one more key, or two, for each clock at which the first could come.
ghost use Rattle.std.specs.Prelude.{ℕ, ◌≡◌, ◌+◌, ◌-◌, ◌<◌, ◌≤◌, ◌^◌, ◌++◌, ◌∷◌, [], All, IfOk, MatchResult, OnOk, true, length, min, max, nat_le};
ghost use Rattle.std.specs.List.{flat_map};
ghost use Rattle.std.specs.Result.{IfErr};
ghost use Rattle.board_plain.specs.Plain.{Plain, clock_of};
ghost use Rattle.debugger_meaning.specs.SessionInvariant.{LacksMemory};
ghost use Rattle.events.specs.WithKey.{with_key};
ghost use Rattle.probe.specs.Moments.{AnswersTrial, AreRanges, CanBeTried, CannotBeTried, names_keys, span_of, with_tried};
ghost use Rattle.probe_texts.specs.Requests.{IsRising};
ghost use Rattle.probe.specs.ProbeStops.{IsEndOf};
ghost use Rattle.probe.specs.Tried.{RunsTo, Tried, TriedNext, added, ends_of, ends_with, joined, moments_of};
ghost use Rattle.probe.specs.Watched.{IsWatched, KeepsStops, all_standing, stops_of};

use crate::looking::run_to_stop;
use crate::watched::{Watched, all_stand, conditions_of};
use board::board::Board;
use board_plain::stop::{Stop, Stopped};
use board_types::clock::Clock;
use board_types::keys::{StampedKey, is_scan_code};
use debugger_meaning::answer::Answer;
use debugger_meaning::fault::DebugFault;
use probe_texts::moments_text::{Ends, Moments, Second, Trial, moments_text};
use std::alloc::{AllocError, Global};

/// Answers the line `moments`: how runs from the board's clock end with the trial's keys, for each clock of the first.
/// Refused in this order: as `ClockLimit` if the last clock of a key, or the end of the run, is past the last clock there
/// is; as `BadScan` if no key sends a code; as `StampsFall` if the first clock isn't later than the board's; as `Memory`
/// if there is none.
pub(crate) fn tell_moments(
    board: &Board,
    alloc: Global,
    watches: &mut [Watched],
    trial: Trial,
) -> Result<Answer, DebugFault>
    requires rising { IsRising trial }
    requires within { All IsWatched watches.old }
    requires few { length (stops_of watches.old) ≤ 16 }
    ensures answers { AnswersTrial (stops_of watches.old) board.now.plain trial result }
    ensures keeps { KeepsStops watches.old watches.new }
{
    let end = end_of(board.clock(), trial)?;
    let ranges = try_key(board, alloc, watches, trial, end)?;
    Ok(Answer::Text(moments_text(alloc, ranges.as_slice())?))
}

/// Returns the clock up to which the runs of a trial go, if the key can be tried; otherwise refuses the trial, as
/// `tell_moments` says.
fn end_of(clock: Clock, trial: Trial) -> Result<Clock, DebugFault>
    ensures { MatchResult result (λ end. (end ≡ clock + trial.count) × CanBeTried clock trial) (CannotBeTried clock trial) }
{
    if !is_within(trial.last, span_of(&trial.second)) || Clock::LAST - clock.get() < trial.count {
        return Err(DebugFault::ClockLimit);
    }
    if !names_keys(&trial) {
        return Err(DebugFault::BadScan);
    }
    if trial.first <= clock.get() {
        return Err(DebugFault::StampsFall);
    }
    Ok(Clock::new(clock.get() + trial.count).unwrap())
}

/// Whether there is a clock so many clocks after another.
fn is_within(last: u64, span: u64) -> bool
    ensures { result ≡ nat_le (last + span) (2 ^ 40) }
{
    last <= Clock::LAST && span <= Clock::LAST - last
}

/// How many clocks after a trial's first key its last one comes.
fn span_of(second: &Option<Second>) -> u64
    ensures { result ≡ span_of second.now }
{
    match second {
        Some(second) => second.after,
        None => 0,
    }
}

/// Whether each code of a trial is one that a key sends.
fn names_keys(trial: &Trial) -> bool
    ensures { result ≡ names_keys trial.now }
{
    if !is_scan_code(trial.code) {
        return false;
    }
    match &trial.second {
        Some(second) => is_scan_code(second.code),
        None => true,
    }
}

/// Tries the key at one clock of the trial after another, each in a run of a copy of the board. Returns the ranges of
/// clocks with which the runs end alike.
fn try_key(
    board: &Board,
    alloc: Global,
    watches: &mut [Watched],
    trial: Trial,
    end: Clock,
) -> Result<Vec<Moments>, DebugFault>
    requires rising { IsRising trial }
    requires can { CanBeTried (clock_of board.now.plain) trial }
    requires end { end ≡ clock_of board.now.plain + trial.count }
    requires within { All IsWatched watches.old }
    requires few { length (stops_of watches.old) ≤ 16 }
    ensures ranges { IfOk result (λ ranges.
        AreRanges (stops_of watches.old) board.now.plain trial trial.first trial.last ranges.items) }
    ensures fault { IfErr result LacksMemory }
    ensures keeps { KeepsStops watches.old watches.new }
{
    let mut ranges = Vec::new(alloc);
    // the board without the key, at the clock before each at which the key is tried
    let mut bare = copy_of(board)?;
    'stamps: for stamp in trial.first..trial.last + 1 {
        if try_at(&mut bare, alloc, watches, trial, end, stamp, &mut ranges)? {
            return Ok(ranges);
        }
    }
    Ok(ranges)
}

/// Tries the key at one clock, the stamp, and adds how that run ends to the ranges: `bare`, the board without the key,
/// first runs to the clock before it. Returns whether all ranges are known: if that run has ended, a key at this stamp
/// or later changes nothing.
fn try_at(
    bare: &mut Board,
    alloc: Global,
    watches: &mut [Watched],
    trial: Trial,
    end: Clock,
    stamp: u64,
    ranges: &mut Vec<Moments>,
) -> Result<bool, DebugFault>
    requires start { 1 ≤ stamp }
    requires first { trial.first ≤ stamp }
    requires last { stamp ≤ trial.last }
    requires limit { stamp + span_of trial.second ≤ 2 ^ 40 }
    requires before { clock_of bare.old.plain < stamp }
    requires in_time { clock_of bare.old.plain ≤ end }
    requires trail { length bare.old.trail ≤ 32 }
    requires within { All IsWatched watches.old }
    requires few { length (stops_of watches.old) ≤ 16 }
    ensures tried { IfOk result (λ known. (s : Plain) → end ≡ clock_of s + trial.count
        → Tried (stops_of watches.old) s bare.old.plain trial end stamp ranges.old.items watches.old
        → TriedNext known (stops_of watches.old) s bare.new.plain trial end stamp ranges.new.items watches.new) }
    ensures trail { IfOk result (λ known. length bare.new.trail ≤ 32) }
    ensures fault { IfErr result LacksMemory }
    ensures keeps { KeepsStops watches.old watches.new }
{
    let before = clock_before(stamp, end);
    let stopped = run(bare, watches, before)?;
    if stopped.is_some() || before == end {
        add(ranges, stamp, trial.last, &stopped)?;
        return Ok(true);
    }
    let mut tried = copy_with(bare, alloc, trial, stamp)?;
    let stopped = run(&mut tried, watches, end)?;
    // while the copy still exists, so that its memory isn't given back only to be asked for again
    add(ranges, stamp, stamp, &stopped)?;
    drop(tried);
    Ok(false)
}

/// Returns the clock before a stamp, up to which the board runs without the key, but at most the run's `end`.
fn clock_before(stamp: u64, end: Clock) -> Clock
    requires { 1 ≤ stamp }
    ensures { result ≡ min (stamp - 1) end }
{
    if stamp - 1 < end.get() {
        Clock::new(stamp - 1).unwrap()
    } else {
        end
    }
}

/// Copies a board with the trial's keys, to run it with them: the first comes at the stamp.
fn copy_with(board: &Board, alloc: Global, trial: Trial, stamp: u64) -> Result<Board, DebugFault>
    requires limit { stamp + span_of trial.second ≤ 2 ^ 40 }
    ensures plain { IfOk result (λ copy. copy.plain ≡ with_tried board.now.plain trial stamp) }
    ensures few { IfOk result (λ copy. length copy.trail ≤ 32) }
    ensures fault { IfErr result LacksMemory }
{
    let mut copy = copy_of(board)?;
    put_key(&mut copy, alloc, trial.code, stamp)?;
    if let Some(second) = trial.second {
        put_key(&mut copy, alloc, second.code, stamp + second.after)?;
    }
    Ok(copy)
}

/// Gives a board one key more, which comes at a clock. Refused as `Memory` if there is none.
fn put_key(board: &mut Board, alloc: Global, code: u8, stamp: u64) -> Result<(), DebugFault>
    requires limit { stamp ≤ 2 ^ 40 }
    ensures plain { OnOk result
        (board.new ≡ record board.old { plain = with_key board.old.plain (record { stamp = stamp; code = code }) }) }
    ensures fault { IfErr result LacksMemory }
{
    let stamp = Clock::new(stamp).unwrap();
    let Ok(keys) = board.keys_with(alloc, StampedKey { stamp, code }) else {
        return Err(DebugFault::Memory(None));
    };
    board.take_keys(keys);
    Ok(())
}

/// Copies a board, so that a trial leaves the session's own as it is. Refused as `Memory` if there is none.
fn copy_of(board: &Board) -> Result<Board, DebugFault>
    ensures plain { IfOk result (λ copy. copy.plain ≡ board.now.plain) }
    ensures few { IfOk result (λ copy. length copy.trail ≤ 32) }
    ensures fault { IfErr result LacksMemory }
{
    match board.copy() {
        Ok(copy) => Ok(copy),
        Err(_) => Err(DebugFault::Memory(None)),
    }
}

/// Makes one run of a trial: to the clock `end`, or up to the first clock after the start at which a stop is met,
/// `None` if none was.
fn run(board: &mut Board, watches: &mut [Watched], end: Clock) -> Result<Stopped, DebugFault>
    requires from { clock_of board.old.plain ≤ end }
    requires trail { length board.old.trail ≤ 32 }
    requires within { All IsWatched watches.old }
    requires few { length (stops_of watches.old) ≤ 16 }
    ensures runs { IfOk result (RunsTo (stops_of watches.old) end board.old.plain board.new.plain) }
    ensures trail { IfOk result (λ stopped. length board.new.trail ≤ 32) }
    ensures fault { IfErr result LacksMemory }
    ensures keeps { KeepsStops watches.old watches.new }
{
    if all_stand(watches) {
        return run_standing(board, watches, end);
    }
    match run_to_stop(board, watches, end)? {
        Some(number) => Ok(Some(Stop {
            number,
            clock: board.clock(),
        })),
        None => Ok(None),
    }
}

/// Makes a run of a trial whose stops are all conditions, by the board's own search, which is faster.
fn run_standing(board: &mut Board, watches: &[Watched], end: Clock) -> Result<Stopped, DebugFault>
    requires from { clock_of board.old.plain ≤ end }
    requires within { All IsWatched watches.now }
    requires few { length (stops_of watches.now) ≤ 16 }
    requires stand { all_standing watches.now ≡ true }
    ensures runs { IfOk result (RunsTo (stops_of watches.now) end board.old.plain board.new.plain) }
    ensures trail { IfOk result (λ stopped. length board.new.trail ≤ 32) }
    ensures fault { IfErr result LacksMemory }
{
    let count = end.get() - board.clock().get();
    match board.run_until(count, &conditions_of(watches)) {
        Ok(stopped) => Ok(stopped),
        Err(_) => Err(DebugFault::Memory(None)),
    }
}

/// Adds the clocks from `first` to `last` of the key, with which runs end as `stopped` says, to the ranges: to the last
/// range if its runs end at the same stop.
fn add(
    ranges: &mut Vec<Moments>,
    first: u64,
    last: u64,
    stopped: &Stopped,
) -> Result<(), AllocError>
    ensures { OnOk result (ranges.new.items ≡ added ranges.old.items first last stopped.now) }
{
    let coming = moments_of(first, last, stopped);
    match ranges.pop() {
        None => push(ranges, &coming),
        Some(range) => push_joined(ranges, &range, &coming, stopped),
    }
}

/// Puts the last range back on the list, widened by the clocks that come after it if their runs end at the same stop,
/// or else followed by them as a range of their own.
fn push_joined(
    ranges: &mut Vec<Moments>,
    range: &Moments,
    coming: &Moments,
    stopped: &Stopped,
) -> Result<(), AllocError>
    ensures { OnOk result
        (ranges.new.items ≡ ranges.old.items ++ joined range.now coming.now (ends_with range.now.ends stopped.now)) }
{
    match ends_with(&range.ends, stopped) {
        Some(ends) => {
            let joined = with_ends(range, coming.last, ends);
            push(ranges, &joined)
        }
        None => {
            push(ranges, range)?;
            push(ranges, coming)
        }
    }
}

/// Returns a range that goes on to a later clock, with the ends of all its runs, when the next clock's run has ended at
/// the same stop.
fn with_ends(range: &Moments, last: u64, ends: Option<Ends>) -> Moments
    ensures { result ≡ record range.now { last = last; ends = ends } }
{
    let first = range.first;
    Moments { first, last, ends }
}

/// Adds a range to the list of a trial's ranges.
fn push(ranges: &mut Vec<Moments>, range: &Moments) -> Result<(), AllocError>
    ensures { OnOk result (ranges.new.items ≡ ranges.old.items ++ range.now ∷ []) }
{
    let one = [*range];
    ranges.extend_from_slice(&one)?;
    Ok(())
}

/// Makes a range of the clocks from `first` to `last`, with which runs end as `stopped` says.
fn moments_of(first: u64, last: u64, stopped: &Stopped) -> Moments
    ensures { result ≡ moments_of first last stopped.now }
{
    Moments {
        first,
        last,
        ends: ends_of(stopped),
    }
}

/// Returns how runs of a new range end, the first of them as `stopped` says: the stop, and its clock as the least and
/// the greatest.
fn ends_of(stopped: &Stopped) -> Option<Ends>
    ensures { result ≡ ends_of stopped.now }
{
    match stopped {
        Some(stop) => Some(Ends {
            number: stop.number,
            least: stop.clock,
            greatest: stop.clock,
        }),
        None => None,
    }
}

/// Returns the ends of a range's runs and of one more, if that ends at their stop, or, as they do, at none; the outer
/// `None` if it doesn't, and a new range has to begin.
fn ends_with(ends: &Option<Ends>, stopped: &Stopped) -> Option<Option<Ends>>
    ensures { result ≡ ends_with ends.now stopped.now }
{
    match (ends, stopped) {
        (None, None) => Some(None),
        (Some(ends), Some(stop)) => {
            if ends.number != stop.number {
                return None;
            }
            Some(Some(Ends {
                number: ends.number,
                least: ends.least.min(stop.clock),
                greatest: ends.greatest.max(stop.clock),
            }))
        }
        (None, Some(_)) | (Some(_), None) => None,
    }
}
