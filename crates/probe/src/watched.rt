//! Stops, each with a copy of the bytes whose changes it waits for.
ghost use Rattle.std.specs.Prelude.{◌≡◌, ◌≤◌, All, IfOk, IsTrue, OnErr, length};
ghost use Rattle.probe.specs.Probe.{conditions_of};
ghost use Rattle.probe_texts.specs.Requests.{HasBytes, asks_changes};
ghost use Rattle.probe.specs.Watched.{all_standing, AreCopies, IsWatched, KeepsStops, StaysCopied, stops_of};

use crate::bytes::Copied;
use arrayvec::ArrayVec;
use board::board::Board;
use board_plain::stop::Stops as Conditions;
use events::access::Access;
use probe_texts::stops::{Stop, is_standing};
use std::alloc::{AllocError, Global};
use std::default::MadeWith;

/// A stop with a copy of the bytes whose changes it waits for, as they were a clock ago.
#[derive(Drop)]
pub(crate) struct Watched {
    pub(crate) stop: Stop,
    pub(crate) copied: Copied,
}

impl MadeWith<Global> for Watched {
    /// Returns what stands at the places of an `ArrayVec` that hold no stop yet, with no bytes copied.
    fn made_with(alloc: Global) -> Watched {
        Watched {
            stop: Stop::default(),
            copied: Copied::none(alloc),
        }
    }
}

/// The stops of a probe, at most sixteen, numbered from 1.
pub(crate) type Watches = ArrayVec<Watched, 16, Global>;

/// Makes room for a copy of the bytes whose changes a stop waits for, before the stop is added, so that no run has to
/// ask for memory.
pub(crate) fn with_room(alloc: Global, stop: Stop) -> Result<Watched, AllocError>
    requires { HasBytes stop }
    ensures stop { IfOk result (λ watched. watched.stop ≡ stop) }
    ensures watched { IfOk result IsWatched }
    ensures changes { OnErr result (IsTrue (asks_changes stop)) }
{
    match Copied::new(alloc, &stop) {
        Ok(copied) => Ok(Watched { stop, copied }),
        Err(fault) => Err(fault),
    }
}

/// Whether all stops are conditions: the board's own search, which is faster, finds them then.
pub(crate) fn all_stand(watches: &[Watched]) -> bool
    ensures { result ≡ all_standing watches.now }
{
    watches.iter().all(|watched| is_standing(&watched.stop))
}

/// Returns the conditions among the stops, in order, as the stops of the board's own search; the others are left out.
pub(crate) fn conditions_of(watches: &[Watched]) -> Conditions
    requires few { length (stops_of watches.now) ≤ 16 }
    ensures { result.items ≡ conditions_of (stops_of watches.now) }
{
    let mut conditions = Conditions::new();
    for watched in watches {
        if let Stop::Standing(condition) = &watched.stop {
            conditions.push(*condition);
        }
    }
    conditions
}

/// Copies the bytes of all stops on changes anew, when a run or a search begins.
pub(crate) fn copy_bytes(watches: &mut [Watched], board: &Board)
    requires { All IsWatched watches.old }
    ensures keeps { KeepsStops watches.old watches.new }
    ensures copies { AreCopies watches.new board.now.plain }
{
    for index in 0..watches.len() {
        watches[index].copied.copy(board);
    }
}

/// For each stop, brings its copy of bytes up to date with what `accesses`, those of the clock just made, wrote; the
/// next clock's check compares with it.
pub(crate) fn renew_bytes(watches: &mut [Watched], accesses: &[Access], board: &Board)
    requires { All IsWatched watches.old }
    ensures keeps { KeepsStops watches.old watches.new }
    ensures copies { StaysCopied accesses.now board.now.plain watches.old watches.new }
{
    for index in 0..watches.len() {
        watches[index].copied.renew(accesses, board);
    }
}
