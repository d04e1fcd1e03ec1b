//! Copies of a board at some of the clocks that a session passed, from which it goes back.
ghost use Rattle.std.specs.Prelude.{◌≡◌, ◌+◌, ◌<◌, ◌≤◌, [], All, Contains, IfOk, IfSome, IsTrue, length, take, None};
ghost use Rattle.std.specs.Result.{IfErr};
ghost use Rattle.board_plain.specs.Plain.{clock_of};
ghost use Rattle.debugger_meaning.specs.SessionInvariant.{AreKept};
ghost use Rattle.debugger_meaning.specs.Stands.{shown_of};
ghost use Rattle.debugger.specs.CopiesWithKey.{board_with, HaveKey};

use crate::typed::keys_with;
use board::board::Board;
use board_types::clock::Clock;
use board_types::keys::StampedKey;
use debugger_meaning::fault::DebugFault;
use std::alloc::{Allocator, Global};
use std::marker::Model;

/// How many copies are kept at most.
const MOST: usize = 8;

/// Two copies of a board are at least this many turns apart.
pub(crate) const FAR: u64 = 1 << 22;

/// A board with more changes of the speaker's level isn't kept, since each copy lists them all anew.
const MOST_CHANGES: usize = 1 << 20;

/// At most eight copies of a session's board, in the order of their clocks, from which it goes back without running
/// from its start. They are listed in memory of the allocator `A`.
#[derive(Drop)]
pub(crate) struct Checkpoints<A: Allocator> {
    kept: Vec<Board, A>,
}

impl<A: Allocator> Model for Checkpoints<A> {
    ghost use Rattle.std.specs.Prelude.{List, ◌≤◌, length};
    ghost use Rattle.board_plain.specs.Board.{BoardState};

    ghost Value = { List BoardState };

    ghost view = { λ c. c.kept.items };

    ghost invariant = { λ c. length c.kept.items ≤ 8 };
}

impl<A: Allocator> Checkpoints<A> {
    /// Makes an empty list, for a session that begins.
    pub(crate) fn new(alloc: A) -> Checkpoints<A>
        ensures { result ≡ [] }
    {
        Checkpoints {
            kept: Vec::new(alloc),
        }
    }

    /// How many copies are kept.
    pub(crate) fn len(&self) -> usize
        ensures { result ≤ 8 }
    {
        self.kept.len()
    }

    /// The latest copy at or before a clock, from which a way back to the clock starts; `None` if there is no such
    /// copy.
    pub(crate) fn latest(&self, clock: u64) -> Option<&Board>
        ensures { IfSome result (λ board. Contains self.now board.now × (clock_of board.now.plain ≤ clock)) }
    {
        let place = place_after(&self.kept, clock);
        if place == 0 {
            return None;
        }
        Some(&self.kept[place - 1])
    }

    /// Keeps a copy of the board, as it runs, to go back from, if the latest one, or the session's first board, is far
    /// away in turns, the speaker's changes aren't too many, and there is memory for it. Of nine copies the one that would
    /// be missed least goes.
    pub(crate) fn keep(&mut self, first: &Board, board: &Board)
        ensures { AreKept self.old board.now self.new }
    {
        let now = board.clock().get();
        let place = place_after(&self.kept, now);
        if !is_worth_keeping(&self.kept, place, first, board) {
            return;
        }
        if self.kept.try_reserve(1).is_err() {
            return;
        }
        let Ok(copy) = copy_of(board) else {
            return;
        };
        drop(self.kept.insert(place, copy));
        if self.kept.len() > MOST {
            let thinnest = thinnest(&self.kept, first.clock().get(), now);
            drop(self.kept.remove(thinnest));
        }
    }

    /// Drops all copies, since the board that they are copies of has changed.
    pub(crate) fn clear(&mut self)
        ensures { self.new ≡ [] }
    {
        self.kept.clear();
    }

    /// Gives a typed key to the copies that stand before its stamp, since ways back must find it there. The others are
    /// dropped, as they ran without it, and so are those for whose keys there is no memory.
    pub(crate) fn take_key(&mut self, alloc: Global, key: &StampedKey)
        ensures { HaveKey key.now self.old self.new }
    {
        give_key(&mut self.kept, alloc, key);
    }
}

/// Copies a board with its lists, to be kept or to run a way back from. Refused as `Memory` if there is none.
pub(crate) fn copy_of(board: &Board) -> Result<Board, DebugFault>
    ensures same { IfOk result (λ copy. shown_of copy ≡ shown_of board.now) }
    ensures few { length board.now.trail ≤ 32 }
    ensures fault { IfErr result (λ fault. fault ≡ DebugFault.Memory None) }
{
    match board.copy() {
        Ok(copy) => Ok(copy),
        Err(_) => Err(DebugFault::Memory(None)),
    }
}

/// Gives a typed key to the boards that stand before its stamp, and drops the others, and those for whose keys there is
/// no memory.
fn give_key<A: Allocator>(boards: &mut Vec<Board, A>, alloc: Global, key: &StampedKey)
    ensures have { HaveKey key.now boards.old.items boards.new.items }
    ensures fewer { length boards.new.items ≤ length boards.old.items }
{
    let mut index = boards.len();
    while index > 0 {
        index -= 1;
        if takes_key(&mut boards[index], alloc, key) {
            continue;
        }
        drop(boards.remove(index));
    }
}

/// Gives a typed key to a kept copy, if that stands before its stamp and there is memory for its keys. Returns whether
/// it did; else the copy has to go.
#[tactic(auto, unfolding(events::specs::WithKey::with_key))]
fn takes_key(board: &mut Board, alloc: Global, key: &StampedKey) -> bool
    ensures early { IsTrue result → clock_of board.old.plain < key.now.stamp }
    ensures key { IsTrue result → board.new ≡ board_with board.old key.now }
{
    if board.clock() >= key.stamp {
        return false;
    }
    match keys_with(alloc, board, key) {
        Ok(keys) => {
            board.take_keys(keys);
            true
        }
        Err(_) => false,
    }
}

/// Returns how many of the kept copies stand at or before a clock: the index at which a copy of that clock is inserted.
/// They are in the order of their clocks.
fn place_after(kept: &[Board], clock: u64) -> usize
    ensures within { result ≤ length kept.now }
    ensures before { All (λ board. clock_of board.plain ≤ clock) (take result kept.now) }
{
    for index in 0..kept.len() {
        if clock < kept[index].clock().get() {
            return index;
        }
    }
    kept.len()
}

/// Whether a copy of a board is worth its memory, at the index `place` of the list: its list of the speaker's changes
/// isn't too long, and the copy before, or else the session's first board, is far away in turns.
fn is_worth_keeping(kept: &[Board], place: usize, first: &Board, board: &Board) -> bool
    requires { place ≤ length kept.now }
{
    if board.speaker_changes().len() > MOST_CHANGES {
        return false;
    }
    let before = if place == 0 { first } else { &kept[place - 1] };
    FAR <= board.turns().saturating_sub(before.turns())
}

/// Returns the index of the copy to drop when there are too many: the last one if it stands after the present clock,
/// since no way back leads there; else, the last one aside, the one whose neighbours are closest together, compared
/// with how long ago the earlier of them was. The first one's neighbour is the session's first clock.
fn thinnest(kept: &[Board], first: u64, now: u64) -> usize
    requires { 1 ≤ length kept.now }
    ensures { result < length kept.now }
{
    let last = kept.len() - 1;
    if now < kept[last].clock().get() {
        return last;
    }
    let mut best = 0;
    let mut best_gap = 0u64;
    let mut best_age = 0u64;
    for index in 0..last {
        let before = if index == 0 {
            first
        } else {
            kept[index - 1].clock().get()
        };
        // clocks have 40 bits, so products of these have 62
        let gap = kept[index + 1].clock().get().saturating_sub(before) >> 9;
        let age = now.saturating_sub(before) >> 9;
        if index == 0 || gap.saturating_mul(best_age) < best_gap.saturating_mul(age) {
            best = index;
            best_gap = gap;
            best_age = age;
        }
    }
    best
}
