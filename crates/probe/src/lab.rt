//! A probe whose board can be changed as it stands: each change begins a session, and the ones before are kept.
ghost use Rattle.std.specs.Prelude.{◌≡◌, ◌+◌, ◌≤◌, ◌++◌, [], ◌∷◌, IfOk, MatchResult, length, true, false};
ghost use Rattle.std.specs.Result.{IfErr};
ghost use Rattle.std.specs.Vec.{vec_capacity};
ghost use Rattle.board_plain.specs.Trail.{last};
ghost use Rattle.debugger_meaning.specs.Stands.{Stands};
ghost use Rattle.probe.specs.Lab.{AnswersLab, belongs, earlier_with, HasNone, lab_about, RefusesSet, Sets, Undoes};
ghost use Rattle.probe.specs.Probe.{session_of};
ghost use Rattle.probe_texts.specs.Wishes.{HasPlaces};

use crate::probe::Probe;
use board::board::Board;
use debugger::session::Session;
use debugger_meaning::answer::Answer;
use debugger_meaning::fault::DebugFault;
use probe_texts::wishes::{Edit, Wish, read_wish};
use std::alloc::Global;
use std::marker::Model;

/// How many sessions before changes are kept at most.
const MOST: usize = 16;

/// A session of `pcprobe` with changes of its board.
#[derive(Drop)]
pub struct Lab {
    probe: Probe,
    /// The sessions before the last changes, the oldest first.
    earlier: Vec<Session>,
}

impl Model for Lab {
    ghost use Rattle.std.specs.Prelude.{◌≤◌, length};
    ghost use Rattle.probe.specs.Lab.{LabState};

    ghost Value = { LabState };

    ghost view = { λ l. record { now = l.probe; earlier = l.earlier.items } };

    ghost invariant = { λ l. length l.earlier.items ≤ 16 };
}

impl Lab {
    /// Begins a session of `pcprobe` about the board, as it stands, without stops. Refused as `Memory` if there is
    /// none; the board is dropped then.
    pub fn new(alloc: Global, board: Board) -> Result<Lab, DebugFault>
        ensures lab { IfOk result (λ lab. lab ≡ lab_about board) }
        ensures stands { IfOk result (λ lab. Stands (session_of lab.now)) }
        ensures fault { IfErr result (λ fault. fault ≡ DebugFault.Memory None) }
    {
        let probe = Probe::new(alloc, board)?;
        Ok(Lab {
            probe,
            earlier: Vec::new(alloc),
        })
    }

    /// Answers a typed line: changes the board, goes back to before a change, or does what a probe does.
    pub fn command(&mut self, alloc: Global, line: &str) -> Result<Answer, DebugFault>
        ensures { AnswersLab line.now self.old result self.new }
    {
        match read_wish(line) {
            Some(Wish::Set(edit)) => self.set(alloc, &edit),
            Some(Wish::Undo) => self.undo(),
            None => self.probe.command(alloc, line),
        }
    }

    /// Begins a session about the board as it stands, but for the change. The session before is kept, unless it began by
    /// a change at this very clock, to which this one is added. Refused as `NoCell` if a byte has no cell, and as
    /// `Memory`.
    fn set(&mut self, alloc: Global, edit: &Edit) -> Result<Answer, DebugFault>
        requires { HasPlaces edit.now }
        ensures { MatchResult result (Sets edit.now self.old self.new) (RefusesSet edit.now self.old self.new) }
    {
        if !self.probe.takes(edit) {
            return Err(DebugFault::NoCell);
        }
        let clock = self.probe.clock();
        if self.belongs() {
            self.probe.change(edit);
            return Ok(Answer::Clock(clock));
        }
        let session = self.probe.changed(alloc, edit)?;
        match self.earlier.try_reserve(1) {
            Ok(()) => {
                let left = self.probe.exchange(session);
                keep(&mut self.earlier, left);
                Ok(Answer::Clock(clock))
            }
            Err(_) => {
                drop(session);
                Err(DebugFault::Memory(None))
            }
        }
    }

    /// Whether a change now belongs to the one with which the session began.
    #[tactic(auto, unfolding(crate::specs::Lab::belongs))]
    fn belongs(&self) -> bool
        ensures { result ≡ belongs self.now }
    {
        1 <= self.earlier.len() && self.probe.clock() == self.probe.first_clock()
    }

    /// Goes back to the session before the last change. Refused as `BeforeStart` if none is kept.
    fn undo(&mut self) -> Result<Answer, DebugFault>
        ensures { MatchResult result (Undoes self.old self.new) (HasNone self.old self.new) }
    {
        match self.earlier.pop() {
            Some(session) => {
                drop(self.probe.exchange(session));
                Ok(Answer::Clock(self.probe.clock()))
            }
            None => Err(DebugFault::BeforeStart),
        }
    }
}

/// Keeps a session that gives place to another; of seventeen the oldest goes.
fn keep(earlier: &mut Vec<Session>, session: Session)
    requires room { length earlier.old.items + 1 ≤ vec_capacity earlier.old }
    requires few { length earlier.old.items ≤ 16 }
    ensures kept { earlier.new.items ≡ last 16 (earlier.old.items ++ session ∷ []) }
    ensures few { length earlier.new.items ≤ 16 }
{
    earlier.push_reserved(session);
    if earlier.len() > MOST {
        drop(earlier.remove(0));
    }
}
