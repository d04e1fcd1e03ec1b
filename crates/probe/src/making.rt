//! Runs of some clocks, whatever the stops are, of which a text is shown.
ghost use Rattle.std.specs.Prelude.{ℕ, ◌≡◌, ◌+◌, ◌≤◌, ◌++◌, IfOk, List, MatchResult, OnOk, Some, codes, length};
ghost use Rattle.std.specs.Fmt.{decimal};
ghost use Rattle.std.specs.String.{string_bytes};
ghost use Rattle.board_plain.specs.Board.{BoardState};
ghost use Rattle.board_plain.specs.Plain.{Plain, clock_of};
ghost use Rattle.debugger_meaning.specs.Session.{IsText};
ghost use Rattle.events.specs.Accesses.{accesses_next};
ghost use Rattle.probe.specs.Making.{HasMade, RefusesMaking};
ghost use Rattle.probe.specs.Seen.{IsLooked, IsMadeAfter};
ghost use Rattle.probe_texts.specs.declared.asked.Asked.{Asked};

use crate::seen::Turn;
use board::board::Board;
use board_types::clock::Clock;
use debugger::session::Session;
use debugger_meaning::answer::Answer;
use debugger_meaning::fault::DebugFault;
use execute_noted::notes::Notes;
use probe_texts::asked::Asked;
use std::alloc::{AllocError, Global};

/// What looks at each turn of a run, with its accesses as `N` notes them.
pub(crate) trait Visitor<N: Notes> {
    // how it looks, which stays
    ghost Manner: { Type 0 };

    ghost manner: { Self → Manner };

    ghost asks: { Manner → Asked };

    // it has seen the first clocks, so many, after a plain board
    ghost saw: { Self → Plain → ℕ → Type 0 };

    /// Which events it looks for: by them a run knows what it needs to see of each turn.
    fn asked(&self) -> Asked
        ensures { result ≡ asks (manner self.now) };

    /// Looks at one turn more, which led to this board. Refused if there is no memory for what it makes of it.
    fn see(&mut self, turn: &Turn, notes: &N, board: &Board) -> Result<(), AllocError>
        requires few { length board.now.trail ≤ 32 }
        requires looked { IsLooked turn.now board.now }
        requires asked { turn.now.asked ≡ asks (manner self.old) }
        requires so_far { (s : Plain) × (n : ℕ) × (old : BoardState)
            × saw self.old s n × IsMadeAfter turn.now s n old board.now }
        ensures saw { OnOk result ((s : Plain) (n : ℕ) (old : BoardState)
            → (after : IsMadeAfter turn.now s n old board.now) → N.are notes.now (accesses_next old.plain)
            → saw self.old s n → saw self.new s (n + after.made.one.passed)) }
        ensures manner { manner self.new ≡ manner self.old };
}

/// Runs a session for `count` clocks, whatever its stops are, with a visitor that looks at each turn. Returns the clock
/// that is reached. Refused as `ClockLimit`, with nothing changed, if it would go past the last clock, and as `Memory`,
/// with the clock that was reached, if there is none.
pub(crate) fn make<N: Notes, V: Visitor<N>>(
    session: &mut Session,
    count: u64,
    notes: &mut N,
    visitor: &mut V,
) -> Result<Clock, DebugFault>
    requires { V.saw visitor.old session.old.board.plain 0 }
    ensures made { MatchResult result
        (λ end. HasMade count session.old session.new end × V.saw visitor.new session.old.board.plain count)
        (RefusesMaking count session.old session.new) }
    ensures manner { V.manner visitor.new ≡ V.manner visitor.old }
{
    let start = session.board().clock();
    if Clock::LAST - start.get() < count {
        return Err(DebugFault::ClockLimit);
    }
    let end = Clock::new(start.get() + count).unwrap();
    let mut turn = Turn::none(session.board(), visitor.asked());
    'turns: while session.board().clock() < end {
        let begun = session.run_turn(end, end, notes, !turn.asked.wires)?;
        turn.next(begun, session.board());
        if visitor.see(&turn, notes, session.board()).is_err() {
            return Err(lacking(session));
        }
    }
    Ok(end)
}

/// The answer at a run's end: the text of it, unless there was no memory for that.
pub(crate) fn shown(
    session: &Session,
    text: Result<String, AllocError>,
) -> Result<Answer, DebugFault>
    ensures { (wanted : List ℕ) → IfOk text (λ t. string_bytes t ≡ wanted)
        → MatchResult result (IsText wanted)
        (λ fault. fault ≡ DebugFault.Memory (Some (clock_of session.now.board.plain))) }
{
    match text {
        Ok(text) => Ok(Answer::Text(text)),
        Err(_) => Err(lacking(session)),
    }
}

/// The refusal of an inquiry whose run or text finds no memory: `Memory`, with the clock that was reached.
pub(crate) fn lacking(session: &Session) -> DebugFault
    ensures { result ≡ DebugFault.Memory (Some (clock_of session.now.board.plain)) }
{
    DebugFault::Memory(Some(session.board().clock()))
}

/// Adds the line of the clock that is reached to a text, as `signals` and `events` end.
pub(crate) fn with_clock(alloc: Global, text: &str, clock: Clock) -> Result<String, AllocError>
    ensures { IfOk result (λ whole. string_bytes whole ≡ text.now ++ (codes "clock " ++ (decimal clock ++ codes "\n"))) }
{
    let clock = clock.get();
    format!(in alloc; "{text}clock {clock}\n")
}
