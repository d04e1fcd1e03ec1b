//! What is seen of a board before and after a turn, by which its events are told.
ghost use Rattle.std.specs.Prelude.{◌≡◌, ◌≤◌, length};
ghost use Rattle.board_plain.specs.Plain.{Plain, clock_of};
ghost use Rattle.probe.specs.Seen.{levels_seen, next_turn, seen_of, waiting_seen};

use crate::levels::levels_of;
use board::board::Board;
use board::one_turn::Begun;
use board_types::state::State;
use keyboard::keyboard::Keyboard;
use probe_texts::asked::Asked;
use probe_texts::telling::Levels;

/// What is seen of a board between two turns: its clock, the processor's state, how many codes wait, and the wires; the
/// last two only if they are asked for.
#[derive(Clone, Copy)]
pub(crate) struct Seen {
    pub(crate) clock: u64,
    pub(crate) state: State,
    pub(crate) waiting: usize,
    pub(crate) levels: Option<Levels>,
}

/// A turn that a board has made: what is asked for, what was seen before it, what began in it, and what is seen at its
/// end.
#[derive(Clone, Copy)]
pub(crate) struct Turn {
    pub(crate) asked: Asked,
    pub(crate) before: Seen,
    pub(crate) begun: Option<Begun>,
    pub(crate) after: Seen,
}

impl Turn {
    /// Looks at a board before the first turn of a run, for the events that are asked for.
    #[inline(always)]
    pub(crate) fn none(board: &Board, asked: Asked) -> Turn
        ensures asked { result.asked ≡ asked }
        ensures seen { result.after ≡ seen_of asked board.now.plain }
        ensures before { result.before ≡ result.after }
        ensures clock { result.after.clock ≡ clock_of board.now.plain }
        ensures room { result.after.waiting ≤ 16 }
    {
        let after = seen_of(board, asked);
        Turn {
            asked,
            before: after,
            begun: None,
            after,
        }
    }

    /// Looks at a board that has made a turn more, in which this began. It stood before that turn as it was seen last.
    /// In place, since a run makes many turns: what isn't asked for stays as it is.
    #[inline(always)]
    pub(crate) fn next(&mut self, begun: Option<Begun>, board: &Board)
        requires { (r : Plain) × (s : Plain) × (self.old.before ≡ seen_of self.old.asked r)
            × (self.old.after ≡ seen_of self.old.asked s) }
        ensures turn { self.new ≡ next_turn self.old begun board.now.plain }
        ensures clock { self.new.after.clock ≡ clock_of board.now.plain }
        ensures room { self.new.after.waiting ≤ 16 }
    {
        self.begun = begun;
        self.before.clock = self.after.clock;
        self.after.clock = board.clock().get();
        self.before.state = self.after.state;
        self.after.state = board.state();
        if self.asked.keys {
            self.before.waiting = self.after.waiting;
            self.after.waiting = waiting_of(board.keyboard());
        }
        if self.asked.wires {
            self.before.levels = self.after.levels;
            self.after.levels = Some(levels_of(board));
        }
    }
}

/// Looks at a board before a run's first turn, at wires and keys only if they are asked for.
#[inline(always)]
#[tactic(auto, unfolding(crate::specs::Seen::seen_of))]
fn seen_of(board: &Board, asked: Asked) -> Seen
    ensures seen { result ≡ seen_of asked board.now.plain }
    ensures clock { result.clock ≡ clock_of board.now.plain }
    ensures room { result.waiting ≤ 16 }
{
    Seen {
        clock: board.clock().get(),
        state: board.state(),
        waiting: waiting_seen(board, asked.keys),
        levels: levels_seen(board, asked.wires),
    }
}

/// Returns how many codes wait in the keyboard if keys are asked for, else 0 without a look.
#[inline(always)]
fn waiting_seen(board: &Board, keys: bool) -> usize
    ensures waiting { result ≡ waiting_seen keys board.now.plain }
    ensures room { result ≤ 16 }
{
    if keys {
        waiting_of(board.keyboard())
    } else {
        0
    }
}

/// Returns how many codes wait in the keyboard, by which arrivals, losses and latching are told apart.
fn waiting_of(keyboard: &Keyboard) -> usize
    ensures count { result ≡ length keyboard.now.waiting }
    ensures few { result ≤ 16 }
{
    let mut count = 0;
    while keyboard.waiting(count).is_some() {
        count += 1;
    }
    count
}

/// Returns the levels of the wires if they are asked for, else `None` without a look.
#[inline(always)]
fn levels_seen(board: &Board, wires: bool) -> Option<Levels>
    ensures { result ≡ levels_seen wires board.now.plain }
{
    if wires { Some(levels_of(board)) } else { None }
}
