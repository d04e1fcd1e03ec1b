//! What a run goes on with, a turn at a time.
ghost use Rattle.std.specs.Prelude.{ℕ, ◌≡◌, ◌<◌, ◌≤◌, List, IfOk, OnErr, OnOk};
ghost use Rattle.board.specs.HeldBack.{IsHeldBack};
ghost use Rattle.board.specs.OneTurn.{IsOneTurn};
ghost use Rattle.board_plain.specs.Board.{BoardState};
ghost use Rattle.board_plain.specs.Plain.{clock_of};
ghost use Rattle.board_plain.specs.declared.stop.Condition.{Condition};
ghost use Rattle.debugger_meaning.specs.Stands.{Shown};
ghost use Rattle.events.specs.Accesses.{accesses_next};

use board::board::Board;
use board::one_turn::Begun;
use board_types::clock::Clock;
use debugger::session::Session;
use execute_noted::notes::Notes;
use std::alloc::AllocError;

/// A board that a run takes on a turn at a time: a session's own, or one by itself. `N` notes what its turns access.
pub(crate) trait Running<N: Notes> {
    ghost state: { Self → BoardState };

    // what a turn leaves as it was
    ghost Rest: { Type 0 };

    ghost rest: { Self → Rest };

    /// The board as it stands.
    fn now(&self) -> &Board
        ensures { result.now ≡ state self.now };

    /// Makes a turn, as `Board::run_turn` does. Refused, with nothing changed, if there is no memory.
    fn make_turn(
        &mut self,
        within: Clock,
        end: Clock,
        notes: &mut N,
        over_edges: bool,
    ) -> Result<Option<Begun>, AllocError>
        requires before { clock_of (state self.old).plain < within }
        requires order { within ≤ end }
        ensures ok { IfOk result (IsOneTurn over_edges within end (state self.old) (state self.new)) }
        ensures noted { OnOk result (N.are notes.new (accesses_next (state self.old).plain)) }
        ensures err { OnErr result (IsHeldBack (state self.old) (state self.new)) }
        ensures rest { rest self.new ≡ rest self.old };
}

impl<N: Notes> Running<N> for Session {
    ghost state = { λ s. s.board };

    ghost Rest = { Shown × List Condition };

    ghost rest = { λ s. (s.first, s.stops) };

    fn now(&self) -> &Board {
        self.board()
    }

    fn make_turn(
        &mut self,
        within: Clock,
        end: Clock,
        notes: &mut N,
        over_edges: bool,
    ) -> Result<Option<Begun>, AllocError> {
        match self.run_turn(within, end, notes, over_edges) {
            Ok(begun) => Ok(begun),
            Err(_) => Err(AllocError),
        }
    }
}

impl<N: Notes> Running<N> for Board {
    ghost state = { λ b. b };

    ghost Rest = { ℕ };

    ghost rest = { λ b. 0 };

    fn now(&self) -> &Board {
        self
    }

    fn make_turn(
        &mut self,
        within: Clock,
        end: Clock,
        notes: &mut N,
        over_edges: bool,
    ) -> Result<Option<Begun>, AllocError> {
        match self.run_turn(within, end, notes, over_edges) {
            Ok(begun) => Ok(begun),
            Err(_) => Err(AllocError),
        }
    }
}
