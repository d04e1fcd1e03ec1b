//! A board that runs turn by turn, with what begins in each.
ghost use Rattle.std.specs.Prelude.{◌≡◌, ◌<◌, ◌≤◌, IfOk, IfSome, OnErr, OnOk, map};
ghost use Rattle.std.specs.Option.{option_to_list};
ghost use Rattle.std.specs.Result.{IfErr};
ghost use Rattle.board_plain.specs.Plain.{clock_of};
ghost use Rattle.board_plain.specs.Trail.{entry_at, event_of};
ghost use Rattle.events.specs.Accesses.{accesses_next};
ghost use Rattle.board.specs.HeldBack.{IsHeldBack};
ghost use Rattle.board.specs.TrailState.{IsExact};
ghost use Rattle.board.specs.OneTurn.{IsOneTurn, begun_of};
ghost use Rattle.board.specs.Doings.{act_of, IsReadyToRun};

use crate::board::Board;
use crate::doing::Doing;
use crate::engine::Engine;
use board_plain::fault::BoardFault;
use board_types::clock::Clock;
use execute_noted::notes::Notes;
use std::alloc::Allocator;

/// What began at a clock: an instruction, or the entry of an interrupt, which has its type; CS:IP are then those that
/// the entry pushed.
#[derive(Clone, Copy, Debug, PartialEq, Eq)]
pub struct Begun {
    pub clock: Clock,
    pub cs: u16,
    pub ip: u16,
    /// The type of the interrupt that was entered.
    pub entered: Option<u8>,
}

impl Engine {
    /// What begins by this act, an instruction or the entry of an interrupt, as a turn answers it: as the trail has it,
    /// but without an instruction's bytes. `None` if nothing does.
    #[inline(always)]
    pub(crate) fn begins(&self, next: &Doing) -> Option<Begun>
        requires exact { IsExact self.now.cpu self.now.chips (act_of self.now.cpu self.now.chips next.now) }
        requires ready { IsReadyToRun self.now.cpu self.now.chips next.now }
        ensures begun { option_to_list result
            ≡ map begun_of (entry_at self.now (event_of self.now.cpu self.now.chips (act_of self.now.cpu self.now.chips next.now))) }
        ensures clock { IfSome result (λ begun. begun.clock ≡ clock_of self.now) }
    {
        match next {
            Doing::Request => Some(self.begun(Some(self.chips.requested_type()))),
            Doing::SingleStep => Some(self.begun(Some(1))),
            Doing::Instruction(slot) if slot.length > 0 => Some(self.begun(None)),
            // no row of the encoding table fits the bytes there, and the processor jams
            Doing::Instruction(_) => None,
            Doing::Nothing | Doing::Iteration => None,
        }
    }

    /// What begins at the present clock at CS:IP, for `begins`: the entry of an interrupt of the type `entered`, or an
    /// instruction if that is `None`.
    #[inline(always)]
    #[tactic(auto, unfolding(board_plain::specs::Plain::clock_of))]
    fn begun(&self, entered: Option<u8>) -> Begun
        ensures { result ≡ record {
          clock = clock_of self.now;
          cs = self.now.cpu.registers.cs;
          ip = self.now.cpu.registers.ip;
          entered = entered;
        } }
    {
        Begun {
            clock: self.chips.clock(),
            cs: self.cpu.cs(),
            ip: self.cpu.ip(),
            entered,
        }
    }
}

impl<A: Allocator> Board<A> {
    /// Makes one turn of a run to the clock `end`, for a probe that looks after each: an act, with those other clocks
    /// of its step that end by `within`, or a leap. Answers what begins. All happens in its first clock; only wires may
    /// change later, and only if `over_edges`. Refused as `Memory` as `run` is, with nothing changed.
    pub fn run_turn<N: Notes>(
        &mut self,
        within: Clock,
        end: Clock,
        notes: &mut N,
        over_edges: bool,
    ) -> Result<Option<Begun>, BoardFault>
        requires before { clock_of self.old.plain < within }
        requires order { within ≤ end }
        ensures ok { IfOk result (IsOneTurn over_edges within end self.old self.new) }
        ensures noted { OnOk result (N.are notes.new (accesses_next self.old.plain)) }
        ensures err { OnErr result (IsHeldBack self.old self.new) }
        ensures fault { IfErr result (λ fault. fault ≡ BoardFault.Memory) }
    {
        self.engine.look_ahead();
        let boundary = self.engine.boundary();
        let by = within.get();
        let to = end.get();
        self.turn_by::<Begun, N>(boundary, notes, over_edges, by, to)
    }
}
