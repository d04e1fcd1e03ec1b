//! A session: a board and its stops, and what commands do to them.
ghost use Rattle.std.specs.Prelude.{◌≡◌, ◌+◌, ◌-◌, ◌<◌, ◌≤◌, ◌^◌, [], ◌∷◌, All, IfOk, OnErr, OnOk, MatchResult, None, Some, length};
ghost use Rattle.std.specs.Result.{IfErr};
ghost use Rattle.std.specs.List.{flat_map};
ghost use Rattle.board.specs.HeldBack.{IsHeldBack};
ghost use Rattle.board.specs.OneTurn.{IsOneTurn};
ghost use Rattle.events.specs.Accesses.{accesses_next};
ghost use Rattle.board_plain.specs.Board.{Ran};
ghost use Rattle.board_plain.specs.Changes.{HasPlace, changed};
ghost use Rattle.board_plain.specs.Lasts.{HeldLast, IsLastOf};
ghost use Rattle.board_plain.specs.Plain.{clock_of, registers_of, screen_of};
ghost use Rattle.board_plain.specs.Stops.{HasAddress};
ghost use Rattle.board_plain.specs.declared.stop.Condition.TheVariants.{Free};
ghost use Rattle.debugger_meaning.specs.declared.answer.Answer.TheVariants as answers;
ghost use Rattle.board_lines.specs.Text.{register_lines};
ghost use Rattle.debugger_meaning.specs.Back.{GoesBack, GoesBackTo, RefusesBack, RefusesBackTo, tell_clock};
ghost use Rattle.debugger_meaning.specs.Commands.{IsWithin, command_of};
ghost use Rattle.debugger_meaning.specs.Dump.{dump_text};
ghost use Rattle.debugger_meaning.specs.SessionInvariant.{FindsNone, LacksMemory, StandsNow};
ghost use Rattle.debugger_meaning.specs.Session.{Answers, AnswersLine, AnswersStop, Goes, RefusesGo, RefusesRun, RefusesStep, Runs, Shows, Steps};
ghost use Rattle.debugger_meaning.specs.Stands.{Stands, StandsAfter, gone, session_about, shown_of};
ghost use Rattle.debugger_meaning.specs.TrailText.{entry_line};

use crate::checkpoints::{Checkpoints, FAR, copy_of};
use crate::dump::dump_text;
use crate::trail_text::trail_text;
use board::board::Board;
use board::one_turn::Begun;
use board_lines::lines::register_lines;
use board_plain::change::Change;
use board_plain::fault::BoardFault;
use board_plain::stop::{Condition, Stopped, Stops};
use board_types::clock::Clock;
use debugger_meaning::answer::Answer;
use debugger_meaning::command::{Command, read_command};
use debugger_meaning::fault::DebugFault;
use execute_noted::notes::Notes;
use std::alloc::{Allocator, Global};
use std::marker::Model;
use std::mem;

/// A run by `go` is made in pieces of this many clocks; after each, a copy of the board may be kept to go back from.
const PIECE: u64 = 1 << 26;

/// `back step` looks for a free processor first in this many clocks before the present one: no instruction takes half
/// as many.
const NEAR: u64 = 1024;

/// A debugger's session: a board that runs, stops and goes back by commands. Copies of it, to go back from, are listed
/// in memory of the allocator `A`.
#[derive(Drop)]
pub struct Session<A: Allocator = Global> {
    /// The board with which the session began, before which no way back leads.
    pub(crate) first: Board,
    /// The board as it stands.
    pub(crate) board: Board,
    /// Copies of the board at earlier clocks, from which ways back run on.
    pub(crate) checkpoints: Checkpoints<A>,
    /// The conditions at which `go` stops, and to which `back stop` goes back.
    stops: Stops,
}

impl<A: Allocator> Model for Session<A> {
    ghost use Rattle.debugger_meaning.specs.SessionInvariant.{IsSession};
    ghost use Rattle.debugger_meaning.specs.Stands.{SessionState, shown_of};

    ghost Value = { SessionState };

    ghost view = { λ s. record { first = shown_of s.first; board = s.board; stops = s.stops.items } };

    ghost invariant = { λ s. IsSession s.first s.board s.checkpoints s.stops.items };
}

impl Session {
    /// Begins a debugger's session with this board, as it stands, and without stops. Refused as `Memory` if there is
    /// none for a copy of the board, which is dropped then.
    pub fn new(alloc: Global, board: Board) -> Result<Session, DebugFault>
        ensures session { IfOk result (λ session. session ≡ session_about board) }
        ensures stands { IfOk result Stands }
        ensures fault { IfErr result (λ fault. fault ≡ DebugFault.Memory None) }
    {
        Session::with_checkpoints_in(alloc, board)
    }
}

impl<A: Allocator> Session<A> {
    /// Begins a session as `new` does, but lists copies of the board in memory of this allocator, so that a caller may
    /// bound it. If it has none, the session gives the same answers, but goes back more slowly.
    pub fn with_checkpoints_in(alloc: A, board: Board) -> Result<Session<A>, DebugFault>
        ensures session { IfOk result (λ session. session ≡ session_about board) }
        ensures stands { IfOk result Stands }
        ensures fault { IfErr result (λ fault. fault ≡ DebugFault.Memory None) }
    {
        match copy_of(&board) {
            Ok(first) => Ok(Session {
                first,
                board,
                checkpoints: Checkpoints::new(alloc),
                stops: Stops::new(),
            }),
            Err(fault) => {
                drop(board);
                Err(fault)
            }
        }
    }

    /// Returns how many copies of the board are kept to go back from, for test cases that count them.
    pub fn checkpoints(&self) -> usize
        ensures { result ≤ 8 }
    {
        self.checkpoints.len()
    }

    /// The board as it stands, for inquiries, which read what the commands don't show.
    pub fn board(&self) -> &Board
        ensures board { result.now ≡ self.now.board }
        ensures few { length self.now.board.trail ≤ 32 }
        ensures stands { Stands self.now }
    {
        &self.board
    }

    /// Answers a typed line, or refuses it: `BadCommand` (no command), `TooManyStops` (a seventeenth stop),
    /// `ClockLimit` (a run past clock 2^40, a step at it), `BeforeStart` (a way back before the first clock, or not
    /// found), `Memory`. A refusal changes nothing, but a run short of memory stands at the clock that it names, with
    /// no stop passed.
    pub fn command(&mut self, alloc: Global, line: &str) -> Result<Answer, DebugFault>
        ensures answers { AnswersLine (command_of line.now) self.old result self.new }
        ensures stands { Stands self.new }
    {
        let answer = match read_command(line) {
            None => Err(DebugFault::BadCommand),
            Some(command) => self.answer(alloc, command),
        };
        // whatever the answer, the board stands some clocks after the first one
        let _clock = self.clock();
        answer
    }

    /// Makes one turn of the board's run to the clock `end`, whatever the stops are, for inquiries and searches that
    /// look at each turn. Returns what began in it, and notes its accesses. A step takes clocks up to `within` only;
    /// `over_edges` lets a leap pass edges of the timer's OUT. Refused as `Memory`, with nothing changed.
    pub fn run_turn<N: Notes>(
        &mut self,
        within: Clock,
        end: Clock,
        notes: &mut N,
        over_edges: bool,
    ) -> Result<Option<Begun>, DebugFault>
        requires before { clock_of self.old.board.plain < within }
        requires order { within ≤ end }
        ensures ok { IfOk result (IsOneTurn over_edges within end self.old.board self.new.board) }
        ensures noted { OnOk result (N.are notes.new (accesses_next self.old.board.plain)) }
        ensures stops { self.new.stops ≡ self.old.stops }
        ensures first { self.new.first ≡ self.old.first }
        ensures fault { IfErr result (λ fault. fault ≡ DebugFault.Memory (Some (clock_of self.old.board.plain))) }
        ensures held_back { OnErr result (IsHeldBack self.old.board self.new.board) }
        ensures err { OnErr result (self.new ≡ self.old) }
    {
        let clock = self.board.clock();
        match self.board.run_turn(within, end, notes, over_edges) {
            Ok(begun) => {
                if self.board.turns().is_multiple_of(FAR) {
                    self.checkpoints.keep(&self.first, &self.board);
                }
                Ok(begun)
            }
            Err(_) => Err(DebugFault::Memory(Some(clock))),
        }
    }

    /// The clock at which the board stands.
    fn clock(&self) -> Clock
        ensures clock { result ≡ clock_of self.now.board.plain }
        ensures addresses { All HasAddress self.now.stops }
        ensures stands { Stands self.now }
    {
        self.board.clock()
    }

    /// The clock of the session's first board, at which searches back end.
    pub fn first_clock(&self) -> Clock
        ensures clock { result ≡ clock_of self.now.first.plain }
        ensures earlier { clock_of self.now.first.plain ≤ clock_of self.now.board.plain }
    {
        self.first.clock()
    }

    /// Does what a command says, once its line has been read, and returns the answer or the refusal.
    pub fn answer(&mut self, alloc: Global, command: Command) -> Result<Answer, DebugFault>
        requires { IsWithin (Some command) }
        ensures { Answers command self.old result self.new }
    {
        match command {
            Command::Break(cs, ip) => self.add(Condition::At(cs, ip)),
            Command::Byte(address, byte) => self.add(Condition::Byte(address, byte)),
            Command::Sound => self.add(Condition::Sound),
            Command::Halted => self.add(Condition::Halted),
            Command::Go(count) => self.go(count),
            Command::Step => self.step(),
            Command::Regs => self.registers(alloc),
            Command::Screen => self.screen(),
            Command::Dump(first, count) => self.dump(alloc, first, count),
            Command::Trail => self.trail(alloc),
            Command::Back(count) => self.back(count),
            Command::BackStep => self.back_step(),
            Command::BackStop => self.back_stop(),
        }
    }

    /// Adds a stop, for `break`, `byte`, `sound` and `halted`, and answers its number. Refused as `TooManyStops` if
    /// there are sixteen.
    pub fn add(&mut self, condition: Condition) -> Result<Answer, DebugFault>
        requires { HasAddress condition }
        ensures { AnswersStop condition self.old result self.new }
    {
        match self.stops.try_push(condition) {
            Ok(()) => Ok(Answer::Stop(self.stops.len())),
            Err(_) => Err(DebugFault::TooManyStops),
        }
    }

    /// Runs for `count` clocks, or up to the first clock after the start at which a stop holds, for the command `go`.
    /// Refused as `ClockLimit`, with nothing changed, if it would go past clock 2^40, and as `Memory`, with the clock
    /// reached and no stop passed, if there is none.
    pub fn go(&mut self, count: u64) -> Result<Answer, DebugFault>
        ensures { MatchResult result (Goes count self.old self.new) (RefusesGo count self.old self.new) }
    {
        if Clock::LAST - self.clock().get() < count {
            return Err(DebugFault::ClockLimit);
        }
        let mut left = count;
        'pieces: loop {
            let piece = left.min(PIECE);
            if let Some(stop) = self.go_piece(piece)? {
                return Ok(Answer::StopAt(stop.number, stop.clock));
            }
            left -= piece;
            if left == 0 {
                return Ok(Answer::Clock(self.clock()));
            }
        }
    }

    /// Makes a piece of a `go`: runs for `count` clocks, or up to the first clock after the start at which a stop
    /// holds; `None` if none did. Then a copy of the board may be kept to go back from.
    fn go_piece(&mut self, count: u64) -> Result<Stopped, DebugFault>
        ensures runs { MatchResult result (Runs self.old.stops count self.old.board self.new.board)
            (RefusesRun self.old.stops count self.old.board self.new.board) }
        ensures stops { self.new.stops ≡ self.old.stops }
        ensures first { self.new.first ≡ self.old.first }
    {
        let stopped = run(&mut self.board, count, &self.stops)?;
        self.checkpoints.keep(&self.first, &self.board);
        Ok(stopped)
    }

    /// Runs up to the next clock at which the processor is free, or to clock 2^40, for the command `step`. Refused as
    /// `ClockLimit` at clock 2^40, and as `Memory` if there is none.
    fn step(&mut self) -> Result<Answer, DebugFault>
        ensures { MatchResult result (Steps self.old self.new) (RefusesStep self.old self.new) }
    {
        let left = Clock::LAST - self.board.clock().get();
        if left == 0 {
            return Err(DebugFault::ClockLimit);
        }
        let mut free = Stops::new();
        free.push(Condition::Free);
        run(&mut self.board, left, &free)?;
        self.checkpoints.keep(&self.first, &self.board);
        Ok(Answer::Clock(self.board.clock()))
    }

    /// Goes back by `count` clocks, for the command `back`. Refused as `BeforeStart` if the session began less than
    /// that ago, and as `Memory` if there is none; nothing changes then.
    pub fn back(&mut self, count: u64) -> Result<Answer, DebugFault>
        requires { 1 ≤ count }
        ensures { MatchResult result (GoesBack count self.old self.new) (RefusesBack count self.old self.new) }
    {
        let now = self.clock().get();
        if now - self.first_clock().get() < count {
            return Err(DebugFault::BeforeStart);
        }
        let board = self.board_near(now - count, 0)?;
        self.stand(board);
        Ok(Answer::Clock(self.clock()))
    }

    /// Goes back to the last earlier clock at which the processor was free, for the command `back step`. Refused as
    /// `BeforeStart` if there is none since the session began, and as `Memory`; nothing changes then.
    fn back_step(&mut self) -> Result<Answer, DebugFault>
        ensures { MatchResult result (GoesBackTo (Free ∷ []) tell_clock self.old self.new) (RefusesBackTo (Free ∷ []) self.old self.new) }
    {
        let mut free = Stops::new();
        free.push(Condition::Free);
        let (board, found) = self.last_held(&free, NEAR)?;
        self.stand(board);
        Ok(Answer::Clock(found.0))
    }

    /// Goes back to the last earlier clock at which a stop held, for the command `back stop`, and answers the least
    /// number of those that held. Refused as `BeforeStart` if none held, and as `Memory` if there is none; nothing
    /// changes then.
    pub fn back_stop(&mut self) -> Result<Answer, DebugFault>
        ensures { MatchResult result (GoesBackTo self.old.stops answers.StopAt self.old self.new) (RefusesBackTo self.old.stops self.old self.new) }
    {
        if self.stops.is_empty() {
            return Err(DebugFault::BeforeStart);
        }
        let (board, found) = self.last_held(&self.stops, u64::MAX)?;
        self.stand(board);
        Ok(Answer::StopAt(found.1, found.0))
    }

    /// Makes a change of the board as it stands at the session's first clock, as if the session had begun with it. Copies
    /// of the board at later clocks go, since they ran without the change.
    pub fn change(&mut self, change: &Change)
        requires place { HasPlace change.now }
        requires start { clock_of self.old.board.plain ≡ clock_of self.old.first.plain }
        ensures board { self.new.board ≡ record self.old.board { plain = changed change.now self.old.board.plain } }
        ensures first { self.new.first ≡ shown_of self.new.board }
        ensures stops { self.new.stops ≡ self.old.stops }
    {
        self.first.change(change);
        self.board.change(change);
        self.checkpoints.clear();
    }

    /// Takes the stops of another session, which gives place to this one and has none from then on.
    pub fn take_stops(&mut self, other: &mut Session<A>)
        ensures taken { self.new ≡ record self.old { stops = other.old.stops } }
        ensures given { other.new ≡ record other.old { stops = [] } }
    {
        let stops = mem::replace(&mut other.stops, Stops::new());
        drop(mem::replace(&mut self.stops, stops));
    }

    /// Finds the last earlier clock at which one of `stops` held, for `back step` and `back stop`. Returns a board at
    /// it, the clock, and the least number of those that held. The last `near` clocks are searched first, so that, if
    /// it is there, only one board has to run up to them.
    fn last_held(&self, stops: &Stops, near: u64) -> Result<(Board, (Clock, usize)), DebugFault>
        requires { All HasAddress stops.now.items }
        ensures { MatchResult result
            (λ held. StandsAfter self.now.first held.0 × (clock_of held.0.plain ≡ held.1.0)
            × HeldLast stops.now.items (gone self.now) self.now.first.plain held.1.0 held.1.1)
            (FindsNone stops.now.items self.now) }
    {
        let first = self.first_clock().get();
        let mut bound = self.clock().get();
        let mut near = near;
        // stretch by stretch, each from a copy that is kept
        'stretches: while first < bound {
            let mut board = self.board_near(bound - 1, near)?;
            match last_from(&board, bound - 1, stops)? {
                Some(found) => {
                    run_to(&mut board, found.0.get())?;
                    return Ok((board, found));
                }
                None => {
                    bound = board.clock().get();
                    drop(board);
                    near = u64::MAX;
                }
            }
        }
        Err(DebugFault::BeforeStart)
    }

    /// Makes a way back: puts this board, which is the first one some clocks later, in place of the session's own.
    fn stand(&mut self, board: Board)
        requires { StandsAfter self.old.first board }
        ensures { StandsNow (clock_of board.plain) self.old self.new }
    {
        drop(mem::replace(&mut self.board, board));
    }

    /// Returns a copy of the board from which a way back starts: as it was `near` clocks before `clock`, or at the
    /// clock of the last kept copy up to `clock` if that is later. Refused as `Memory` if there is none.
    pub fn board_near(&self, clock: u64, near: u64) -> Result<Board, DebugFault>
        requires from { clock_of self.now.first.plain ≤ clock }
        ensures stands { IfOk result (StandsAfter self.now.first) }
        ensures before { IfOk result (λ board. clock_of board.plain ≤ clock) }
        ensures near { IfOk result (λ board. clock ≤ clock_of board.plain + near) }
        ensures fault { IfErr result (λ fault. fault ≡ DebugFault.Memory None) }
    {
        let mut board = self.board_before(clock)?;
        let from = board.clock().get().max(clock.saturating_sub(near));
        match run_to(&mut board, from) {
            Ok(()) => Ok(board),
            Err(fault) => {
                drop(board);
                Err(fault)
            }
        }
    }

    /// Returns a copy of the latest board that is kept at or before this clock, or else of the session's first one: the
    /// start of the way to a clock that is gone.
    fn board_before(&self, clock: u64) -> Result<Board, DebugFault>
        requires { clock_of self.now.first.plain ≤ clock }
        ensures stands { IfOk result (StandsAfter self.now.first) }
        ensures before { IfOk result (λ board. clock_of board.plain ≤ clock) }
        ensures fault { IfErr result LacksMemory }
    {
        match self.checkpoints.latest(clock) {
            Some(kept) => copy_of(kept),
            None => copy_of(&self.first),
        }
    }

    /// Answers the command `regs`: the processor's registers as two lines.
    fn registers(&self, alloc: Global) -> Result<Answer, DebugFault>
        ensures { Shows (register_lines (registers_of self.now.board.plain)) result }
    {
        Ok(Answer::Text(register_lines(alloc, &self.board.regs())?))
    }

    /// Answers the command `screen`: the text that the display adapter shows.
    fn screen(&self) -> Result<Answer, DebugFault>
        ensures { Shows (screen_of self.now.board.plain) result }
    {
        match self.board.screen() {
            Ok(text) => Ok(Answer::Text(text)),
            Err(_) => Err(DebugFault::Memory(None)),
        }
    }

    /// Answers the command `dump`: `count` bytes of memory from the physical address `first` on, sixteen a line.
    fn dump(&self, alloc: Global, first: u32, count: u32) -> Result<Answer, DebugFault>
        requires { first + count ≤ 2 ^ 20 }
        ensures { Shows (dump_text self.now.board.plain first count) result }
    {
        Ok(Answer::Text(dump_text(alloc, &self.board, first, count)?))
    }

    /// Answers the command `trail`: the last instructions begun and interrupts entered, a line each.
    fn trail(&self, alloc: Global) -> Result<Answer, DebugFault>
        ensures { Shows (flat_map entry_line self.now.board.trail) result }
    {
        Ok(Answer::Text(trail_text(alloc, &self.board)?))
    }
}

/// Runs a board to a clock, not before its own: the rest of a way back, from a kept copy to the clock that is looked
/// for.
fn run_to(board: &mut Board, clock: u64) -> Result<(), DebugFault>
    requires { clock_of board.old.plain ≤ clock }
    ensures ok { OnOk result (Ran (clock - clock_of board.old.plain) board.old board.new) }
    ensures fault { IfErr result LacksMemory }
{
    let left = clock - board.clock().get();
    match board.run(left) {
        Ok(()) => Ok(()),
        Err(_) => Err(DebugFault::Memory(None)),
    }
}

/// Finds the last clock from this board's own up to `to` at which one of `stops` holds, with the least number of those
/// that hold, in a search back; `None` if none does. A copy of the board runs, and this one stays.
fn last_from(board: &Board, to: u64, stops: &Stops) -> Result<Option<(Clock, usize)>, DebugFault>
    requires address { All HasAddress stops.now.items }
    requires from { clock_of board.now.plain ≤ to }
    ensures last { IfOk result (λ found. IsLastOf stops.now.items (to - clock_of board.now.plain + 1) board.now.plain found) }
    ensures fault { IfErr result LacksMemory }
{
    let mut ahead = copy_of(board)?;
    let count = to - ahead.clock().get();
    let last = ahead.run_last(count, stops);
    drop(ahead);
    match last {
        Ok(found) => Ok(found),
        Err(_) => Err(DebugFault::Memory(None)),
    }
}

/// Runs a board for `count` clocks, or up to the first clock after the start at which one of `stops` holds, `None` if
/// none did, and turns the board's faults into the session's.
fn run(board: &mut Board, count: u64, stops: &Stops) -> Result<Stopped, DebugFault>
    requires { All HasAddress stops.now.items }
    ensures { MatchResult result (Runs stops.now.items count board.old board.new)
        (RefusesRun stops.now.items count board.old board.new) }
{
    match board.run_until(count, stops) {
        Ok(stopped) => Ok(stopped),
        Err(BoardFault::ClockLimit) => Err(DebugFault::ClockLimit),
        Err(BoardFault::Memory) => Err(DebugFault::Memory(Some(board.clock()))),
        Err(BoardFault::RamSize) => unreachable!(),
    }
}
