//! A probe: a session that answers inquiries, and has stops of its own.
ghost use Rattle.std.specs.Prelude.{◌≡◌, ◌==◌, ◌<◌, ◌≤◌, ◌^◌, ◌++◌, [], ◌∷◌, All, IfOk, MatchResult, length};
ghost use Rattle.std.specs.Result.{IfErr};
ghost use Rattle.board_plain.specs.Plain.{clock_of};
ghost use Rattle.debugger_meaning.specs.Stands.{Stands, gone, shown_of};
ghost use Rattle.probe.specs.Lab.{left_by, shown_edited, takes_edit};
ghost use Rattle.probe.specs.Looked.{FindsNoStop, answer_at, from_of};
ghost use Rattle.probe.specs.Moments.{AnswersTrial};
ghost use Rattle.probe_texts.specs.Wishes.{HasPlaces};
ghost use Rattle.probe.specs.Probe.{AddsStop, AnswersRequest, AnswersStopping, GoesBackToStop, GoesOn, RefusesBackToStop, RefusesGoing, RefusesStop, conditions_of, gone_by, probe_about, session_of};
ghost use Rattle.probe_texts.specs.Requests.{HasBytes, IsRequest, IsRising};
ghost use Rattle.probe.specs.ProbeStops.{MetLast};
ghost use Rattle.probe.specs.Watched.{IsWatched, KeepsStops, stops_of};

use crate::edits::{edit_board, edit_session, takes_edit};
use crate::looking::{last_met, run_to_stop};
use crate::making::lacking;
use crate::moments::tell_moments;
use crate::session::inquire;
use crate::watched::{Watched, Watches, all_stand, with_room};
use board::board::Board;
use board_types::clock::Clock;
use debugger::session::Session;
use debugger_meaning::answer::Answer;
use debugger_meaning::fault::DebugFault;
use probe_texts::moments_text::Trial;
use probe_texts::stops::{Request, Stop, read_request};
use probe_texts::wishes::Edit;
use std::alloc::Global;
use std::marker::Model;
use std::mem;

/// `back stop` searches this many clocks before the present one first, after one run to them: a stop that is met often
/// is met there.
const NEAR: u64 = 1024;

/// A session of `pcprobe`: the debugger's, with stops of its own on events and changes of bytes. The session itself has
/// those of the stops that are conditions, in order.
#[derive(Drop)]
pub struct Probe {
    session: Session,
    watches: Watches,
}

impl Model for Probe {
    ghost use Rattle.probe.specs.Probe.{ProbeState};
    ghost use Rattle.probe.specs.Watched.{IsProbe, stops_of};

    ghost Value = { ProbeState };

    ghost view = { λ s. record { first = s.session.first; board = s.session.board; stops = stops_of s.watches.items } };

    ghost invariant = { λ s. IsProbe s.session s.watches.items };
}

impl Probe {
    /// Begins a session of `pcprobe` about the board, as it stands, without stops. Refused as `Memory` if there is
    /// none; the board is dropped then.
    pub fn new(alloc: Global, board: Board) -> Result<Probe, DebugFault>
        ensures session { IfOk result (λ probe. probe ≡ probe_about board) }
        ensures stands { IfOk result (λ probe. Stands (session_of probe)) }
        ensures fault { IfErr result (λ fault. fault ≡ DebugFault.Memory None) }
    {
        let session = Session::new(alloc, board)?;
        Ok(Probe {
            session,
            watches: Watches::new_in(alloc),
        })
    }

    /// Answers a typed line, or refuses it: as `BadCommand` if it asks for nothing. After each line the board is the one
    /// with which the probe began, some clocks later.
    pub fn command(&mut self, alloc: Global, line: &str) -> Result<Answer, DebugFault>
        ensures answers { AnswersStopping line.now self.old result self.new }
        ensures stands { Stands (session_of self.new) }
    {
        let answer = match read_request(line) {
            Some(request) => self.answer(alloc, request),
            None => Err(DebugFault::BadCommand),
        };
        // whatever the answer, the board stands some clocks after the first one
        let _board = self.session.board();
        answer
    }

    /// Does what a line asks for, once it has been read.
    fn answer(&mut self, alloc: Global, request: Request) -> Result<Answer, DebugFault>
        requires { IsRequest request }
        ensures { AnswersRequest request self.old result self.new }
    {
        match request {
            Request::Add(stop) => self.add(alloc, stop),
            Request::Go(count) => self.go(count),
            Request::BackStop => self.back_stop(),
            Request::Try(trial) => self.moments(alloc, trial),
            Request::Inquire(inquiry) => inquire(&mut self.session, alloc, inquiry),
            Request::Do(command) => self.session.answer(alloc, command),
        }
    }

    /// Adds a stop, for lines such as `break`, `when` and `changes`, and answers its number. Refused as `TooManyStops`
    /// if there are sixteen, and as `Memory` if there is none for a copy of the bytes whose changes it waits for.
    fn add(&mut self, alloc: Global, stop: Stop) -> Result<Answer, DebugFault>
        requires { HasBytes stop }
        ensures { MatchResult result (AddsStop stop self.old self.new) (RefusesStop stop self.old self.new) }
    {
        if self.watches.is_full() {
            return Err(DebugFault::TooManyStops);
        }
        match with_room(alloc, stop) {
            Ok(watched) => Ok(self.push(watched)),
            Err(_) => Err(DebugFault::Memory(None)),
        }
    }

    /// Adds a stop, once there is room for it and its copy of bytes. Answers its number, from 1.
    fn push(&mut self, watched: Watched) -> Answer
        requires room { length self.old.stops < 16 }
        requires watched { IsWatched watched }
        ensures { AddsStop watched.stop self.old self.new result }
    {
        add_condition(&mut self.session, &watched.stop);
        self.watches.push(watched);
        Answer::Stop(self.watches.len())
    }

    /// Runs for `count` clocks, or up to the first clock after the start at which a stop is met, for the command `go`.
    /// Stops that are all conditions are left to the session's faster search. Refused as `ClockLimit` past clock 2^40,
    /// and as `Memory`.
    fn go(&mut self, count: u64) -> Result<Answer, DebugFault>
        ensures { MatchResult result (GoesOn count self.old self.new) (RefusesGoing count self.old self.new) }
    {
        if all_stand(self.watches.as_slice()) {
            return self.session.go(count);
        }
        let start = self.session.board().clock().get();
        if Clock::LAST - start < count {
            return Err(DebugFault::ClockLimit);
        }
        let end = Clock::new(start + count).unwrap();
        match run_to_stop(&mut self.session, self.watches.as_mut_slice(), end) {
            Ok(found) => Ok(told(found, self.session.board().clock())),
            Err(_) => Err(lacking(&self.session)),
        }
    }

    /// Goes back to the last earlier clock at which a stop was met, for the command `back stop`. Stops that are all
    /// conditions are left to the session's search. Refused as `BeforeStart` if none was met, and as `Memory`.
    fn back_stop(&mut self) -> Result<Answer, DebugFault>
        ensures { MatchResult result (GoesBackToStop self.old self.new) (RefusesBackToStop self.old self.new) }
    {
        if all_stand(self.watches.as_slice()) {
            return self.session.back_stop();
        }
        match self.last_met() {
            Ok(found) => self.go_back_to(found.0, found.1),
            Err(fault) => Err(fault),
        }
    }

    /// Goes back to the clock that a search for a stop has found. Answers it with the stop's number.
    fn go_back_to(&mut self, clock: Clock, number: usize) -> Result<Answer, DebugFault>
        requires last { MetLast self.old.stops (gone_by self.old) self.old.first.plain clock number }
        requires some { 1 ≤ length self.old.stops }
        ensures { MatchResult result (GoesBackToStop self.old self.new) (RefusesBackToStop self.old self.new) }
    {
        let count = self.session.board().clock().get() - clock.get();
        match self.session.back(count) {
            Ok(answer) => {
                drop(answer);
                Ok(Answer::StopAt(number, clock))
            }
            Err(fault) => Err(fault),
        }
    }

    /// Answers the line `moments`: how runs from here would end with the trial's keys, for each clock of the first. The
    /// probe stays as it is.
    fn moments(&mut self, alloc: Global, trial: Trial) -> Result<Answer, DebugFault>
        requires { IsRising trial }
        ensures answers { AnswersTrial self.old.stops self.old.board.plain trial result }
        ensures kept { self.new ≡ self.old }
    {
        tell_moments(
            self.session.board(),
            alloc,
            self.watches.as_mut_slice(),
            trial,
        )
    }

    /// The clock at which the board stands.
    pub(crate) fn clock(&self) -> Clock
        ensures { result ≡ clock_of self.now.board.plain }
    {
        self.session.board().clock()
    }

    /// The clock of the first board.
    pub(crate) fn first_clock(&self) -> Clock
        ensures { result ≡ clock_of self.now.first.plain }
    {
        self.session.first_clock()
    }

    /// Whether the board can be changed so.
    pub(crate) fn takes(&self, edit: &Edit) -> bool
        requires { HasPlaces edit.now }
        ensures { result ≡ takes_edit edit.now self.now.board.plain }
    {
        takes_edit(self.session.board(), edit)
    }

    /// Returns a session about a copy of the board as it stands, but for the change, without stops. Refused as `Memory`
    /// if there is none.
    pub(crate) fn changed(&self, alloc: Global, edit: &Edit) -> Result<Session, DebugFault>
        requires { HasPlaces edit.now }
        ensures first { IfOk result (λ session. session.first ≡ shown_edited edit.now (shown_of self.now.board)) }
        ensures board { IfOk result (λ session. shown_of session.board ≡ session.first) }
        ensures fault { IfErr result (λ fault. fault ≡ DebugFault.Memory None) }
    {
        match self.session.board().copy() {
            Ok(mut board) => {
                edit_board(&mut board, edit);
                Session::new(alloc, board)
            }
            Err(_) => Err(DebugFault::Memory(None)),
        }
    }

    /// Makes a change of the board as it stands at the first clock, as if the probe had begun with it.
    pub(crate) fn change(&mut self, edit: &Edit)
        requires places { HasPlaces edit.now }
        requires start { clock_of self.old.board.plain ≡ clock_of self.old.first.plain }
        ensures first { self.new.first ≡ shown_edited edit.now (shown_of self.old.board) }
        ensures board { shown_of self.new.board ≡ self.new.first }
        ensures stops { self.new.stops ≡ self.old.stops }
    {
        edit_session(&mut self.session, edit);
    }

    /// Puts another session in place of its own, and gives it the stops. Returns the one that it had.
    pub(crate) fn exchange(&mut self, session: Session) -> Session
        ensures now { self.new ≡ record self.old { first = session.first; board = session.board } }
        ensures left { result ≡ left_by self.old }
    {
        let mut session = session;
        session.take_stops(&mut self.session);
        mem::replace(&mut self.session, session)
    }

    /// Finds the last earlier clock at which a stop was met, for `back stop`, and the least number of those that were.
    /// Refused as `BeforeStart` if none was, and as `Memory`.
    fn last_met(&mut self) -> Result<(Clock, usize), DebugFault>
        ensures kept { self.new ≡ self.old }
        ensures found { MatchResult result
            (λ found. MetLast self.old.stops (gone_by self.old) self.old.first.plain found.0 found.1)
            (FindsNoStop self.old.stops (gone_by self.old) self.old.first.plain) }
    {
        search_back(&self.session, self.watches.as_mut_slice())
    }
}

/// Finds the last clock before a session's own at which a stop was met, and the least number of those that were: runs
/// copies of the board, one stretch before the other, back to the session's first clock. Refused as `BeforeStart` if
/// none was met, and as `Memory`.
fn search_back(session: &Session, watches: &mut [Watched]) -> Result<(Clock, usize), DebugFault>
    requires { All IsWatched watches.old }
    ensures keeps { KeepsStops watches.old watches.new }
    ensures found { MatchResult result
        (λ found. MetLast (stops_of watches.old) (gone session.now) session.now.first.plain found.0 found.1)
        (FindsNoStop (stops_of watches.old) (gone session.now) session.now.first.plain) }
{
    let first = session.first_clock().get();
    let mut bound = session.board().clock().get();
    let mut near = NEAR;
    // stretch by stretch, each from a copy that is kept
    'stretches: while first < bound {
        let before = first.max(bound.saturating_sub(2));
        let Ok(mut board) = session.board_near(before, near) else {
            return Err(DebugFault::Memory(None));
        };
        let from = board.clock().get();
        let to = Clock::new(bound - 1).unwrap();
        let found = last_met(&mut board, watches, from == first, to);
        drop(board);
        match found {
            Ok(Some(found)) => return Ok(found),
            Ok(None) => {
                bound = stretch_start(from, first);
                near = u64::MAX;
            }
            Err(fault) => return Err(fault),
        }
    }
    Err(DebugFault::BeforeStart)
}

/// The first clock that a stretch of a search back has covered, which ran from a board at `from`; the next stretch ends
/// before it. What was met at that board's own clock can't be told, unless it is the session's first.
fn stretch_start(from: u64, first: u64) -> u64
    requires { from < 2 ^ 40 }
    ensures { result ≡ from_of (from == first) from }
{
    if from == first { from } else { from + 1 }
}

/// Adds a stop to the session's own stops, if it is a condition, so that the session can search for it; other stops are
/// the probe's alone.
fn add_condition(session: &mut Session, stop: &Stop)
    requires within { HasBytes stop.now }
    requires room { length session.old.stops < 16 }
    ensures { session.new
        ≡ record session.old { stops = session.old.stops ++ conditions_of (stop.now ∷ []) } }
{
    match stop {
        Stop::Standing(condition) => drop(session.add(*condition)),
        Stop::When(_) | Stop::Changes(..) => {}
    }
}

/// The answer at the end of a `go`: the clock, with the number of the stop that was met, if any.
fn told(found: Option<usize>, clock: Clock) -> Answer
    ensures { result ≡ answer_at found clock }
{
    match found {
        Some(number) => Answer::StopAt(number, clock),
        None => Answer::Clock(clock),
    }
}
