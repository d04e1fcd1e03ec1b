//! The board: it runs for a number of clocks, and is read.
ghost use Rattle.std.specs.Prelude.{IsTrue, None, true, All, map, IfSome, ◌-◌, slice_get, ◌≡◌, ◌+◌, ◌*◌, ◌<◌, ◌≤◌, ◌^◌, [], ◌∷◌, ◌++◌, length, OnErr, OnOk, IfOk, IsOk, ◌↔◌};
ghost use Rattle.std.specs.Option.{option_to_list};
ghost use Rattle.std.specs.Result.{IfErr, IsErrOf};
ghost use Rattle.std.specs.String.{string_bytes};
ghost use Rattle.memory.specs.Map.{IsRamSize, FitsRam};
ghost use Rattle.board_plain.specs.declared.act.Act.TheVariants as acts;
ghost use Rattle.board_plain.specs.declared.fault.BoardFault.TheVariants.{Memory};
ghost use Rattle.board_plain.specs.Board.{Ran, StoppedEarly};
ghost use Rattle.board.specs.UnseenClocks.{WiresStay, WiresStayThen};
ghost use Rattle.board.specs.HeldBack.{IsHeldBack};
ghost use Rattle.board.specs.TrailState.{IsExact};
ghost use Rattle.board.specs.OneTurn.{begun_of};
ghost use Rattle.board.specs.IpRange.{AllWithin, all_unwatched, is_unwatched};
ghost use Rattle.board_plain.specs.Plain.{act_at, after_clock, after_clocks, byte_of, change_next, changes_in, clock_of, lost_codes, next_act, power_on, registers_of, screen_of, speaker_level, state_of};
ghost use Rattle.board_plain.specs.Stops.{FitsRoom, HasAddress, IsStopOf, NoStop, holding, holds, run_length};
ghost use Rattle.board_plain.specs.Lasts.{IsLastOf};
ghost use Rattle.board.specs.Found.{found_at};
ghost use Rattle.board_plain.specs.Trail.{last, trail_in, trail_next};
ghost use Rattle.board.specs.AwaitFree.{IsTurnBetween};
ghost use Rattle.board.specs.Turns.{AreStepsOn, IsActOn, IsLeapOn, IsTurnOn};
ghost use Rattle.board_plain.specs.Work.{steps_in, work_in, work_next};
ghost use Rattle.board_types.specs.LineLevel.{from_bool};
ghost use Rattle.events.specs.Accesses.{accesses_next};
ghost use Rattle.board.specs.Doings.{act_of, IsReadyToRun};

use crate::doing::Doing;
use crate::engine::Engine;
use crate::one_turn::Begun;
use crate::stop::{IpRange, all_await_free};
use crate::trail::Trail;
use crate::watch::{Nothing, Watch};
use board_plain::config::Config;
use board_plain::fault::BoardFault;
use board_plain::speaker::SpeakerChange;
use board_plain::stop::{Condition, Stop, Stopped, Stops};
use board_plain::trail::TrailEntry;
use board_types::bytes::Bytes;
use board_types::clock::Clock;
use board_types::image::Image;
use board_types::keys::Keys;
use board_types::line::Line;
use board_types::regs::Regs;
use board_types::state::State;
use decode::decoded::Decoded;
use execute_meaning::boundary::Boundary;
use execute_noted::notes::{Notes, Unnoted};
use memory::map::MemoryFault;
use std::alloc::{AllocError, Allocator, Global};
use std::marker::Model;

/// A board at a clock, with the changes of its speaker's level since power-on and the last entries of its trail. The
/// list of changes grows in memory of its own allocator, `A`.
#[derive(Drop)]
pub struct Board<A: Allocator = Global> {
    pub(crate) engine: Engine,
    changes: Vec<SpeakerChange, A>,
    trail: Trail,
    /// The acts, the leaps of time and the steps of the run's loop since power-on, each a clock at least.
    turns: u64,
}

impl<A: Allocator> Model for Board<A> {
    ghost use Rattle.std.specs.Prelude.{◌≤◌, ◌^◌, ◌-◌, length};
    ghost use Rattle.std.specs.Vec.{vec_capacity};
    ghost use Rattle.board_plain.specs.Board.{BoardState};
    ghost use Rattle.board_plain.specs.Plain.{clock_of};

    ghost Value = { BoardState };

    ghost view = { λ b. record {
      plain = b.engine;
      changes = b.changes.items;
      room = vec_capacity b.changes - length b.changes.items;
      trail = b.trail;
      turns = b.turns;
    } };

    ghost invariant = { λ b. (clock_of b.engine ≤ 2 ^ 40) × (length b.trail ≤ 32) × (b.turns ≤ clock_of b.engine) };
}

impl Board {
    /// A board at power-on with the image's bytes in its memory and these keys to come; those stamped 0 have arrived.
    /// Refused as `RamSize` if the RAM's size isn't a multiple of 16 KB from 16 to 640 or the image has a byte between
    /// the RAM's end and A0000h, and as `Memory` if there is none for the board; the keys are dropped then.
    pub fn new(
        alloc: Global,
        image: &Image,
        config: Config,
        keys: Keys,
    ) -> Result<Board, BoardFault>
        ensures plain { IfOk result (λ board. board.plain ≡ power_on image.now config keys) }
        ensures clock { IfOk result (λ board. clock_of board.plain ≡ 0) }
        ensures changes { IfOk result (λ board. board.changes ≡ []) }
        ensures trail { IfOk result (λ board. board.trail ≡ []) }
        ensures turns { IfOk result (λ board. board.turns ≡ 0) }
        ensures size { OnOk result (IsRamSize config.ram_kb × FitsRam image.now (1024 * config.ram_kb)) }
        ensures ram_size { IsErrOf result BoardFault.RamSize
            ↔ (¬ (IsRamSize config.ram_kb × FitsRam image.now (1024 * config.ram_kb))) }
        ensures no_limit { ¬ (IsErrOf result BoardFault.ClockLimit) }
    {
        let engine = match Engine::new(alloc, image, config, keys) {
            Ok(engine) => engine,
            Err(MemoryFault::RamSize) => return Err(BoardFault::RamSize),
            Err(MemoryFault::OutOfMemory) => return Err(BoardFault::Memory),
        };
        Ok(Board {
            engine,
            changes: Vec::new(alloc),
            trail: Trail::new(alloc, config.clocks)?,
            turns: 0,
        })
    }

    /// A copy at the same clock, with its list of changes and its trail, in memory of its own, for the debugger and the
    /// probe to try a run or to come back to. Refused as `Memory` if there is none.
    pub fn copy(&self) -> Result<Board, BoardFault>
        ensures plain { IfOk result (λ board. board.plain ≡ self.now.plain) }
        ensures changes { IfOk result (λ board. board.changes ≡ self.now.changes) }
        ensures trail { IfOk result (λ board. board.trail ≡ self.now.trail) }
        ensures turns { IfOk result (λ board. board.turns ≡ self.now.turns) }
        ensures few { length self.now.trail ≤ 32 }
        ensures err { IfErr result (λ fault. fault ≡ BoardFault.Memory) }
    {
        let changes = self.changes.clone()?;
        let trail = self.trail.copy()?;
        // last, so that no copy of all chips is made in vain if there is no memory for the lists
        let engine = self.engine.copy()?;
        Ok(Board {
            engine,
            changes,
            trail,
            turns: self.turns,
        })
    }

    /// Moves the list of changes of the speaker's level to another allocator, so that its room may be limited:
    /// `changes` is the new list, with the same ones. All else stays.
    pub fn with_changes<A: Allocator>(self, changes: Vec<SpeakerChange, A>) -> Board<A>
        requires { changes.items ≡ self.changes }
        ensures plain { result.plain ≡ self.plain }
        ensures changes { result.changes ≡ self.changes }
        ensures trail { result.trail ≡ self.trail }
        ensures turns { result.turns ≡ self.turns }
    {
        Board {
            engine: self.engine,
            changes,
            trail: self.trail,
            turns: self.turns,
        }
    }
}

impl<A: Allocator> Board<A> {
    /// Runs the board for `count` processor clocks. Refused as `ClockLimit`, with nothing changed, if it would go past
    /// clock 2^40. Refused as `Memory` only if the next clock changes the speaker's level and the list of changes has
    /// no room and can't grow: the board then stands at the clock before that change, and a new run goes on from there.
    pub fn run(&mut self, count: u64) -> Result<(), BoardFault>
        ensures plain { OnOk result (self.new.plain ≡ after_clocks self.old.plain count) }
        ensures clock { OnOk result (clock_of self.new.plain ≡ clock_of self.old.plain + count) }
        ensures changes { OnOk result (self.new.changes ≡ self.old.changes ++ changes_in self.old.plain count) }
        ensures trail { OnOk result (self.new.trail ≡ last 32 (self.old.trail ++ trail_in self.old.plain count)) }
        ensures limit { IsErrOf result BoardFault.ClockLimit ↔ (2 ^ 40 < clock_of self.old.plain + count) }
        ensures limit_kept { IsErrOf result BoardFault.ClockLimit → self.new ≡ self.old }
        ensures memory { IsErrOf result BoardFault.Memory → StoppedEarly count self.old self.new }
        ensures no_ram_size { ¬ (IsErrOf result BoardFault.RamSize) }
        ensures succeeds { clock_of self.old.plain + count ≤ 2 ^ 40
            → length (changes_in self.old.plain count) ≤ self.old.room → IsOk result }
        ensures room { self.old.room + length self.old.changes ≤ self.new.room + length self.new.changes }
        ensures turns_least { self.old.turns + steps_in self.old.plain (clock_of self.new.plain - clock_of self.old.plain)
            ≤ self.new.turns }
        ensures turns_most { self.new.turns
            ≤ self.old.turns + 3 * work_in self.old.plain (clock_of self.new.plain - clock_of self.old.plain) + 3 }
    {
        if self.is_past_limit(count) {
            return Err(BoardFault::ClockLimit);
        }
        let end = self.clock().get() + count;
        'turns: while self.clock().get() < end {
            if self.steps_to_a_turn(end) {
                self.turn(end, end)?;
            }
        }
        Ok(())
    }

    /// Runs the board for `count` processor clocks, or up to the first clock after the start at which one of `stops`
    /// holds, and answers that stop. Refused as `run` is; if as `Memory`, no stop has held at any clock after the
    /// start, up to the one at which the board stands.
    pub fn run_until(&mut self, count: u64, stops: &Stops) -> Result<Stopped, BoardFault>
        requires { All HasAddress stops.now.items }
        ensures stop { IfOk result (λ stopped. IsStopOf stops.now.items count self.old.plain stopped) }
        ensures ran { IfOk result (λ stopped. Ran (run_length count self.old.plain stopped) self.old self.new) }
        ensures limit { IsErrOf result BoardFault.ClockLimit ↔ (2 ^ 40 < clock_of self.old.plain + count) }
        ensures limit_kept { IsErrOf result BoardFault.ClockLimit → self.new ≡ self.old }
        ensures memory { IsErrOf result BoardFault.Memory → StoppedEarly count self.old self.new }
        ensures none_passed { IsErrOf result BoardFault.Memory
            → NoStop stops.now.items (clock_of self.new.plain - clock_of self.old.plain) self.old.plain }
        ensures no_ram_size { ¬ (IsErrOf result BoardFault.RamSize) }
        ensures succeeds { clock_of self.old.plain + count ≤ 2 ^ 40
            → length (changes_in self.old.plain count) ≤ self.old.room → IsOk result }
        ensures succeeds_to_stop { clock_of self.old.plain + count ≤ 2 ^ 40 → FitsRoom stops.now.items count self.old
            → IsOk result }
        ensures room { self.old.room + length self.old.changes ≤ self.new.room + length self.new.changes }
        ensures turns_least { self.old.turns + steps_in self.old.plain (clock_of self.new.plain - clock_of self.old.plain)
            ≤ self.new.turns }
        ensures turns_most { self.new.turns
            ≤ self.old.turns + 3 * work_in self.old.plain (clock_of self.new.plain - clock_of self.old.plain) + 3 }
    {
        if self.is_past_limit(count) {
            return Err(BoardFault::ClockLimit);
        }
        if count == 0 {
            return Ok(None);
        }
        let end = self.clock().get() + count;
        let whole = all_await_free(stops.as_slice());
        let ip_range = IpRange::of(stops.as_slice());
        // a stop that holds at the start doesn't count, so the first clock is a turn of its own
        let next = self.clock().get() + 1;
        self.turn(next, next)?;
        'turns: loop {
            if let Some(number) = self.holding(stops, &ip_range) {
                let clock = self.clock();
                return Ok(Some(Stop { number, clock }));
            }
            if self.clock().get() == end {
                return Ok(None);
            }
            self.turn_between(end, whole, &ip_range)?;
        }
    }

    /// Runs the board for `count` processor clocks, and answers the last clock from the start to the end, both
    /// included, at which one of `stops` holds, with the least number of those that do, for the debugger to go back to;
    /// `None` if none holds at any. Refused as `run` is, without an answer.
    pub fn run_last(
        &mut self,
        count: u64,
        stops: &Stops,
    ) -> Result<Option<(Clock, usize)>, BoardFault>
        requires { All HasAddress stops.now.items }
        ensures last { IfOk result (λ found. IsLastOf stops.now.items (count + 1) self.old.plain found) }
        ensures ran { OnOk result (Ran count self.old self.new) }
        ensures limit { IsErrOf result BoardFault.ClockLimit ↔ (2 ^ 40 < clock_of self.old.plain + count) }
        ensures limit_kept { IsErrOf result BoardFault.ClockLimit → self.new ≡ self.old }
        ensures memory { IsErrOf result BoardFault.Memory → StoppedEarly count self.old self.new }
        ensures no_ram_size { ¬ (IsErrOf result BoardFault.RamSize) }
        ensures succeeds { clock_of self.old.plain + count ≤ 2 ^ 40
            → length (changes_in self.old.plain count) ≤ self.old.room → IsOk result }
        ensures room { self.old.room + length self.old.changes ≤ self.new.room + length self.new.changes }
        ensures turns_least { self.old.turns + steps_in self.old.plain (clock_of self.new.plain - clock_of self.old.plain)
            ≤ self.new.turns }
        ensures turns_most { self.new.turns
            ≤ self.old.turns + 3 * work_in self.old.plain (clock_of self.new.plain - clock_of self.old.plain) + 3 }
    {
        if self.is_past_limit(count) {
            return Err(BoardFault::ClockLimit);
        }
        let end = self.clock().get() + count;
        let whole = all_await_free(stops.as_slice());
        let ip_range = IpRange::of(stops.as_slice());
        let mut last = None;
        'turns: while self.clock().get() < end {
            let here = self.holding(stops, &ip_range);
            // if none holds here, the other clocks of a step pass none that waits for a free processor
            self.turn_between(end, stops_nowhere(whole, here), &ip_range)?;
            // what holds before a turn holds up to the last clock before the turn's end
            last = latest(last, here, Clock::new(self.clock().get() - 1).unwrap());
        }
        Ok(latest(last, self.holding(stops, &ip_range), self.clock()))
    }

    /// Makes room for `n` more changes of the speaker's level, so that a run with no more of them can't be refused for
    /// want of memory. Refused as `Memory`, with nothing changed, if the list can't grow; never if it has the room.
    pub fn reserve_speaker(&mut self, n: usize) -> Result<(), BoardFault>
        ensures ok { OnOk result (n ≤ self.new.room) }
        ensures plain { self.new.plain ≡ self.old.plain }
        ensures changes { self.new.changes ≡ self.old.changes }
        ensures trail { self.new.trail ≡ self.old.trail }
        ensures turns { self.new.turns ≡ self.old.turns }
        ensures room { self.old.room ≤ self.new.room }
        ensures err { IfErr result (λ fault. fault ≡ BoardFault.Memory) }
        ensures err_kept { OnErr result (self.new ≡ self.old) }
        ensures succeeds { n ≤ self.old.room → IsOk result }
    {
        self.changes.try_reserve(n)?;
        Ok(())
    }

    /// The least number of a stop that holds at the present clock, at which a run ends; `None` if none does. `ip_range`
    /// is where IP has to be for that, so that most looks are one comparison.
    #[inline(always)]
    fn holding(&self, stops: &Stops, ip_range: &IpRange) -> Option<usize>
        requires address { All HasAddress stops.now.items }
        requires within { AllWithin ip_range.now stops.now.items }
        ensures { result ≡ holding stops.now.items self.now.plain }
    {
        self.engine.holding_within(stops.as_slice(), ip_range)
    }

    /// Whether a run of `count` clocks would go past the last clock, 2^40, and is refused as `ClockLimit`.
    #[tactic(auto, unfolding(board_plain::specs::Plain::clock_of))]
    fn is_past_limit(&self, count: u64) -> bool
        ensures trail { length self.now.trail ≤ 32 }
        ensures past { IsTrue result ↔ (2 ^ 40 < clock_of self.now.plain + count) }
    {
        Clock::LAST - self.engine.chips.clock().get() < count
    }

    /// A turn between two looks for a stop. If no stop can hold in the midst of a step (`whole`), it may be an act with
    /// all its clocks or many steps of the run's loop; otherwise an act has its first clock only. A leap goes up to
    /// `end` either way, since no condition changes before its last clock.
    #[inline(always)]
    fn turn_between(&mut self, end: u64, whole: bool, ip_range: &IpRange) -> Result<(), BoardFault>
        requires before_end { clock_of self.old.plain < end }
        requires within { end ≤ 2 ^ 40 }
        ensures ok { OnOk result (IsTurnBetween whole (is_unwatched ip_range.now) end self.old self.new) }
        ensures err { OnErr result (IsHeldBack self.old self.new) }
        ensures fault { IfErr result (λ fault. fault ≡ BoardFault.Memory) }
    {
        if whole {
            if self.quiet_steps(end, ip_range) {
                return Ok(());
            }
            return self.turn(end, end);
        }
        let next = self.clock().get() + 1;
        if self.quiet_steps(next, &Nothing) {
            return Ok(());
        }
        self.turn(next, end)
    }

    /// Makes what the run's loop leaves over, one turn: if the processor does nothing and nothing is seen, time leaps,
    /// at most to the clock `end`; otherwise the processor acts, and those other clocks of its step pass that end by
    /// `within`. Kept out of the run's loop.
    #[inline(never)]
    fn turn(&mut self, within: u64, end: u64) -> Result<(), BoardFault>
        requires before { clock_of self.old.plain < within }
        requires order { within ≤ end }
        requires limit { end ≤ 2 ^ 40 }
        ensures ok { OnOk result (IsTurnOn within end self.old self.new) }
        ensures err { OnErr result (IsHeldBack self.old self.new) }
        ensures fault { IfErr result (λ fault. fault ≡ BoardFault.Memory) }
    {
        self.engine.look_ahead();
        let boundary = self.engine.boundary();
        self.turn_by::<Engine, Unnoted>(boundary, &mut Unnoted, true, within, end)?;
        Ok(())
    }

    /// A turn at this case of a boundary, for runs and for `run_turn`: while the processor does nothing, a leap of time,
    /// or, if this clock has work, as an edge or a key, an act that does nothing. Answers what begins; the accesses of
    /// its first clock are noted. Unless `over_edges`, wires change in its first clock alone. `L` is only a tag: each
    /// caller has a copy of its own, small enough for LLVM to inline.
    #[inline(always)]
    pub(crate) fn turn_by<L, N: Notes>(
        &mut self,
        boundary: Boundary,
        notes: &mut N,
        over_edges: bool,
        within: u64,
        end: u64,
    ) -> Result<Option<Begun>, BoardFault>
        requires boundary { act_at self.old.plain.cpu self.old.plain.chips boundary ≡ next_act self.old.plain }
        requires before { clock_of self.old.plain < within }
        requires order { within ≤ end }
        requires limit { end ≤ 2 ^ 40 }
        ensures ok { OnOk result (IsTurnOn within end self.old self.new) }
        ensures steady { ¬ (IsTrue over_edges) → OnOk result (WiresStayThen within self.old.plain self.new.plain) }
        ensures begun { IfOk result (λ begun. option_to_list begun ≡ map begun_of (trail_next self.old.plain)) }
        ensures clock { IfOk result (λ begun. IfSome begun (λ b. b.clock ≡ clock_of self.old.plain)) }
        ensures noted { OnOk result (N.are notes.new (accesses_next self.old.plain)) }
        ensures err { OnErr result (IsHeldBack self.old self.new) }
        ensures fault { IfErr result (λ fault. fault ≡ BoardFault.Memory) }
    {
        match boundary {
            Boundary::Nothing => {
                if self.leap(over_edges, end) {
                    notes.none();
                    return Ok(None);
                }
                self.act(&Doing::Nothing, notes, over_edges, within)
            }
            Boundary::Instruction => {
                let next = self.engine.instruction();
                self.act(&next, notes, over_edges, within)
            }
            Boundary::Request => self.act(&Doing::Request, notes, over_edges, within),
            Boundary::SingleStep => self.act(&Doing::SingleStep, notes, over_edges, within),
            Boundary::Iteration => self.act(&Doing::Iteration, notes, over_edges, within),
        }
    }

    /// Makes a turn of a leap of time, up to `end` at most, while the processor does nothing. Answers whether there was
    /// one; if not, nothing has changed, and this clock has work.
    #[inline(always)]
    fn leap(&mut self, over_edges: bool, end: u64) -> bool
        requires idle { acts.Nothing ≡ next_act self.old.plain }
        requires before { clock_of self.old.plain < end }
        requires limit { end ≤ 2 ^ 40 }
        ensures made { IsTrue result → IsLeapOn end 1 self.old self.new }
        ensures steady { ¬ (IsTrue over_edges) → IsTrue result → WiresStay self.old.plain self.new.plain }
        ensures not_made { ¬ (IsTrue result) → self.new ≡ self.old }
        ensures works { ¬ (IsTrue result) → 1 ≤ work_next self.old.plain }
    {
        if !self.engine.leap(over_edges, end) {
            return false;
        }
        self.turns += 1;
        true
    }

    /// Makes a turn of an act: the processor does `next` in this clock, and those other clocks of its step pass that
    /// end by `within`. A change of the speaker's level is listed first, so that want of memory leaves the board as it
    /// was. Answers what begins.
    #[inline(always)]
    fn act<N: Notes>(
        &mut self,
        next: &Doing,
        notes: &mut N,
        over_edges: bool,
        within: u64,
    ) -> Result<Option<Begun>, BoardFault>
        requires next { act_of self.old.plain.cpu self.old.plain.chips next.now ≡ next_act self.old.plain }
        requires exact { IsExact self.old.plain.cpu self.old.plain.chips (act_of self.old.plain.cpu self.old.plain.chips next.now) }
        requires ready { IsReadyToRun self.old.plain.cpu self.old.plain.chips next.now }
        requires works { 1 ≤ work_next self.old.plain }
        requires before { clock_of self.old.plain < within }
        requires limit { within ≤ 2 ^ 40 }
        ensures ok { OnOk result (IsActOn within self.old self.new) }
        ensures steady { ¬ (IsTrue over_edges) → OnOk result (WiresStayThen within self.old.plain self.new.plain) }
        ensures begun { IfOk result (λ begun. option_to_list begun ≡ map begun_of (trail_next self.old.plain)) }
        ensures clock { IfOk result (λ begun. IfSome begun (λ b. b.clock ≡ clock_of self.old.plain)) }
        ensures noted { OnOk result (N.are notes.new (accesses_next self.old.plain)) }
        ensures err { OnErr result (IsHeldBack self.old self.new) }
        ensures fault { IfErr result (λ fault. fault ≡ BoardFault.Memory) }
    {
        let begun = self.engine.begins(next);
        let high = self.engine.is_high_next(next);
        self.list_change(high)?;
        self.engine
            .act(next, &mut self.trail, notes, over_edges, within);
        self.turns += 1;
        Ok(begun)
    }

    /// Makes steps of the run's loop while it is known that nothing comes, up to `end` or an IP that is watched, and
    /// counts each as a turn. Answers whether there were any; if not, nothing has changed, and a turn is needed.
    #[inline(always)]
    fn quiet_steps<W: Watch>(&mut self, end: u64, watch: &W) -> bool
        requires before_end { clock_of self.old.plain < end }
        requires within { end ≤ 2 ^ 40 }
        ensures steps { AreStepsOn (W.unwatched watch.now) end self.old self.new }
        ensures made { IsTrue result → clock_of self.old.plain < clock_of self.new.plain }
        ensures not_made { ¬ (IsTrue result) → self.new ≡ self.old }
    {
        let made = self.engine.quiet_steps(&mut self.trail, end, watch);
        if made == 0 {
            return false;
        }
        self.turns += made;
        true
    }

    /// Makes quiet steps up to `end`, and answers whether a turn is due after them: not if the run has come to its end,
    /// nor if more quiet steps may follow at once, as after a repeat.
    #[inline(always)]
    fn steps_to_a_turn(&mut self, end: u64) -> bool
        requires before_end { clock_of self.old.plain < end }
        requires within { end ≤ 2 ^ 40 }
        ensures steps { AreStepsOn all_unwatched end self.old self.new }
        ensures due { IsTrue result → clock_of self.new.plain < end }
        ensures not_due { ¬ (IsTrue result) → clock_of self.old.plain < clock_of self.new.plain }
    {
        let made = self.quiet_steps(end, &Nothing);
        if self.clock().get() >= end {
            return false;
        }
        !made || self.engine.quiet.is_stuck
    }

    /// Lists the change of the speaker's level at the next clock, at which it is `high`; nothing if it is so now.
    /// Refused as `Memory`, with nothing changed, if the list can't grow.
    #[inline(always)]
    fn list_change(&mut self, high: bool) -> Result<(), BoardFault>
        requires within { clock_of self.old.plain < 2 ^ 40 }
        requires next { from_bool high ≡ speaker_level (after_clock self.old.plain) }
        ensures plain { self.new.plain ≡ self.old.plain }
        ensures trail { self.new.trail ≡ self.old.trail }
        ensures turns { self.new.turns ≡ self.old.turns }
        ensures changes { OnOk result (self.new.changes ≡ self.old.changes ++ change_next self.old.plain) }
        ensures room { OnOk result (self.old.room + length self.old.changes ≤ self.new.room + length self.new.changes) }
        ensures err { OnErr result (IsHeldBack self.old self.new) }
        ensures fault { IfErr result (λ fault. fault ≡ BoardFault.Memory) }
    {
        if high == self.engine.is_high() {
            return Ok(());
        }
        self.add_change(high)
    }

    /// Adds a change of the speaker's level at the next clock to the list: the rare case of `list_change`, kept out of
    /// line. Refused as `Memory`, with nothing changed, if the list can't grow.
    #[inline(never)]
    fn add_change(&mut self, high: bool) -> Result<(), BoardFault>
        requires { clock_of self.old.plain < 2 ^ 40 }
        ensures plain { self.new.plain ≡ self.old.plain }
        ensures trail { self.new.trail ≡ self.old.trail }
        ensures turns { self.new.turns ≡ self.old.turns }
        ensures ok { OnOk result
            (self.new.changes
            ≡ self.old.changes ++ (record { clock = clock_of self.old.plain + 1; level = from_bool high }) ∷ []) }
        ensures room { OnOk result (self.old.room + length self.old.changes ≤ self.new.room + length self.new.changes) }
        ensures err { OnErr result (self.new ≡ self.old) }
        ensures full { OnErr result (self.old.room ≡ 0) }
        ensures fault { IfErr result (λ fault. fault ≡ BoardFault.Memory) }
    {
        let level = Line::from_bool(high);
        let clock = Clock::new(self.clock().get() + 1).unwrap();
        self.reserve_speaker(1)?;
        self.changes.push_reserved(SpeakerChange { clock, level });
        Ok(())
    }

    /// The clock at which the board stands, counted from power-on.
    #[tactic(auto, unfolding(board_plain::specs::Plain::clock_of))]
    pub fn clock(&self) -> Clock
        ensures { result ≡ clock_of self.now.plain }
    {
        self.engine.chips.clock()
    }

    /// The processor's registers and flags at the board's clock, for reports and viewers.
    #[tactic(auto, unfolding(board_plain::specs::Plain::registers_of))]
    pub fn regs(&self) -> Regs
        ensures { result ≡ registers_of self.now.plain }
    {
        self.engine.cpu.regs()
    }

    /// The byte at the physical address `addr`, below 100000h, for viewers; reading it changes nothing.
    #[tactic(auto, unfolding(board_plain::specs::Plain::byte_of))]
    pub fn byte(&self, addr: u32) -> u8
        requires { addr < 2 ^ 20 }
        ensures { result ≡ byte_of self.now.plain addr }
    {
        self.engine.chips.byte(addr)
    }

    /// Whether the processor runs, is halted or is jammed, for reports and viewers.
    #[tactic(auto, unfolding(board_plain::specs::Plain::state_of))]
    pub fn state(&self) -> State
        ensures { result ≡ state_of self.now.plain }
    {
        self.engine.cpu.state()
    }

    /// Whether a stop's condition holds at the board's clock, for callers that look turn by turn.
    pub fn holds(&self, condition: Condition) -> bool
        requires { HasAddress condition }
        ensures { result ≡ holds condition self.now.plain }
    {
        self.engine.holds(&condition)
    }

    /// How many key codes were lost since power-on because the keyboard's queue was full, for reports.
    #[tactic(auto, unfolding(board_plain::specs::Plain::lost_codes))]
    pub fn lost(&self) -> u64
        ensures { result ≡ lost_codes self.now.plain }
    {
        self.engine.chips.lost()
    }

    /// How many turns the board has made since power-on, at most one a clock, by which the debugger measures how long a
    /// run takes: an act with the leap over the other clocks of its step is one, and so is each other leap of time and
    /// each step of the run's loop.
    pub fn turns(&self) -> u64
        ensures { result ≡ self.now.turns }
    {
        self.turns
    }

    /// How often an instruction was decoded since the board was made, to judge how well the cache serves; no contract
    /// speaks of it.
    pub fn decodes(&self) -> u64 {
        self.engine.chips.decodes()
    }

    /// The changes of the speaker's level since power-on, when it is low, in order: for reports, and for a host that
    /// makes sound from them.
    pub fn speaker_changes(&self) -> &[SpeakerChange]
        ensures { result.now ≡ self.now.changes }
    {
        self.changes.as_slice()
    }

    /// Entry `i` of the trail, the oldest being 0, for a user to see what led here: an instruction that began, or an
    /// interrupt that was entered. Up to the last 32 are there; `None` beyond them.
    pub fn trail(&self, i: usize) -> Option<TrailEntry>
        ensures entry { result ≡ slice_get self.now.trail i }
        ensures length { length self.now.trail ≤ 32 }
    {
        self.trail.get(i)
    }

    /// The screen's 25 rows of 80 characters, each ended by a line feed, for reports and the debugger. Refused as
    /// `Memory` if there is none for them.
    #[tactic(auto, unfolding(board_plain::specs::Plain::screen_of))]
    pub fn screen(&self) -> Result<String, BoardFault>
        ensures ok { IfOk result (λ text. string_bytes text ≡ screen_of self.now.plain) }
        ensures err { IfErr result (λ fault. fault ≡ BoardFault.Memory) }
    {
        Ok(self.engine.chips.text()?)
    }
}

/// Whether a turn of `run_last` may pass all clocks of a step: all stops wait for a free processor (`whole`), and none
/// holds here, so none holds before the step's end.
fn stops_nowhere(whole: bool, here: Option<usize>) -> bool
    ensures { IsTrue result → IsTrue whole × (here ≡ None) }
{
    match here {
        Some(_) => false,
        None => whole,
    }
}

/// What `run_last` has found last: the stop number `here` if one holds up to `clock`, else `last`, what was found
/// before.
fn latest(last: Option<(Clock, usize)>, here: Option<usize>, clock: Clock) -> Option<(Clock, usize)>
    ensures { result ≡ found_at last here clock }
{
    match here {
        Some(number) => Some((clock, number)),
        None => last,
    }
}
