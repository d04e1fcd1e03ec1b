//! How the clocks of a run are counted by what began.
ghost use Rattle.std.specs.Prelude.{ℕ, ◌≡◌, ◌+◌, ◌-◌, ◌*◌, ◌<◌, ◌≤◌, ◌^◌, ◌==◌, ◌++◌, if◌then◌else◌, [], ◌∷◌, List, IfErr, IfOk, IfSome, MatchResult, None, OnErr, OnOk, Some};
ghost use Rattle.std.specs.BTreeMap.{get, IsOrdered};
ghost use Rattle.std.specs.List.{flat_map};
ghost use Rattle.std.specs.Option.{option_to_list};
ghost use Rattle.std.specs.Ordering.{nat_cmp};
ghost use Rattle.std.specs.String.{string_bytes};
ghost use Rattle.board.specs.declared.one_turn.Begun.{Begun};
ghost use Rattle.board.specs.OneTurn.{begun_in};
ghost use Rattle.board_plain.specs.Plain.{clock_of};
ghost use Rattle.probe.specs.Counted.{HasCountedAll};
ghost use Rattle.probe.specs.Counts.{count_line, counts_of, counts_text, name_of, next_clock, number_of};
ghost use Rattle.probe.specs.Making.{AnswersMaking};
ghost use Rattle.probe_texts.specs.Asked.{nothing_asked};
ghost use Rattle.probe.specs.Tallied.{AreBelow, AreTallies, HasCounted, IsBefore, one_more, tally_line};

use crate::making::{Visitor, make, shown};
use crate::seen::Turn;
use board::board::Board;
use board::one_turn::Begun;
use board_types::clock::Clock;
use board_types::digits::{HexByte, HexWord};
use debugger::session::Session;
use debugger_meaning::answer::Answer;
use debugger_meaning::fault::DebugFault;
use execute_noted::notes::Unnoted;
use probe_texts::asked::Asked;
use std::alloc::{AllocError, Global};
use std::collections::BTreeMap;
use std::fmt;

/// The least number of an entry into an interrupt: those of places, CS:IP, are below.
const FIRST_ENTRY: u64 = 1 << 32;

/// How often something began, and the clocks from each beginning up to the next: what `counts` shows of a CS:IP or of a
/// type of interrupt.
#[derive(Clone, Copy)]
pub(crate) struct Tally {
    count: u64,
    clocks: u64,
}

/// What began so far in a run of the inquiry `counts`.
#[derive(Drop)]
pub(crate) struct Counts {
    /// The clock of the first beginning, once there was one.
    first: Clock,
    /// What began last. It is tallied once its clocks are known.
    latest: Option<Begun>,
    /// The tallies, by the numbers of what began.
    tallies: BTreeMap<u64, Tally>,
}

impl Counts {
    /// Begins to count, for a run from the clock `start`.
    fn new(alloc: Global, start: Clock) -> Counts
        ensures noted { HasCounted [] result }
        ensures started { result.first ≡ start }
        ensures before { (clock : ℕ) → IsBefore clock result }
    {
        Counts {
            first: start,
            latest: None,
            tallies: BTreeMap::new(alloc),
        }
    }

    /// Notes what began in a turn of the run, if anything did.
    fn note(&mut self, begun: Option<Begun>) -> Result<(), AllocError>
        requires { IfSome begun (λ b. IsBefore b.clock self.old) }
        ensures noted { OnOk result ((all : List Begun) → HasCounted all self.old
            → HasCounted (all ++ option_to_list begun) self.new) }
        ensures before { OnOk result ((clock : ℕ) → IfSome begun (λ b. b.clock < clock) → IsBefore clock self.old
            → IsBefore clock self.new) }
        ensures started { OnOk result ((start : ℕ) → IfSome begun (λ b. start ≤ b.clock)
            → start ≤ self.old.first → start ≤ self.new.first) }
    {
        match begun {
            None => Ok(()),
            Some(begun) => self.begin(begun),
        }
    }

    /// Notes what begins, and tallies what began before it, whose clocks end here.
    fn begin(&mut self, begun: Begun) -> Result<(), AllocError>
        requires { IsBefore begun.clock self.old }
        ensures noted { OnOk result ((all : List Begun) → HasCounted all self.old
            → HasCounted (all ++ begun ∷ []) self.new) }
        ensures before { OnOk result ((clock : ℕ) → begun.clock < clock → IsBefore clock self.new) }
        ensures started { OnOk result ((start : ℕ) → start ≤ begun.clock → start ≤ self.old.first
            → start ≤ self.new.first) }
    {
        self.tally_latest(begun.clock)?;
        self.latest = Some(begun);
        Ok(())
    }

    /// Tallies what began last, whose clocks end at this one, the next beginning or the run's end. If nothing has begun
    /// yet, the clocks before the first beginning end here.
    fn tally_latest(&mut self, clock: Clock) -> Result<(), AllocError>
        requires { IsBefore clock self.old }
        ensures tallied { OnOk result ((all : List Begun) → HasCounted all self.old → AreTallies all clock self.new.tallies) }
        ensures below { OnOk result (AreBelow clock self.new.tallies) }
        ensures before { OnOk result ((all : List Begun) → HasCounted all self.old → self.new.first ≡ next_clock all clock) }
        ensures started { (start : ℕ) → start ≤ clock → start ≤ self.old.first → start ≤ self.new.first }
        ensures latest { self.new.latest ≡ self.old.latest }
    {
        let Some(begun) = self.latest else {
            self.first = clock;
            return Ok(());
        };
        let clocks = clock.get() - begun.clock.get();
        add(&mut self.tallies, number_of(begun), clocks)
    }

    /// Returns the answer to `counts`, for a run from `start` to `end`: the clocks before the first beginning, a line
    /// for each CS:IP and each type of interrupt, and the clock that is reached.
    fn text(&mut self, alloc: Global, start: Clock, end: Clock) -> Result<String, AllocError>
        requires before { IsBefore end self.old }
        requires started { start ≤ self.old.first }
        requires ended { start ≤ end }
        ensures { IfOk result (λ text. (all : List Begun) → HasCounted all self.old
            → string_bytes text ≡ counts_of all start end) }
    {
        self.tally_latest(end)?;
        let before = self.first.get() - start.get();
        let lines = lines_of(alloc, &self.tallies)?;
        let lines = lines.as_str();
        let end = end.get();
        format!(in alloc; "before {before}\n{lines}clock {end}\n")
    }
}

/// Returns the number under which a beginning is tallied: CS:IP, with the segment above the offset, or, above all of
/// these, the type of the interrupt that was entered.
fn number_of(begun: Begun) -> u64
    ensures { result ≡ number_of begun }
{
    match begun.entered {
        None => 65536 * u64::from(begun.cs) + u64::from(begun.ip),
        Some(kind) => FIRST_ENTRY + u64::from(kind),
    }
}

/// Tallies one more beginning under a number, with the clocks from it to the next.
#[inline(always)]
fn add(tallies: &mut BTreeMap<u64, Tally>, number: u64, clocks: u64) -> Result<(), AllocError>
    requires below { AreBelow (2 ^ 40) tallies.old }
    requires few { clocks ≤ 2 ^ 40 }
    ensures { OnOk result ((k : ℕ) → get nat_cmp tallies.new k
        ≡ (if k == number then Some (one_more (get nat_cmp tallies.old number) clocks) else get nat_cmp tallies.old k)) }
{
    if let Some(tally) = tallies.get_mut(&number) {
        tally.count += 1;
        tally.clocks += clocks;
        return Ok(());
    }
    add_first(tallies, number, clocks)
}

/// Tallies the first beginning under a number. Kept out of the loop of turns, which mostly comes to numbers that have
/// been tallied before.
#[inline(never)]
fn add_first(tallies: &mut BTreeMap<u64, Tally>, number: u64, clocks: u64) -> Result<(), AllocError>
    ensures { OnOk result ((k : ℕ) → get nat_cmp tallies.new k
        ≡ (if k == number then Some (one_more None clocks) else get nat_cmp tallies.old k)) }
{
    tallies.insert(number, Tally { count: 1, clocks })?;
    Ok(())
}

/// What a line of `counts` begins with: the CS:IP or the type of interrupt that a number stands for.
#[derive(Clone, Copy)]
pub(crate) struct Name {
    number: u64,
}

impl fmt::Display for Name {
    ghost output = { λ n. Some (name_of n.number) };

    /// Writes CS:IP, or `entry` and the type of an interrupt.
    fn fmt<W: fmt::Write>(&self, f: &mut fmt::Formatter<W>) -> fmt::Result {
        if self.number < FIRST_ENTRY {
            let cs = HexWord((self.number / 65536) as u16);
            let ip = HexWord((self.number % 65536) as u16);
            return write!(f, "{cs}:{ip}");
        }
        let kind = HexByte((self.number % 256) as u8);
        write!(f, "entry {kind}")
    }
}

/// Returns the lines of `counts`, by rising numbers.
fn lines_of(alloc: Global, tallies: &BTreeMap<u64, Tally>) -> Result<String, AllocError>
    ensures lines { IfOk result (λ text. string_bytes text ≡ flat_map tally_line tallies.now.entries) }
    ensures ordered { OnOk result (IsOrdered nat_cmp tallies.now) }
{
    let mut text = String::new(alloc);
    for (number, tally) in tallies {
        push_line(&mut text, Name { number: *number }, *tally)?;
    }
    Ok(text)
}

/// Adds a line of `counts`: what began, how often, and the clocks from there to the next beginnings.
fn push_line(text: &mut String, name: Name, tally: Tally) -> Result<(), AllocError>
    ensures { OnOk result (string_bytes text.new
        ≡ string_bytes text.old ++ count_line (name_of name.number) tally.count tally.clocks) }
{
    let Tally { count, clocks } = tally;
    write!(text, "{name} {count} {clocks}\n")
}

impl Visitor<Unnoted> for Counts {
    ghost Manner = { ℕ };

    ghost manner = { λ c. 0 };

    ghost asks = { λ m. nothing_asked };

    ghost saw = { λ c s n. HasCountedAll s n c };

    /// Asks for no events: what begins in a turn is known without.
    fn asked(&self) -> Asked {
        Asked::nothing()
    }

    /// Notes what began in a turn.
    fn see(&mut self, turn: &Turn, _notes: &Unnoted, _board: &Board) -> Result<(), AllocError> {
        self.note(turn.begun)
    }
}

/// Answers the inquiry `counts`: runs for `count` clocks, whatever the stops are, and answers what began how often and
/// the clocks from it. Refused as `make` says.
pub(crate) fn tell_counts(
    session: &mut Session,
    alloc: Global,
    count: u64,
) -> Result<Answer, DebugFault>
    ensures { AnswersMaking count (counts_text session.old.board.plain count) session.old result session.new }
{
    let start = session.board().clock();
    let mut counts = Counts::new(alloc, start);
    let end = make(session, count, &mut Unnoted, &mut counts)?;
    shown(session, counts.text(alloc, start, end))
}
