//! A timer that may lag: its ticks are counted, and made when something asks for more than the levels of its outputs.
ghost use Rattle.std.specs.Prelude.{ℕ, true, false, ◌≡◌, ◌<◌, ◌≤◌, IfSome, IsTrue};
ghost use Rattle.board_types.specs.Timed.{IsSteady, IsUntilTurn};
ghost use Rattle.board_types.specs.declared.line.Line.{Line};
ghost use Rattle.pit8253.specs.Counter as counter;
ghost use Rattle.pit8253.specs.Counter.{out_of};
ghost use Rattle.wiring.specs.LaggingTimer.{is_before, later_turn, IsSoon};
ghost use Rattle.pit8253.specs.Pit.{power_on, after_ticks, after_gate, after_write, byte_at, after_read};

use board_types::choice::TimerKind;
use board_types::line::Line;
use pit8253::pit::Pit;
use std::marker::Model;

/// The timer as it is now; its counters may lag by some ticks.
#[derive(Drop)]
pub(crate) struct Timer {
    /// The timer as it was before the ticks that are only counted.
    pit: Pit,
    /// How many ticks `pit` lags: OUT0 and OUT2 haven't changed in them.
    lag: u64,
    /// After how many ticks, counted from `pit`, OUT0 changes; `None` if it never does.
    turn_0: Option<u64>,
    /// After how many ticks, counted from `pit`, OUT2 changes; `None` if it never does.
    turn_2: Option<u64>,
}

impl Model for Timer {
    ghost use Rattle.pit8253.specs.Pit.{PitState, after_ticks};
    ghost use Rattle.wiring.specs.LaggingTimer.{IsLagging};

    ghost Value = { PitState };

    ghost view = { λ t. after_ticks t.pit t.lag };

    ghost invariant = { λ t. IsLagging t.pit.counter_0 t.turn_0 t.lag × IsLagging t.pit.counter_2 t.turn_2 t.lag };
}

impl Timer {
    /// Makes a timer of this kind at power-on, for the board's chips.
    pub(crate) fn new(kind: TimerKind) -> Timer
        ensures { result ≡ power_on kind }
    {
        Timer::standing(Pit::with(kind))
    }

    /// Makes a timer of this state that doesn't lag, and works out when OUT0 and OUT2 next change.
    #[tactic(auto, using(crate::proofs::Lagging::at_once, crate::proofs::Lagging::no_lag))]
    pub(crate) fn standing(pit: Pit) -> Timer
        ensures { result ≡ pit }
    {
        let turn_0 = pit.until_change(0);
        let turn_2 = pit.until_change(2);
        Timer {
            pit,
            lag: 0,
            turn_0,
            turn_2,
        }
    }

    /// The timer with all its ticks made, which a read, a write, a copy or the probe needs; this one goes on lagging.
    pub(crate) fn synced(&self) -> Pit
        ensures { result ≡ self.now }
    {
        let mut pit = self.pit;
        pit.advance(self.lag);
        pit
    }

    /// Lets the counters tick `ticks` times, as the board's clocks pass: the ticks are only counted as long as neither
    /// OUT0 nor OUT2 changes, and else made.
    #[inline(always)]
    pub(crate) fn advance(&mut self, ticks: u64)
        ensures { self.new ≡ after_ticks self.old ticks }
    {
        if !self.count(ticks) {
            self.tick(ticks);
        }
    }

    /// Counts `ticks` more ticks, to be made later, if neither OUT0 nor OUT2 changes in them, and says whether it did;
    /// if not, nothing is done, and the board must look at each change.
    #[inline(always)]
    #[tactic(auto, using(crate::proofs::Lagging::later, crate::proofs::Lagging::lags_still))]
    pub(crate) fn count(&mut self, ticks: u64) -> bool
        ensures counted { IsTrue result → self.new ≡ after_ticks self.old ticks }
        ensures left { result ≡ false → self.new ≡ self.old }
        ensures out_0 { IsTrue result → IsSteady counter.after_ticks out_of self.old.counter_0 ticks }
        ensures out_2 { IsTrue result → IsSteady counter.after_ticks out_of self.old.counter_2 ticks }
    {
        if let Some(lag) = self.lag.checked_add(ticks)
            && is_before(lag, self.turn_0)
            && is_before(lag, self.turn_2)
        {
            self.lag = lag;
            return true;
        }
        false
    }

    /// Makes the counted ticks, and `ticks` more, for `advance`, since an output changes in them. Mostly that is OUT0,
    /// and then it stays known when OUT2 changes.
    #[inline(never)]
    #[tactic(auto, using(crate::proofs::Lagging::later, crate::proofs::Lagging::at_once))]
    fn tick(&mut self, ticks: u64)
        ensures { self.new ≡ after_ticks self.old ticks }
    {
        let Some(all) = self.lag.checked_add(ticks) else {
            return self.tick_apart(ticks);
        };
        self.pit.advance(all);
        self.lag = 0;
        self.turn_0 = self.pit.until_change(0);
        self.turn_2 = if is_before(all, self.turn_2) {
            later_turn(self.turn_2, all)
        } else {
            self.pit.until_change(2)
        };
    }

    /// Makes the counted ticks, and then `ticks` more, for `tick`: together they may be more than a `u64` counts.
    #[inline(never)]
    #[tactic(auto, using(crate::proofs::Lagging::later))]
    fn tick_apart(&mut self, ticks: u64)
        ensures { self.new ≡ after_ticks self.old ticks }
    {
        let mut pit = self.synced();
        pit.advance(ticks);
        *self = Timer::standing(pit);
    }

    /// The level of OUT0, which drives IR0; no lag changes it.
    #[tactic(auto, using(crate::proofs::Lagging::out_0_stays))]
    pub(crate) fn out_0(&self) -> Line
        ensures { result ≡ self.now.counter_0.out }
    {
        self.pit.out(0)
    }

    /// The level of OUT2, which goes to the speaker and the parallel port; no lag changes it.
    #[tactic(auto, using(crate::proofs::Lagging::out_2_stays))]
    pub(crate) fn out_2(&self) -> Line
        ensures { result ≡ self.now.counter_2.out }
    {
        self.pit.out(2)
    }

    /// After how many ticks, from 1 on, OUT0 changes, so that the board leaps up to there; `None` if it never does.
    pub(crate) fn until_turn_0(&self) -> Option<u64>
        ensures { IsUntilTurn counter.after_ticks out_of self.now.counter_0 result }
    {
        later_turn(self.turn_0, self.lag)
    }

    /// After how many ticks, from 1 on, OUT2, and with it perhaps the speaker, changes; `None` if it never does.
    pub(crate) fn until_turn_2(&self) -> Option<u64>
        ensures { IsUntilTurn counter.after_ticks out_of self.now.counter_2 result }
    {
        later_turn(self.turn_2, self.lag)
    }

    /// After how many ticks, from 1 on, OUT0 or OUT2 changes, so that the board is quiet up to there; `None` if
    /// neither ever does.
    pub(crate) fn until_turn(&self) -> Option<u64>
        ensures out_0 { (ticks : ℕ) → is_before ticks result ≡ true
            → IsSteady counter.after_ticks out_of self.now.counter_0 ticks }
        ensures out_2 { (ticks : ℕ) → is_before ticks result ≡ true
            → IsSteady counter.after_ticks out_of self.now.counter_2 ticks }
        ensures some { IfSome result (λ n. 1 ≤ n) }
        ensures soon { IsSoon result }
    {
        later_turn(earlier_turn(self.turn_0, self.turn_2), self.lag)
    }

    /// The byte that a program's IN from `port`, below 4, gives; the counted ticks are made first.
    pub(crate) fn read(&mut self, port: u8) -> u8
        requires { port < 4 }
        ensures byte { result ≡ byte_at self.old port }
        ensures state { self.new ≡ after_read self.old port }
    {
        let mut pit = self.synced();
        let byte = pit.read(port);
        *self = Timer::standing(pit);
        byte
    }

    /// Writes `value` to `port`, below 4, for a program's OUT; the counted ticks are made first.
    pub(crate) fn write(&mut self, port: u8, value: u8)
        requires { port < 4 }
        ensures { self.new ≡ after_write self.old port value }
    {
        let mut pit = self.synced();
        pit.write(port, value);
        *self = Timer::standing(pit);
    }

    /// Gives gate 2 the level `line`, that of line 0 of port B, as the wires settle. If nothing changes by that, the
    /// timer goes on lagging.
    #[tactic(auto, using(crate::proofs::Lagging::gate_stays))]
    pub(crate) fn set_gate_2(&mut self, line: Line)
        ensures { self.new ≡ after_gate self.old 2 line }
    {
        if !self.pit.keeps_gate_2(line) {
            self.turn_gate_2(line);
        }
    }

    /// Makes the counted ticks and then gives gate 2 the level `line`, for `set_gate_2`, if that changes counter 2:
    /// OUT2's next change is then another.
    #[inline(never)]
    fn turn_gate_2(&mut self, line: Line)
        ensures { self.new ≡ after_gate self.old 2 line }
    {
        let mut pit = self.synced();
        pit.set_gate(2, line);
        *self = Timer::standing(pit);
    }
}

/// The earlier of two changes of outputs, each after a number of ticks or, if `None`, never: up to there neither OUT0
/// nor OUT2 changes.
#[inline(always)]
fn earlier_turn(a: Option<u64>, b: Option<u64>) -> Option<u64>
    ensures first { (ticks : ℕ) → is_before ticks result ≡ true → (is_before ticks a ≡ true) × (is_before ticks b ≡ true) }
    ensures both { (ticks : ℕ) → is_before ticks a ≡ true → is_before ticks b ≡ true → is_before ticks result ≡ true }
    ensures soon { IsSoon a → IsSoon b → IsSoon result }
{
    match (a, b) {
        (Some(a), Some(b)) => Some(a.min(b)),
        (Some(a), None) => Some(a),
        (None, b) => b,
    }
}

/// Whether `ticks` ticks come before an output's change, so that they may be counted without being made; always if it
/// never changes.
#[inline(always)]
fn is_before(ticks: u64, turn: Option<u64>) -> bool
    ensures { result ≡ is_before ticks turn }
{
    match turn {
        Some(turn) => ticks < turn,
        None => true,
    }
}

/// How many ticks are left to an output's change after `lag` ticks, which come before it; `None` if it never changes.
#[inline(always)]
fn later_turn(turn: Option<u64>, lag: u64) -> Option<u64>
    requires { IsTrue (is_before lag turn) }
    ensures turn { result ≡ later_turn turn lag }
    ensures some { IfSome result (λ n. 1 ≤ n) }
{
    match turn {
        Some(turn) => Some(turn - lag),
        None => None,
    }
}
