//! What the definition of a counter means over time, in the data sheet's terms. Each law is a function that
//! does nothing: its contract speaks of the definition alone.
ghost use Rattle.pit8253.specs.PitNumbers.{AnyNumbersAreATimer};
ghost use Rattle.pit8253.specs.PitLaws.{TicksAdd, CountsDown, CountsToStrobe, CountsPeriod, CountsHalf, ReloadsAtOne, CountsPeriods, CountsHalves, CountsOut, ShootsOnce, Divides, MakesSquares, StaysHigh, StrobesOnce, StrobesOnTrigger, LatchHolds, LatchHoldsBoth, LatchIsHeld, ReadsBoth, CountsInDecimal, GateSetsHigh, RiseReloads, GateStops, GateStopsStrobe, FirstByteStops, NewCountWaits, WaitsForLoad, CountsOutAsTold, ShootsAsTriggered, DividesAsTold, MakesSquaresAsTold, StrobesAsTold, StrobesAsTriggered, CountersTickAlike};
ghost use Rattle.pit8253.specs.Laws8254.{ReadsBack, StatusComesFirst, ProgramEndsLatches, ReadBackIsHeld, NullTillLoaded, CountsEven, KnowsNoReadBack, MakesTheSameWave};

/// Ticking a counter k times and then m times leaves it as k + m ticks do, so that a board may let ticks pass in one
/// go.
#[tactic(auto, using(crate::proofs::Waves::ticks_add))]
pub fn ticks_add()
    ensures { TicksAdd }
{}

/// How a counter that counts stands n ticks later, in each mode: the count and OUT from any count, in modes 2 and 3 up
/// to the next load, and what that load makes of it. The laws of each mode's wave rest on it.
#[tactic(auto, using(crate::proofs::Waves::counts_down, crate::proofs::Waves::counts_to_strobe, crate::proofs::Waves::counts_period, crate::proofs::Waves::counts_half, crate::proofs::Waves::reloads_at_one))]
pub fn counts()
    ensures modes_0_and_1 { CountsDown }
    ensures modes_4_and_5 { CountsToStrobe }
    ensures mode_2 { CountsPeriod }
    ensures mode_3 { CountsHalf }
    ensures mode_3_at_1 { ReloadsAtOne }
{}

/// How a counter stands n ticks after a load in modes 2 and 3: its count goes round its periods, in mode 3 by halves,
/// so that whole periods can be left out.
#[tactic(auto, using(crate::proofs::Waves::counts_periods, crate::proofs::Waves::counts_halves))]
pub fn counts_round()
    ensures mode_2 { CountsPeriods }
    ensures mode_3 { CountsHalves }
{}

/// In mode 0, while the gate is high and no first byte stops it, OUT is low for the count's ticks after the load, and
/// then high: a program can have an interrupt after so many ticks.
#[tactic(auto, using(crate::proofs::Waves::mode_0))]
pub fn counts_out()
    ensures { CountsOut }
{}

/// In mode 1 OUT is low for the count's ticks after the load, whatever the gate, and then high: one pulse for each
/// trigger.
#[tactic(auto, using(crate::proofs::Waves::mode_1))]
pub fn shoots_once()
    ensures { ShootsOnce }
{}

/// In mode 2, while the gate is high, at a count other than 1, OUT is low for the last tick of each period: a program
/// divides the clock by its count.
#[tactic(auto, using(crate::proofs::Waves::mode_2))]
pub fn divides()
    ensures { Divides }
{}

/// In mode 3, while the gate is high, at a count N other than 1, OUT is a square wave, as of the speaker's tones: an
/// odd N is high for (N + 1) / 2 ticks and low for (N - 1) / 2, an even one half and half.
#[tactic(auto, using(crate::proofs::Waves::mode_3))]
pub fn makes_squares()
    ensures { MakesSquares }
{}

/// In modes 2 and 3 a count of 1 is loaded again at each tick and keeps OUT high: a program gets no wave of it.
#[tactic(auto, using(crate::proofs::Waves::a_count_of_1))]
pub fn stays_high()
    ensures { StaysHigh }
{}

/// In mode 4, while the gate is high, OUT is low for the one tick that ends the count, and never again: one strobe for
/// each count that a program writes.
#[tactic(auto, using(crate::proofs::Waves::mode_4))]
pub fn strobes_once()
    ensures { StrobesOnce }
{}

/// In mode 5 OUT is low for the one tick that ends the count, and never again, whatever the gate: one strobe for each
/// trigger.
#[tactic(auto, using(crate::proofs::Waves::mode_5))]
pub fn strobes_on_trigger()
    ensures { StrobesOnTrigger }
{}

/// A latch holds a count, whatever ticks follow, until its last byte is read, so that a program reads two bytes of one
/// moment; a second latch changes nothing.
#[tactic(auto, using(crate::proofs::Latches::latch_holds, crate::proofs::Latches::latch_is_held))]
pub fn latch_holds()
    ensures one_byte { LatchHolds }
    ensures two_bytes { LatchHoldsBoth }
    ensures held { LatchIsHeld }
{}

/// Two reads of a running count, the low byte first, with no latch and no tick between, give its two bytes.
#[tactic(auto, using(crate::proofs::Latches::reads_both))]
pub fn reads_both()
    ensures { ReadsBoth }
{}

/// In decimal a program's digits count by their weights, and are shown as they were written.
#[tactic(auto, using(crate::proofs::Latches::counts_in_decimal))]
pub fn counts_in_decimal()
    ensures { CountsInDecimal }
{}

/// What holds a counter: with the gate low and no load due, it stays as it is in mode 0, 2 or 3, and in mode 4 its
/// count does. In mode 0 the first byte of two that a program writes stops the count, too.
#[tactic(auto, using(crate::proofs::Waits::gate_stops, crate::proofs::Waits::gate_stops_strobe, crate::proofs::Waits::first_byte_stops))]
pub fn counting_stops()
    ensures gate { GateStops }
    ensures strobe { GateStopsStrobe }
    ensures first_byte { FirstByteStops }
{}

/// In modes 2 and 3 a low gate sets OUT high at once, and a rise after a full count loads it at the next tick: so the
/// gate starts the wave anew.
#[tactic(auto, using(crate::proofs::Waits::gate_sets_high, crate::proofs::Waits::rise_reloads))]
pub fn gate_restarts()
    ensures low { GateSetsHigh }
    ensures rise { RiseReloads }
{}

/// In modes 2 and 3 a new count waits for the end of the period or of the half, so a program changes a wave without
/// breaking it off.
#[tactic(auto, using(crate::proofs::Waits::new_count_waits))]
pub fn new_count_waits()
    ensures { NewCountWaits }
{}

/// Before the first load a counter shows the count that it held before the control word, whatever ticks pass.
#[tactic(auto, using(crate::proofs::Waits::waits_for_load))]
pub fn waits_for_load()
    ensures { WaitsForLoad }
{}

/// What a program gets that writes a control word for two bytes (30h to 3Ah) and a count's bytes: the wave of each
/// mode from the next tick on, in modes 0, 2, 3 and 4 while the gate is high, in modes 1 and 5 from a trigger on.
#[tactic(auto, using(crate::proofs::Told::counts_out_as_told, crate::proofs::Told::shoots_as_triggered, crate::proofs::Told::divides_as_told, crate::proofs::Told::makes_squares_as_told, crate::proofs::Told::strobes_as_told, crate::proofs::Told::strobes_as_triggered))]
pub fn waves_as_told()
    ensures mode_0 { CountsOutAsTold }
    ensures mode_1 { ShootsAsTriggered }
    ensures mode_2 { DividesAsTold }
    ensures mode_3 { MakesSquaresAsTold }
    ensures mode_4 { StrobesAsTold }
    ensures mode_5 { StrobesAsTriggered }
{}

/// The three counters tick side by side, each as if it were alone, so that the laws of one counter hold of the timer.
#[tactic(auto, using(crate::proofs::PitTicks::each_counter))]
pub fn counters_tick_alike()
    ensures { CountersTickAlike }
{}

/// Any numbers of an image make a timer that can be, so that a caller in C can't hand over a bad one.
#[tactic(auto, using(crate::proofs::Numbers::any_numbers_are_a_timer))]
pub fn any_numbers_are_a_timer()
    ensures { AnyNumbersAreATimer }
{}

/// What a program reads of an 8254 after a read-back: its status first and then its count, as they were, whatever
/// ticks follow; a second read-back before any read changes nothing.
#[tactic(auto, using(crate::proofs::ReadBack::reads_back, crate::proofs::ReadBack::read_back_is_held))]
pub fn reads_back()
    ensures reads { ReadsBack }
    ensures held { ReadBackIsHeld }
{}

/// A latched status is read before a count, and its read leaves the rest, also the byte order, as it was.
#[tactic(auto, using(crate::proofs::ReadBack::status_comes_first))]
pub fn status_comes_first()
    ensures { StatusComesFirst }
{}

/// A control word that programs an 8254's counter ends what is latched, and sets its null count.
#[tactic(auto, using(crate::proofs::ReadBack::program_ends_latches))]
pub fn program_ends_latches()
    ensures { ProgramEndsLatches }
{}

/// An 8254's null count is set by a full count, and cleared by the tick that loads one and by no other: so a program
/// can see whether its count is running.
#[tactic(auto, using(crate::proofs::ReadBack::null_till_loaded))]
pub fn null_till_loaded()
    ensures { NullTillLoaded }
{}

/// Mode 3 of an 8254 counts an odd N above 1 from N - 1 by 2, in either half: so a program reads other counts of it
/// than of an 8253.
#[tactic(auto, using(crate::proofs::TwoKinds::counts_even))]
pub fn counts_even()
    ensures { CountsEven }
{}

/// An 8253 ignores a read-back, so a program for the 8254 changes nothing by it.
#[tactic(auto, using(crate::proofs::ReadBack::knows_no_read_back))]
pub fn knows_no_read_back()
    ensures { KnowsNoReadBack }
{}

/// From a load on, OUT of an 8254 is that of an 8253, in each mode: only what is read tells them apart.
#[tactic(auto, using(crate::proofs::TwoKinds::makes_the_same_wave))]
pub fn makes_the_same_wave()
    ensures { MakesTheSameWave }
{}
