//! What holds of counts, of stops and of probes, by the definitions alone.
ghost use Rattle.probe.specs.LabLaws.{ChangeBegins, LabsStand, NoWayBackBefore, UndoGoesBack};
ghost use Rattle.probe.specs.MomentLaws.{EachMomentOnce, MomentsAreRuns, OneListOfRanges, PastTheEndAlike};
ghost use Rattle.probe.specs.ProbeLaws.{AnswersAsDebugger, CountsAddUp, ProbesStand, StandingEndsAlike, StandingMetAlike};

/// In what `counts` answers, the clocks before the first beginning, those of each CS:IP and those of each type of
/// interrupt add up to the clocks of the run: none is missed or counted twice.
pub fn counts_add_up()
    ensures { CountsAddUp }
{}

/// A run of a probe whose stops are all conditions ends as the board's own search for these does, and so does a way
/// back; so the probe may leave them to the session.
pub fn standing_ends_alike()
    ensures on { StandingEndsAlike }
    ensures back { StandingMetAlike }
{}

/// A probe whose stops are all conditions answers each line that the debugger knows as the debugger does: who knows
/// `pcboard debug` can use `pcprobe`.
pub fn answers_as_debugger()
    ensures { AnswersAsDebugger }
{}

/// After any lines, a probe's board is the one with which it began, given the typed keys from the start, some clocks
/// later: a probe shows only what a run with those keys comes to.
pub fn probes_stand()
    ensures { ProbesStand }
{}

/// In what `moments` answers, each clock of a trial is in exactly one range, and there is only one such list of ranges.
pub fn each_moment_stands_once()
    ensures once { EachMomentOnce }
    ensures one_list { OneListOfRanges }
{}

/// What `go` answers after a key has been typed for a clock, or two, is what the clock's range in `moments` says, and a
/// key that comes after the run's end changes nothing of it, so that no such key has to be tried.
pub fn moments_are_runs()
    ensures runs { MomentsAreRuns }
    ensures past_the_end { PastTheEndAlike }
{}

/// A change of the board begins a probe about the changed board, before which no way back leads, with the stops that it
/// had; an undo brings back all that was; and after any lines all boards stand some clocks after their first ones.
pub fn changes_begin_anew()
    ensures undo { UndoGoesBack }
    ensures begins { ChangeBegins }
    ensures back { NoWayBackBefore }
    ensures stand { LabsStand }
{}
