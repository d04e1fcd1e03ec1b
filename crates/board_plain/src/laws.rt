//! What holds of every plain board, over the definitions alone.
ghost use Rattle.board_plain.specs.ChangeLaws.{ByteIsShown, ChangesLeaveWired, ClocksLeaveWired, RegistersAreShown, RunningOnKeeps, SameByteStays};
ghost use Rattle.board_plain.specs.BoardLaws.{AtMostOneStep, AtMostTwoEdges, HaltIsQuiet, IdleHasNoWork, JamIsQuiet, LeastNumberIsTold, LevelIsPredicted, MemoryTakesBytes, NoRequestWithoutIf, RequestIsTaken, RunsHaveOneEnd, RunsJoin, SearchesJoin, StayingRequestIsTaken, WiresAlwaysHold};

/// If the wires hold, the speaker's level at the next clock is known from the port writes that the processor is about
/// to make: no read, entry, iteration or key touches it. So a board can list the change before it makes it.
pub fn level_is_predicted()
    ensures { LevelIsPredicted }
{}

/// At every clock of every board the wires and the keyboard have settled, gates 0 and 1 of the timer are high, and IR2
/// to IR7 of the interrupt controller are low.
pub fn wires_always_hold()
    ensures { WiresAlwaysHold }
{}

/// At every clock of every board, each address of RAM and of text memory takes any byte that is written there: no run
/// turns RAM into ROM.
pub fn memory_takes_bytes()
    ensures { MemoryTakesBytes }
{}

/// The processor takes a request in a clock exactly if there is one and it may take one: it is free and not jammed, IF
/// is set, and no instruction keeps requests off. A request that stays is therefore taken, at the first clock at which
/// it may be.
pub fn request_is_taken()
    ensures taken { RequestIsTaken }
    ensures staying { StayingRequestIsTaken }
{}

/// A processor whose IF is 0 at each of some clocks takes no request in any of them, so that a program may shut
/// interrupts out.
pub fn no_request_without_if()
    ensures { NoRequestWithoutIf }
{}

/// A halted processor that is free, with no single step due, no key that comes, and IF 0 or no request in each of some
/// clocks, stays as it is in them, with memory, keyboard, parallel port and text; only the chips go on.
pub fn halt_is_quiet()
    ensures { HaltIsQuiet }
{}

/// A jammed processor that is free stays as it is in some clocks, whatever is requested, if no key comes, and so do
/// memory and keyboard; only the chips go on.
pub fn jam_is_quiet()
    ensures { JamIsQuiet }
{}

/// Every run ends in exactly one way: at the first clock after its start at which a condition holds, or, if none does,
/// without a stop.
pub fn runs_have_one_end()
    ensures { RunsHaveOneEnd }
{}

/// The number of a stop, which the user is told, is the least of the conditions that hold at its clock.
pub fn least_number_is_told()
    ensures { LeastNumberIsTold }
{}

/// A run and the next one make one run of the clocks of both: board, changes of the speaker's level and trail are those
/// of the whole. On it rest the proofs of all that runs in pieces, turns, probe and debugger.
pub fn runs_join()
    ensures { RunsJoin }
{}

/// A search for a stop that finds nothing and the next one make one search of the clocks of both, so that the debugger
/// may search in pieces.
pub fn searches_join()
    ensures { SearchesJoin }
{}

/// What counts as work, by which `run` bounds its turns: a clock adds at most one step or jam, and at most two edges.
/// It adds nothing exactly if the processor does nothing, neither OUT0 nor OUT2 changes, and no key is stamped with the
/// clock that is reached.
pub fn idle_has_no_work()
    ensures step { AtMostOneStep }
    ensures edges { AtMostTwoEdges }
    ensures idle { IdleHasNoWork }
{}

/// A change of a register shows in the registers and nowhere else, and a change of a byte in that byte and nowhere else,
/// whether or not the processor could write it; a byte that stands there already changes nothing at all.
pub fn changes_are_shown()
    ensures registers { RegistersAreShown }
    ensures running_on { RunningOnKeeps }
    ensures byte { ByteIsShown }
    ensures same_byte { SameByteStays }
{}

/// In a changed board, too, the wires hold at every clock, and the addresses of RAM and of text memory take the
/// processor's bytes: each clock and each change leaves that as it was.
pub fn changed_boards_stay_wired()
    ensures clocks { ClocksLeaveWired }
    ensures changes { ChangesLeaveWired }
{}
