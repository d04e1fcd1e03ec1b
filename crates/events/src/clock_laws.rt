//! What holds of the events of a plain board's clocks.
ghost use Rattle.events.specs.KeyLaws.{KeyStandsInOrder, KeyToComeWaits, KeyWasThere, ListsStay};
ghost use Rattle.events.specs.LevelLaws.{LevelsAreTold, StatesAlternate, StatesAreTold, WiresAlternate, WiresAreTold};
ghost use Rattle.events.specs.OrderLaws.{ClocksAreTold, ClocksNeverFall, OrderIsTold};
ghost use Rattle.events.specs.PortLaws.{AccessesAreTold, ReadsAreTold};
ghost use Rattle.events.specs.ShadowLaws.{ShadowsChangeNothing};
ghost use Rattle.events.specs.ClockLaws.{CodesAreTold, EventsAddUp, LossesAreTold, MemoryIsWritten, OneClockIsTold, QueueIsTold, SpeakerIsTold, TrailIsTold};

/// The events of some clocks are those of each of them, in order: what holds of a clock's events holds of a run's.
pub fn events_add_up()
    ensures more { EventsAddUp }
    ensures one { OneClockIsTold }
{}

/// Memory after some clocks is memory before them with the bytes of their write events, in order, put wherever an
/// address takes bytes: a list of writes misses nothing that changes memory.
pub fn memory_is_written()
    ensures { MemoryIsWritten }
{}

/// The instructions that begin and the interrupts that are entered, by the events of some clocks, are those that the
/// board adds to its trail: event list and trail agree.
pub fn trail_is_told()
    ensures { TrailIsTold }
{}

/// The changes of the speaker's wire, by the events of some clocks, are those that the board adds to its list of the
/// speaker's changes: event list and sound agree.
pub fn speaker_is_told()
    ensures { SpeakerIsTold }
{}

/// Each key code whose stamp is reached arrives or is lost, in order. The codes that waited and those that arrive are
/// those that are latched and those that still wait; and the board's count of lost codes grows by those that the events
/// call lost.
pub fn keys_are_told()
    ensures codes { CodesAreTold }
    ensures queue { QueueIsTold }
    ensures losses { LossesAreTold }
{}

/// The accesses of a clock, made in order by the board's own reads and writes, leave its chips and memory as the
/// processor's part of the clock leaves them, and each byte that is read of a port is the one that the board gives then: a
/// list of accesses misses none that changes anything, and has each at its place.
pub fn accesses_are_told()
    ensures accesses { AccessesAreTold }
    ensures reads { ReadsAreTold }
{}

/// The level of each wire after some clocks is the one before them, turned by each of the wire's events to the level that
/// the event says, and each of them turns it: a list of wires misses no change, and none is told twice. And each level is
/// what the wire's other end has, once the wires have settled, as they have at every clock of every board.
pub fn wires_are_told()
    ensures levels { WiresAreTold }
    ensures turns { WiresAlternate }
    ensures settled { LevelsAreTold }
{}

/// The processor's state after some clocks is the one that the last event of it says, and each of these events brings
/// another state: a list of states misses no halt, wake or jam, and has none twice.
pub fn states_are_told()
    ensures states { StatesAreTold }
    ensures turns { StatesAlternate }
{}

/// Each event of a clock has the clock that its kind has: what the processor does the one that begins, keys and wires the
/// one that is reached; and in a list of events clocks never fall.
pub fn clocks_are_told()
    ensures clocks { ClocksAreTold }
    ensures rising { ClocksNeverFall }
{}

/// The events of a clock stand in the order of its parts: what begins, the accesses, the processor's new state, the codes
/// that come, the one that moves into the latch, and the wires, each at its place.
pub fn order_is_told()
    ensures { OrderIsTold }
{}

/// A key that is still to come changes no clock before its stamp, and nothing of what those clocks add to the lists; so
/// the debugger may add a key to a running board as if the board had had it from power-on.
pub fn key_to_come_waits()
    ensures waits { KeyToComeWaits }
    ensures lists { ListsStay }
    ensures first { KeyWasThere }
{}

/// A typed key stands after all keys that aren't stamped later, and before all that are.
pub fn key_stands_in_order()
    ensures { KeyStandsInOrder }
{}

/// Two boards with IF 0 that differ only in whether requests are kept off differ in nothing else at any later clock: what
/// an interrupt's entry keeps off changes nothing of the board but itself.
pub fn shadows_change_nothing()
    ensures { ShadowsChangeNothing }
{}
