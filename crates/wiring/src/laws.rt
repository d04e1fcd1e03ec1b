//! What holds of memory and of the wires whatever the chips' states are. Each is an empty function whose contract
//! states it.
ghost use Rattle.wiring.specs.WiringLaws.{SettlesOnce, KeysSettleOnce, SettledAgree, SettlingChangesAlone, ClocksTick, WiresStay, DependsOnWrites, NoKeyTouches, NoEntryTouches, NoReadTouches, WriteChangesOneByte};

/// Wires that have settled stay as they are when they settle again, so a board may leave out settlings after which
/// nothing has changed: its leaps over clocks rest on that.
pub fn settles_once()
    ensures { SettlesOnce }
{}

/// Once the keyboard and then the wires have settled, the keyboard settles to nothing else: so each clock of the board
/// ends at rest.
pub fn keys_settle_once()
    ensures { KeysSettleOnce }
{}

/// Settled wires, at a controller of eight lines, are as the board has them: gate 2 is line 0 of port B, IR0 is OUT0,
/// IR1 is high while the keyboard's latch is full, and the latch is empty while line 7 of port B is 1.
pub fn settled_agree()
    ensures { SettledAgree }
{}

/// A settling changes the keyboard's latch, gate 2 with what that does to counter 2, and lines 0 and 1 of the
/// controller with the rises that are remembered for them, and nothing else: so no other wire is hidden in it.
pub fn settling_changes_alone()
    ensures { SettlingChangesAlone }
{}

/// From clock c on, n clocks tick the counters (c + n)/4 - c/4 times, both quotients rounded down, while the wires
/// have settled: the timer has a quarter of the processor's clock, and leaps count on that.
pub fn clocks_tick()
    ensures { ClocksTick }
{}

/// Gates 0 and 1, which nothing drives, are high at power-on, and of the controller's eight lines IR2 to IR7 low, and
/// so they stay at each byte written, port read or written, clock, key and interrupt taken: only IR0 and IR1 ever
/// rise.
pub fn wires_stay()
    ensures { WiresStay }
{}

/// The speaker's next level depends on the parallel port, counter 2 but for what its reads change, the clock and the
/// port writes alone: so the board can tell it from an act's writes before the clock is made.
pub fn depends_on_writes()
    ensures { DependsOnWrites }
{}

/// No key that arrives touches the speaker's next level, so the board can tell it without looking at the keys to come.
pub fn no_key_touches()
    ensures { NoKeyTouches }
{}

/// No interrupt that the processor takes touches the speaker's next level, so the board can tell it without making the
/// entry.
pub fn no_entry_touches()
    ensures { NoEntryTouches }
{}

/// If the wires have settled, no read of a port touches the speaker's next level: only a program's port writes do.
pub fn no_read_touches()
    ensures { NoReadTouches }
{}

/// A write changes the byte of a RAM or text address, which then reads back, and no other byte; anywhere else it
/// changes nothing. A program may rely on its memory.
pub fn write_changes_one_byte()
    ensures { WriteChangesOneByte }
{}
