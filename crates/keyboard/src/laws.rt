//! What holds of every run of arrivals and settlings, over the definitions alone.
ghost use Rattle.std.specs.Prelude.{List, ℕ};
ghost use Rattle.keyboard.specs.Keyboard.{KeyboardState};
ghost use Rattle.keyboard.specs.Runs.{Event, AccountsForCodes, ComesInTurn, SettlesOnce};

/// No code vanishes or overtakes another: from any keyboard, over any run, the codes taken from the latch, the one in
/// it and those that wait are, in this order, the codes held at first and those that arrived and found room. Each code
/// that arrived either found room or was lost, and lost codes are counted.
pub fn accounts_for_codes()
    ensures { (s : KeyboardState) (es : List Event) → AccountsForCodes s es }
{}

/// If no code arrives, each round in which line 6 of port B lets the keyboard send and line 7 then empties the latch
/// takes the next of the codes that the keyboard holds.
pub fn comes_in_turn()
    ensures { (s : KeyboardState) (n : ℕ) → ComesInTurn s n }
{}

/// A keyboard that has settled to the lines of port B stays as it is while they stay and no code arrives; on it rests
/// that the board may spare settling.
pub fn settles_once()
    ensures { (s : KeyboardState) (port_b : ℕ) → SettlesOnce s port_b }
{}
