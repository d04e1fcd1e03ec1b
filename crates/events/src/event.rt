//! What happens in a clock.

use crate::access::Access;
use board_plain::trail::TrailEntry;
use board_types::clock::Clock;
use board_types::state::State;

/// Something that happens in a clock of the plain board, as an event list says it. The processor's events have the
/// clock that begins, at which the board stands; those of keys and wires have the next one, to which it leads.
#[derive(Drop)]
pub enum Event {
    /// An instruction begins, or an interrupt is entered at a boundary, as the trail has it.
    Began(TrailEntry),
    /// The processor writes a byte to memory, or reaches a port.
    Reached(Clock, Access),
    /// The processor halts, wakes up or jams: its new state.
    Became(Clock, State),
    /// A key's code arrives, is lost or is latched.
    Keyed(Clock, KeyEvent, u8),
    /// A wire takes another level; true means high.
    Wired(Clock, Wire, bool),
}

/// What becomes of a key's code.
#[derive(Clone, Copy, Debug, PartialEq, Eq)]
pub enum KeyEvent {
    /// The code reaches the keyboard, and waits.
    Arrives,
    /// The code reaches the keyboard while sixteen others wait, and is dropped.
    IsLost,
    /// The code moves into the latch.
    IsLatched,
}

/// A wire whose changes are events.
#[derive(Clone, Copy, Debug, PartialEq, Eq)]
pub enum Wire {
    /// The output of counter 0.
    Out0,
    /// The output of counter 2.
    Out2,
    /// Request line 0 of the interrupt controller.
    Ir0,
    /// Request line 1.
    Ir1,
    /// The controller's output.
    Int,
    /// The speaker.
    Speaker,
}
