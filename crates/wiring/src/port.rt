//! What answers at a port (IBM PC Technical Reference, "I/O Address Map").
ghost use Rattle.std.specs.Prelude.{◌≡◌};
ghost use Rattle.wiring.specs.Ports.{port_at};
ghost use Rattle.wiring.specs.Sound.{HasNumber};

/// What answers at a port.
#[derive(Clone, Copy)]
pub enum Port {
    /// The interrupt controller, at its address line A0.
    Controller(bool),
    /// The timer, at one of its ports 0 to 3.
    Timer(u8),
    /// The parallel port, at one of its ports 0 to 3.
    Parallel(u8),
    /// The text adapter, at one of its ports by its number.
    Adapter(u16),
    /// Nothing: FFh is read, and a write is lost.
    Nothing,
}

/// Which chip a processor's IN from or OUT to port `number` reaches, and at which of the chip's own ports.
#[tactic(auto, unfolding(crate::specs::Ports::port_at))]
pub(crate) fn port_at(number: u16) -> Port
    ensures port { result ≡ port_at number }
    ensures number { HasNumber result }
{
    match number {
        0x20 => Port::Controller(false),
        0x21 => Port::Controller(true),
        0x40..=0x43 => Port::Timer((number - 0x40) as u8),
        0x60..=0x63 => Port::Parallel((number - 0x60) as u8),
        0x3B4 | 0x3B5 | 0x3B8 | 0x3BA => Port::Adapter(number),
        _ => Port::Nothing,
    }
}
