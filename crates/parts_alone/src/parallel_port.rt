//! An 8255A alone, with the board's switches at its pins: mode words, port B's lines, what ports A and C read, and the
//! word that sets a single bit of port C.
ghost use Rattle.std.specs.Prelude.{◌≡◌, ◌%◌};

use board_types::line::Line;
use ppi8255::ppi::{Inputs, Ppi};

/// No key in the latch, and counter 2's output low.
const INPUTS: Inputs = Inputs {
    latch: None,
    out2: Line::Low,
};

/// The switches of SW1 and SW2 as a start-up program reads them through ports A and C, an example of the parallel port
/// used alone. Bits 4 to 0 of `sw2` are its five switches.
pub fn switches_of(sw1: u8, sw2: u8) -> (u8, u8)
    ensures { result ≡ (sw1, sw2 % 32) }
{
    let mut ppi = Ppi::new(sw1, sw2);
    ppi.write(3, 0x99); // mode word: ports A and C are inputs, B is an output
    ppi.write(1, 0x80); // line 7 of port B: SW1 is at port A
    let first = ppi.read(0, INPUTS);
    ppi.write(1, 0x04); // line 2: four switches of SW2 are at port C
    let four = ppi.read(2, INPUTS) % 16;
    ppi.write(1, 0x00); // line 2 low: the fifth is there
    let fifth = ppi.read(2, INPUTS) % 2;
    (first, four + 16 * fifth)
}

/// What port C reads if counter 2's output is high and bit 3 of its lower half, an output, was set by a single-bit
/// word: an example of the parallel port used alone.
pub fn port_c() -> u8
    ensures { result ≡ 0x28 }
{
    let mut ppi = Ppi::new(0, 0);
    ppi.write(3, 0x98); // mode word: A and C's upper half are inputs, B and C's lower half outputs
    ppi.write(3, 0x07); // single bit: bit 3 of port C becomes 1
    ppi.read(
        2,
        Inputs {
            latch: None,
            out2: Line::High,
        },
    )
}
