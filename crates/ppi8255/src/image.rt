//! A parallel port as plain numbers, laid out as C lays them out: for callers that know no enums, such as benches in C.
ghost use Rattle.std.specs.Prelude.{◌≡◌};
ghost use Rattle.ppi8255.specs.PpiNumbers.{direction_by};

use crate::ppi::{Direction, Ppi};

/// A parallel port in 9 bytes. Any numbers stand for something: a direction is 0 for an output, and anything else for
/// an input.
#[repr(C)]
#[derive(Clone, Copy)]
pub struct PpiImage {
    /// The eight switches of SW1.
    pub sw1: u8,
    /// The five switches of SW2, in bits 4 to 0; the bits above them stand for nothing.
    pub sw2: u8,
    /// The direction of port A.
    pub a: u8,
    /// The direction of port B.
    pub b: u8,
    /// The direction of port C's lines 7 to 4.
    pub c_upper: u8,
    /// The direction of port C's lines 3 to 0.
    pub c_lower: u8,
    pub a_latch: u8,
    pub b_latch: u8,
    pub c_latch: u8,
}

/// Makes a parallel port of its own image. The contract states that nothing is lost so: a caller in C that keeps the
/// image keeps the parallel port.
pub fn goes_through_its_image(ppi: &Ppi) -> Ppi
    ensures { result ≡ ppi.now }
{
    Ppi::from_image(&ppi.image())
}

/// The direction that a number of an image stands for: output if it is 0, else input.
pub(crate) fn direction_by(number: u8) -> Direction
    ensures { result ≡ direction_by number }
{
    if number == 0 {
        Direction::Output
    } else {
        Direction::Input
    }
}

/// The number that stands for a direction in an image: 0 for output, 1 for input.
pub(crate) fn direction_number(direction: Direction) -> u8
    ensures { direction_by result ≡ direction }
{
    match direction {
        Direction::Output => 0,
        Direction::Input => 1,
    }
}
