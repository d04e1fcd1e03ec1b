//! The Intel 8255A in mode 0, with the board's switches on its pins. Ports are numbered by A1 and A0.
ghost use Rattle.std.specs.Prelude.{◌≡◌, ◌%◌};
ghost use Rattle.ppi8255.specs.PpiNumbers.{ppi_of};
ghost use Rattle.ppi8255.specs.Ppi.{power_on, after_write, byte_at, lines_b};
ghost use Rattle.zebludor_chips.specs.Pins.{inputs_of};

use crate::levels::line_of;
use ppi8255::image::PpiImage;
use ppi8255::ppi::{Inputs, Ppi};

/// Makes `*ppi` a parallel port at reset, for a bench in C, with the eight switches of SW1 and the five of SW2: every
/// port is an input, the latches are clear. The image may hold any bytes before.
#[unsafe(no_mangle)]
pub extern "C" fn zebludor_ppi_power_on(ppi: &mut PpiImage, sw1: u8, sw2: u8)
    ensures { ppi_of ppi.new ≡ power_on sw1 sw2 }
{
    *ppi = Ppi::new(sw1, sw2).image();
}

/// Answers a bench's read of port `port` modulo 4, with the keyboard's latch (0 if it is empty) and the level of the
/// timer's OUT2 on the pins; port 3 gives FFh.
#[unsafe(no_mangle)]
pub extern "C" fn zebludor_ppi_read(ppi: &PpiImage, port: u8, latch: u8, out2: u8) -> u8
    ensures { result ≡ byte_at (ppi_of ppi.now) (port % 4) (inputs_of latch out2) }
{
    let inputs = Inputs {
        latch: Some(latch),
        out2: line_of(out2),
    };
    Ppi::from_image(ppi).read(port % 4, inputs)
}

/// Does a bench's write to the latch of port `port` modulo 4, or of a control word to port 3.
#[unsafe(no_mangle)]
pub extern "C" fn zebludor_ppi_write(ppi: &mut PpiImage, port: u8, value: u8)
    ensures { ppi_of ppi.new ≡ after_write (ppi_of ppi.old) (port % 4) value }
{
    let mut chip = Ppi::from_image(ppi);
    chip.write(port % 4, value);
    *ppi = chip.image();
}

/// The levels of port B's eight lines, by which a bench in C drives gate 2, the speaker and the keyboard: 0 of a line
/// that is an input.
#[unsafe(no_mangle)]
pub extern "C" fn zebludor_ppi_port_b(ppi: &PpiImage) -> u8
    ensures { result ≡ lines_b (ppi_of ppi.now) }
{
    Ppi::from_image(ppi).port_b()
}
