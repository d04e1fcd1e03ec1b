//! The parallel port: three ports with an output latch each, and the switches, the keyboard's latch and
//! counter 2's output on their pins (Intel 8255A data sheet; IBM PC Technical Reference, "System Board I/O").
ghost use Rattle.std.specs.Prelude.{◌≡◌, ◌<◌, ◌/◌, ◌%◌};
ghost use Rattle.board_types.specs.Bits.{has_bit};
ghost use Rattle.ppi8255.specs.PpiNumbers.{ppi_of};
ghost use Rattle.ppi8255.specs.Ppi.{power_on, port_byte, lines_b, pins_a, pins_c, port_c_byte, byte_at, direction_of, after_mode_word, with_bit, after_write};

use crate::image;
use crate::image::PpiImage;
use board_types::bits::bit;
use board_types::line::Line;
use std::marker::Model;

/// Whether a group of lines takes its level from outside or drives it.
#[derive(Clone, Copy)]
pub enum Direction {
    Input,
    Output,
}

/// What the board brings to the pins at a read, besides the switches.
#[derive(Clone, Copy)]
pub struct Inputs {
    /// The keyboard's latch, `None` when it is empty.
    pub latch: Option<u8>,
    /// The output of the timer's counter 2.
    pub out2: Line,
}

/// The parallel port at its addresses 60h to 63h.
#[derive(Clone, Copy)]
pub struct Ppi {
    sw1: u8,
    sw2: u8,
    a: Direction,
    b: Direction,
    c_upper: Direction,
    c_lower: Direction,
    a_latch: u8,
    b_latch: u8,
    c_latch: u8,
}

impl Model for Ppi {
    ghost use Rattle.ppi8255.specs.Ppi.{PpiState};

    ghost Value = { PpiState };

    ghost view = { λ p. record {
      sw1 = p.sw1;
      sw2 = p.sw2;
      a = p.a;
      b = p.b;
      c_upper = p.c_upper;
      c_lower = p.c_lower;
      a_latch = p.a_latch;
      b_latch = p.b_latch;
      c_latch = p.c_latch;
    } };

    ghost inverse = { λ s. record {
      sw1 = s.sw1;
      sw2 = s.sw2;
      a = s.a;
      b = s.b;
      c_upper = s.c_upper;
      c_lower = s.c_lower;
      a_latch = s.a_latch;
      b_latch = s.b_latch;
      c_latch = s.c_latch;
    } };
}

impl Ppi {
    /// The parallel port after reset, with all ports as inputs, for a board at power-on. `sw1` has the eight switches
    /// of SW1; bits 4 to 0 of `sw2` are the five of SW2, and the bits above them stand for nothing.
    pub fn new(sw1: u8, sw2: u8) -> Self
        ensures { result ≡ power_on sw1 sw2 }
    {
        Ppi {
            sw1,
            sw2,
            a: Direction::Input,
            b: Direction::Input,
            c_upper: Direction::Input,
            c_lower: Direction::Input,
            a_latch: 0,
            b_latch: 0,
            c_latch: 0,
        }
    }

    /// The parallel port that an image stands for, as a caller in C hands it over; any numbers stand for some one.
    #[tactic(auto, unfolding(crate::specs::PpiNumbers::ppi_of))]
    pub fn from_image(image: &PpiImage) -> Self
        ensures { result ≡ ppi_of image.now }
    {
        Ppi {
            sw1: image.sw1,
            sw2: image.sw2,
            a: image::direction_by(image.a),
            b: image::direction_by(image.b),
            c_upper: image::direction_by(image.c_upper),
            c_lower: image::direction_by(image.c_lower),
            a_latch: image.a_latch,
            b_latch: image.b_latch,
            c_latch: image.c_latch,
        }
    }

    /// The parallel port as plain numbers, for callers in C and for showing it; `from_image` makes it again of them.
    #[tactic(auto, unfolding(crate::specs::PpiNumbers::ppi_of))]
    pub fn image(&self) -> PpiImage
        ensures { ppi_of result ≡ self.now }
    {
        PpiImage {
            sw1: self.sw1,
            sw2: self.sw2,
            a: image::direction_number(self.a),
            b: image::direction_number(self.b),
            c_upper: image::direction_number(self.c_upper),
            c_lower: image::direction_number(self.c_lower),
            a_latch: self.a_latch,
            b_latch: self.b_latch,
            c_latch: self.c_latch,
        }
    }

    /// The byte that IN gives from one of the ports 60h to 63h, as `port` 0 to 3: 0 to 2 are ports A to C, 3 is the
    /// control register, which can't be read and gives FFh.
    #[inline(always)]
    #[tactic(auto, unfolding(crate::specs::Ppi::byte_at))]
    pub fn read(&self, port: u8, inputs: Inputs) -> u8
        requires { port < 4 }
        ensures { result ≡ byte_at self.now port inputs }
    {
        match port {
            0 => self.a.port_byte(self.a_latch, self.pins_a(inputs)),
            1 => self.port_b(),
            2 => self.port_c(self.pins_c(inputs)),
            _ => 0xFF,
        }
    }

    /// Takes `value` from OUT to one of the ports 60h to 63h, as `port` 0 to 3: 0 to 2 are the output latches of ports
    /// A to C, 3 is the control register.
    #[tactic(auto, unfolding(crate::specs::Ppi::after_write))]
    pub fn write(&mut self, port: u8, value: u8)
        requires { port < 4 }
        ensures { self.new ≡ after_write self.old port value }
    {
        match port {
            0 => self.a_latch = value,
            1 => self.b_latch = value,
            2 => self.c_latch = value,
            _ if bit(value, 7) => self.set_mode(value),
            _ => self.set_bit(value),
        }
    }

    /// The levels of port B's eight lines, by which the board drives gate 2, the speaker and the keyboard; all 0 until
    /// port B is made an output.
    pub fn port_b(&self) -> u8
        ensures { result ≡ lines_b self.now }
    {
        self.b.port_byte(self.b_latch, 0)
    }

    /// The levels on port A's pins: the switches SW1 if line 7 of port B is high, else the keyboard's latch, 0 if it is
    /// empty.
    fn pins_a(&self, inputs: Inputs) -> u8
        ensures { result ≡ pins_a self.now inputs }
    {
        if bit(self.port_b(), 7) {
            self.sw1
        } else {
            inputs.latch.unwrap_or(0)
        }
    }

    /// The levels on port C's pins: in bits 3 to 0 four switches of SW2 if line 2 of port B is high, else the fifth in
    /// bit 0; in bit 5 OUT2 of the timer.
    fn pins_c(&self, inputs: Inputs) -> u8
        ensures { result ≡ pins_c self.now inputs }
    {
        let switches = if bit(self.port_b(), 2) {
            self.sw2 % 16
        } else {
            self.sw2 / 16 % 2
        };
        match inputs.out2 {
            Line::Low => switches,
            Line::High => switches + 32,
        }
    }

    /// The byte that a read of port C gives, with these levels on its pins: the upper and the lower four lines each
    /// show pins or latch, by their direction.
    fn port_c(&self, pins: u8) -> u8
        ensures { result ≡ port_c_byte self.now pins }
    {
        let upper = self.c_upper.port_byte(self.c_latch, pins);
        let lower = self.c_lower.port_byte(self.c_latch, pins);
        upper / 16 * 16 + lower % 16
    }

    /// Obeys a mode word, a write of the control register with bit 7 set: sets the directions of ports A, B and both
    /// halves of C, and clears all latches.
    fn set_mode(&mut self, word: u8)
        ensures { self.new ≡ after_mode_word self.old word }
    {
        self.a = direction_of(word, 4);
        self.b = direction_of(word, 1);
        self.c_upper = direction_of(word, 3);
        self.c_lower = direction_of(word, 0);
        self.a_latch = 0;
        self.b_latch = 0;
        self.c_latch = 0;
    }

    /// Obeys a bit set/reset word, a write of the control register with bit 7 clear: sets the bit of port C's latch
    /// that bits 3 to 1 name to bit 0.
    fn set_bit(&mut self, word: u8)
        ensures { self.new ≡ record self.old { c_latch = with_bit self.old.c_latch (word / 2 % 8) (has_bit word 0) } }
    {
        let mask = 1 << (word / 2 % 8);
        if bit(word, 0) {
            self.c_latch |= mask;
        } else {
            self.c_latch &= !mask;
        }
    }
}

impl Direction {
    /// What a read of a group of lines with this direction gives: the latch of an output, the pins of an input.
    fn port_byte(self, latch: u8, pins: u8) -> u8
        ensures { result ≡ port_byte self latch pins }
    {
        match self {
            Direction::Input => pins,
            Direction::Output => latch,
        }
    }
}

/// The direction that bit `k` of a mode word gives to a group of lines: 1 is input.
fn direction_of(word: u8, k: u8) -> Direction
    requires { k < 8 }
    ensures { result ≡ direction_of word k }
{
    if bit(word, k) {
        Direction::Input
    } else {
        Direction::Output
    }
}
