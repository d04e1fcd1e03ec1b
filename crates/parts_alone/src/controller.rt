//! An 8259A alone on a test bench: the words of its initialisation through its two ports, lines that rise, and the
//! vectors that the bench gets.
ghost use Rattle.std.specs.Prelude.{◌≡◌, ◌+◌, ◌*◌, ◌/◌, ◌<◌, ◌∷◌, [], false};
ghost use Rattle.pic8259.specs.Pic.{power_on, after_write};
ghost use Rattle.pic8259.specs.PicLaws.{after_words, HasEnded};

use board_types::line::Line;
use pic8259::controller::Pic;

/// A controller after the initialisation that a program makes through its two ports: edge mode, no slaves, 8086 mode,
/// nothing masked, and vectors from `base` on, whose low three bits don't matter. Code for a reader to copy.
pub fn initialised(base: u8) -> Pic
    ensures words { result ≡ after_words (after_write power_on false 0x13) (base ∷ 1 ∷ []) }
    ensures ended { HasEnded result 0x13 base 1 }
{
    let mut pic = Pic::new();
    pic.write(false, 0x13); // ICW1, at A0 = 0: edges, no slaves, ICW4 follows
    pic.write(true, base); // ICW2, at A0 = 1: bits 7 to 3 of the vectors
    pic.write(true, 0x01); // ICW4: 8086 mode
    pic
}

/// The vectors that a bench gets of two lines, of which the one with the lower priority rises first: by an acknowledge,
/// a plain end of interrupt, and another acknowledge. An example of the interrupt controller used alone.
pub fn vectors_of(base: u8, first: u8, second: u8) -> (u8, u8)
    requires order { first < second }
    requires within { second < 8 }
    ensures { result ≡ (8 * (base / 8) + first, 8 * (base / 8) + second) }
{
    let mut pic = initialised(base);
    pic.set_line(second, Line::High);
    pic.set_line(first, Line::High);
    let highest = pic.acknowledge();
    pic.write(false, 0x20); // OCW2: end of interrupt
    (highest, pic.acknowledge())
}
