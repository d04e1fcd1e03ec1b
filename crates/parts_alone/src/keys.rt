//! The keyboard and its latch alone: codes arrive, and the lines of port B move them into the latch and clear it.
ghost use Rattle.std.specs.Prelude.{◌≡◌, IfOk, unwrap_or};
ghost use Rattle.keyboard.specs.Keyboard.{after_settling};

use keyboard::keyboard::Keyboard;
use std::alloc::{AllocError, Global};

/// The codes that a program reads which takes one three times, after two have arrived; an empty latch reads 0. An
/// example of the keyboard used alone, through its latch.
pub fn codes_of(alloc: Global, first: u8, second: u8) -> Result<(u8, u8, u8), AllocError>
    ensures { IfOk result (λ codes. codes ≡ (first, second, 0)) }
{
    let mut keyboard = Keyboard::new(alloc)?;
    keyboard.arrive(first);
    keyboard.arrive(second);
    let one = take(&mut keyboard);
    let two = take(&mut keyboard);
    let three = take(&mut keyboard);
    Ok((one, two, three))
}

/// Reads a key code from the latch, once the keyboard may send, and clears the latch for the next, as a program does by
/// port B; 0 if none came.
fn take(keyboard: &mut Keyboard) -> u8
    ensures code { result ≡ unwrap_or (after_settling keyboard.old 0x40).latch 0 }
    ensures state { keyboard.new ≡ after_settling (after_settling keyboard.old 0x40) 0xC0 }
{
    keyboard.settle(0x40); // line 6 of port B: the first code moves into the empty latch
    let code = keyboard.latch().unwrap_or(0);
    keyboard.settle(0xC0); // line 7: the latch is cleared
    code
}
