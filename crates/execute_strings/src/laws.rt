//! What holds of string instructions over any bus.
ghost use Rattle.execute_strings.specs.StringLaws.{CopiesInOrder};

use bus::Bus;

/// Checks the definition of a repeat of MOVS, up or down: each iteration puts the source's next element, as memory
/// stands then, at the destination's next if that takes bytes, and changes no other byte. After n of them SI and DI
/// stand at element n, CX is lower by n, all modulo 65,536, and the other registers are as before.
pub fn copies_in_order<B: Bus>()
    ensures { CopiesInOrder B.meaning }
{}
