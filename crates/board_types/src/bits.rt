//! The bits of a byte, by their numbers.
ghost use Rattle.std.specs.Prelude.{◌≡◌, ◌<◌};
ghost use Rattle.board_types.specs.Bits.{has_bit};

/// Whether bit `n` of `byte` is 1; bit 0 is the lowest, and `n` is below 8.
pub fn bit(byte: u8, n: u8) -> bool
    requires { n < 8 }
    ensures { result ≡ has_bit byte n }
{
    byte >> n & 1 == 1
}
