//! Whether a sum or a difference overflows as a signed number.
ghost use Rattle.std.specs.Prelude.{◌≡◌, ◌<◌, pos, ◌+ℤ◌, ◌-ℤ◌};
ghost use Rattle.std.specs.Int.{from_bool};
ghost use Rattle.execute_machine.specs.Sums.{difference_of, is_outside, signed_of, sum_of};
ghost use Rattle.execute_machine.specs.Widths.{size_of};

use crate::width::Width;

/// Whether a sum overflows as a signed number, as OF says after ADD, ADC and INC: both numbers have one sign, and the
/// sum has the other.
pub fn sum_overflows(width: Width, a: u16, b: u16, carry: bool, sum: u16) -> bool
    requires first { a < size_of width }
    requires second { b < size_of width }
    requires sum { sum ≡ sum_of width a b (from_bool carry) }
    ensures { result ≡ is_outside width (signed_of width a +ℤ signed_of width b +ℤ pos (from_bool carry)) }
{
    width.is_negative(a) == width.is_negative(b) && width.is_negative(sum) != width.is_negative(a)
}

/// Whether a difference overflows as a signed number, as OF says after SUB, SBB, CMP, NEG and DEC: the numbers have
/// different signs, and the difference doesn't have the first one's.
pub fn difference_overflows(width: Width, a: u16, b: u16, borrow: bool, difference: u16) -> bool
    requires first { a < size_of width }
    requires second { b < size_of width }
    requires difference { difference ≡ difference_of width a b (from_bool borrow) }
    ensures { result ≡ is_outside width (signed_of width a -ℤ signed_of width b -ℤ pos (from_bool borrow)) }
{
    width.is_negative(a) != width.is_negative(b)
        && width.is_negative(difference) != width.is_negative(a)
}
