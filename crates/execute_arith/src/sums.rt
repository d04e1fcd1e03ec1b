//! Sums and differences with their flags.
ghost use Rattle.std.specs.Prelude.{◌≡◌, ◌<◌};
ghost use Rattle.std.specs.Int.{from_bool};
ghost use Rattle.execute_machine.specs.Flags.{forgetting};
ghost use Rattle.execute_machine.specs.Sums.{difference_of, sum_of, with_difference, with_sum};
ghost use Rattle.execute_machine.specs.Widths.{size_of};

use execute_machine::flags::{FlagRegister, StatusFlags};
use execute_machine::overflow::{difference_overflows, sum_overflows};
use execute_machine::width::Width;

/// Adds two numbers of this width and the carry, for ADC: returns the sum, cut to the width, and sets all status flags
/// at once.
#[inline(never)]
#[tactic(auto, unfolding(execute_machine::specs::Sums::with_sum))]
pub fn add(flags: &mut FlagRegister, width: Width, a: u16, b: u16, carry: bool) -> u16
    requires first { a < size_of width }
    requires second { b < size_of width }
    ensures value { result ≡ sum_of width a b (from_bool carry) }
    ensures bound { result < size_of width }
    ensures flags { flags.new ≡ with_sum (forgetting flags.old) width a b (from_bool carry) }
{
    let total = u32::from(a) + u32::from(b) + u32::from(carry);
    let sum = width.cut(total);
    flags.set_status(StatusFlags {
        carry: total >= width.size(),
        auxiliary_carry: a % 16 + b % 16 + u16::from(carry) >= 16,
        overflow: sum_overflows(width, a, b, carry, sum),
        ..StatusFlags::of_result(width, sum)
    });
    sum
}

/// Subtracts the second of two numbers of this width, and the borrow, from the first, for SBB, NEG and comparisons:
/// returns the difference, cut to the width, and sets all status flags at once.
#[inline(never)]
#[tactic(auto, unfolding(execute_machine::specs::Sums::with_difference))]
pub fn subtract(flags: &mut FlagRegister, width: Width, a: u16, b: u16, borrow: bool) -> u16
    requires first { a < size_of width }
    requires second { b < size_of width }
    ensures value { result ≡ difference_of width a b (from_bool borrow) }
    ensures bound { result < size_of width }
    ensures flags { flags.new ≡ with_difference (forgetting flags.old) width a b (from_bool borrow) }
{
    let taken = u32::from(b) + u32::from(borrow);
    let difference = width.cut(u32::from(a) + width.size() - taken);
    flags.set_status(StatusFlags {
        carry: u32::from(a) < taken,
        auxiliary_carry: a % 16 < b % 16 + u16::from(borrow),
        overflow: difference_overflows(width, a, b, borrow, difference),
        ..StatusFlags::of_result(width, difference)
    });
    difference
}

/// Sets the status flags by the first of two numbers of this width less the second, for CMPS and SCAS, which need no
/// more of the difference.
pub fn compare(flags: &mut FlagRegister, width: Width, a: u16, b: u16)
    requires first { a < size_of width }
    requires second { b < size_of width }
    ensures { flags.new ≡ with_difference (forgetting flags.old) width a b 0 }
{
    let _difference = subtract(flags, width, a, b, false);
}
