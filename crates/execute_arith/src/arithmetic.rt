//! Arithmetic and logic on two operands.
ghost use Rattle.std.specs.Prelude.{◌≡◌, ◌<◌};
ghost use Rattle.execute_arith.specs.ArithmeticMeaning.{keeps_result, result_of, with_flags_of};
ghost use Rattle.execute_machine.specs.Flags.{forgetting};
ghost use Rattle.execute_machine.specs.Sums.{with_logic};
ghost use Rattle.execute_machine.specs.Widths.{size_of};

use crate::sums::{add, subtract};
use execute_machine::flags::FlagRegister;
use execute_machine::width::Width;
use isa::operation::Arithmetic;

/// Returns what the operation makes of two numbers of this width and sets the flags: the arithmetic itself, for steps
/// by slots and all others.
#[inline(always)]
#[tactic(auto, unfolding(crate::specs::ArithmeticMeaning::result_of, crate::specs::ArithmeticMeaning::with_flags_of))]
pub fn calculate(
    flags: &mut FlagRegister,
    operation: Arithmetic,
    width: Width,
    a: u16,
    b: u16,
) -> u16
    requires first { a < size_of width }
    requires second { b < size_of width }
    ensures value { result ≡ result_of operation flags.old width a b }
    ensures flags { flags.new ≡ with_flags_of operation flags.old width a b }
{
    match operation {
        Arithmetic::Add => flags.add(width, a, b),
        Arithmetic::Adc => {
            let carry = flags.carry();
            add(flags, width, a, b, carry)
        }
        Arithmetic::Sub | Arithmetic::Cmp => flags.subtract(width, a, b),
        Arithmetic::Sbb => {
            let borrow = flags.carry();
            subtract(flags, width, a, b, borrow)
        }
        Arithmetic::And | Arithmetic::Test => logical(flags, width, a & b),
        Arithmetic::Or => logical(flags, width, a | b),
        Arithmetic::Xor => logical(flags, width, a ^ b),
    }
}

/// Sets the flags by a result of AND, OR, XOR or TEST and returns it, for `calculate`.
fn logical(flags: &mut FlagRegister, width: Width, value: u16) -> u16
    ensures value { result ≡ value }
    ensures flags { flags.new ≡ with_logic (forgetting flags.old) width value }
{
    flags.set_logic(width, value);
    value
}

/// Whether an operation writes its result to the first operand: CMP and TEST only set flags.
pub fn keeps_result(operation: Arithmetic) -> bool
    ensures { result ≡ keeps_result operation }
{
    !matches!(operation, Arithmetic::Cmp | Arithmetic::Test)
}
