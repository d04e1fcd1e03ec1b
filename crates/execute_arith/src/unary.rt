//! Arithmetic and logic on one operand.
ghost use Rattle.std.specs.Prelude.{◌≡◌, ◌<◌, ◌-◌};
ghost use Rattle.execute_arith.specs.ArithmeticMeaning.{unary_result_of, with_unary_flags_of};
ghost use Rattle.execute_machine.specs.Widths.{size_of};

use crate::sums::subtract;
use execute_machine::flags::FlagRegister;
use execute_machine::width::Width;
use isa::operation::Unary;

/// Returns what INC, DEC, NOT or NEG makes of a number of this width, for steps by slots and all others, and sets the
/// flags, which NOT leaves as they are.
#[tactic(auto, unfolding(crate::specs::ArithmeticMeaning::unary_result_of, crate::specs::ArithmeticMeaning::with_unary_flags_of))]
pub fn calculate_unary(flags: &mut FlagRegister, operation: Unary, width: Width, a: u16) -> u16
    requires { a < size_of width }
    ensures value { result ≡ unary_result_of operation width a }
    ensures flags { flags.new ≡ with_unary_flags_of operation flags.old width a }
{
    match operation {
        Unary::Inc => flags.increment(width, a),
        Unary::Dec => flags.decrement(width, a),
        Unary::Not => inverse(width, a),
        Unary::Neg => subtract(flags, width, 0, a, false),
    }
}

/// Inverts each bit of a number of this width, for NOT.
fn inverse(width: Width, a: u16) -> u16
    requires { a < size_of width }
    ensures { result ≡ size_of width - 1 - a }
{
    match width {
        Width::Byte => 0xFF - a,
        Width::Word => 0xFFFF - a,
    }
}
