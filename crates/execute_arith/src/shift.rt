//! What shifts and rotates do.
ghost use Rattle.std.specs.Prelude.{◌≡◌, ◌<◌};
ghost use Rattle.execute_machine.specs.Widths.{size_of};
ghost use Rattle.execute_arith.specs.Shifts.{after_shifts, shifted_operand, tells_result, with_shifted, with_told};

use crate::single::{Shifted, left_by, right_by, rotate_by, signed_right_by, single};
use execute_machine::flags::{FlagRegister, StatusFlags};
use execute_machine::width::Width;
use isa::operation::Shift;

/// Whether a shift sets SF, ZF and PF by its result: SHL, SHR and SAR do, rotates leave them.
fn tells_result(operation: Shift) -> bool
    ensures { result ≡ tells_result operation }
{
    matches!(operation, Shift::Shl | Shift::Shr | Shift::Sar)
}

/// Sets the flags after a shift or rotate by at least one place, which left `after`: CF and OF by the last place, and
/// SF, ZF and PF by the result unless it is a rotate; AF stays.
fn tell(flags: &mut FlagRegister, operation: Shift, width: Width, after: Shifted)
    ensures { flags.new ≡ with_told flags.old operation width after }
{
    let others = if tells_result(operation) {
        StatusFlags {
            auxiliary_carry: flags.auxiliary_carry(),
            ..StatusFlags::of_result(width, after.value)
        }
    } else {
        flags.status()
    };
    flags.set_status(StatusFlags {
        carry: after.carry,
        overflow: after.overflow,
        ..others
    });
}

/// Sets the flags after a shift or rotate by `count` places, which left `after`; a count of 0, from CL, sets none.
#[tactic(auto, unfolding(crate::specs::Shifts::with_shifted))]
fn set_shifted(flags: &mut FlagRegister, operation: Shift, width: Width, count: u16, after: Shifted)
    ensures { flags.new ≡ with_shifted flags.old operation width count after }
{
    if count > 0 {
        tell(flags, operation, width, after);
    }
}

/// Returns what a shift or rotate by `count` places makes of a number of this width, for steps by slots and all others,
/// and sets the flags. Inlined, so that an operation that is known costs no choice.
#[inline(always)]
pub fn calculate_shift(
    flags: &mut FlagRegister,
    operation: Shift,
    width: Width,
    a: u16,
    count: u16,
) -> u16
    requires { a < size_of width }
    ensures value { result ≡ (after_shifts operation width (shifted_operand flags.old a) count).value }
    ensures flags { flags.new ≡ with_shifted flags.old operation width count (after_shifts operation width (shifted_operand flags.old a) count) }
{
    let after = shifted(flags, operation, width, a, count);
    set_shifted(flags, operation, width, count, after);
    after.value
}

/// Returns the value, CF and OF that a shift or rotate by `count` places leaves, for `calculate_shift`. Only a rotate,
/// or a count of 0, needs CF and OF from before, which have to be worked out.
#[inline(always)]
#[tactic(auto, using(crate::proofs::Places::last_left, crate::proofs::Places::last_right, crate::proofs::Places::last_signed))]
fn shifted(flags: &FlagRegister, operation: Shift, width: Width, a: u16, count: u16) -> Shifted
    requires { a < size_of width }
    ensures { result ≡ after_shifts operation width (shifted_operand flags.now a) count }
{
    if count != 0 {
        // all places but the last at once, since no bit that leaves there shows in the flags
        let before = count - 1;
        match operation {
            Shift::Shl => {
                return single(operation, width, Shifted::alone(left_by(width, a, before)));
            }
            Shift::Shr => return single(operation, width, Shifted::alone(right_by(a, before))),
            Shift::Sar => {
                return single(
                    operation,
                    width,
                    Shifted::alone(signed_right_by(width, a, before)),
                );
            }
            _ => {}
        }
    }
    let before = Shifted {
        value: a,
        carry: flags.carry(),
        overflow: flags.overflow(),
    };
    rotate_by(operation, width, before, count)
}
