//! One shift by one place, and several in turn.
ghost use Rattle.board_types.specs.FlagsWord.{flag_bit};
ghost use Rattle.std.specs.Prelude.{◌≡◌, ◌<◌, ◌≤◌, ◌*◌, ◌/◌, ◌%◌, ◌^◌, ◌+◌};
ghost use Rattle.execute_machine.specs.Widths.{is_negative, size_of};
ghost use Rattle.execute_arith.specs.Single.{after_left, after_right, after_right_rotation, after_single, right_value, second_bit};
ghost use Rattle.execute_arith.specs.Places.{alone, signed_right};
ghost use Rattle.execute_arith.specs.Shifts.{after_shifts};

use execute_machine::width::Width;
use isa::operation::Shift;

/// An operand with CF and OF, as a shift finds and leaves them.
#[derive(Clone, Copy)]
pub struct Shifted {
    pub value: u16,
    pub carry: bool,
    pub overflow: bool,
}

/// The bit below a value's top one; after ROR and RCR, OF says whether the two differ.
fn second_bit(width: Width, value: u16) -> bool
    requires { value < size_of width }
    ensures { result ≡ second_bit width value }
{
    value % width.half_size() >= width.half_size() / 2
}

/// Moves a value's bits one place to the left, for ROL, RCL and SHL; `entering` becomes the lowest, and the top one
/// leaves.
fn left_value(width: Width, value: u16, entering: bool) -> u16
    requires { value < size_of width }
    ensures value { result ≡ 2 * value % size_of width + flag_bit entering 1 }
    ensures bound { result < size_of width }
{
    2 * (value % width.half_size()) + u16::from(entering)
}

/// Moves a value's bits one place to the right, for ROR, RCR, SHR and SAR; `entering` becomes the top one, and the
/// lowest leaves.
fn right_value(width: Width, value: u16, entering: bool) -> u16
    requires { value < size_of width }
    ensures value { result ≡ right_value width value entering }
    ensures bound { result < size_of width }
{
    if entering {
        value / 2 + width.half_size()
    } else {
        value / 2
    }
}

/// Makes ROL, RCL or SHL by one place; `entering` is the bit that enters at the bottom. CF takes the bit that leaves,
/// and OF says whether the top bit has changed.
#[tactic(auto, unfolding(crate::specs::Single::after_left))]
fn left(width: Width, operand: Shifted, entering: bool) -> Shifted
    requires { operand.value < size_of width }
    ensures value { result ≡ after_left width operand entering }
    ensures bound { result.value < size_of width }
{
    let value = left_value(width, operand.value, entering);
    let leaving = width.is_negative(operand.value);
    Shifted {
        value,
        carry: leaving,
        overflow: width.is_negative(value) != leaving,
    }
}

/// Makes a shift or rotate to the right by one place; `entering` is the bit that enters at the top. CF takes the bit
/// that leaves; the caller says OF.
#[tactic(auto, unfolding(crate::specs::Single::after_right))]
fn right(width: Width, operand: Shifted, entering: bool, overflow: bool) -> Shifted
    requires { operand.value < size_of width }
    ensures value { result ≡ after_right width operand entering overflow }
    ensures bound { result.value < size_of width }
{
    Shifted {
        value: right_value(width, operand.value, entering),
        carry: operand.value % 2 == 1,
        overflow,
    }
}

/// Makes ROR or RCR by one place; `entering` is the bit that enters at the top, and OF says whether the two top bits
/// differ then.
#[tactic(auto, unfolding(crate::specs::Single::after_right_rotation))]
fn right_rotation(width: Width, operand: Shifted, entering: bool) -> Shifted
    requires { operand.value < size_of width }
    ensures value { result ≡ after_right_rotation width operand entering }
    ensures bound { result.value < size_of width }
{
    let value = right_value(width, operand.value, entering);
    let overflow = width.is_negative(value) != second_bit(width, value);
    right(width, operand, entering, overflow)
}

/// Makes a shift or rotate by one place: all of it for a count of 1, otherwise one of its steps.
#[inline(always)]
#[tactic(auto, unfolding(crate::specs::Single::after_single))]
pub(crate) fn single(operation: Shift, width: Width, operand: Shifted) -> Shifted
    requires { operand.value < size_of width }
    ensures value { result ≡ after_single operation width operand }
    ensures bound { result.value < size_of width }
{
    let is_top = width.is_negative(operand.value);
    match operation {
        Shift::Rol => left(width, operand, is_top),
        Shift::Ror => right_rotation(width, operand, operand.value % 2 == 1),
        Shift::Rcl => left(width, operand, operand.carry),
        Shift::Rcr => right_rotation(width, operand, operand.carry),
        Shift::Shl => left(width, operand, false),
        Shift::Shr => right(width, operand, false, is_top),
        Shift::Sar => right(width, operand, is_top, false),
    }
}

impl Shifted {
    /// Makes the operand of a shift that reads neither CF nor OF, which are `false` so that nobody has to work them
    /// out.
    pub(crate) fn alone(value: u16) -> Shifted
        ensures { result ≡ alone value }
    {
        Shifted {
            value,
            carry: false,
            overflow: false,
        }
    }
}

/// Shifts a value to the left by `places` places at once, for all places of SHL but the last, which alone decides the
/// flags.
#[tactic(auto, using(crate::proofs::Places::none_left))]
pub(crate) fn left_by(width: Width, value: u16, places: u16) -> u16
    requires { value < size_of width }
    ensures value { result ≡ value * 2 ^ places % size_of width }
    ensures bound { result < size_of width }
{
    if places > 15 {
        return 0;
    }
    ((u32::from(value) << places) % width.size()) as u16
}

/// Shifts a value to the right by `places` places at once, and lets zeros enter, for all places of SHR but the last,
/// which alone decides the flags.
#[tactic(auto, using(crate::proofs::Places::none_right))]
pub(crate) fn right_by(value: u16, places: u16) -> u16
    ensures value { result ≡ value / 2 ^ places }
    ensures bound { result ≤ value }
{
    if places > 15 {
        return 0;
    }
    value >> places
}

/// Shifts a value to the right by `places` places at once, and lets its top bit enter, for all places of SAR but the
/// last, which alone decides the flags.
pub(crate) fn signed_right_by(width: Width, value: u16, places: u16) -> u16
    requires { value < size_of width }
    ensures value { result ≡ signed_right width value places }
    ensures bound { result < size_of width }
{
    if width.is_negative(value) {
        let top = (width.size() - 1) as u16;
        top - right_by(top - value, places)
    } else {
        right_by(value, places)
    }
}

/// Rotates by `count` places, one after the other; a shift comes here only with a count of 0, which leaves all as it
/// is.
#[tactic(auto, unfolding(crate::specs::Shifts::after_shifts), using(board_types::proofs::Iterate::iterate_steps))]
pub(crate) fn rotate_by(operation: Shift, width: Width, operand: Shifted, count: u16) -> Shifted
    requires { operand.value < size_of width }
    ensures { result ≡ after_shifts operation width operand count }
{
    let mut now = operand;
    for _ in 0..count {
        now = single(operation, width, now);
    }
    now
}
