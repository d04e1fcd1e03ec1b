//! Products and quotients of a byte or a word.
ghost use Rattle.std.specs.Prelude.{◌≡◌, ◌<◌, ◌≤◌, ◌*◌, ◌^◌, IfSome};
ghost use Rattle.execute_machine.specs.Widths.{half_size, size_of};
ghost use Rattle.execute_arith.specs.Numbers.{double_half, is_minus, magnitude, sign_extension, signed_division, signed_product, signed_result, signed_value, unsigned_division, unsigned_product, with_sign};

use execute_machine::width::Width;

/// A product of twice the width, and whether it takes more than its low half.
#[derive(Clone, Copy)]
pub struct FullProduct {
    pub value: u32,
    pub is_wide: bool,
}

/// A quotient with its remainder.
#[derive(Clone, Copy)]
pub struct Division {
    pub quotient: u16,
    pub remainder: u16,
}

/// Half of a width's values, in 32 bits: from there on an operand of IMUL or IDIV is negative.
fn half(width: Width) -> u32
    ensures { result ≡ half_size width }
{
    u32::from(width.half_size())
}

/// Half of the values of twice the width: from there on a product of IMUL or a dividend of IDIV is negative.
fn double_half(width: Width) -> u32
    ensures { result ≡ double_half width }
{
    match width {
        Width::Byte => 32768,
        Width::Word => 2147483648,
    }
}

/// The absolute value of a signed number, which counts as negative from `half` on: products and quotients are worked
/// out without signs.
fn magnitude(half: u32, number: u32) -> u32
    requires { number < 2 * half }
    ensures value { result ≡ magnitude half number }
    ensures bound { result ≤ half }
{
    if number >= half {
        half - (number - half)
    } else {
        number
    }
}

/// Gives a result of IMUL or IDIV its sign: `size`, or minus `size` if `minus` says so, as a number that counts as
/// negative from `half` on.
fn with_sign(half: u32, minus: bool, size: u32) -> u32
    requires least { 0 < half }
    requires greatest { half ≤ 2 ^ 31 }
    requires size { size ≤ half }
    ensures value { result ≡ with_sign half minus size }
    ensures bound { result < 2 * half }
{
    if minus && size > 0 {
        half + (half - size)
    } else {
        size
    }
}

/// Multiplies two unsigned numbers for MUL; the product is wide, as CF and OF then say, if its high half isn't 0.
#[tactic(auto, unfolding(crate::specs::Numbers::unsigned_product))]
pub fn unsigned_product(width: Width, a: u16, b: u16) -> FullProduct
    requires first { a < size_of width }
    requires second { b < size_of width }
    ensures value { result ≡ unsigned_product width a b }
    ensures bound { result.value < 2 * double_half width }
{
    let value = u32::from(a) * u32::from(b);
    FullProduct {
        value,
        is_wide: value / width.size() != 0,
    }
}

/// Multiplies the magnitudes of two signed numbers and gives the product, of twice the width, its sign, for IMUL.
#[tactic(auto, unfolding(crate::specs::Numbers::signed_value))]
fn signed_value(width: Width, a: u32, b: u32) -> u32
    requires first { a < size_of width }
    requires second { b < size_of width }
    ensures value { result ≡ signed_value width a b }
    ensures bound { result < 2 * double_half width }
{
    let half = half(width);
    let minus = (a >= half) != (b >= half);
    with_sign(
        double_half(width),
        minus,
        magnitude(half, a) * magnitude(half, b),
    )
}

/// Multiplies two signed numbers for IMUL; the product is wide, as CF and OF then say, if its high half isn't just its
/// low half's sign.
#[tactic(auto, unfolding(crate::specs::Numbers::signed_product))]
pub fn signed_product(width: Width, a: u16, b: u16) -> FullProduct
    requires first { a < size_of width }
    requires second { b < size_of width }
    ensures value { result ≡ signed_product width a b }
    ensures bound { result.value < 2 * double_half width }
{
    let value = signed_value(width, u32::from(a), u32::from(b));
    FullProduct {
        value,
        is_wide: value / width.size() != sign_extension(width, value % width.size()),
    }
}

/// The high half of a product that fits its low half as a signed number: each bit is the sign, so that IMUL can tell a
/// wide product.
fn sign_extension(width: Width, low: u32) -> u32
    ensures { result ≡ sign_extension width low }
{
    if low >= half(width) {
        width.size() - 1
    } else {
        0
    }
}

/// Divides unsigned numbers, for DIV: `None`, which enters interrupt 0, if the divisor is 0 or the quotient doesn't fit
/// the width.
#[tactic(auto, unfolding(crate::specs::Numbers::unsigned_division))]
pub fn divide_unsigned(width: Width, dividend: u32, divisor: u16) -> Option<Division>
    requires { divisor < size_of width }
    ensures value { result ≡ unsigned_division width dividend divisor }
    ensures quotient { IfSome result (λ d. d.quotient < size_of width) }
    ensures remainder { IfSome result (λ d. d.remainder < size_of width) }
{
    let divisor = u32::from(divisor);
    if divisor == 0 || dividend / divisor >= width.size() {
        return None;
    }
    Some(Division {
        quotient: (dividend / divisor) as u16,
        remainder: (dividend % divisor) as u16,
    })
}

/// Divides signed numbers toward 0, for IDIV: `None`, which enters interrupt 0, if the divisor is 0 or the quotient
/// isn't within -127 and 127, or -32,767 and 32,767.
#[tactic(auto, unfolding(crate::specs::Numbers::signed_division))]
pub fn divide_signed(width: Width, dividend: u32, divisor: u16) -> Option<Division>
    requires dividend { dividend < 2 * double_half width }
    requires divisor { divisor < size_of width }
    ensures value { result ≡ signed_division width dividend divisor }
    ensures quotient { IfSome result (λ d. d.quotient < size_of width) }
    ensures remainder { IfSome result (λ d. d.remainder < size_of width) }
{
    let above = magnitude(double_half(width), dividend);
    let below = magnitude(half(width), u32::from(divisor));
    if below == 0 || above / below >= half(width) {
        return None;
    }
    Some(signed_result(
        width,
        dividend,
        u32::from(divisor),
        above / below,
        above % below,
    ))
}

/// Gives the quotient and the remainder of two magnitudes their signs, for IDIV: the remainder has the dividend's, and
/// the quotient is negative if dividend and divisor have different ones.
#[tactic(auto, unfolding(crate::specs::Numbers::signed_result))]
fn signed_result(
    width: Width,
    dividend: u32,
    divisor: u32,
    quotient: u32,
    remainder: u32,
) -> Division
    requires quotient { quotient < half_size width }
    requires remainder { remainder < half_size width }
    ensures value { result ≡ signed_result width dividend divisor quotient remainder }
    ensures quotient { result.quotient < size_of width }
    ensures remainder { result.remainder < size_of width }
{
    let half = half(width);
    let minus = dividend >= double_half(width);
    Division {
        quotient: with_sign(half, minus != (divisor >= half), quotient) as u16,
        remainder: with_sign(half, minus, remainder) as u16,
    }
}
