//! What multiplication and division do.
ghost use Rattle.std.specs.Prelude.{◌≡◌, ◌<◌, ◌*◌, false, if◌then◌else◌, IfSome, None, Some};
ghost use Rattle.execute_arith.specs.Calculated.{calculated, divided};
ghost use Rattle.execute_machine.specs.Locations.{machine};
ghost use Rattle.execute_machine.specs.Widths.{size_of};
ghost use Rattle.execute_arith.specs.Numbers.{double_half};
ghost use Rattle.execute_arith.specs.Products.{accumulator, after_operation, dividend_of, has_no_quotient, with_division, with_product, with_product_value};

use crate::numbers::{
    Division, FullProduct, divide_signed, divide_unsigned, signed_product, unsigned_product,
};
use board_types::regs::Flags;
use bus::Bus;
use execute_machine::registers::Registers;
use execute_machine::stack::enter;
use execute_machine::width::Width;
use isa::operation::Product;

/// The factor that MUL and IMUL don't name: AL, or AX with a word.
fn accumulator(registers: &Registers, width: Width) -> u16
    ensures value { result ≡ accumulator registers.now width }
    ensures bound { result < size_of width }
{
    let ax = registers.ax();
    match width {
        Width::Byte => ax % 256,
        Width::Word => ax,
    }
}

/// The dividend, which DIV and IDIV don't name: AX, or DX:AX with a word as divisor.
fn dividend_of(registers: &Registers, width: Width) -> u32
    ensures value { result ≡ dividend_of registers.now width }
    ensures bound { result < 2 * double_half width }
{
    let (low, high) = (u32::from(registers.ax()), u32::from(registers.dx()));
    match width {
        Width::Byte => low,
        Width::Word => 65536 * high + low,
    }
}

/// Puts the product of MUL or IMUL into AX, or into DX:AX if the factors are words.
fn set_product_value(registers: &mut Registers, width: Width, value: u32)
    requires { value < 2 * double_half width }
    ensures { registers.new ≡ with_product_value registers.old width value }
{
    match width {
        Width::Byte => registers.set_ax(value as u16),
        Width::Word => {
            registers.set_dx((value / 65536) as u16);
            registers.set_ax((value % 65536) as u16);
        }
    }
}

/// Leaves what MUL and IMUL do: the product in AX or DX:AX, and CF and OF by whether it takes more than its low half.
#[tactic(auto, unfolding(crate::specs::Products::with_product))]
fn set_product(registers: &mut Registers, width: Width, product: FullProduct)
    requires { product.value < 2 * double_half width }
    ensures { registers.new ≡ with_product registers.old width product }
{
    registers.flags.set(Flags {
        carry: product.is_wide,
        overflow: product.is_wide,
        ..registers.flags.get()
    });
    set_product_value(registers, width, product.value);
}

/// Leaves what DIV and IDIV do: the quotient in AL and the remainder in AH, or in AX and DX if the divisor is a word.
#[tactic(auto, unfolding(crate::specs::Products::with_division))]
fn set_division(registers: &mut Registers, width: Width, division: Division)
    requires quotient { division.quotient < size_of width }
    requires remainder { division.remainder < size_of width }
    ensures { registers.new ≡ with_division registers.old width division }
{
    match width {
        Width::Byte => registers.set_ax(256 * division.remainder + division.quotient),
        Width::Word => {
            registers.set_ax(division.quotient);
            registers.set_dx(division.remainder);
        }
    }
}

/// Puts a quotient and its remainder into the registers, if there are any, and returns whether there are; otherwise
/// nothing changes.
fn take_division(registers: &mut Registers, width: Width, division: Option<Division>) -> bool
    requires quotient { IfSome division (λ d. d.quotient < size_of width) }
    requires remainder { IfSome division (λ d. d.remainder < size_of width) }
    ensures made { (if result then Some registers.new else None) ≡ divided registers.old width division }
    ensures left { result ≡ false → registers.new ≡ registers.old }
{
    match division {
        None => false,
        Some(division) => {
            set_division(registers, width, division);
            true
        }
    }
}

/// Multiplies or divides AL, AX or DX:AX by a number, for steps by slots and all others. Returns `false`, and changes
/// nothing, if it is a division without a quotient that fits.
#[tactic(auto, unfolding(crate::specs::Calculated::calculated))]
pub fn calculate_product(
    registers: &mut Registers,
    operation: Product,
    width: Width,
    a: u16,
) -> bool
    requires { a < size_of width }
    ensures made { (if result then Some registers.new else None) ≡ calculated registers.old operation width a }
    ensures left { result ≡ false → registers.new ≡ registers.old }
{
    let factor = accumulator(registers, width);
    let dividend = dividend_of(registers, width);
    match operation {
        Product::Mul => {
            set_product(registers, width, unsigned_product(width, factor, a));
            true
        }
        Product::Imul => {
            set_product(registers, width, signed_product(width, factor, a));
            true
        }
        Product::Div => { take_division(registers, width, divide_unsigned(width, dividend, a)) }
        Product::Idiv => { take_division(registers, width, divide_signed(width, dividend, a)) }
    }
}

/// Multiplies or divides by an operand that has been read, in a turn; a division without a quotient that fits enters
/// interrupt 0. Returns whether that happened.
pub fn perform_operation<B: Bus>(
    bus: &mut B,
    registers: &mut Registers,
    operation: Product,
    width: Width,
    operand: u16,
) -> bool
    requires { operand < size_of width }
    ensures machine { machine registers.new (B.state bus.new)
        ≡ after_operation B.meaning (machine registers.old (B.state bus.old)) operation width operand }
    ensures fault { result ≡ has_no_quotient registers.old operation width operand }
{
    if calculate_product(registers, operation, width, operand) {
        return false;
    }
    enter(bus, registers, 0);
    true
}
