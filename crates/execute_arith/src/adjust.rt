//! Adjustments of AL and AX: decimal and ASCII digits, and signs.
ghost use Rattle.isa.specs.declared.operation.Adjust.TheVariants.{Daa, Das, Aaa, Aas, Aam, Aad, Cbw, Cwd};
ghost use Rattle.std.specs.Prelude.{◌≡◌, ◌<◌};
ghost use Rattle.execute_arith.specs.ArithmeticMeaning.{adjusts_high, adjusts_low, after_adjust, decimal_change, with_packed, with_unpacked};
ghost use Rattle.execute_machine.specs.Flags.{flag_state};

use board_types::regs::Flags;
use execute_machine::flags::with_result;
use execute_machine::registers::Registers;
use execute_machine::width::Width;
use isa::operation::Adjust;

/// Performs DAA, DAS, AAA, AAS, AAM, AAD, CBW or CWD, which adjust AL or AX without an operand, for steps by slots (CBW
/// and CWD) and for all others.
#[inline(never)]
#[tactic(auto, unfolding(crate::specs::ArithmeticMeaning::after_adjust))]
pub fn perform_adjust(registers: &mut Registers, operation: Adjust)
    ensures { registers.new ≡ after_adjust registers.old operation }
{
    match operation {
        Adjust::Daa => daa(registers),
        Adjust::Das => das(registers),
        Adjust::Aaa => aaa(registers),
        Adjust::Aas => aas(registers),
        Adjust::Aam => aam(registers),
        Adjust::Aad => aad(registers),
        Adjust::Cbw => cbw(registers),
        Adjust::Cwd => cwd(registers),
    }
}

/// Whether an adjustment corrects the low digit of AL: it is above 9, or AF says that the sum or difference before
/// carried or borrowed there.
fn adjusts_low(flags: Flags, al: u16) -> bool
    ensures { result ≡ adjusts_low (flag_state flags) al }
{
    al % 16 > 9 || flags.auxiliary_carry
}

/// Whether DAA or DAS corrects the high digit of AL: AL is above 99h, or CF says that the sum or difference before
/// carried or borrowed.
fn adjusts_high(flags: Flags, al: u16) -> bool
    ensures { result ≡ adjusts_high (flag_state flags) al }
{
    al > 0x99 || flags.carry
}

/// By how much DAA raises AL and DAS lowers it: 6 for the low digit and 60h for the high one, if they are corrected.
fn decimal_change(flags: Flags, al: u16) -> u16
    ensures value { result ≡ decimal_change (flag_state flags) al }
    ensures bound { result < 103 }
{
    let low = if adjusts_low(flags, al) { 6 } else { 0 };
    let high = if adjusts_high(flags, al) { 0x60 } else { 0 };
    low + high
}

/// Sets what DAA and DAS set: AL, to `al`, two decimal digits; SF, ZF and PF by it; and AF and CF by whether the low
/// and the high digit of the old AL had to be corrected.
fn set_packed(registers: &mut Registers, al: u16)
    requires { al < 256 }
    ensures { registers.new ≡ with_packed registers.old al }
{
    let flags = registers.flags.get();
    let old = registers.ax() % 256;
    registers.set_ax(registers.ax() / 256 * 256 + al);
    registers.flags.set(Flags {
        auxiliary_carry: adjusts_low(flags, old),
        carry: adjusts_high(flags, old),
        ..with_result(flags, Width::Byte, al)
    });
}

/// Performs DAA: makes of AL, the sum of two bytes of two decimal digits each, such a byte, too.
#[tactic(auto, unfolding(crate::specs::ArithmeticMeaning::after_adjust))]
fn daa(registers: &mut Registers)
    ensures { registers.new ≡ after_adjust registers.old Daa }
{
    let al = registers.ax() % 256;
    let change = decimal_change(registers.flags.get(), al);
    set_packed(registers, (al + change) % 256);
}

/// Performs DAS: makes of AL, the difference of two bytes of two decimal digits each, such a byte, too.
#[tactic(auto, unfolding(crate::specs::ArithmeticMeaning::after_adjust))]
fn das(registers: &mut Registers)
    ensures { registers.new ≡ after_adjust registers.old Das }
{
    let al = registers.ax() % 256;
    let change = decimal_change(registers.flags.get(), al);
    set_packed(registers, (al + 256 - change) % 256);
}

/// Leaves what AAA and AAS do: a digit in AL, a byte in AH, and AF and CF by whether the digit was corrected.
fn set_unpacked(registers: &mut Registers, ah: u16, digit: u16, adjusted: bool)
    requires high { ah < 256 }
    requires low { digit < 16 }
    ensures { registers.new ≡ with_unpacked registers.old ah digit adjusted }
{
    registers.set_ax(256 * ah + digit);
    registers.flags.set(Flags {
        auxiliary_carry: adjusted,
        carry: adjusted,
        ..registers.flags.get()
    });
}

/// Performs AAA: makes AL, the sum of two decimal digits, a digit, and adds its carry to AH.
#[tactic(auto, unfolding(crate::specs::ArithmeticMeaning::after_adjust))]
fn aaa(registers: &mut Registers)
    ensures { registers.new ≡ after_adjust registers.old Aaa }
{
    let (ah, al) = (registers.ax() / 256, registers.ax() % 256);
    if adjusts_low(registers.flags.get(), al) {
        set_unpacked(registers, (ah + 1) % 256, (al + 6) % 16, true);
    } else {
        set_unpacked(registers, ah, al % 16, false);
    }
}

/// Performs AAS: corrects AL, the difference of two unpacked decimal digits, to one digit. If that needs a borrow, AH
/// gives it, and AF and CF are set; else both are cleared.
#[tactic(auto, unfolding(crate::specs::ArithmeticMeaning::after_adjust))]
fn aas(registers: &mut Registers)
    ensures { registers.new ≡ after_adjust registers.old Aas }
{
    let (ah, al) = (registers.ax() / 256, registers.ax() % 256);
    if adjusts_low(registers.flags.get(), al) {
        set_unpacked(registers, (ah + 256 - 1) % 256, (al + 256 - 6) % 16, true);
    } else {
        set_unpacked(registers, ah, al % 16, false);
    }
}

/// Performs AAM: parts AL, mostly the product of two digits, into tens in AH and ones in AL.
#[tactic(auto, unfolding(crate::specs::ArithmeticMeaning::after_adjust))]
fn aam(registers: &mut Registers)
    ensures { registers.new ≡ after_adjust registers.old Aam }
{
    let al = registers.ax() % 256;
    registers.set_ax(256 * (al / 10) + al % 10);
    registers
        .flags
        .set(with_result(registers.flags.get(), Width::Byte, al % 10));
}

/// Performs AAD: joins the two digits in AH and AL to a number in AL, mostly before a division.
#[tactic(auto, unfolding(crate::specs::ArithmeticMeaning::after_adjust))]
fn aad(registers: &mut Registers)
    ensures { registers.new ≡ after_adjust registers.old Aad }
{
    let al = (10 * (registers.ax() / 256) + registers.ax() % 256) % 256;
    registers.set_ax(al);
    registers
        .flags
        .set(with_result(registers.flags.get(), Width::Byte, al));
}

/// Performs CBW: extends the sign of AL into AH.
#[tactic(auto, unfolding(crate::specs::ArithmeticMeaning::after_adjust))]
fn cbw(registers: &mut Registers)
    ensures { registers.new ≡ after_adjust registers.old Cbw }
{
    let al = registers.ax() % 256;
    registers.set_ax(if al < 128 { al } else { 0xFF00 + al });
}

/// Performs CWD: extends the sign of AX into DX, mostly before a division.
#[tactic(auto, unfolding(crate::specs::ArithmeticMeaning::after_adjust))]
fn cwd(registers: &mut Registers)
    ensures { registers.new ≡ after_adjust registers.old Cwd }
{
    registers.set_dx(if registers.ax() < 32768 { 0 } else { 0xFFFF });
}
