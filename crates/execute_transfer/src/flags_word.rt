//! The flags as a word or a byte.
ghost use Rattle.isa.specs.declared.register.ByteRegister.TheVariants.{Ah};
ghost use Rattle.execute_machine.specs.Registers.{with_byte_register};
ghost use Rattle.std.specs.Prelude.{◌≡◌, ◌/◌, ◌%◌};
ghost use Rattle.execute_machine.specs.Flags.{flag_state, popped_flags, pushed_word};
ghost use Rattle.execute_machine.specs.Locations.{machine};
ghost use Rattle.execute_transfer.specs.TransferMeaning.{after_popf, with_low_flags};

use board_types::regs::Flags;
use bus::Bus;
use execute_machine::flags::popped_flags;
use execute_machine::registers::{Registers, set_byte};
use execute_machine::stack::pop;
use isa::register::ByteRegister;

/// Performs POPF: pops a word and takes the nine flags from it.
#[inline(never)]
#[tactic(auto, unfolding(crate::specs::TransferMeaning::after_popf))]
pub fn perform_popf<B: Bus>(bus: &B, registers: &mut Registers)
    ensures { machine registers.new (B.state bus.now) ≡ after_popf B.meaning (machine registers.old (B.state bus.now)) }
{
    let word = pop(bus, registers);
    registers.flags.set(popped_flags(word));
}

/// Returns `flags` with CF, PF, AF, ZF and SF of `low`, which are those that SAHF takes from AH.
fn with_low_flags(flags: Flags, low: Flags) -> Flags
    ensures { flag_state result ≡ with_low_flags (flag_state flags) (flag_state low) }
{
    Flags {
        carry: low.carry,
        parity: low.parity,
        auxiliary_carry: low.auxiliary_carry,
        zero: low.zero,
        sign: low.sign,
        ..flags
    }
}

/// Performs SAHF: takes CF, PF, AF, ZF and SF from AH, and leaves the other flags.
#[inline(never)]
pub fn perform_sahf(registers: &mut Registers)
    ensures { registers.new ≡ record registers.old {
      flags = with_low_flags registers.old.flags (popped_flags (registers.old.ax / 256));
    } }
{
    let low = popped_flags(registers.ax() / 256);
    let flags = registers.flags.get();
    registers.flags.set(with_low_flags(flags, low));
}

/// Performs LAHF: puts the low byte of FLAGS into AH.
#[inline(never)]
pub fn perform_lahf(registers: &mut Registers)
    ensures { registers.new ≡ with_byte_register registers.old Ah (pushed_word registers.old.flags % 256) }
{
    let word = registers.flags.get().word();
    set_byte(registers, ByteRegister::Ah, (word % 256) as u8);
}
