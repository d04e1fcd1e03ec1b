//! IN and OUT.
ghost use Rattle.std.specs.Prelude.{◌≡◌};
ghost use Rattle.bus.specs.PortWriteBus.{after_port_writes};
ghost use Rattle.execute_machine.specs.Locations.{machine};
ghost use Rattle.execute_transfer.specs.TransferMeaning.{after_byte_input, after_word_input, outputs_at};

use arrayvec::ArrayVec;
use bus::Bus;
use execute_machine::registers::{Registers, set_byte};
use isa::register::ByteRegister;

/// Performs IN AL: reads a byte from the port.
#[tactic(auto, unfolding(crate::specs::TransferMeaning::after_byte_input))]
pub fn input_byte<B: Bus>(bus: &mut B, registers: &mut Registers, port: u16)
    ensures { machine registers.new (B.state bus.new)
        ≡ after_byte_input B.meaning (machine registers.old (B.state bus.old)) port }
{
    set_byte(registers, ByteRegister::Al, bus.in8(port));
}

/// Performs IN AX: reads AL from the port and then AH from the next one.
#[tactic(auto, unfolding(crate::specs::TransferMeaning::after_word_input))]
pub fn input_word<B: Bus>(bus: &mut B, registers: &mut Registers, port: u16)
    ensures { machine registers.new (B.state bus.new)
        ≡ after_word_input B.meaning (machine registers.old (B.state bus.old)) port }
{
    let low = bus.in8(port);
    let high = bus.in8(port.wrapping_add(1));
    registers.set_ax(u16::from(low) + 256 * u16::from(high));
}

/// Lists the port writes of an OUT of AL or, if `is_word`, of AX, in order, each a port and a byte: AX's high byte goes to
/// the next port.
pub fn outputs(ax: u16, port: u16, is_word: bool) -> ArrayVec<(u16, u8), 2>
    ensures { result.items ≡ outputs_at port ax is_word }
{
    let mut writes = ArrayVec::new();
    writes.push((port, (ax % 256) as u8));
    if is_word {
        writes.push((port.wrapping_add(1), (ax / 256) as u8));
    }
    writes
}

/// Performs OUT: writes AL to the port, or, if `is_word`, AX to it and the next one.
pub fn output<B: Bus>(bus: &mut B, ax: u16, port: u16, is_word: bool)
    ensures { B.state bus.new ≡ after_port_writes B.meaning.after_output (B.state bus.old) (outputs_at port ax is_word) }
{
    bus.out8(port, (ax % 256) as u8);
    if is_word {
        bus.out8(port.wrapping_add(1), (ax / 256) as u8);
    }
}
