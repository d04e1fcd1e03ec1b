//! The stack, and how an interrupt is entered.
ghost use Rattle.std.specs.Prelude.{◌≡◌, ◌<◌, ◌^◌};
ghost use Rattle.execute_machine.specs.Locations.{machine};
ghost use Rattle.execute_machine.specs.Stack.{after_entry, after_entry_pushes, after_pop, after_push, after_vector, top_word};

use crate::registers::Registers;
use bus::Bus;

/// Lowers SP by 2 and writes the word at SS:SP, for PUSH, PUSHF, calls and the entry of an interrupt.
#[inline(always)]
#[tactic(auto, unfolding(crate::specs::Stack::after_push))]
pub fn push<B: Bus>(bus: &mut B, registers: &mut Registers, word: u16)
    ensures { machine registers.new (B.state bus.new)
        ≡ after_push B.meaning (machine registers.old (B.state bus.old)) word }
{
    registers.set_sp(registers.sp().wrapping_sub(2));
    bus.write_word(registers.ss(), registers.sp(), word);
}

/// Reads the word on top of the stack, which stays there: after POP, RET or IRET has read it, `drop_bytes` takes it
/// off.
#[inline(always)]
#[tactic(auto, unfolding(crate::specs::Stack::top_word))]
pub fn top<B: Bus>(bus: &B, registers: &Registers) -> u16
    ensures { result ≡ top_word B.meaning (machine registers.now (B.state bus.now)) }
{
    bus.read_word(registers.ss(), registers.sp())
}

/// Takes `bytes` bytes off the stack by raising SP, after a pop or as RET with a number says; memory stays as it is.
#[tactic(auto, unfolding(crate::specs::Stack::after_pop))]
pub fn drop_bytes<B: Bus>(bus: &B, registers: &mut Registers, bytes: u16)
    ensures { machine registers.new (B.state bus.now) ≡ after_pop (machine registers.old (B.state bus.now)) bytes }
{
    registers.set_sp(registers.sp().wrapping_add(bytes));
}

/// Reads the word on top of the stack and takes it off, for POP and POPF.
pub fn pop<B: Bus>(bus: &B, registers: &mut Registers) -> u16
    ensures value { result ≡ top_word B.meaning (machine registers.old (B.state bus.now)) }
    ensures machine { machine registers.new (B.state bus.now) ≡ after_pop (machine registers.old (B.state bus.now)) 2 }
{
    let word = top(bus, registers);
    drop_bytes(bus, registers, 2);
    word
}

/// Pushes FLAGS, CS and IP, with which IRET goes back, as the first part of an interrupt's entry.
#[inline(always)]
#[tactic(auto, unfolding(crate::specs::Stack::after_entry_pushes))]
fn push_state<B: Bus>(bus: &mut B, registers: &mut Registers)
    ensures { machine registers.new (B.state bus.new)
        ≡ after_entry_pushes B.meaning (machine registers.old (B.state bus.old)) }
{
    let flags = registers.flags.get().word();
    let (cs, ip) = (registers.cs(), registers.ip);
    push(bus, registers, flags);
    push(bus, registers, cs);
    push(bus, registers, ip);
}

/// Goes to an interrupt's handler, as the second part of its entry: clears IF and TF and takes IP and CS from the
/// type's vector at address 4 * `kind`.
#[inline(always)]
#[tactic(auto, unfolding(crate::specs::Stack::after_vector))]
fn take_vector<B: Bus>(bus: &B, registers: &mut Registers, kind: u8)
    ensures { machine registers.new (B.state bus.now)
        ≡ after_vector B.meaning (machine registers.old (B.state bus.now)) kind }
{
    registers.flags.set_interrupt_enable(false);
    registers.flags.set_trap(false);
    let vector = 4 * u16::from(kind);
    registers.ip = bus.read_word(0, vector);
    registers.set_cs(bus.read_word(0, vector + 2));
}

/// Enters the interrupt of this type, for INT, INTO, a division without a quotient, a request or a single step: pushes
/// FLAGS, CS and IP, clears IF and TF, then takes IP and CS from the vector.
#[tactic(auto, unfolding(crate::specs::Stack::after_entry))]
pub fn enter<B: Bus>(bus: &mut B, registers: &mut Registers, kind: u8)
    ensures { machine registers.new (B.state bus.new)
        ≡ after_entry B.meaning (machine registers.old (B.state bus.old)) kind }
{
    push_state(bus, registers);
    take_vector(bus, registers, kind);
}
