//! A bus that notes the accesses that are made over it, and what the processor does over that bus.
ghost use Rattle.decode.specs.DecodedSlots.{IsSlotAt};
ghost use Rattle.decode.specs.declared.decoding.Decoding.{Decoding};
ghost use Rattle.std.specs.Prelude.{◌≡◌, ◌++◌, [], ◌∷◌, if◌then◌else◌};
ghost use Rattle.execute_meaning.specs.Boundaries.{after_enter};
ghost use Rattle.execute_meaning.specs.Meaning.{after_again, after_step, step_result};
ghost use Rattle.execute_noted.specs.Held.{is_full};
ghost use Rattle.events.specs.Noting.{noting, unnoted};

use crate::notes::Accesses;
use arrayvec::ArrayVec;
use board_types::choice::ClockTable;
use bus::Bus;
use decode::decoded::Decoded;
use events::access::Access;
use execute::cpu::Cpu;
use execute::step::{again, enter, step};
use execute_meaning::boundary::Cause;
use std::mem;

/// A bus with the accesses that are made over it, at most six.
#[derive(Drop)]
struct Noting<'a, B: Bus> {
    bus: &'a mut B,
    accesses: Accesses,
}

impl<'a, B: Bus> Noting<'a, B> {
    /// Takes the noted accesses out of the bus after a step, to answer them; the bus then has none.
    fn take(&mut self) -> Accesses
        ensures same { self.new.bus.ghost_name ≡ self.old.bus.ghost_name }
        ensures bus { self.new.bus.now ≡ self.old.bus.now }
        ensures accesses { result.items ≡ self.old.accesses.items }
    {
        mem::replace(&mut self.accesses, ArrayVec::new())
    }
}

/// Appends one more access to the list, if there is room; no step, iteration or entry makes more than there is room
/// for.
#[inline(always)]
fn keep(accesses: &mut Accesses, access: Access)
    ensures { accesses.new.items
        ≡ (if is_full accesses.old.items then accesses.old.items else accesses.old.items ++ access ∷ []) }
{
    if accesses.is_full() {
        return;
    }
    accesses.push(access);
}

impl<'a, B: Bus> Bus for Noting<'a, B> {
    ghost use Rattle.execute_noted.specs.Held.{Held, holding};
    ghost use Rattle.execute_noted.specs.HeldLaws.{holding_keeps_bytes};

    ghost State = { Held B.State };

    ghost state = { λ n. record {
      name = n.bus.ghost_name;
      reached = B.state n.bus.now;
      accesses = n.accesses.items;
    } };

    ghost meaning = { holding B.meaning };

    /// Reads from the bus beneath; reads of memory aren't noted.
    fn read8(&self, addr: u32) -> u8 {
        self.bus.read8(addr)
    }

    /// Writes to the bus beneath, and notes the write of this byte.
    fn write8(&mut self, addr: u32, value: u8) {
        self.bus.write8(addr, value);
        keep(&mut self.accesses, Access::Write(addr, value));
    }

    /// Reads the port on the bus beneath, and notes it with the byte that it gave.
    fn in8(&mut self, port: u16) -> u8 {
        let value = self.bus.in8(port);
        keep(&mut self.accesses, Access::In(port, value));
        value
    }

    /// Writes to the port on the bus beneath, and notes the port and the byte.
    fn out8(&mut self, port: u16, value: u8) {
        self.bus.out8(port, value);
        keep(&mut self.accesses, Access::Out(port, value));
    }

    ghost keeps_bytes = { holding_keeps_bytes B.meaning B.keeps_bytes };
}

/// Makes a step over a bus that notes accesses, for `Accesses`. Answers the clocks that it takes, and its accesses.
pub(crate) fn step_noted<B: Bus>(
    cpu: &mut Cpu,
    bus: &mut B,
    decoded: &Decoded,
    table: ClockTable,
) -> (u16, Accesses)
    ensures done { (d : Decoding) → IsSlotAt decoded.now d → step_result cpu.new (B.state bus.new) result.0
        ≡ after_step B.meaning table cpu.old (B.state bus.old) d }
    ensures noted { (d : Decoding) → IsSlotAt decoded.now d → result.1.items
        ≡ (after_step (noting B.meaning) table cpu.old (unnoted (B.state bus.old)) d).bus.accesses }
{
    let mut noting = Noting {
        bus,
        accesses: ArrayVec::new(),
    };
    let clocks = step(cpu, &mut noting, decoded, table).0;
    (clocks, noting.take())
}

/// Makes the next iteration of a repeat over a bus that notes accesses, for `Accesses`. Answers the clocks that it
/// takes, and its accesses.
pub(crate) fn again_noted<B: Bus>(cpu: &mut Cpu, bus: &mut B, table: ClockTable) -> (u16, Accesses)
    ensures done { step_result cpu.new (B.state bus.new) result.0 ≡ after_again B.meaning cpu.old (B.state bus.old) }
    ensures noted { result.1.items
        ≡ (after_again (noting B.meaning) cpu.old (unnoted (B.state bus.old))).bus.accesses }
{
    let mut noting = Noting {
        bus,
        accesses: ArrayVec::new(),
    };
    let clocks = again(cpu, &mut noting, table).0;
    (clocks, noting.take())
}

/// Enters an interrupt of type `kind` over a bus that notes accesses, for `Accesses`. Answers the clocks that it takes,
/// and its accesses.
pub(crate) fn enter_noted<B: Bus>(
    cpu: &mut Cpu,
    bus: &mut B,
    kind: u8,
    cause: Cause,
    table: ClockTable,
) -> (u16, Accesses)
    ensures done { step_result cpu.new (B.state bus.new) result.0
        ≡ after_enter B.meaning table cpu.old (B.state bus.old) kind cause }
    ensures noted { result.1.items
        ≡ (after_enter (noting B.meaning) table cpu.old (unnoted (B.state bus.old)) kind cause).bus.accesses }
{
    let mut noting = Noting {
        bus,
        accesses: ArrayVec::new(),
    };
    let clocks = enter(cpu, &mut noting, kind, cause, table).0;
    (clocks, noting.take())
}
