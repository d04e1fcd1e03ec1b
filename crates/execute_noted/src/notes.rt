//! How accesses of the processor are noted.
ghost use Rattle.decode.specs.DecodedSlots.{IsSlotAt};
ghost use Rattle.decode.specs.declared.decoding.Decoding.{Decoding};
ghost use Rattle.std.specs.Prelude.{◌≡◌, List, []};
ghost use Rattle.execute_meaning.specs.Boundaries.{after_enter};
ghost use Rattle.execute_meaning.specs.Meaning.{after_again, after_step, step_result};
ghost use Rattle.events.specs.declared.access.Access.{Access};
ghost use Rattle.events.specs.Noting.{noting, unnoted};

use crate::noting::{again_noted, enter_noted, step_noted};
use arrayvec::ArrayVec;
use board_types::choice::ClockTable;
use bus::Bus;
use decode::decoded::Decoded;
use events::access::Access;
use execute::cpu::Cpu;
use execute::step::{again, enter, step};
use execute_meaning::boundary::Cause;

/// The accesses of a step, an iteration or an entry, in order: none of them makes more than six.
pub type Accesses = ArrayVec<Access, 6>;

/// Does what the processor does in a clock, and notes its accesses, unless it is `Unnoted`.
pub trait Notes {
    // the accesses that were noted last are these, if any are noted
    ghost are: { Self → List Access → Type 0 };

    /// Notes that there is no access, for a clock in which the processor does nothing.
    fn none(&mut self)
        ensures { are self.new [] };

    /// Makes the step of the instruction `decoded`, and notes its accesses. Answers the clocks that it takes.
    fn step<B: Bus>(
        &mut self,
        cpu: &mut Cpu,
        bus: &mut B,
        decoded: &Decoded,
        table: ClockTable,
    ) -> u16
        ensures done { (d : Decoding) → IsSlotAt decoded.now d → step_result cpu.new (B.state bus.new) result
            ≡ after_step B.meaning table cpu.old (B.state bus.old) d }
        ensures noted { (d : Decoding) → IsSlotAt decoded.now d → are self.new
            (after_step (noting B.meaning) table cpu.old (unnoted (B.state bus.old)) d).bus.accesses };

    /// Makes the next iteration of a repeat, and notes its accesses. Answers the clocks that it takes.
    fn again<B: Bus>(&mut self, cpu: &mut Cpu, bus: &mut B, table: ClockTable) -> u16
        ensures done { step_result cpu.new (B.state bus.new) result
            ≡ after_again B.meaning cpu.old (B.state bus.old) }
        ensures noted { are self.new
            (after_again (noting B.meaning) cpu.old (unnoted (B.state bus.old))).bus.accesses };

    /// Enters an interrupt of type `kind`, by request or by the single step, and notes its accesses. Answers the clocks
    /// that it takes.
    fn enter<B: Bus>(
        &mut self,
        cpu: &mut Cpu,
        bus: &mut B,
        kind: u8,
        cause: Cause,
        table: ClockTable,
    ) -> u16
        ensures done { step_result cpu.new (B.state bus.new) result
            ≡ after_enter B.meaning table cpu.old (B.state bus.old) kind cause }
        ensures noted { are self.new
            (after_enter (noting B.meaning) table cpu.old (unnoted (B.state bus.old)) kind cause).bus.accesses };
}

/// Notes nothing.
#[derive(Clone, Copy, Debug)]
pub struct Unnoted;

impl Notes for Unnoted {
    ghost use Rattle.std.specs.Prelude.{⊤};

    ghost are = { λ _ accesses. ⊤ };

    /// Does nothing, as an ordinary run lists no accesses.
    #[inline(always)]
    fn none(&mut self) {}

    /// Makes a step without noting its accesses, for an ordinary run. Answers the clocks that it takes.
    #[inline(always)]
    fn step<B: Bus>(
        &mut self,
        cpu: &mut Cpu,
        bus: &mut B,
        decoded: &Decoded,
        table: ClockTable,
    ) -> u16 {
        step(cpu, bus, decoded, table).0
    }

    /// Makes the next iteration of a repeat without noting its accesses, for an ordinary run. Answers the clocks that
    /// it takes.
    #[inline(always)]
    fn again<B: Bus>(&mut self, cpu: &mut Cpu, bus: &mut B, table: ClockTable) -> u16 {
        again(cpu, bus, table).0
    }

    /// Enters an interrupt without noting its accesses, for an ordinary run. Answers the clocks that it takes.
    #[inline(always)]
    fn enter<B: Bus>(
        &mut self,
        cpu: &mut Cpu,
        bus: &mut B,
        kind: u8,
        cause: Cause,
        table: ClockTable,
    ) -> u16 {
        enter(cpu, bus, kind, cause, table).0
    }
}

impl Notes for Accesses {
    ghost use Rattle.std.specs.Prelude.{◌≡◌};

    ghost are = { λ noted accesses. noted.items ≡ accesses };

    /// Clears the list, for a clock without accesses.
    fn none(&mut self) {
        self.clear();
    }

    /// Makes a step, after which the list has its accesses alone, for a run that tells events. Answers the clocks that
    /// it takes.
    fn step<B: Bus>(
        &mut self,
        cpu: &mut Cpu,
        bus: &mut B,
        decoded: &Decoded,
        table: ClockTable,
    ) -> u16 {
        let (clocks, accesses) = step_noted(cpu, bus, decoded, table);
        *self = accesses;
        clocks
    }

    /// Makes the next iteration of a repeat, after which the list has its accesses alone, for a run that tells events.
    /// Answers the clocks that it takes.
    fn again<B: Bus>(&mut self, cpu: &mut Cpu, bus: &mut B, table: ClockTable) -> u16 {
        let (clocks, accesses) = again_noted(cpu, bus, table);
        *self = accesses;
        clocks
    }

    /// Enters an interrupt, after which the list has its accesses alone, for a run that tells events. Answers the
    /// clocks that it takes.
    fn enter<B: Bus>(
        &mut self,
        cpu: &mut Cpu,
        bus: &mut B,
        kind: u8,
        cause: Cause,
        table: ClockTable,
    ) -> u16 {
        let (clocks, accesses) = enter_noted(cpu, bus, kind, cause, table);
        *self = accesses;
        clocks
    }
}
