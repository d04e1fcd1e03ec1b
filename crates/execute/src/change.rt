//! Changes of a processor's registers by a session.
ghost use Rattle.std.specs.Prelude.{◌≡◌, None};
ghost use Rattle.board_types.specs.declared.state.State.TheVariants.{Running};
ghost use Rattle.execute_machine.specs.Registers.{register_file};

use crate::cpu::Cpu;
use board_types::regs::Regs;
use board_types::state::State;
use execute_machine::registers::Registers;

impl Cpu {
    /// Takes these registers in place of its own, for a session that changes them; what is due stays due.
    pub fn take_regs(&mut self, regs: Regs)
        ensures { self.new ≡ record self.old { registers = register_file regs } }
    {
        self.parts.registers = Registers::new(regs);
    }

    /// Runs on from CS:IP, for a session that changes these: a halt, a jam and a repeat in progress end.
    pub fn run_on(&mut self)
        ensures { self.new ≡ record self.old { state = Running; repeat = None } }
    {
        self.parts.state = State::Running;
        self.parts.repeat = None;
        self.plain = self.parts.is_plain();
    }
}
