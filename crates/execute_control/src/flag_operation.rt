//! The operations on single flags.
ghost use Rattle.std.specs.Prelude.{◌≡◌};
ghost use Rattle.execute_control.specs.ControlMeaning.{after_flag_operation};

use execute_machine::flags::FlagRegister;
use isa::operation::Processor;

/// Performs CMC, CLC, STC, CLI, STI, CLD or STD on its flag. HLT, WAIT and ESC come here too, and change no flag; that
/// HLT halts the processor is the caller's to do.
#[tactic(auto, unfolding(crate::specs::ControlMeaning::after_flag_operation))]
pub fn perform_flag_operation(flags: &mut FlagRegister, operation: Processor)
    ensures { flags.new ≡ after_flag_operation flags.old operation }
{
    match operation {
        Processor::Cmc => flags.set_carry(!flags.carry()),
        Processor::Clc => flags.set_carry(false),
        Processor::Stc => flags.set_carry(true),
        Processor::Cli => flags.set_interrupt_enable(false),
        Processor::Sti => flags.set_interrupt_enable(true),
        Processor::Cld => flags.set_direction(false),
        Processor::Std => flags.set_direction(true),
        Processor::Hlt | Processor::Wait | Processor::Esc => {}
    }
}
