//! What is told of an instruction by its bytes is what its steps do.
ghost use Rattle.forms.specs.AccessLaws.{AccessesAreTold};
ghost use Rattle.forms.specs.FormLaws.{ClocksAreTold, FlowIsTold, OthersStay, StackIsTold};
ghost use Rattle.forms.specs.NoMore.{NoMore};

use bus::Bus;
use execute_meaning::laws::writes_are_counted;

/// The clocks of a step are those that are told, by both tables.
pub fn clocks_are_told<B: Bus>()
    ensures { ClocksAreTold B.meaning }
{}

/// No more is told of an instruction than what a step of it does from some start.
pub fn no_more_is_told()
    ensures { NoMore }
{}

/// What an instruction isn't told to change stays at a step.
pub fn others_stay<B: Bus>()
    ensures { OthersStay B.meaning }
{}

/// SP moves at a step as it is told.
pub fn stack_is_told<B: Bus>()
    ensures { StackIsTold B.meaning }
{}

/// CS:IP after a step is where the instruction is told to lead.
pub fn flow_is_told<B: Bus>()
    ensures { FlowIsTold B.meaning }
{}

/// A step writes as many bytes to memory as are told, and reaches the ports that are told.
pub fn accesses_are_told<B: Bus>()
    ensures { AccessesAreTold B.meaning }
{
    writes_are_counted::<B>();
}
