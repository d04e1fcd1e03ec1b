//! What holds of conditions, loops, calls and interrupts.
ghost use Rattle.execute_control.specs.ControlLaws.{CallReturns, ConditionsAreContrary, FarCallReturns, InterruptReturns, LoopRunsCxTimes};

use bus::Bus;

/// Checks the definition of the jumps' conditions: of two whose opcodes differ in the lowest bit exactly one holds,
/// whatever the flags.
pub fn conditions_are_contrary()
    ensures { ConditionsAreContrary }
{}

/// Checks the definition of LOOP: it runs as often as CX says when it begins, and 65,536 times from 0, whatever it
/// repeats, if that leaves CX as it is.
pub fn loop_runs_cx_times()
    ensures { LoopRunsCxTimes }
{}

/// Checks the definitions of near CALL and RET against each other: RET leads to the instruction after the CALL, with
/// SP as before the CALL plus the bytes that RET drops, if the stack keeps what is written to it and the subroutine
/// leaves its return address alone.
pub fn call_returns<B: Bus>()
    ensures { CallReturns B.meaning }
{}

/// Checks the definitions of far CALL and RETF against each other: RETF leads to the next instruction in its segment,
/// with SP as before and as much more as RETF says, if the stack takes bytes and the subroutine leaves its return
/// address alone.
pub fn far_call_returns<B: Bus>()
    ensures { FarCallReturns B.meaning }
{}

/// Checks the definitions of an interrupt's entry and IRET against each other: IRET gives back the flags, CS, IP and
/// SP, if the stack takes bytes and the handler leaves the six bytes that were pushed alone.
pub fn interrupt_returns<B: Bus>()
    ensures { InterruptReturns B.meaning }
{}
