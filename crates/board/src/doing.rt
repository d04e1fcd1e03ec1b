//! What the processor does in a clock, as the board's code has it.

use decode::decoded::Decoded;

/// An act, its instruction ready to run by its slot.
#[derive(Drop)]
pub(crate) enum Doing {
    Nothing,
    Request,
    SingleStep,
    Iteration,
    /// The step of the instruction that stands at CS:IP.
    Instruction(Decoded),
}
