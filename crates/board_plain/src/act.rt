//! What the processor does in a clock.

use decode::decoding::Decoding;

/// What the processor does in a clock.
#[derive(Drop)]
pub enum Act {
    /// The processor does nothing: it is busy, halted or jammed.
    Nothing,
    /// The processor enters the interrupt that is requested.
    Request,
    /// The processor enters the single step.
    SingleStep,
    /// The processor makes the next iteration of a repeat.
    Iteration,
    /// The processor makes the step of the instruction that stands at CS:IP.
    Instruction(Decoding),
}
