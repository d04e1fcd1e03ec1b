//! Whether the processor goes on.

/// What the processor is doing.
#[derive(Clone, Copy, Debug, PartialEq, Eq)]
pub enum State {
    /// The processor makes steps.
    Running,
    /// After HLT, until an interrupt is taken.
    Halted,
    /// No instruction stood at CS:IP; the processor stays jammed.
    Jammed,
}
