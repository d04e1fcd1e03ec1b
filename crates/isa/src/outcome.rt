//! What a step of an instruction found, and what it costs.

/// A number of processor clocks.
#[derive(Clone, Copy)]
pub struct Cost(pub u16);

/// What a step found, as far as its cost may depend on it.
#[derive(Clone, Copy)]
pub struct Outcome {
    /// The jump was taken.
    pub taken: bool,
    /// CL, if it is a shift's count.
    pub cl: u8,
    /// The step is the instruction's first.
    pub first_step: bool,
    /// CX was 0 under a repeat prefix.
    pub cx_zero: bool,
    /// The division has no quotient.
    pub fault: bool,
}
