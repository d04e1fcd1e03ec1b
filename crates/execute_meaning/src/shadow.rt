//! Interrupts that an instruction keeps off.
ghost use Rattle.std.specs.Prelude.{◌≡◌};
ghost use Rattle.execute_meaning.specs.Boundaries.{lets_requests, lets_single_steps};

/// Which interrupts the last instruction keeps off until one more has run.
#[derive(Clone, Copy)]
pub enum Shadow {
    /// None.
    Nothing,
    /// Interrupts by request, after STI.
    Requests,
    /// Interrupts by request and the single step, after MOV or POP to a segment register.
    Interrupts,
}

impl Shadow {
    /// Whether the last instruction lets a requested interrupt come before one more instruction has run: STI doesn't,
    /// nor do MOV and POP to a segment register.
    pub fn lets_requests(self) -> bool
        ensures { result ≡ lets_requests self }
    {
        match self {
            Shadow::Nothing => true,
            Shadow::Requests | Shadow::Interrupts => false,
        }
    }

    /// Whether the last instruction lets a single step come before one more instruction has run: MOV and POP to a
    /// segment register don't.
    pub fn lets_single_steps(self) -> bool
        ensures { result ≡ lets_single_steps self }
    {
        match self {
            Shadow::Nothing | Shadow::Requests => true,
            Shadow::Interrupts => false,
        }
    }
}
