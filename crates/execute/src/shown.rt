//! What a processor keeps between two boundaries.
ghost use Rattle.std.specs.Prelude.{◌≡◌, is_some};

use crate::cpu::Cpu;
use execute_meaning::shadow::Shadow;

impl Cpu {
    /// Which interrupts the last instruction keeps off until one more has run, for the probe, which prints it.
    pub fn shadow(&self) -> Shadow
        ensures { result ≡ self.now.shadow }
    {
        self.parts.shadow
    }

    /// Whether a single step is due, for the probe, which prints it.
    pub fn is_step_due(&self) -> bool
        ensures { result ≡ self.now.step_due }
    {
        self.parts.step_due
    }

    /// Whether a repeat is between two of its iterations, for the probe, which prints it.
    pub fn is_repeating(&self) -> bool
        ensures { result ≡ is_some self.now.repeat }
    {
        self.parts.repeat.is_some()
    }
}
