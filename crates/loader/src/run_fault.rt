//! Why a run file is refused.
ghost use Rattle.std.specs.Prelude.{◌≡◌};
ghost use Rattle.loader.specs.declared.run_fault.RunFault.TheVariants.{Memory};
ghost use Rattle.loader.specs.RunFault.{run_fault_number, run_fault_name};

use std::alloc::AllocFailed;
use thiserror::Error;

/// Why a run file is refused.
#[derive(Clone, Copy, Debug, PartialEq, Eq, Drop, Error)]
pub enum RunFault {
    #[error("the run file isn't JSON")]
    NotJson,
    #[error("a field of the run file is missing, unknown or out of its range")]
    BadField,
    #[error("no key has the scan code of an entry of `keys`")]
    BadScan,
    #[error("an entry of `keys` is stamped before the one that it follows")]
    StampsFall,
    #[error("the budget lies above 2^40 clocks")]
    BudgetTooLarge,
    #[error("out of memory")]
    Memory,
}

impl<T: Drop> From<AllocFailed<T>> for RunFault {
    ghost from_gives = { λ _ fault. fault ≡ Memory };

    /// Lets `?` answer a refused allocation while a run file is read as want of memory.
    fn from(_refused: AllocFailed<T>) -> RunFault {
        RunFault::Memory
    }
}

impl RunFault {
    /// The number of why a run file is refused, from 31 to 37, which is printed with its name and by which programs
    /// tell one fault from another.
    pub fn number(self) -> u8
        ensures { result ≡ run_fault_number self }
    {
        match self {
            RunFault::NotJson => 31,
            RunFault::BadField => 32,
            RunFault::BadScan => 33,
            RunFault::StampsFall => 34,
            RunFault::BudgetTooLarge => 35,
            RunFault::Memory => 37,
        }
    }

    /// The name of why a run file is refused, as it is printed beside the fault's number.
    pub fn name(self) -> &'static str
        ensures { result.now ≡ run_fault_name self }
    {
        match self {
            RunFault::NotJson => "NotJson",
            RunFault::BadField => "BadField",
            RunFault::BadScan => "BadScan",
            RunFault::StampsFall => "StampsFall",
            RunFault::BudgetTooLarge => "BudgetTooLarge",
            RunFault::Memory => "Memory",
        }
    }
}
