//! Why a run ends without a settled book.
ghost use Rattle.std.specs.Prelude.{◌≡◌};
ghost use Rattle.store_run.specs.Numbers.{fault_number_of};

use std::alloc::AllocError;
use thiserror::Error;
use valid_view::OpenFault;

/// Why a run ends without a settled book.
#[derive(Clone, Copy, Debug, PartialEq, Eq, Error)]
pub enum RunFault {
    /// There is no builder, or there are more than 64.
    #[error("there must be from 1 to 64 workers")]
    NoWorkers,
    /// The view of the valid paths could not be opened.
    #[error("the view of the valid paths could not be opened")]
    NoView,
    /// All workers that could be started have ended, and the book isn't settled.
    #[error("the workers ended before the book was settled")]
    ThreadFault,
    /// Memory was refused.
    #[error("memory was refused")]
    NoMemory,
    /// The book behind the lock isn't over the plan, system and entries of the call.
    #[error("the book is not over the plan that was given")]
    ForeignPlan,
}

impl RunFault {
    /// The fault's number in the table of faults.
    pub fn number(&self) -> u8
        ensures { result ≡ fault_number_of self.now }
    {
        match self {
            RunFault::NoView => 40,
            RunFault::NoWorkers => 70,
            RunFault::ThreadFault => 71,
            RunFault::NoMemory => 72,
            RunFault::ForeignPlan => 73,
        }
    }
}

impl From<AllocError> for RunFault {
    ghost use Rattle.store_run.specs.declared.fault.RunFault.TheVariants.{NoMemory};

    ghost from_gives = { λ _ fault. fault ≡ NoMemory };

    fn from(_: AllocError) -> Self {
        RunFault::NoMemory
    }
}

impl From<OpenFault> for RunFault {
    ghost use Rattle.store_run.specs.Realising.{fault_of_opening};

    ghost from_gives = { λ opening fault. fault ≡ fault_of_opening opening };

    fn from(fault: OpenFault) -> Self {
        match fault {
            OpenFault::NoMemory => RunFault::NoMemory,
            OpenFault::NoView(_) => RunFault::NoView,
        }
    }
}
