//! Why a call of a book refuses.
ghost use Rattle.std.specs.Prelude.{◌≡◌};
ghost use Rattle.run_states.specs.Numbers.{fault_number_of};

use std::alloc::{AllocError, AllocFailed};
use thiserror::Error;
use valid_table::OutletFault;

/// Why a call of a book refuses.
#[derive(Clone, Copy, Debug, PartialEq, Eq, Error)]
pub enum BookFault {
    /// Memory was refused.
    #[error("memory was refused")]
    NoMemory,
    /// The published list cannot be reached.
    #[error("the published list cannot be reached")]
    NoView,
    /// The book has no such lease building.
    #[error("the book has no such lease building")]
    ForeignLease,
    /// The derivation's outputs may not be registered with these records.
    #[error("the outputs may not be registered with these records")]
    NotLawful,
}

impl BookFault {
    /// The fault's number in the table of faults.
    pub fn number(&self) -> u8
        ensures { result ≡ fault_number_of self.now }
    {
        match self {
            BookFault::NoMemory => 9,
            BookFault::NoView => 40,
            BookFault::ForeignLease => 65,
            BookFault::NotLawful => 66,
        }
    }
}

impl From<AllocError> for BookFault {
    ghost use Rattle.run_states.specs.declared.fault.BookFault.TheVariants.{NoMemory};

    ghost from_gives = { λ _ fault. fault ≡ NoMemory };

    fn from(_: AllocError) -> Self {
        BookFault::NoMemory
    }
}

impl<T: Drop> From<AllocFailed<T>> for BookFault {
    ghost use Rattle.run_states.specs.declared.fault.BookFault.TheVariants.{NoMemory};

    ghost from_gives = { λ _ fault. fault ≡ NoMemory };

    fn from(_: AllocFailed<T>) -> Self {
        BookFault::NoMemory
    }
}

impl From<OutletFault> for BookFault {
    ghost use Rattle.run_states.specs.Numbers.{fault_of};

    ghost from_gives = { λ outlet fault. fault ≡ fault_of outlet };

    fn from(fault: OutletFault) -> Self {
        match fault {
            OutletFault::NoMemory => BookFault::NoMemory,
            OutletFault::NoView => BookFault::NoView,
        }
    }
}
