//! Why a scan gave up.
ghost use Rattle.std.specs.Prelude.{◌≡◌};
ghost use Rattle.ref_scan.specs.Faults.{number_of};
ghost use Rattle.ref_scan.specs.declared.fault.ScanFault.TheVariants.{NoMemory};

use std::alloc::{AllocError, AllocFailed};
use thiserror::Error;

/// Why a scan gave up.
#[derive(Clone, Copy, Debug, PartialEq, Eq, Error)]
pub enum ScanFault {
    /// Memory was refused.
    #[error("memory was refused")]
    NoMemory,
}

impl ScanFault {
    /// The fault's number in the table of faults.
    pub fn number(&self) -> u8
        ensures { result ≡ number_of self.now }
    {
        match self {
            ScanFault::NoMemory => 9,
        }
    }
}

impl From<AllocError> for ScanFault {
    ghost from_gives = { λ _ fault. fault ≡ NoMemory };

    fn from(_: AllocError) -> Self {
        ScanFault::NoMemory
    }
}

impl<T: Drop> From<AllocFailed<T>> for ScanFault {
    ghost from_gives = { λ _ fault. fault ≡ NoMemory };

    fn from(_: AllocFailed<T>) -> Self {
        ScanFault::NoMemory
    }
}
