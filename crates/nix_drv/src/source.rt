//! Where the bytes of derivations come from.
ghost use Rattle.std.specs.Prelude.{◌≡◌, ◌≤◌, ℕ, List};
ghost use Rattle.nix_drv.specs.Sources.{Answer, GivesSame, IsCounted, IsGiven, source_number_of};

use nix_names::StorePath;
use std::alloc::{AllocError, AllocFailed, Global};
use thiserror::Error;

/// Why a source gave no bytes.
#[derive(Clone, Copy, Debug, PartialEq, Eq, Error)]
pub enum SourceFault {
    /// The source has no file at the path.
    #[error("there is no such file")]
    Missing,
    /// The source's device failed.
    #[error("the file could not be read")]
    Device,
    /// Memory was refused.
    #[error("memory was refused")]
    NoMemory,
}

impl SourceFault {
    /// The fault's number in the table of faults.
    pub fn number(&self) -> u8
        ensures { result ≡ source_number_of self.now }
    {
        match self {
            SourceFault::NoMemory => 9,
            SourceFault::Missing => 17,
            SourceFault::Device => 18,
        }
    }
}

impl From<AllocError> for SourceFault {
    ghost use Rattle.nix_drv.specs.declared.source.SourceFault.TheVariants.{NoMemory};

    ghost from_gives = { λ _ fault. fault ≡ NoMemory };

    fn from(_: AllocError) -> Self {
        SourceFault::NoMemory
    }
}

impl<T: Drop> From<AllocFailed<T>> for SourceFault {
    ghost use Rattle.nix_drv.specs.declared.source.SourceFault.TheVariants.{NoMemory};

    ghost from_gives = { λ _ fault. fault ≡ NoMemory };

    fn from(_: AllocFailed<T>) -> Self {
        SourceFault::NoMemory
    }
}

/// A source of the files of derivations, by their paths.
pub trait DrvSource {
    // The answers that may be given for a path.
    ghost gives: { Self → List ℕ → Answer → Type 0 };
    // The number of times that the device failed.
    ghost failures: { Self → ℕ };

    /// The bytes at the path. Answers `Missing` where there are none, and `Device` where the device
    /// failed, which is counted. A fetch does not change which answers may be given.
    fn fetch(&mut self, alloc: Global, path: &StorePath) -> Result<Vec<u8>, SourceFault>
        ensures keeps { GivesSame (gives self.old) (gives self.new) }
        ensures given { IsGiven (gives self.old path.now) result }
        ensures device { IsCounted (failures self.old) (failures self.new) result }
        ensures counts { failures self.old ≤ failures self.new };
}
