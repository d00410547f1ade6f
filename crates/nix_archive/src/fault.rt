//! Why a reading gave up.
ghost use Rattle.std.specs.Prelude.{◌≡◌};

use std::alloc::AllocError;
use thiserror::Error;

/// Why a reading gave up.
#[derive(Clone, Copy, Debug, PartialEq, Eq, Error)]
pub enum ArchiveFault {
    /// No archive goes on with the bytes up to and with the one at this offset.
    #[error("no archive goes on with byte {0}")]
    BadNar(usize),
    /// Memory was refused.
    #[error("memory was refused")]
    NoMemory,
}

impl From<AllocError> for ArchiveFault {
    ghost use Rattle.nix_archive.specs.declared.fault.ArchiveFault.TheVariants.{NoMemory};

    ghost from_gives = { λ _ fault. fault ≡ NoMemory };

    fn from(_: AllocError) -> Self {
        ArchiveFault::NoMemory
    }
}
