//! Why a tree could not be made.
ghost use Rattle.std.specs.Prelude.{◌≡◌, ◌↔◌};

use crate::failures::Failure;
use std::alloc::AllocError;
use std::io;

/// Why a tree could not be made on disk.
#[derive(Clone, Copy, Debug, PartialEq, Eq)]
pub enum MakerFault {
    /// Memory was refused.
    NoMemory,
    /// The system refused to make a part, for example since something lies at its path already; or
    /// its name or target isn't UTF-8.
    Unwritable,
}

impl From<AllocError> for MakerFault {
    ghost use Rattle.process_build.specs.declared.tree_maker.maker_fault.MakerFault.TheVariants.{NoMemory};

    ghost from_gives = { λ _ fault. fault ≡ NoMemory };

    fn from(_: AllocError) -> Self {
        MakerFault::NoMemory
    }
}

impl From<io::Error> for MakerFault {
    ghost use Rattle.process_build.specs.Errors.{IsNoMemory};
    ghost use Rattle.process_build.specs.declared.tree_maker.maker_fault.MakerFault.TheVariants.{NoMemory};

    ghost from_gives = { λ error fault. (fault ≡ NoMemory) ↔ IsNoMemory error };

    fn from(error: io::Error) -> Self {
        match Failure::from(error) {
            Failure::NoMemory => MakerFault::NoMemory,
            _ => MakerFault::Unwritable,
        }
    }
}
