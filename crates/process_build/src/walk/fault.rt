//! Why a walk over a tree on disk gave up, or was ended by what it told.
ghost use Rattle.std.specs.Prelude.{◌≡◌, ◌≢◌, ◌↔◌, ◌⊎◌};

use crate::failures::Failure;
use std::alloc::{AllocError, AllocFailed};
use std::io;

/// Why a walk over a tree on disk gave up.
#[derive(Clone, Copy, Debug, PartialEq, Eq)]
pub enum WalkFault {
    /// Memory was refused.
    NoMemory,
    /// Something can't be read, or isn't a file, a folder or a link, or its name or target isn't
    /// UTF-8, or it changed while it was read.
    Unreadable,
}

impl From<AllocError> for WalkFault {
    ghost use Rattle.process_build.specs.declared.walk.fault.WalkFault.TheVariants.{NoMemory};

    ghost from_gives = { λ _ fault. fault ≡ NoMemory };

    fn from(_: AllocError) -> Self {
        WalkFault::NoMemory
    }
}

impl<T: Drop> From<AllocFailed<T>> for WalkFault {
    ghost use Rattle.process_build.specs.declared.walk.fault.WalkFault.TheVariants.{NoMemory};

    ghost from_gives = { λ _ fault. fault ≡ NoMemory };

    fn from(_: AllocFailed<T>) -> Self {
        WalkFault::NoMemory
    }
}

impl From<io::Error> for WalkFault {
    ghost use Rattle.process_build.specs.Errors.{IsNoMemory};
    ghost use Rattle.process_build.specs.declared.walk.fault.WalkFault.TheVariants.{NoMemory};

    ghost from_gives = { λ error fault. (fault ≡ NoMemory) ↔ IsNoMemory error };

    fn from(error: io::Error) -> Self {
        match Failure::from(error) {
            Failure::NoMemory => WalkFault::NoMemory,
            _ => WalkFault::Unreadable,
        }
    }
}

/// Why a walk over a tree on disk ended before all of the tree was told.
#[derive(Clone, Copy)]
pub enum Halt {
    /// The walk gave up.
    Fault(WalkFault),
    /// What was told, or is to be told next, passes a limit.
    TooLarge,
}

impl From<WalkFault> for Halt {
    ghost use Rattle.process_build.specs.declared.walk.fault.Halt.TheVariants.{Fault};

    ghost from_gives = { λ fault halt. halt ≡ Fault fault };

    fn from(fault: WalkFault) -> Self {
        Halt::Fault(fault)
    }
}

impl From<AllocError> for Halt {
    ghost use Rattle.process_build.specs.declared.walk.fault.Halt.TheVariants.{Fault};
    ghost use Rattle.process_build.specs.declared.walk.fault.WalkFault.TheVariants.{NoMemory};

    ghost from_gives = { λ _ halt. halt ≡ Fault NoMemory };

    fn from(error: AllocError) -> Self {
        Halt::Fault(WalkFault::from(error))
    }
}

impl<T: Drop> From<AllocFailed<T>> for Halt {
    ghost use Rattle.process_build.specs.declared.walk.fault.Halt.TheVariants.{Fault};
    ghost use Rattle.process_build.specs.declared.walk.fault.WalkFault.TheVariants.{NoMemory};

    ghost from_gives = { λ _ halt. halt ≡ Fault NoMemory };

    fn from(error: AllocFailed<T>) -> Self {
        Halt::Fault(WalkFault::from(error))
    }
}

impl From<io::Error> for Halt {
    ghost use Rattle.process_build.specs.Errors.{IsNoMemory};
    ghost use Rattle.process_build.specs.declared.walk.fault.Halt.TheVariants.{Fault, TooLarge};
    ghost use Rattle.process_build.specs.declared.walk.fault.WalkFault.TheVariants.{NoMemory};

    ghost from_gives = { λ error halt. ((halt ≡ Fault NoMemory) ↔ IsNoMemory error)
        × (halt ≢ TooLarge) };

    fn from(error: io::Error) -> Self {
        Halt::Fault(WalkFault::from(error))
    }
}

impl From<Halt> for WalkFault {
    ghost use Rattle.process_build.specs.declared.walk.fault.Halt.TheVariants.{Fault, TooLarge};

    ghost from_gives = { λ halt fault. (halt ≡ Fault fault) ⊎ (halt ≡ TooLarge) };

    // A walk that nothing limits is not ended by what it told.
    fn from(halt: Halt) -> Self {
        match halt {
            Halt::Fault(fault) => fault,
            Halt::TooLarge => WalkFault::Unreadable,
        }
    }
}
