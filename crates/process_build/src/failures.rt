//! What an error of the system means: at a path, and for the call that it ended.
ghost use Rattle.std.specs.Prelude.{◌≡◌, ◌↔◌, IsTrue};
ghost use Rattle.process_build.specs.Errors.{IsInterruption};

use std::alloc::AllocError;
use std::io;
use std::io::ErrorKind;

/// What an error of the system means at a path.
#[derive(Clone, Copy, Debug, PartialEq, Eq)]
pub enum Failure {
    /// This program's own want of memory, and not a fault of the system.
    NoMemory,
    /// Nothing is found at the path.
    NotFound,
    /// Something lies at the path already.
    Taken,
    /// Any other fault of the system.
    Other,
}

impl From<AllocError> for Failure {
    ghost use Rattle.process_build.specs.declared.failures.Failure.TheVariants.{NoMemory};

    ghost from_gives = { λ _ failure. failure ≡ NoMemory };

    fn from(_: AllocError) -> Self {
        Failure::NoMemory
    }
}

impl From<io::Error> for Failure {
    ghost use Rattle.process_build.specs.Errors.{IsFailure};

    ghost from_gives = { λ error failure. IsFailure error failure };

    fn from(error: io::Error) -> Self {
        match error.kind() {
            ErrorKind::NotFound => Failure::NotFound,
            ErrorKind::AlreadyExists => Failure::Taken,
            ErrorKind::OutOfMemory if error.raw_os_error().is_none() => Failure::NoMemory,
            _ => Failure::Other,
        }
    }
}

// Whether a call that ended with an error is made again: a signal came between, and nothing was
// done.
pub(crate) fn is_made_again(error: &io::Error) -> bool
    ensures { IsTrue result ↔ IsInterruption error.now }
{
    error.kind() == ErrorKind::Interrupted
}
