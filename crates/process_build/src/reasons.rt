//! What a failure means for a build.
ghost use Rattle.std.specs.Prelude.{◌≡◌, ◌≢◌, ◌⊎◌};
ghost use Rattle.process_build.specs.private.Answers.{IsRoomFault};
ghost use Rattle.process_build.specs.Errors.{IsNoMemory};
ghost use Rattle.build_outcome.specs.declared.reason.Reason.TheVariants.{NoStart, OutOfMemory};
ghost use Rattle.build_outcome.specs.declared.reason.Reason.TheVariants.{ReadFault};

use crate::failures::Failure;
use crate::walk::fault::{Halt, WalkFault};
use build_outcome::Reason;
use std::io;

/// The reason of a failure before the builder has started.
pub fn reason_before_start(failure: Failure) -> Reason
    ensures no_memory { failure ≡ Failure.NoMemory → result ≡ OutOfMemory }
    ensures other { failure ≢ Failure.NoMemory → result ≡ NoStart }
    ensures one { IsRoomFault result }
{
    match failure {
        Failure::NoMemory => Reason::OutOfMemory,
        _ => Reason::NoStart,
    }
}

/// The reason of an error before the builder has started.
pub fn no_start(error: io::Error) -> Reason
    ensures no_memory { IsNoMemory error → result ≡ OutOfMemory }
    ensures other { ¬ IsNoMemory error → result ≡ NoStart }
    ensures one { IsRoomFault result }
{
    reason_before_start(Failure::from(error))
}

/// The reason of an error after the builder has started: in the wait for it, or in the reading of
/// an output.
pub fn read_fault(error: io::Error) -> Reason
    ensures no_memory { IsNoMemory error → result ≡ OutOfMemory }
    ensures other { ¬ IsNoMemory error → result ≡ ReadFault }
    ensures one { (result ≡ OutOfMemory) ⊎ (result ≡ ReadFault) }
{
    match Failure::from(error) {
        Failure::NoMemory => Reason::OutOfMemory,
        _ => Reason::ReadFault,
    }
}

// The reason of a fault in the walk over an output.
impl From<WalkFault> for Reason {
    ghost use Rattle.process_build.specs.private.Answers.{IsReadingFault, fault_reason};

    ghost from_gives = { λ fault reason. (reason ≡ fault_reason fault) × IsReadingFault reason };

    fn from(fault: WalkFault) -> Self {
        match fault {
            WalkFault::NoMemory => Reason::OutOfMemory,
            WalkFault::Unreadable => Reason::ReadFault,
        }
    }
}

// The reason of the end of a walk over an output that isn't told to its end.
impl From<Halt> for Reason {
    ghost use Rattle.process_build.specs.private.Answers.{IsReadingFault, halt_reason};

    ghost from_gives = { λ halt reason. (reason ≡ halt_reason halt) × IsReadingFault reason };

    fn from(halt: Halt) -> Self {
        match halt {
            Halt::Fault(fault) => Reason::from(fault),
            Halt::TooLarge => Reason::TooLarge,
        }
    }
}
