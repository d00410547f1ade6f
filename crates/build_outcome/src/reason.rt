//! Why a derivation was not built: the reason of a failure.
ghost use Rattle.std.specs.Prelude.{◌≡◌};
ghost use Rattle.build_outcome.specs.Numbers.{reason_number_of};
ghost use Rattle.build_outcome.specs.declared.reason.Reason.TheVariants.{OutOfMemory};

use std::alloc::{AllocError, AllocFailed};

/// Why the building of a derivation failed.
#[derive(Clone, Copy, Debug, PartialEq, Eq)]
pub enum Reason {
    /// The builder ended with this exit status, which isn't 0.
    ExitStatus(i32),
    /// The builder could not be started.
    NoStart,
    /// The output with this number, counted from 0, is missing.
    MissingOutput(usize),
    /// A fixed output, of which a file's bytes are hashed, isn't one file, or is one that its owner
    /// may execute and the profile is `nix`.
    NotFlatFile,
    /// A fixed output's content hasn't the declared hash.
    HashMismatch,
    /// Different outputs refer to each other.
    OutputCycle,
    /// An output passes the limits of an output's tree. There are none under the profile `nix`.
    TooLarge,
    /// An output could not be read, or has no archive where one is asked for.
    ReadFault,
    /// Memory was refused.
    OutOfMemory,
    /// A signal ended the builder.
    Killed,
    /// The group of the output with this number, counted from 0, or others may write it, and the
    /// profile is `nix`.
    BadMode(usize),
    /// The output with the first number, counted from 0, refers to a path to which it may not: the
    /// one with the second number, counted from 0, among the permitted paths in rising order.
    NotAllowed(usize, usize),
    /// A check of the output with this number, counted from 0, lists what is neither a path of the
    /// store folder nor the name of an output.
    BadSpecifier(usize),
    /// The structured attributes are not what Nix takes.
    BadAttributes,
    /// `exportReferencesGraph` asks for what it may not.
    BadGraph,
    /// The archive of a path is asked for and not known: of the one with this number, counted from
    /// 0, among the permitted paths in rising order.
    UnknownNar(usize),
    /// The archive of the output with this number, counted from 0, is longer than its `maxSize`.
    PastMaxSize(usize),
    /// The archives of the closure of the output with this number, counted from 0, are longer than
    /// its `maxClosureSize` together.
    PastMaxClosureSize(usize),
}

impl Reason {
    /// The reason's number in the table of faults.
    pub fn number(&self) -> u8
        ensures { result ≡ reason_number_of self.now }
    {
        match self {
            Reason::ExitStatus(_) => 50,
            Reason::NoStart => 51,
            Reason::MissingOutput(_) => 52,
            Reason::NotFlatFile => 53,
            Reason::HashMismatch => 54,
            Reason::OutputCycle => 55,
            Reason::TooLarge => 56,
            Reason::ReadFault => 57,
            Reason::OutOfMemory => 58,
            Reason::Killed => 59,
            Reason::BadMode(_) => 81,
            Reason::NotAllowed(_, _) => 84,
            Reason::BadSpecifier(_) => 85,
            Reason::BadAttributes => 79,
            Reason::BadGraph => 80,
            Reason::UnknownNar(_) => 86,
            Reason::PastMaxSize(_) => 82,
            Reason::PastMaxClosureSize(_) => 83,
        }
    }
}

impl From<AllocError> for Reason {
    ghost from_gives = { λ _ reason. reason ≡ OutOfMemory };

    fn from(_: AllocError) -> Self {
        Reason::OutOfMemory
    }
}

impl<T: Drop> From<AllocFailed<T>> for Reason {
    ghost from_gives = { λ _ reason. reason ≡ OutOfMemory };

    fn from(_: AllocFailed<T>) -> Self {
        Reason::OutOfMemory
    }
}
