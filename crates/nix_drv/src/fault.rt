//! Why bytes are no derivation, or not at the derivation's own path.
ghost use Rattle.std.specs.Prelude.{◌≡◌};
ghost use Rattle.nix_drv.specs.Outcome.{number_of};

use nix_names::StorePath;
use std::alloc::{AllocError, AllocFailed};
use thiserror::Error;

/// Why a call on derivations refused.
#[derive(Debug, Drop, Error)]
pub enum DrvFault {
    /// Memory was refused.
    #[error("memory was refused")]
    NoMemory,
    /// The bytes are no text of the language. The offset is the length of their longest beginning
    /// that more bytes can complete to a text.
    #[error("the text is no derivation from byte {0} on")]
    Syntax(usize),
    /// The element at the offset isn't greater than the one before it, but its list must rise. It
    /// is the first such element of the text.
    #[error("the element at byte {0} is out of order")]
    Order(usize),
    /// The text is longer than 4,194,304 bytes.
    #[error("the text has more than 4,194,304 bytes")]
    TooLong,
    /// The text is not at its own path, which is this one.
    #[error("the derivation stands at another path than its own")]
    TextPathMismatch(StorePath),
    /// The path's name is not that of a derivation's file.
    #[error("the name is not that of a derivation's file")]
    NotADrvName,
    /// The parts break an order rule.
    #[error("the parts are not sorted")]
    NotSorted,
    /// A reference is no path of the store folder. This is the first such reference of the text.
    #[error("a reference is not a path of the store folder")]
    BadReference(Vec<u8>),
}

impl DrvFault {
    /// The fault's number in the table of faults.
    pub fn number(&self) -> u8
        ensures { result ≡ number_of self.now }
    {
        match self {
            DrvFault::NoMemory => 9,
            DrvFault::Syntax(_) => 10,
            DrvFault::Order(_) => 11,
            DrvFault::TooLong => 12,
            DrvFault::TextPathMismatch(_) => 13,
            DrvFault::NotADrvName => 14,
            DrvFault::NotSorted => 15,
            DrvFault::BadReference(_) => 16,
        }
    }
}

impl From<AllocError> for DrvFault {
    ghost use Rattle.nix_drv.specs.declared.fault.DrvFault.TheVariants.{NoMemory};

    ghost from_gives = { λ _ e. e ≡ NoMemory };

    fn from(_e: AllocError) -> DrvFault {
        DrvFault::NoMemory
    }
}

impl<T: Drop> From<AllocFailed<T>> for DrvFault {
    ghost use Rattle.nix_drv.specs.declared.fault.DrvFault.TheVariants.{NoMemory};

    ghost from_gives = { λ _ e. e ≡ NoMemory };

    fn from(_e: AllocFailed<T>) -> DrvFault {
        DrvFault::NoMemory
    }
}

// Why no value was read.
#[derive(Debug, Drop)]
pub(crate) enum ParseFault {
    // Memory was refused.
    NoMemory,
    // The bytes are no text. This is the number of bytes after the longest beginning that more
    // bytes can complete to a text.
    Left(usize),
}

impl From<AllocError> for ParseFault {
    ghost use Rattle.nix_drv.specs.declared.fault.ParseFault.TheVariants.{NoMemory};

    ghost from_gives = { λ _ e. e ≡ NoMemory };

    fn from(_e: AllocError) -> ParseFault {
        ParseFault::NoMemory
    }
}

impl<T: Drop> From<AllocFailed<T>> for ParseFault {
    ghost use Rattle.nix_drv.specs.declared.fault.ParseFault.TheVariants.{NoMemory};

    ghost from_gives = { λ _ e. e ≡ NoMemory };

    fn from(_e: AllocFailed<T>) -> ParseFault {
        ParseFault::NoMemory
    }
}
