//! Why a call on structured attributes refused.
ghost use Rattle.std.specs.Prelude.{◌≡◌};

use json::Invalid;
use std::alloc::{AllocError, AllocFailed};
use thiserror::Error;

/// Why a call on structured attributes refused.
#[derive(Clone, Copy, Debug, PartialEq, Eq, Error)]
pub enum AttributesFault {
    /// Memory was refused.
    #[error("memory was refused")]
    NoMemory,
    /// The structured attributes are not what Nix takes.
    #[error("the structured attributes are not what Nix takes")]
    BadAttributes,
}

impl From<AllocError> for AttributesFault {
    ghost use Rattle.structured_attrs.specs.declared.fault.AttributesFault.TheVariants.{NoMemory};

    ghost from_gives = { λ _ fault. fault ≡ NoMemory };

    fn from(_: AllocError) -> Self {
        AttributesFault::NoMemory
    }
}

impl<T: Drop> From<AllocFailed<T>> for AttributesFault {
    ghost use Rattle.structured_attrs.specs.declared.fault.AttributesFault.TheVariants.{NoMemory};

    ghost from_gives = { λ _ fault. fault ≡ NoMemory };

    fn from(_: AllocFailed<T>) -> Self {
        AttributesFault::NoMemory
    }
}

impl From<Invalid> for AttributesFault {
    ghost use Rattle.structured_attrs.specs.declared.fault.AttributesFault.TheVariants.{BadAttributes};

    ghost from_gives = { λ _ fault. fault ≡ BadAttributes };

    fn from(_: Invalid) -> Self {
        AttributesFault::BadAttributes
    }
}
