//! Why a text is no name, no store path or no base-32 text.
ghost use Rattle.std.specs.Prelude.{◌≡◌};
ghost use Rattle.nix_names.specs.Faults.{number_of};

use std::alloc::AllocError;
use thiserror::Error;

/// Why a call on names refused.
#[derive(Clone, Copy, Debug, PartialEq, Eq, Error)]
pub enum NameFault {
    /// A base-32 text whose length is wrong for the number of bytes.
    #[error("the text's length is wrong for the number of bytes")]
    BadLength,
    /// The offset, counted from 0, of the first byte that is no base-32 digit.
    #[error("byte {0} is no base-32 digit")]
    BadChar(usize),
    /// A base-32 text whose number is too large for the number of bytes.
    #[error("the text's number is too large for the number of bytes")]
    Overflow,
    /// A text that does not begin with the store folder and a slash.
    #[error("the path is not in the store folder")]
    NotInStore,
    /// What follows the store folder is not 32 base-32 digits and a dash.
    #[error("the path has no hash part")]
    BadHashPart,
    /// Bytes that cannot be a store path's name.
    #[error("the name cannot be a store path's name")]
    BadName,
    /// Bytes that cannot be a store folder.
    #[error("the folder cannot be a store folder")]
    BadStoreDir,
    /// Memory was refused.
    #[error("memory was refused")]
    NoMemory,
}

impl NameFault {
    /// The fault's number in the table of faults.
    pub fn number(&self) -> u8
        ensures { result ≡ number_of self.now }
    {
        match self {
            NameFault::BadLength => 1,
            NameFault::BadChar(_) => 2,
            NameFault::Overflow => 3,
            NameFault::NotInStore => 4,
            NameFault::BadHashPart => 5,
            NameFault::BadName => 6,
            NameFault::BadStoreDir => 7,
            NameFault::NoMemory => 9,
        }
    }
}

impl From<AllocError> for NameFault {
    ghost use Rattle.nix_names.specs.declared.fault.NameFault.TheVariants.{NoMemory};

    ghost from_gives = { λ _ fault. fault ≡ NoMemory };

    fn from(_: AllocError) -> Self {
        NameFault::NoMemory
    }
}
