//! Why a reader of a view refused.
ghost use Rattle.std.specs.Prelude.{◌≡◌};
ghost use Rattle.valid_view.specs.Faults.{number_of};

use crate::reading::WriterGone;
use nix_names::StorePath;
use thiserror::Error;

/// Why a reader of a view refused.
#[derive(Debug, Drop, Error)]
pub enum ViewFault {
    /// Memory was refused.
    #[error("memory was refused")]
    NoMemory,
    /// This path, of which the closure was asked, is not valid by the list that was seen.
    #[error("a path is not valid")]
    NotValid(StorePath),
    /// The view cannot be reached: its writer is gone. Only a reader that was refused makes this
    /// fault.
    #[error("the published list cannot be reached")]
    NoView(WriterGone),
}

impl ViewFault {
    /// The fault's number in the table of faults.
    pub fn number(&self) -> u8
        ensures { result ≡ number_of self.now }
    {
        match self {
            ViewFault::NoMemory => 9,
            ViewFault::NotValid(_) => 34,
            ViewFault::NoView(_) => 40,
        }
    }
}
