//! Why a call on journals, tables and outlets refused.
ghost use Rattle.std.specs.Prelude.{◌≡◌};
ghost use Rattle.valid_table.specs.Faults.{number_of, outlet_number_of};

use crate::reachability::reference::Reference;
use nix_names::StorePath;
use std::alloc::{AllocError, AllocFailed};
use thiserror::Error;

/// Why a call on a journal or a table refused. Lines are counted from 1.
#[derive(Debug, Drop, Error)]
pub enum TableFault {
    /// Memory was refused.
    #[error("memory was refused")]
    NoMemory,
    /// This line has no line's form, may not come where it is, breaks an order or lacks its
    /// newline.
    #[error("line {0} is no line of a journal")]
    BadLine(usize),
    /// This line refers to a path that neither an earlier entry nor its own registers.
    #[error("line {0} refers to a path that is not registered")]
    NotClosed(usize),
    /// This line registers a path that an earlier entry registered.
    #[error("line {0} registers a path again")]
    Twice(usize),
    /// The text is a journal's of another version than 1 and 2.
    #[error("the journal has another version")]
    WrongVersion,
    /// This path, of which the closure was asked, is not valid.
    #[error("a path is not valid")]
    NotValid(StorePath),
    /// The text has more than 134,217,728 bytes, or is of version 1 and has more than 67,108,864.
    #[error("the journal has more bytes than its version may have")]
    TooLong,
    /// This path, to which an entry refers, is neither valid nor registered by the entry.
    #[error("a reference is not valid")]
    Unclosed(Reference),
    /// This path, which an entry registers, is valid already.
    #[error("a path is valid already")]
    AlreadyValid(StorePath),
}

impl TableFault {
    /// The fault's number in the table of faults.
    pub fn number(&self) -> u8
        ensures { result ≡ number_of self.now }
    {
        match self {
            TableFault::NoMemory => 9,
            TableFault::BadLine(_) => 30,
            TableFault::NotClosed(_) => 31,
            TableFault::Twice(_) => 32,
            TableFault::WrongVersion => 33,
            TableFault::NotValid(_) => 34,
            TableFault::TooLong => 35,
            TableFault::Unclosed(_) => 36,
            TableFault::AlreadyValid(_) => 37,
        }
    }
}

impl From<AllocError> for TableFault {
    ghost use Rattle.valid_table.specs.declared.fault.TableFault.TheVariants.{NoMemory};

    ghost from_gives = { λ _ fault. fault ≡ NoMemory };

    fn from(_: AllocError) -> Self {
        TableFault::NoMemory
    }
}

impl<T: Drop> From<AllocFailed<T>> for TableFault {
    ghost use Rattle.valid_table.specs.declared.fault.TableFault.TheVariants.{NoMemory};

    ghost from_gives = { λ _ fault. fault ≡ NoMemory };

    fn from(_: AllocFailed<T>) -> Self {
        TableFault::NoMemory
    }
}

/// Why an outlet refused.
#[derive(Clone, Copy, Debug, PartialEq, Eq, Error)]
pub enum OutletFault {
    /// Memory was refused.
    #[error("memory was refused")]
    NoMemory,
    /// The published list cannot be reached.
    #[error("the published list cannot be reached")]
    NoView,
}

impl OutletFault {
    /// The fault's number in the table of faults.
    pub fn number(&self) -> u8
        ensures { result ≡ outlet_number_of self.now }
    {
        match self {
            OutletFault::NoMemory => 9,
            OutletFault::NoView => 40,
        }
    }
}

impl From<AllocError> for OutletFault {
    ghost use Rattle.valid_table.specs.declared.fault.OutletFault.TheVariants.{NoMemory};

    ghost from_gives = { λ _ fault. fault ≡ NoMemory };

    fn from(_: AllocError) -> Self {
        OutletFault::NoMemory
    }
}

impl<T: Drop> From<AllocFailed<T>> for OutletFault {
    ghost use Rattle.valid_table.specs.declared.fault.OutletFault.TheVariants.{NoMemory};

    ghost from_gives = { λ _ fault. fault ≡ NoMemory };

    fn from(_: AllocFailed<T>) -> Self {
        OutletFault::NoMemory
    }
}
