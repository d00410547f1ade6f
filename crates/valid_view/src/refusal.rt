//! Why a view could not be opened, or could not show what waits.
ghost use Rattle.std.specs.Prelude.{◌≡◌};
ghost use Rattle.valid_view.specs.Faults.{open_number_of};
ghost use Rattle.valid_view.specs.private.Refusals.{opened_as, told_as};

use crate::prefix::BarePrefix;
use crate::writer_end::TooManyReaders;
use std::alloc::{AllocError, AllocFailed};
use std::fmt;
use std::fmt::{Debug, Formatter};
use thiserror::Error;
use valid_table::OutletFault;

/// Why a view could not be opened.
#[derive(Debug, Drop, Error)]
pub enum OpenFault {
    /// Memory was refused.
    #[error("memory was refused")]
    NoMemory,
    /// There is no view, since there is no place for a reader. Only what refused it makes this
    /// fault.
    #[error("the view could not be opened")]
    NoView(Unopened),
}

/// Why there is no view: what refused it. Only a refusal makes one.
#[derive(Drop)]
pub struct Unopened {
    refusal: FeedFault,
}

impl Debug for Unopened {
    fn fmt<W: fmt::Write>(&self, f: &mut Formatter<W>) -> fmt::Result {
        f.debug_struct("Unopened").finish_non_exhaustive()
    }
}

impl OpenFault {
    /// The fault's number in the table of faults.
    pub fn number(&self) -> u8
        ensures { result ≡ open_number_of self.now }
    {
        match self {
            OpenFault::NoMemory => 9,
            OpenFault::NoView(_) => 40,
        }
    }
}

// Why a view could not be opened, or could not show what waits. What a case carries shows why it is
// answered as `NoView`.
#[derive(Drop)]
pub(crate) enum FeedFault {
    // Memory was refused.
    NoMemory,
    // The one list is longer than what was known of it, or is full. This is the list.
    Hindered(BarePrefix),
    // There is no place for a reader.
    TooManyReaders(TooManyReaders),
}

impl FeedFault {
    // The fault that is answered where a view was to be opened.
    pub(crate) fn open_fault(self) -> OpenFault
        ensures { result ≡ opened_as self }
    {
        match self {
            FeedFault::NoMemory => OpenFault::NoMemory,
            refusal => OpenFault::NoView(Unopened { refusal }),
        }
    }

    // The fault that is answered where entries were to be shown.
    pub(crate) fn fault(self) -> OutletFault
        ensures { result ≡ told_as self }
    {
        match self {
            FeedFault::NoMemory => OutletFault::NoMemory,
            FeedFault::Hindered(_found) => OutletFault::NoView,
            FeedFault::TooManyReaders(_error) => OutletFault::NoView,
        }
    }
}

impl From<AllocError> for FeedFault {
    ghost use Rattle.valid_view.specs.declared.refusal.FeedFault.TheVariants.{NoMemory};

    ghost from_gives = { λ _ refusal. refusal ≡ NoMemory };

    fn from(_: AllocError) -> Self {
        FeedFault::NoMemory
    }
}

impl<T: Drop> From<AllocFailed<T>> for FeedFault {
    ghost use Rattle.valid_view.specs.declared.refusal.FeedFault.TheVariants.{NoMemory};

    ghost from_gives = { λ _ refusal. refusal ≡ NoMemory };

    fn from(_: AllocFailed<T>) -> Self {
        FeedFault::NoMemory
    }
}

impl From<BarePrefix> for FeedFault {
    ghost use Rattle.valid_view.specs.declared.refusal.FeedFault.TheVariants.{Hindered};

    ghost from_gives = { λ found refusal. refusal ≡ Hindered found };

    fn from(found: BarePrefix) -> Self {
        FeedFault::Hindered(found)
    }
}
