//! The build folders of builders that failed, which are kept.
ghost use Rattle.std.specs.Prelude.{◌≡◌, ◌≢◌, ℕ, OnOk, Some};
ghost use Rattle.process_build.specs.Folders.{kept_suffix};

use crate::disk::folders::BuildFolder;
use std::alloc::{AllocError, Global};
use std::mem;
use std::sync::{Arc, Mutex, Wait};

/// The build folders that a run keeps: the numbers at the ends of their names, by the numbers of
/// their leases. All handles share one list, in any threads.
#[derive(Drop)]
pub struct KeptFolders {
    shared: Arc<Mutex<Vec<Option<u64>>>>,
}

impl KeptFolders {
    /// No folder is kept yet. There is room for those of so many leases.
    pub fn new(alloc: Global, count: usize) -> Result<KeptFolders, AllocError> {
        let none = Mutex::new(Vec::with_capacity(alloc, count)?);
        Ok(KeptFolders {
            shared: Arc::new(alloc, none)?,
        })
    }

    /// Another handle of the same list. Costs no allocation: it counts one more owner, so
    /// `AllocError` comes only where the count is full, at 2^63.
    pub fn again(&self) -> Result<KeptFolders, AllocError> {
        Ok(KeptFolders {
            shared: self.shared.clone()?,
        })
    }

    /// Adds a folder to the list. Costs no allocation while there is room.
    pub fn note<R: Wait>(&self, rt: &R, kept: &BuildFolder) -> Result<(), AllocError> {
        note_suffix(
            &mut *self.shared.lock(rt),
            kept.number() as usize,
            kept.suffix(),
        )
    }

    /// Takes the list, with nothing for a lease whose folder isn't kept. Leases that came later
    /// than the last one whose folder is kept aren't in it.
    pub fn take<R: Wait + AllocGlobal>(&self, rt: &R) -> Vec<Option<u64>> {
        mem::replace(&mut *self.shared.lock(rt), Vec::new(rt.alloc()))
    }
}

// Notes the number at the end of a folder's name, under the number of its lease.
fn note_suffix(kept: &mut Vec<Option<u64>>, number: usize, suffix: u64) -> Result<(), AllocError>
    ensures noted { OnOk result (kept_suffix kept.new.items number ≡ Some suffix) }
    ensures others { OnOk result ((other : ℕ) → other ≢ number
        → kept_suffix kept.new.items other ≡ kept_suffix kept.old.items other) }
{
    if kept.len() <= number {
        kept.resize(number.checked_add(1).ok_or(AllocError)?, None)?;
    }
    kept[number] = Some(suffix);
    Ok(())
}
