//! Derivations read from the files of a folder.
ghost use Rattle.std.specs.Prelude.{◌≡◌, ◌≢◌, ◌≤◌, ◌↔◌, Err, IfOk, length};
ghost use Rattle.nix_drv.specs.Sources.{IsCounted};
ghost use Rattle.nix_realise.specs.Folders.{may_give};

use crate::io::files::{MAX_READ, read_regular};
use nix_drv::{DrvSource, SourceFault};
use nix_names::StorePath;
use process_build::Failure;
use std::alloc::Global;
use std::marker::Model;
use std::rt::Files;

/// The files on disk, each under the text of its path. A contract sees how often a file could not
/// be read.
#[derive(Drop)]
pub struct FolderSource<'a, R> {
    files: &'a R,
    failures: u64,
}

impl<'a, R> Model for FolderSource<'a, R> {
    ghost use Rattle.std.specs.Prelude.{ℕ};

    ghost Value = { ℕ };

    ghost view = { λ source. source.failures };
}

impl<'a, R> FolderSource<'a, R> {
    /// The files that a runtime reaches. Nothing has failed yet.
    pub fn new(files: &'a R) -> FolderSource<'a, R>
        ensures { result ≡ 0 }
    {
        FolderSource { files, failures: 0 }
    }

    /// How often a file could not be read though it is there; the count stops at `u64::MAX`.
    pub fn failures(&self) -> u64
        ensures { result ≡ self.now }
    {
        self.failures
    }

    // The answer of a failed read, which is counted where the device is to blame.
    fn fault_of(&mut self, failure: Failure) -> SourceFault
        ensures missing { (result ≡ SourceFault.Missing) ↔ (failure ≡ Failure.NotFound) }
        ensures memory { (result ≡ SourceFault.NoMemory) ↔ (failure ≡ Failure.NoMemory) }
        ensures counted { IsCounted self.old self.new (Err result) }
        ensures counts { self.old ≤ self.new }
        ensures same { result ≢ SourceFault.Device → self.new ≡ self.old }
    {
        match failure {
            Failure::NotFound => SourceFault::Missing,
            Failure::NoMemory => SourceFault::NoMemory,
            _ => {
                self.failures = self.failures.saturating_add(1);
                SourceFault::Device
            }
        }
    }
}

impl<R: Files> DrvSource for FolderSource<'_, R> {
    ghost gives = { λ _ _ answer. may_give answer };

    ghost failures = { λ failures. failures };

    fn fetch(&mut self, alloc: Global, path: &StorePath) -> Result<Vec<u8>, SourceFault> {
        match read_store_file(alloc, self.files, path) {
            Ok(bytes) => Ok(bytes),
            Err(failure) => Err(self.fault_of(failure)),
        }
    }
}

// The first bytes of the regular file at a store path.
fn read_store_file<R: Files>(alloc: Global, files: &R, path: &StorePath) -> Result<Vec<u8>, Failure>
    ensures { IfOk result (λ bytes. length bytes.items ≤ 4194305) }
{
    read_regular(alloc, files, path.as_str(), MAX_READ)
}
