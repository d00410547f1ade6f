//! The store folder of a command line.
ghost use Rattle.nix_realise.specs.StoreDirs.{IsStoreDirOf};

use crate::cli::run_error::RunError;
use nix_names::{NameFault, StoreDir};
use std::alloc::Global;

/// The store folder with this text. `BadStoreDir` where the text is no store folder, whether there
/// is memory or not.
pub fn store_dir<'a>(alloc: Global, text: &'a str) -> Result<StoreDir, RunError<'a>>
    ensures { IsStoreDirOf text.entry result }
{
    match StoreDir::new(alloc, text.as_bytes()) {
        Ok(dir) => Ok(dir),
        Err(NameFault::NoMemory) => Err(RunError::NoMemory),
        Err(_) => Err(RunError::BadStoreDir(text)),
    }
}
