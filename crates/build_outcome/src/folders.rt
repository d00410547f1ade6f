//! The folder in which a path stands.
ghost use Rattle.std.specs.Prelude.{IfOk};
ghost use Rattle.nix_names.specs.Names.{IsStoreDir};
ghost use Rattle.nix_names.specs.StorePaths.{IsPathOf};

use nix_names::{NameFault, StoreDir, StorePath};
use std::alloc::{AllocError, Global};

/// The folder in which a path stands. Costs a copy of its text.
pub fn folder_of(alloc: Global, path: &StorePath) -> Result<StoreDir, AllocError>
    ensures { IfOk result (λ dir. IsPathOf dir path.now) }
{
    match StoreDir::new(alloc, folder_text(path)) {
        Ok(dir) => Ok(dir),
        Err(fault) => match fault {
            NameFault::NoMemory => Err(AllocError),
            // A path stands in a folder.
            _ => unreachable!(),
        },
    }
}

// The text of the folder in which a path stands.
fn folder_text(path: &StorePath) -> &[u8]
    ensures dir { IsStoreDir result.now }
    ensures path { IsPathOf result.now path.now }
{
    let text = path.text();
    let base = path.hash_part().len() + 1 + path.name().len();
    &text[..text.len() - base - 1]
}
