//! The folder that a store's paths stand in.
ghost use Rattle.std.specs.Prelude.{◌≡◌, ◌⊎◌, ◌↔◌, IfOk, IfErr, IsErrOf, IsTrue, ◌==◌};
ghost use Rattle.std.specs.List.{list_all, slice_split};
ghost use Rattle.nix_names.specs.Names.{IsStoreDir, is_component};

use crate::fault::NameFault;
use crate::name::is_component;
use std::alloc::Global;
use std::marker::Model;

// The greatest length of a store folder, in bytes.
const MAX_DIR_LEN: usize = 255;

/// A store folder, as `/nix/store`. A contract sees its text.
#[derive(Drop)]
pub struct StoreDir {
    text: Vec<u8>,
}

impl Model for StoreDir {
    ghost use Rattle.std.specs.Prelude.{List, ℕ};
    ghost use Rattle.nix_names.specs.Names.{IsStoreDir};

    ghost Value = { List ℕ };

    ghost view = { λ dir. dir.text.items };

    ghost invariant = { λ dir. IsStoreDir dir.text.items };
}

impl StoreDir {
    /// The store folder with this text: one or more times a slash and a component of a name's
    /// characters that is neither `.` nor `..`, at most 255 bytes in all. Else `BadStoreDir`.
    /// Costs one pass and one copy.
    pub fn new(alloc: Global, text: &[u8]) -> Result<StoreDir, NameFault>
        ensures ok { IfOk result (λ dir. (dir ≡ text.now) × IsStoreDir text.now) }
        ensures bad { IsErrOf result NameFault.BadStoreDir ↔ ¬ (IsStoreDir text.now) }
        ensures only { IfErr result (λ e. (e ≡ NameFault.BadStoreDir) ⊎ (e ≡ NameFault.NoMemory)) }
    {
        if !is_store_dir(text) {
            return Err(NameFault::BadStoreDir);
        }
        Ok(StoreDir {
            text: Vec::from_slice(alloc, text)?,
        })
    }

    /// The folder's text, without a slash at its end.
    pub fn text(&self) -> &[u8]
        ensures value { result.now ≡ self.now }
        ensures is_dir { IsStoreDir self.now }
    {
        &self.text
    }
}

// Whether some bytes are a store folder.
#[tactic(auto, using(crate::proofs::PathFolders::dir_of_parts, crate::proofs::PathFolders::parts_of_dir))]
fn is_store_dir(text: &[u8]) -> bool
    ensures { IsTrue result ↔ IsStoreDir text.now }
{
    match text.split_first() {
        Some((b'/', parts)) => text.len() <= MAX_DIR_LEN && are_components(parts),
        _ => false,
    }
}

// Whether a text is one or more components with a slash between each two.
fn are_components(parts: &[u8]) -> bool
    ensures { result ≡ list_all is_component (slice_split (λ b. b == 47) parts.now) }
{
    parts
        .split(|byte| *byte == b'/')
        .all(|part| is_component(part))
}
