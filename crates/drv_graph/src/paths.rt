//! Store paths: made of texts that were checked before, and copied.
ghost use Rattle.std.specs.Prelude.{◌≡◌, All, IfOk, length, map, take, vec_capacity};
ghost use Rattle.nix_names.specs.Bytes.{Path};
ghost use Rattle.nix_names.specs.StorePaths.{IsPathOf};
ghost use Rattle.nix_drv.specs.Parts.{bytes_of, path_of};
ghost use Rattle.drv_graph.specs.PlanNodes.{text_path_of};

use nix_drv::{Input, Output};
use nix_names::{StoreDir, StorePath};
use std::alloc::{AllocError, Global};

// The path of the folder that a text spells.
fn known_path(alloc: Global, dir: &StoreDir, text: &[u8]) -> Result<StorePath, AllocError>
    requires { IsPathOf dir.now text.now }
    ensures { IfOk result (λ path. path ≡ text.now) }
{
    // Shows the prover that the folder is a store folder.
    let _ = dir.text();
    nix_names::known_path(alloc, text)
}

// A value in which a text names a store path.
pub(crate) trait NamesPath {
    // The text of the path.
    ghost path_text: { Self → Path };

    // The text of the path.
    fn path_text(&self) -> &[u8]
        ensures { result.now ≡ path_text self.now };
}

impl NamesPath for Input {
    ghost path_text = { path_of };

    fn path_text(&self) -> &[u8] {
        &self.path
    }
}

impl NamesPath for Output {
    ghost path_text = { text_path_of };

    fn path_text(&self) -> &[u8] {
        &self.path
    }
}

impl NamesPath for Vec<u8> {
    ghost path_text = { bytes_of };

    fn path_text(&self) -> &[u8] {
        self
    }
}

// The paths of the folder that some values name, with room for these alone.
pub(crate) fn known_paths<T: NamesPath>(
    alloc: Global,
    dir: &StoreDir,
    named: &[T],
) -> Result<Vec<StorePath>, AllocError>
    requires { All (IsPathOf dir.now) (map T.path_text named.now) }
    ensures ok { IfOk result (λ paths. paths.items ≡ map T.path_text named.now) }
    ensures room { IfOk result (λ paths. vec_capacity paths ≡ length named.now) }
{
    let mut paths = Vec::with_capacity(alloc, named.len())?;
    for value in named {
        paths.push_reserved(known_path(alloc, dir, value.path_text())?);
    }
    Ok(paths)
}

// Copies of the paths, with room for these alone. Each shares its text.
pub(crate) fn copy_paths(alloc: Global, paths: &[StorePath]) -> Result<Vec<StorePath>, AllocError>
    ensures ok { IfOk result (λ copies. copies.items ≡ paths.now) }
    ensures room { IfOk result (λ copies. vec_capacity copies ≡ length paths.now) }
{
    let mut copies = Vec::with_capacity(alloc, paths.len())?;
    for path in paths {
        copies.push_reserved(path.copy(alloc)?);
    }
    Ok(copies)
}
