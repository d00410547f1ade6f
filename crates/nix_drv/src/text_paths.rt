//! The store path of a text with references.
ghost use Rattle.std.specs.Prelude.{◌≡◌, Some, None, IfOk, IsTrue, if◌then◌else◌};
ghost use Rattle.nix_names.specs.Answers.{Answers};
ghost use Rattle.nix_names.specs.Names.{is_name};
ghost use Rattle.nix_names.specs.Rising.{IsRising};
ghost use Rattle.nix_names.specs.StorePaths.{store_path};
ghost use Rattle.nix_drv.specs.OwnPath.{text_kind, text_path};

use nix_names::{NameFault, StoreDir, StorePath, is_name, make_named_path};
use sha2::{Digest, Sha256};
use std::alloc::{AllocError, Global};

/// The path of a text in a store folder, from its name, its bytes, and its references in rising
/// order, each once. Answers `BadName` where the name is not that of a store path. Costs one
/// SHA-256 over the bytes, one over the fingerprint, which holds the references, and one copy of
/// the references.
pub fn text_path(
    alloc: Global,
    dir: &StoreDir,
    name: &[u8],
    bytes: &[u8],
    refs: &[StorePath],
) -> Result<StorePath, NameFault>
    requires { IsRising refs.now }
    ensures { Answers (if is_name name.now then None else Some NameFault.BadName) result
        (λ path. path ≡ text_path dir.now name.now bytes.now refs.now) }
{
    if !is_name(name) {
        return Err(NameFault::BadName);
    }
    Ok(named_text_path(alloc, dir, name, bytes, refs)?)
}

/// The path of a text, as `text_path` gives it, for a name that is known to be that of a store path.
/// Want of memory is its only fault. Costs as `text_path` does.
#[tactic(auto, unfolding(crate::specs::OwnPath::text_path))]
pub fn named_text_path(
    alloc: Global,
    dir: &StoreDir,
    name: &[u8],
    bytes: &[u8],
    refs: &[StorePath],
) -> Result<StorePath, AllocError>
    requires rising { IsRising refs.now }
    requires named { IsTrue (is_name name.now) }
    ensures { IfOk result (λ path. path ≡ text_path dir.now name.now bytes.now refs.now) }
{
    digested_text_path(alloc, dir, name, &Sha256::digest(bytes), refs)
}

/// The path of a text, by the SHA-256 of its bytes.
pub(crate) fn digested_text_path(
    alloc: Global,
    dir: &StoreDir,
    name: &[u8],
    digest: &[u8; 32],
    refs: &[StorePath],
) -> Result<StorePath, AllocError>
    requires { IsTrue (is_name name.now) }
    ensures { IfOk result (λ path.
        path ≡ store_path (text_kind refs.now) digest.now dir.now name.now) }
{
    let kind = text_kind(alloc, refs)?;
    make_named_path(alloc, &kind, digest, dir, name)
}

// The type of a text path: `text`, then each reference after a colon.
fn text_kind(alloc: Global, refs: &[StorePath]) -> Result<Vec<u8>, AllocError>
    ensures { IfOk result (λ kind. kind.items ≡ text_kind refs.now) }
{
    let mut kind = Vec::from_slice(alloc, b"text")?;
    for path in refs {
        kind.extend_from_slice(b":")?;
        kind.extend_from_slice(path.text())?;
    }
    Ok(kind)
}
