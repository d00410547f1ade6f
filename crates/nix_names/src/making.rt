//! The path of a type, an inner digest, a folder and a name.
ghost use Rattle.std.specs.Prelude.{◌≡◌, not, Some, None, if◌then◌else◌, IfOk, IsTrue};
ghost use Rattle.sha2.specs.Sha256.{sha256};
ghost use Rattle.nix_names.specs.Answers.{Answers};
ghost use Rattle.nix_names.specs.Names.{is_name};
ghost use Rattle.nix_names.specs.StorePaths.{fingerprint, fold, path_text, store_path};

use crate::base32::base32_text;
use crate::fault::NameFault;
use crate::name::is_name;
use crate::store_dir::StoreDir;
use crate::store_path::{StorePath, join_path};
use sha2::{Digest, Sha256};
use std::alloc::{AllocError, Global};

/// A digest folded to 20 bytes: byte i is joined by XOR onto byte `i mod 20`.
pub fn fold20(digest: &[u8; 32]) -> [u8; 20]
    ensures { result ≡ fold digest.now }
{
    let mut folded = [0; 20];
    for (i, byte) in digest.iter().enumerate() {
        folded[i % 20] ^= *byte;
    }
    folded
}

/// The path of a folder whose hash part is the folded SHA-256 of the fingerprint
/// `<kind>:sha256:<inner in hex>:<folder>:<name>`. `BadName` if the name is not allowed.
/// Costs one SHA-256 of the fingerprint and one copy of the folder and the name.
pub fn make_path(
    alloc: Global,
    kind: &[u8],
    inner: &[u8; 32],
    dir: &StoreDir,
    name: &[u8],
) -> Result<StorePath, NameFault>
    ensures { Answers (if is_name name.now then None else Some NameFault.BadName) result (λ path.
        path ≡ store_path kind.now inner.now dir.now name.now) }
{
    if !is_name(name) {
        return Err(NameFault::BadName);
    }
    Ok(make_named_path(alloc, kind, inner, dir, name)?)
}

/// The path of `make_path`, of a name that is known to be one. Costs the same.
pub fn make_named_path(
    alloc: Global,
    kind: &[u8],
    inner: &[u8; 32],
    dir: &StoreDir,
    name: &[u8],
) -> Result<StorePath, AllocError>
    requires { IsTrue (is_name name.now) }
    ensures { IfOk result (λ path. path ≡ store_path kind.now inner.now dir.now name.now) }
{
    let digest = fingerprint_digest(kind, inner, dir.text(), name);
    let hash = base32_text(alloc, &fold20(&digest))?;
    join_path(alloc, dir, &hash, name)
}

// The SHA-256 of the fingerprint of a type, an inner digest, a folder and a name.
#[tactic(auto, unfolding(crate::specs::StorePaths::fingerprint))]
fn fingerprint_digest(kind: &[u8], inner: &[u8; 32], dir: &[u8], name: &[u8]) -> [u8; 32]
    ensures { result ≡ sha256 (fingerprint kind.now inner.now dir.now name.now) }
{
    let mut hex = [0; 64];
    let _ = hex::encode_to_slice(inner, &mut hex);
    let mut hasher = Sha256::new();
    hasher.update(kind);
    hasher.update(b":sha256:");
    hasher.update(&hex);
    hasher.update(b":");
    hasher.update(dir);
    hasher.update(b":");
    hasher.update(name);
    hasher.finalize()
}
