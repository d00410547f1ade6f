//! The length and the digest of a tree's archive.
ghost use Rattle.std.specs.Prelude.{◌≡◌, IfOk};
ghost use Rattle.ref_scan.specs.Archives.{IsArchiveSum, IsOfArchive};

use super::outcome::Told;
use super::walk::tell;
use crate::tree::Tree;
use nix_archive::{ArchiveWriter, DigestSink, Sink};
use sha2::{Digest, Sha256};
use std::alloc::{AllocError, Global};

/// The length and the SHA-256 of an archive.
#[derive(Clone, Copy, Debug, PartialEq, Eq)]
pub struct ArchiveSum {
    /// The digest.
    pub hash: [u8; 32],
    /// How many bytes the archive has, or 2^64 - 1 if they are more.
    pub length: u64,
}

/// Writes the tree's archive into the sink; none where the tree has no archive. An error where
/// memory was refused. Costs what `tell` does.
pub fn archive_into<S: Sink + Drop>(
    alloc: Global,
    tree: &Tree,
    sink: S,
) -> Result<Option<S>, AllocError>
    ensures { IfOk result (λ written. IsOfArchive (S.took sink) tree.now written) }
{
    let mut writer = ArchiveWriter::begin(sink)?;
    let told = tell(alloc, tree, &mut writer)?;
    match told {
        Told::Whole => Ok(Some(writer.sink)),
        Told::NoArchive => Ok(None),
    }
}

/// The digest of the tree's archive; none where the tree has no archive. An error where memory was
/// refused. Costs what `tell` does; the archive is not kept.
pub fn archive_digest<D: Digest>(
    alloc: Global,
    tree: &Tree,
) -> Result<Option<D::Output>, AllocError>
    ensures { IfOk result (λ digest. IsOfArchive D.digest_of tree.now digest) }
{
    let Some(sink) = archive_into(alloc, tree, DigestSink::<D>::new())? else {
        return Ok(None);
    };
    Ok(Some(sink.hasher.finalize()))
}

/// The length and the SHA-256 of the tree's archive; none where the tree has no archive. An error
/// where memory was refused. Costs what `tell` does; the archive is not kept.
pub fn archive_sum(alloc: Global, tree: &Tree) -> Result<Option<ArchiveSum>, AllocError>
    ensures { IfOk result (λ sum. IsOfArchive IsArchiveSum tree.now sum) }
{
    let Some(sink) = archive_into(alloc, tree, DigestSink::<Sha256>::new())? else {
        return Ok(None);
    };
    Ok(Some(ArchiveSum {
        hash: sink.hasher.finalize(),
        length: sink.length,
    }))
}
