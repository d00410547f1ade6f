//! The SHA-256 and the length of the archive of what lies at a path.
ghost use Rattle.std.specs.Prelude.{◌≡◌, IfOk, IfSome, List, length, ℕ};
ghost use Rattle.nix_archive.specs.Sums.{IsSum};
ghost use Rattle.sha2.specs.Hashers.{Holds256};
ghost use Rattle.sha2.specs.Sha256.{sha256};
ghost use Rattle.nix_realise.specs.ArchiveEndings.{IsSumOfNar};

use nix_archive::{ArchiveWriter, DigestSink};
use process_build::{WalkFault, tell_path};
use sha2::{Digest, Sha256};
use std::rt::Files;
use valid_table::Nar;

/// The SHA-256 and the length of the archive of what lies at a path; none where nothing does. An
/// archive of 2^63 bytes or more is `Unreadable`. Costs one reading of the tree, which is not kept.
pub fn sum_at<R: Files + AllocGlobal>(rt: &R, path: &str) -> Result<Option<Nar>, WalkFault>
    ensures { IfOk result (λ found. IfSome found IsSumOfNar) }
{
    let mut writer = ArchiveWriter::begin(DigestSink::<Sha256>::new())?;
    if !tell_path(rt, path, &mut writer)? {
        return Ok(None);
    }
    Ok(Some(sum_of(writer.sink)?))
}

/// What a sink tells that took an archive. `Unreadable` where that has 2^63 bytes or more.
pub fn sum_of(sink: DigestSink<Sha256>) -> Result<Nar, WalkFault>
    ensures { (archive : List ℕ) → IsSum Holds256 archive sink.length sink.hasher
        → IfOk result (λ sum. (sum.hash ≡ sha256 archive) × (sum.size ≡ length archive)) }
{
    match Nar::new(sink.hasher.finalize(), sink.length) {
        Some(sum) => Ok(sum),
        None => Err(WalkFault::Unreadable),
    }
}
