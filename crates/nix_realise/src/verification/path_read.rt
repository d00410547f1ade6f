//! What is read of a path: its archive, and its digest by a method.
ghost use Rattle.std.specs.Prelude.{IfOk, IfSome};
ghost use Rattle.nix_realise.specs.private.PathReads.{IsHeardWith, IsReadAs, IsReadBy};
ghost use Rattle.nix_names.specs.declared.method.Method.TheVariants.{Flat, Recursive};

use crate::archives::path_sum::{sum_at, sum_of};
use build_outcome::{AlgorithmSink, FileHearer};
use nix_archive::{ArchiveWriter, Both, DigestSink, Hear};
use nix_names::{Algorithm, Digest, Method, MethodDigest};
use process_build::{WalkFault, tell_path};
use sha2::Sha256;
use std::rt::Files;
use valid_table::Nar;

/// What is read of a path.
#[derive(Clone, Copy)]
pub struct PathRead {
    /// The SHA-256 and the length of its archive.
    pub sum: Nar,
    /// Its digest by the method and the algorithm of another one, where there is one: by the flat
    /// method a folder and a link have none.
    pub digest: Option<Digest>,
}

/// Reads what lies at a path, with its digest by the method and the algorithm of one that is told,
/// if one is; none where nothing lies there. Costs one reading of the tree, which is not kept.
pub fn read_path<R: Files + AllocGlobal>(
    rt: &R,
    path: &str,
    told: Option<MethodDigest>,
) -> Result<Option<PathRead>, WalkFault>
    ensures { IfOk result (λ found. IfSome found (IsReadBy told)) }
{
    match told {
        Some(told) => read_as(rt, path, told.method, told.digest.algorithm()),
        None => read_sum(rt, path),
    }
}

// Reads what lies at a path without a digest.
fn read_sum<R: Files + AllocGlobal>(rt: &R, path: &str) -> Result<Option<PathRead>, WalkFault>
    ensures { IfOk result (λ found. IfSome found (IsReadBy None)) }
{
    let Some(sum) = sum_at(rt, path)? else {
        return Ok(None);
    };
    Ok(Some(PathRead { sum, digest: None }))
}

// Reads what lies at a path with its digest by a method and an algorithm.
fn read_as<R: Files + AllocGlobal>(
    rt: &R,
    path: &str,
    method: Method,
    algorithm: Algorithm,
) -> Result<Option<PathRead>, WalkFault>
    ensures { IfOk result (λ found. IfSome found (IsReadAs method algorithm)) }
{
    match method {
        Method::Flat => read_file(rt, path, algorithm),
        Method::Recursive => read_tree(rt, path, algorithm),
    }
}

// Reads what lies at a path with its digest by the flat method.
fn read_file<R: Files + AllocGlobal>(
    rt: &R,
    path: &str,
    algorithm: Algorithm,
) -> Result<Option<PathRead>, WalkFault>
    ensures { IfOk result (λ found. IfSome found (IsReadAs Flat algorithm)) }
{
    let Some(heard) = hear_with(rt, path, FileHearer::new(Some(algorithm)))? else {
        return Ok(None);
    };
    let (sum, hearer) = heard;
    let digest = hearer.finish();
    Ok(Some(PathRead { sum, digest }))
}

// Reads what lies at a path with its digest by the recursive method.
fn read_tree<R: Files + AllocGlobal>(
    rt: &R,
    path: &str,
    algorithm: Algorithm,
) -> Result<Option<PathRead>, WalkFault>
    ensures { IfOk result (λ found. IfSome found (IsReadAs Recursive algorithm)) }
{
    let hearer = ArchiveWriter::begin(AlgorithmSink::new(algorithm))?;
    let Some(heard) = hear_with(rt, path, hearer)? else {
        return Ok(None);
    };
    let (sum, writer) = heard;
    let digest = writer.sink.finish();
    Ok(Some(PathRead {
        sum,
        digest: Some(digest),
    }))
}

// The SHA-256 and the length of the archive of what lies at a path, and a hearer that heard it; none
// where nothing lies there.
fn hear_with<R: Files + AllocGlobal, H: Hear + Drop>(
    rt: &R,
    path: &str,
    hearer: H,
) -> Result<Option<(Nar, H)>, WalkFault>
    ensures { IfOk result (λ found. IfSome found (λ x. IsHeardWith H.heard hearer x.0 x.1)) }
{
    let first = ArchiveWriter::begin(DigestSink::<Sha256>::new())?;
    let mut both = Both {
        first,
        second: hearer,
    };
    if !tell_path(rt, path, &mut both)? {
        return Ok(None);
    }
    let Both { first, second } = both;
    let sum = sum_of(first.sink)?;
    Ok(Some((sum, second)))
}
