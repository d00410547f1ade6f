//! The sums of the archives of outputs, for records and for the digests of whole trees.
ghost use Rattle.std.specs.Prelude.{◌≡◌, ◌↔◌, ◌<◌, ◌≢◌, ℕ, List, Err, pos, Some, IfOk, IfErr, IsTrue, MatchOption, length, slice_get, vec_capacity};
ghost use Rattle.sha2.specs.Sha256.{sha256};
ghost use Rattle.ref_scan.specs.Archives.{IsOfArchive};
ghost use Rattle.build_outcome.specs.Verdicts.{HasArchive, IsExamining, NeedsArchive, digest_by};
ghost use Rattle.build_outcome.specs.declared.sums.OutputSum.{OutputSum as AnOutputSum};
ghost use Rattle.build_outcome.specs.Sums.{archive_algorithm};
ghost use Rattle.build_outcome.specs.private.Summing.{AreSums, IsSumAt, TellsNar, TellsSum};

use crate::hearers::algorithm_sink::AlgorithmSink;
use crate::job::{Answer, Job};
use crate::reason::Reason;
use drv_graph::{Kind, Method, Profile};
use nix_names::{Algorithm, Digest};
use ref_scan::{Tree, archive_into, archive_sum};
use std::alloc::{AllocError, Global};
use valid_table::Nar;

// The sum of the archive of what lies at an output.
#[derive(Debug, Drop)]
pub(crate) struct OutputSum {
    // The archive's SHA-256 and its length.
    pub(crate) nar: Nar,
    // The archive's digest by the declared algorithm where archives are declared, and else by
    // SHA-256.
    pub(crate) digest: Digest,
}

// The sum of what lies at each output's path, by the output's number. There are none where no
// archives are asked for, and no memory is taken then.
#[tactic(auto, using(crate::proofs::Archives::sums_none))]
pub(crate) fn sums_of(
    alloc: Global,
    job: &Job,
    answer: &Answer,
) -> Result<Vec<Option<OutputSum>>, Reason>
    requires { answer.now.status ≡ Some (pos 0) }
    ensures sums { IfOk result (λ sums. AreSums job.now answer.now sums.items) }
    ensures err { IfErr result (λ why. (permitted : List (List ℕ))
        → IsExamining job.now permitted answer.now (Err why)) }
{
    if needs_archive(job.profile, &job.kind) {
        sums_of_all(alloc, job, answer)
    } else {
        Ok(Vec::new(alloc))
    }
}

// Whether archives of outputs of a kind are asked for.
pub(crate) fn needs_archive(profile: Profile, kind: &Kind) -> bool
    ensures { IsTrue result ↔ NeedsArchive profile kind.now }
{
    match profile {
        Profile::Nix => true,
        Profile::Plain => matches!(kind, Kind::Fixed(Method::Recursive, _)),
    }
}

// The sum of what lies at each output's path, where archives are asked for.
fn sums_of_all(alloc: Global, job: &Job, answer: &Answer) -> Result<Vec<Option<OutputSum>>, Reason>
    requires ended { answer.now.status ≡ Some (pos 0) }
    requires needed { NeedsArchive job.now.profile job.now.kind }
    ensures sums { IfOk result (λ sums. AreSums job.now answer.now sums.items) }
    ensures err { IfErr result (λ why. (permitted : List (List ℕ))
        → IsExamining job.now permitted answer.now (Err why)) }
{
    let mut sums = Vec::with_capacity(alloc, job.outputs.len())?;
    for n in 0..job.outputs.len() {
        sums.push_reserved(output_sum(alloc, job, answer, n)?);
    }
    Ok(sums)
}

// The sum of what lies at the output with this number, where archives are asked for.
#[tactic(auto, using(crate::proofs::Archives::unread))]
fn output_sum(
    alloc: Global,
    job: &Job,
    answer: &Answer,
    n: usize,
) -> Result<Option<OutputSum>, Reason>
    requires ended { answer.now.status ≡ Some (pos 0) }
    requires needed { NeedsArchive job.now.profile job.now.kind }
    requires within { n < length job.now.outputs.items }
    ensures sum { IfOk result (IsSumAt job.now answer.now n) }
    ensures err { IfErr result (λ why. (permitted : List (List ℕ))
        → IsExamining job.now permitted answer.now (Err why)) }
{
    let Some(tree) = answer.tree_at(n) else {
        return Ok(None);
    };
    match sum_of(alloc, &job.kind, tree)? {
        Some(sum) => Ok(Some(sum)),
        None => Err(Reason::ReadFault),
    }
}

// The sum of a tree's archive for an output of this kind; none where the tree has no archive of
// fewer than 2^63 bytes.
#[tactic(auto, using(crate::proofs::Archives::no_archive, crate::proofs::Archives::summed))]
fn sum_of(alloc: Global, kind: &Kind, tree: &Tree) -> Result<Option<OutputSum>, AllocError>
    ensures { IfOk result (TellsSum kind.now tree.now) }
{
    let Some(nar) = nar_of(alloc, tree)? else {
        return Ok(None);
    };
    let Some(digest) = declared_digest(alloc, kind, tree, nar.hash())? else {
        return Ok(None);
    };
    Ok(Some(OutputSum { nar, digest }))
}

// The SHA-256 and the length of a tree's archive; none where the tree has no archive of fewer than
// 2^63 bytes.
#[tactic(auto, using(crate::proofs::Archives::no_archive, crate::proofs::Archives::nar_told))]
fn nar_of(alloc: Global, tree: &Tree) -> Result<Option<Nar>, AllocError>
    ensures { IfOk result (TellsNar tree.now) }
{
    match archive_sum(alloc, tree)? {
        Some(sum) => Ok(Nar::new(sum.hash, sum.length)),
        None => Ok(None),
    }
}

// The digest of a tree's archive, of which this is the SHA-256, by the algorithm for outputs of
// this kind.
#[tactic(auto, using(crate::proofs::Archives::by_sha256))]
fn declared_digest(
    alloc: Global,
    kind: &Kind,
    tree: &Tree,
    hash: [u8; 32],
) -> Result<Option<Digest>, AllocError>
    requires { (bytes : List ℕ) × HasArchive tree.now bytes × (hash ≡ sha256 bytes) }
    ensures { IfOk result (IsOfArchive
        (λ bytes digest. digest ≡ digest_by (archive_algorithm kind.now) bytes) tree.now) }
{
    match archive_algorithm(kind) {
        Algorithm::Sha256 => Ok(Some(Digest::Sha256(hash))),
        algorithm => archive_digest_of(alloc, algorithm, tree),
    }
}

// The digest of a tree's archive by an algorithm; none where the tree has no archive.
#[tactic(auto, using(crate::proofs::Archives::hashed))]
fn archive_digest_of(
    alloc: Global,
    algorithm: Algorithm,
    tree: &Tree,
) -> Result<Option<Digest>, AllocError>
    ensures { IfOk result
        (IsOfArchive (λ bytes digest. digest ≡ digest_by algorithm bytes) tree.now) }
{
    let Some(sink) = archive_into(alloc, tree, AlgorithmSink::new(algorithm))? else {
        return Ok(None);
    };
    Ok(Some(sink.finish()))
}

// The algorithm by which archives of outputs of this kind are hashed.
pub(crate) fn archive_algorithm(kind: &Kind) -> Algorithm
    ensures { result ≡ archive_algorithm kind.now }
{
    match kind {
        Kind::Fixed(Method::Recursive, declared) => declared.algorithm(),
        Kind::Fixed(Method::Flat, _) | Kind::Addressed => Algorithm::Sha256,
    }
}

// The sum of what lies at the output with this number, if it is among these.
pub(crate) fn sum_at(sums: &[Option<OutputSum>], n: usize) -> Option<&OutputSum>
    ensures { MatchOption result
        ((sum : AnOutputSum) → slice_get sums.now n ≢ Some (Some sum))
        (λ sum. slice_get sums.now n ≡ Some (Some sum.now)) }
{
    match sums.get(n) {
        Some(Some(sum)) => Some(sum),
        _ => None,
    }
}
