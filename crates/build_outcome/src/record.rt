//! The record of what lies at an output.
ghost use Rattle.std.specs.Prelude.{◌≡◌, IfOk, List, MatchOption, ℕ};
ghost use Rattle.nix_names.specs.Rising.{IsRising};
ghost use Rattle.ref_scan.specs.declared.tree.Tree.{Tree as ATree};
ghost use Rattle.build_outcome.specs.Sums.{IsOutputSum};
ghost use Rattle.build_outcome.specs.Verdicts.{IsRecordDigest, IsRecordNar, IsRecordOf, NeedsArchive};
ghost use Rattle.build_outcome.specs.declared.job.Job.{Job as AJob};
ghost use Rattle.build_outcome.specs.declared.job.LeftOutput.{LeftOutput as AnOutput};
ghost use Rattle.build_outcome.specs.private.Judging.{IsKnown, IsTreeTaken};

use crate::job::Job;
use crate::known_outputs::Known;
use crate::sums::OutputSum;
use drv_graph::{Kind, Profile};
use nix_names::{Algorithm, Method, MethodDigest, StorePath};
use std::alloc::{AllocError, Global};
use valid_table::{Nar, Record};

// The record of what lies at an output, which is taken.
pub(crate) fn record_of(
    alloc: Global,
    job: &Job,
    permitted: &[StorePath],
    known: &Known<'_>,
) -> Result<Record, AllocError>
    requires { IsRising permitted.now }
    ensures { IfOk result (λ info. (output : AnOutput)
        → IsKnown job.now permitted.now output known.now → IsTreeTaken job.now output.tree
        → IsRecordOf job.now permitted.now output.tree info) }
{
    let digest = record_digest(job, known);
    let nar = record_nar(job, known.sum());
    let references = known.references(alloc, permitted)?;
    Record::new(references, digest, nar)
}

// The digest in the record of what lies at an output, which is taken: a fixed output has the
// declared one.
fn record_digest(job: &Job, known: &Known<'_>) -> Option<MethodDigest>
    ensures { (permitted : List (List ℕ)) (output : AnOutput)
        → IsKnown job.now permitted output known.now → IsTreeTaken job.now output.tree
        → IsRecordDigest job.now.profile job.now.kind output.tree result }
{
    match job.kind {
        Kind::Addressed => addressed_digest(job.profile, known),
        Kind::Fixed(method, digest) => Some(MethodDigest { method, digest }),
    }
}

// The digest in the record of an output that isn't fixed: under `plain` that of a file.
fn addressed_digest(profile: Profile, known: &Known<'_>) -> Option<MethodDigest>
    ensures { (job : AJob) (permitted : List (List ℕ)) (output : AnOutput)
        → IsKnown job permitted output known.now → job.profile ≡ profile
        → job.kind ≡ Kind.Addressed
        → IsRecordDigest profile Kind.Addressed output.tree result }
{
    match profile {
        Profile::Plain => match known.file_digest(Algorithm::Sha256) {
            Some(digest) => Some(MethodDigest {
                method: Method::Flat,
                digest,
            }),
            None => None,
        },
        Profile::Nix => None,
    }
}

// The archive in the record of an output, by the sum of its tree's archive.
#[tactic(auto, using(crate::proofs::Archives::nar_summed))]
fn record_nar(job: &Job, sum: Option<&OutputSum>) -> Option<Nar>
    ensures { (tree : ATree)
        → MatchOption sum.entry (NeedsArchive job.now.profile job.now.kind → ⊥)
        (λ sum. IsOutputSum job.now.kind tree sum.now)
        → IsRecordNar job.now.profile tree result }
{
    match job.profile {
        Profile::Plain => None,
        Profile::Nix => Some(sum?.nar),
    }
}
