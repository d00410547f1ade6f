//! What is known of what a builder left at the outputs of a job.
ghost use Rattle.std.specs.Prelude.{◌≡◌, ◌≢◌, ◌↔◌, ◌<◌, IfErr, IfOk, IsTrue, List, MatchOption, None, Some, length, slice_get, ℕ};
ghost use Rattle.nix_names.specs.Rising.{IsRising};
ghost use Rattle.ref_scan.specs.Scan.{IsFound};
ghost use Rattle.build_outcome.specs.Heard.{IsSumKept, file_algorithm};
ghost use Rattle.build_outcome.specs.Verdicts.{IsFlatFile, MayBeTaken, file_digest_of, left_at, tree_at};
ghost use Rattle.build_outcome.specs.declared.job.Answer.{Answer as AnAnswer};
ghost use Rattle.build_outcome.specs.declared.job.Job.{Job as AJob};
ghost use Rattle.build_outcome.specs.declared.job.LeftOutput.{LeftOutput as AnOutput};
ghost use Rattle.build_outcome.specs.declared.reason.Reason.TheVariants.{MissingOutput};
ghost use Rattle.build_outcome.specs.private.Judging.{AreKept, AreKnown, IsKnown, IsSumGiven};

use crate::acceptance::{is_flat_file, may_be_taken};
use crate::digest::file_digest_of;
use crate::hearers::heard_output::HeardOutput;
use crate::job::{Answer, Job, LeftOutput};
use crate::reason::Reason;
use crate::sums::{OutputSum, sum_at};
use nix_names::{Algorithm, Digest, StorePath};
use ref_scan::{ScanFault, scan};
use std::alloc::{AllocError, Global};

// What is known of what lies at the outputs of a job.
#[derive(Clone, Copy)]
pub(crate) enum Outputs<'a> {
    // Their trees, and the sums of their archives where archives are asked for.
    Trees(&'a Answer, &'a [Option<OutputSum>]),
    // What was kept of each when it was heard.
    Heard(&'a [Option<HeardOutput>]),
}

// What is known of what lies at an output.
#[derive(Clone, Copy)]
pub(crate) enum Known<'a> {
    // Its tree, and the sum of its archive where archives are asked for.
    Tree(&'a LeftOutput, Option<&'a OutputSum>),
    // What was kept of it when it was heard.
    Heard(&'a HeardOutput),
}

impl<'a> Outputs<'a> {
    // What is known of what lies at the output with this number; a fault where nothing does.
    pub(crate) fn at(&self, n: usize) -> Result<Known<'a>, Reason>
        ensures there { IfOk result (λ known. (job : AJob) (permitted : List (List ℕ))
            (answer : AnAnswer) → AreKnown job permitted answer self.now
            → n < length job.outputs.items
            → (output : AnOutput) × (left_at answer n ≡ Some output)
            × IsKnown job permitted output known) }
        ensures missing { IfErr result (λ why. (why ≡ MissingOutput n) × ((job : AJob)
            (permitted : List (List ℕ)) (answer : AnAnswer)
            → AreKnown job permitted answer self.now → n < length job.outputs.items
            → tree_at answer n ≡ None)) }
    {
        match self.known_at(n) {
            Some(known) => Ok(known),
            None => Err(Reason::MissingOutput(n)),
        }
    }

    // What is known of what lies at the output with this number, if anything does.
    fn known_at(&self, n: usize) -> Option<Known<'a>>
        ensures { (job : AJob) (permitted : List (List ℕ)) (answer : AnAnswer)
            → AreKnown job permitted answer self.now → n < length job.outputs.items
            → MatchOption result (tree_at answer n ≡ None)
            (λ known. (output : AnOutput) × (left_at answer n ≡ Some output)
            × IsKnown job permitted output known) }
    {
        match self {
            Outputs::Trees(answer, sums) => match answer.left_at(n) {
                Some(left) => Some(Known::Tree(left, sum_at(sums, n))),
                None => None,
            },
            Outputs::Heard(outputs) => heard_at(outputs, n),
        }
    }
}

// What was kept of what lies at the output with this number, if anything does.
fn heard_at(outputs: &[Option<HeardOutput>], n: usize) -> Option<Known<'_>>
    ensures { (job : AJob) (permitted : List (List ℕ)) (answer : AnAnswer)
        → AreKept job permitted answer.outputs.items outputs.now
        → MatchOption result (tree_at answer n ≡ None)
        (λ known. (output : AnOutput) × (left_at answer n ≡ Some output)
        × IsKnown job permitted output known) }
{
    match some_at(outputs, n) {
        Some(output) => Some(Known::Heard(output)),
        None => None,
    }
}

// What is in the slot with this number, if there is something.
fn some_at<T>(slots: &[Option<T>], n: usize) -> Option<&T>
    ensures { MatchOption result ((x : T) → slice_get slots.now n ≢ Some (Some x))
        (λ x. slice_get slots.now n ≡ Some (Some x.now)) }
{
    match slots.get(n) {
        Some(Some(x)) => Some(x),
        _ => None,
    }
}

impl Known<'_> {
    // Whether its group, or others, may write it.
    pub(crate) fn others_may_write(&self) -> bool
        ensures { (job : AJob) (permitted : List (List ℕ)) (output : AnOutput)
            → IsKnown job permitted output self.now → result ≡ output.others_may_write }
    {
        match self {
            Known::Tree(left, _) => left.others_may_write,
            Known::Heard(output) => output.others_may_write,
        }
    }

    // Whether the job's profile has no limits that the tree passes.
    pub(crate) fn may_be_taken(&self, job: &Job) -> bool
        ensures { (permitted : List (List ℕ)) (output : AnOutput)
            → IsKnown job.now permitted output self.now
            → IsTrue result ↔ MayBeTaken job.now.profile output.tree }
    {
        match self {
            Known::Tree(left, _) => may_be_taken(job.profile, &left.tree),
            Known::Heard(_) => true,
        }
    }

    // Whether the tree is a file whose bytes may be those of a fixed output.
    pub(crate) fn is_flat_file(&self, job: &Job) -> bool
        ensures { (permitted : List (List ℕ)) (output : AnOutput)
            → IsKnown job.now permitted output self.now
            → IsTrue result ↔ IsFlatFile job.now.profile output.tree }
    {
        match self {
            Known::Tree(left, _) => is_flat_file(job.profile, &left.tree),
            Known::Heard(output) => output.is_flat_file,
        }
    }

    // The digest of a file's bytes by the algorithm for outputs of the job; a link and a folder
    // have none.
    pub(crate) fn file_digest(&self, algorithm: Algorithm) -> Option<Digest>
        ensures { (job : AJob) (permitted : List (List ℕ)) (output : AnOutput)
            → IsKnown job permitted output self.now
            → file_algorithm job.profile job.kind ≡ Some algorithm
            → result ≡ file_digest_of algorithm output.tree }
    {
        match self {
            Known::Tree(left, _) => file_digest_of(algorithm, &left.tree),
            Known::Heard(output) => output.digest,
        }
    }

    // The sum of the tree's archive, where archives are asked for.
    pub(crate) fn sum(&self) -> Option<&OutputSum>
        ensures { (job : AJob) (permitted : List (List ℕ)) (output : AnOutput)
            → IsKnown job permitted output self.now → IsSumGiven job output.tree result }
    {
        match self {
            Known::Tree(_, sum) => *sum,
            Known::Heard(output) => match &output.sum {
                Some(sum) => Some(sum),
                None => None,
            },
        }
    }

    // The permitted paths that are found in the tree.
    pub(crate) fn references(
        &self,
        alloc: Global,
        permitted: &[StorePath],
    ) -> Result<Vec<StorePath>, AllocError>
        requires { IsRising permitted.now }
        ensures rising { IfOk result (λ paths. IsRising paths.items) }
        ensures found { IfOk result (λ paths. (job : AJob) (output : AnOutput)
            → IsKnown job permitted.now output self.now
            → IsFound output.tree permitted.now paths.items) }
    {
        match self {
            Known::Tree(left, _) => match scan(alloc, &left.tree, permitted) {
                Ok(found) => Ok(found),
                Err(ScanFault::NoMemory) => Err(AllocError),
            },
            Known::Heard(output) => copies(alloc, &output.references),
        }
    }
}

// A copy of the paths.
fn copies(alloc: Global, paths: &[StorePath]) -> Result<Vec<StorePath>, AllocError>
    ensures { IfOk result (λ copies. copies.items ≡ paths.now) }
{
    let mut copies = Vec::with_capacity(alloc, paths.len())?;
    for path in paths {
        copies.push_reserved(path.copy(alloc)?);
    }
    Ok(copies)
}
