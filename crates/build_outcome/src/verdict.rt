//! The verdict on what a builder left behind.
ghost use Rattle.std.specs.Prelude.{◌≡◌, ◌↔◌, ◌<◌, ℕ, List, Ok, Err, pos, Some, IfOk, IfErr, IsTrue, OnOk, Option, length, map, vec_capacity};
ghost use Rattle.nix_names.specs.Rising.{IsRising};
ghost use Rattle.build_outcome.specs.declared.job.Answer.{Answer as AnAnswer};
ghost use Rattle.build_outcome.specs.declared.job.Job.{Job as AJob};
ghost use Rattle.build_outcome.specs.declared.job.JobOutput.{JobOutput};
ghost use Rattle.build_outcome.specs.declared.reason.Reason.TheVariants.{OutOfMemory};
ghost use Rattle.build_outcome.specs.Heard.{AreHeard, IsExaminedOf, IsExaminedOutcome, LeftArchive};
ghost use Rattle.build_outcome.specs.Verdicts.{AreOutputsThere, AreRecords, HasBadMode, HaveGoodModes, IsCyclic, IsExamining, IsTaken, IsVerdict, outputs_of};
ghost use Rattle.build_outcome.specs.private.Judging.{IsReadAs};

use crate::acceptance::check_known;
use crate::checked_records::Checked;
use crate::cycle::is_cyclic;
use crate::hearers::heard_output::HeardOutput;
use crate::job::{Answer, Job, JobOutput};
use crate::known_outputs::Outputs;
use crate::reason::Reason;
use crate::record::record_of;
use crate::sums::sums_of;
use drv_graph::Profile;
use nix_names::StorePath;
use std::alloc::{AllocError, Global};
use valid_table::Record;

/// The verdict on what the builder of a job left behind, where the outputs may refer to these
/// permitted paths alone: a record of each output, in the job's order, with the permitted paths
/// that are found in it, a digest, and under the profile `nix` the SHA-256 and the length of its
/// archive (NAR). The digest of a fixed output is by the declared method and algorithm; another
/// output has one under the profile `plain` alone, where it is a file: by SHA-256.
///
/// Else the first of these that holds: `Killed`; `ExitStatus` with a status that isn't 0;
/// `ReadFault` where archives are asked for and what lies at an output has none of fewer than 2^63
/// bytes; `MissingOutput` with the first output at which nothing lies; `BadMode`, which is of the
/// profile `nix`, with the first output whose group, or others, may write it; for the first output
/// at which one of them holds, `TooLarge`, which is of the profile `plain`, or of a fixed output
/// `NotFlatFile` or `HashMismatch`; `OutputCycle` where two different outputs lead to each other by
/// references among the outputs. Archives are asked for under the profile `nix`, and under `plain`
/// where the archive of a fixed output is declared. Under `nix` a file that its owner may execute
/// is no flat file.
///
/// `OutOfMemory` comes where memory was refused. That is asked for once the exit status is 0 where
/// archives are asked for, and else only once none of the reasons before `OutputCycle` holds.
///
/// A tree is scanned as `ref_scan::scan` says, and the bytes of a file are read once more for the
/// digest. Where archives are asked for, all of a tree is read once more for its archive, and again
/// where the archive of a fixed output is declared by another algorithm than SHA-256. Takes memory
/// for the records and the archives' sums, for the walks through trees, and for the outputs and the
/// references among them.
pub fn examine(
    alloc: Global,
    job: &Job,
    permitted: &[StorePath],
    answer: Answer,
) -> Result<Checked, Reason>
    requires { IsRising permitted.now }
    ensures { IsExamining job.now permitted.now answer result }
{
    check_status(answer.status)?;
    let sums = sums_of(alloc, job, &answer)?;
    judge(alloc, job, permitted, &Outputs::Trees(&answer, &sums))
}

/// The verdict of `examine` on a job whose builder ended with this exit status, none where a signal
/// ended it. `outputs` has what was kept of what lies at each output's path, in the job's order,
/// none where nothing does. Reads and hashes nothing; takes memory as `examine` does for the
/// records and for the references among the outputs.
pub fn examine_heard(
    alloc: Global,
    job: &Job,
    permitted: &[StorePath],
    status: Option<i32>,
    outputs: Vec<Option<HeardOutput>>,
) -> Result<Checked, Reason>
    requires { IsRising permitted.now }
    ensures { (lefts : List (Option LeftArchive))
        → AreHeard job.now permitted.now lefts outputs.items
        → IsExaminedOf job.now permitted.now status lefts result }
{
    check_status(status)?;
    judge(alloc, job, permitted, &Outputs::Heard(&outputs))
}

/// The verdict of `examine` on an outcome of a job: on its answer, or the reason why there is none.
pub fn examined(
    alloc: Global,
    job: &Job,
    permitted: &[StorePath],
    outcome: Result<Answer, Reason>,
) -> Result<Result<Checked, Reason>, Reason>
    requires { IsRising permitted.now }
    ensures { IsExaminedOutcome job.now permitted.now outcome result }
{
    let answer = outcome?;
    Ok(examine(alloc, job, permitted, answer))
}

// The verdict on what lies at the outputs of a job whose builder ended well.
fn judge(
    alloc: Global,
    job: &Job,
    permitted: &[StorePath],
    outputs: &Outputs<'_>,
) -> Result<Checked, Reason>
    requires { IsRising permitted.now }
    ensures { (answer : AnAnswer) → IsReadAs job.now permitted.now answer outputs.now
        → IsExamining job.now permitted.now answer result }
{
    check_there(job, outputs)?;
    check_modes(job, outputs)?;
    check_trees(job, outputs)?;
    let records = records_of(alloc, job, permitted, outputs)?;
    if refer_in_cycle(alloc, job, &records)? {
        return Err(Reason::OutputCycle);
    }
    Ok(Checked::new(records))
}

// Whether two different outputs of the job lead to each other, by these records.
fn refer_in_cycle(alloc: Global, job: &Job, records: &[Record]) -> Result<bool, AllocError>
    requires { length records.now ≡ length job.now.outputs.items }
    ensures { IfOk result (λ cyclic. IsTrue cyclic ↔ IsCyclic (outputs_of job.now) records.now) }
{
    let paths = paths_of(alloc, &job.outputs)?;
    is_cyclic(alloc, &paths, records)
}

// The outputs' paths, in their order.
pub(crate) fn paths_of(alloc: Global, outputs: &[JobOutput]) -> Result<Vec<StorePath>, AllocError>
    ensures paths { IfOk result
        (λ paths. paths.items ≡ map (λ (o : JobOutput). o.path) outputs.now) }
    ensures room { IfOk result (λ paths. vec_capacity paths ≡ length outputs.now) }
{
    let mut paths = Vec::with_capacity(alloc, outputs.len())?;
    for output in outputs {
        paths.push_reserved(output.path.copy(alloc)?);
    }
    Ok(paths)
}

// Whether the builder ended with exit status 0.
fn check_status(status: Option<i32>) -> Result<(), Reason>
    ensures ok { OnOk result (status ≡ Some (pos 0)) }
    ensures err { IfErr result (λ why. (job : AJob) (permitted : List (List ℕ))
        (answer : AnAnswer) → answer.status ≡ status → IsVerdict job permitted answer (Err why)) }
{
    match status {
        None => Err(Reason::Killed),
        Some(0) => Ok(()),
        Some(status) => Err(Reason::ExitStatus(status)),
    }
}

// Whether the builder left something at each output's path.
fn check_there(job: &Job, outputs: &Outputs<'_>) -> Result<(), Reason>
    ensures there { OnOk result ((permitted : List (List ℕ)) (answer : AnAnswer)
        → IsReadAs job.now permitted answer outputs.now → AreOutputsThere job.now answer) }
    ensures err { IfErr result (λ why. (permitted : List (List ℕ)) (answer : AnAnswer)
        → IsReadAs job.now permitted answer outputs.now
        → IsVerdict job.now permitted answer (Err why)) }
{
    for n in 0..job.outputs.len() {
        outputs.at(n)?;
    }
    Ok(())
}

// Whether the profile takes the mode of what lies at each output's path.
fn check_modes(job: &Job, outputs: &Outputs<'_>) -> Result<(), Reason>
    ensures good { OnOk result ((permitted : List (List ℕ)) (answer : AnAnswer)
        → IsReadAs job.now permitted answer outputs.now → HaveGoodModes job.now answer) }
    ensures err { IfErr result (λ why. (permitted : List (List ℕ)) (answer : AnAnswer)
        → IsReadAs job.now permitted answer outputs.now → AreOutputsThere job.now answer
        → IsVerdict job.now permitted answer (Err why)) }
{
    for n in 0..job.outputs.len() {
        if has_bad_mode(job, outputs, n) {
            return Err(Reason::BadMode(n));
        }
    }
    Ok(())
}

// Whether the profile doesn't take the mode of what lies at the output with this number.
fn has_bad_mode(job: &Job, outputs: &Outputs<'_>, n: usize) -> bool
    ensures { (permitted : List (List ℕ)) (answer : AnAnswer)
        → IsReadAs job.now permitted answer outputs.now → n < length job.now.outputs.items
        → IsTrue result ↔ HasBadMode job.now answer n }
{
    match job.profile {
        Profile::Plain => false,
        Profile::Nix => match outputs.at(n) {
            Ok(known) => known.others_may_write(),
            Err(_) => false,
        },
    }
}

// Whether what lies at each output's path is taken. Takes no memory.
fn check_trees(job: &Job, outputs: &Outputs<'_>) -> Result<(), Reason>
    ensures taken { OnOk result ((permitted : List (List ℕ)) (answer : AnAnswer)
        → IsReadAs job.now permitted answer outputs.now → AreOutputsThere job.now answer
        → HaveGoodModes job.now answer → IsTaken job.now answer) }
    ensures err { IfErr result (λ why. (permitted : List (List ℕ)) (answer : AnAnswer)
        → IsReadAs job.now permitted answer outputs.now → AreOutputsThere job.now answer
        → HaveGoodModes job.now answer → IsVerdict job.now permitted answer (Err why)) }
{
    for n in 0..job.outputs.len() {
        check_known(job, &outputs.at(n)?)?;
    }
    Ok(())
}

// The record of what lies at each output's path, which is taken.
fn records_of(
    alloc: Global,
    job: &Job,
    permitted: &[StorePath],
    outputs: &Outputs<'_>,
) -> Result<Vec<Record>, Reason>
    requires { IsRising permitted.now }
    ensures records { IfOk result (λ records. (answer : AnAnswer)
        → IsReadAs job.now permitted.now answer outputs.now → IsTaken job.now answer
        → AreRecords job.now permitted.now answer records.items) }
    ensures count { IfOk result (λ records. length records.items ≡ length job.now.outputs.items) }
    ensures err { IfErr result (λ why. (answer : AnAnswer)
        → IsReadAs job.now permitted.now answer outputs.now → IsTaken job.now answer
        → why ≡ OutOfMemory) }
{
    let mut records = Vec::with_capacity(alloc, job.outputs.len())?;
    for n in 0..job.outputs.len() {
        let record = record_of(alloc, job, permitted, &outputs.at(n)?)?;
        records.push_reserved(record);
    }
    Ok(records)
}
