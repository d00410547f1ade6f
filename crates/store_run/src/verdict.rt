//! What a worker finds of the outcome of a job, without a lock, by the list that its reader sees.
ghost use Rattle.std.specs.Prelude.{◌≡◌, Err, IfErr, IfOk, Ok, OnOk};
ghost use Rattle.valid_view.specs.Shown.{IsShowable};
ghost use Rattle.sched_core.specs.Books.{ArePermittedPaths, AreSeedsValid};
ghost use Rattle.build_outcome.specs.Heard.{IsRunExamined};
ghost use Rattle.build_outcome.specs.Verdicts.{IsVerdict};
ghost use Rattle.build_outcome.specs.declared.job.Answer.{Answer as AnAnswer};
ghost use Rattle.store_run.specs.declared.job_verdict.JobVerdict.TheVariants.{Examined, Unanswered};
ghost use Rattle.store_run.specs.private.JobVerdicts.{IsFoundBy, IsToldOfSeeds, IsUnseen, MayBeFound};

use crate::job_verdict::JobVerdict;
use crate::refusal::{RefusedCall, closure};
use crate::requisites::BuiltJob;
use build_outcome::{AskedChecks, JobChecks, test_outputs};
use nix_names::StorePath;
use sched_core::{Build, Checked, Job, Lease, Reason, permitted_beside};
use std::alloc::Global;
use valid_view::{ListId, Tells, ViewReader};

// Has a reader learn what a lease was told. Then all that the lease's job is built from is valid
// in each list that the reader sees from now on.
pub(crate) fn learn<J: ListId, O: Tells<J>>(reader: &mut ViewReader<J>, lease: &mut Lease<O::Told>)
    requires { IsToldOfSeeds O.names lease.old }
    ensures seeds { AreSeedsValid reader.new.told lease.new.job }
    ensures job { lease.new.job ≡ lease.old.job }
    ensures number { lease.new.number ≡ lease.old.number }
{
    match lease.told() {
        Some(told) => reader.learn(O::prefix(told)),
        None => unreachable!(),
    }
}

// What is found of what came of a job that a builder ran and examined by these permitted paths: the
// reason why there is no answer; the reason of the verdict; or, where the outputs have records, what
// their tests find.
pub(crate) fn verdict<J: ListId, B: Build>(
    alloc: Global,
    reader: &mut ViewReader<J>,
    job: &Job,
    permitted: &[StorePath],
    examined: Result<Result<Checked, Reason>, Reason>,
) -> JobVerdict
    requires showable { IsShowable reader.old.seen }
    requires seeds { AreSeedsValid reader.old.seen job.now }
    requires permitted { ArePermittedPaths reader.old.seen job.now permitted.now }
    requires examined { IsRunExamined B.may job.now permitted.now examined }
    ensures found { MayBeFound B.may reader.new.seen job.now result }
    ensures unanswered { IfErr examined (λ why. result ≡ Unanswered why) }
    ensures bad { IfOk examined (λ found. IfErr found (λ why. result ≡ Examined (Err why))) }
{
    match examined {
        Ok(Ok(checked)) => tested(alloc, reader, job, permitted, checked),
        Ok(Err(reason)) => JobVerdict::Examined(Err(reason)),
        Err(reason) => JobVerdict::Unanswered(reason),
    }
}

// What is found of an answer with these records, by their tests.
fn tested<J: ListId>(
    alloc: Global,
    reader: &mut ViewReader<J>,
    job: &Job,
    permitted: &[StorePath],
    checked: Checked,
) -> JobVerdict
    requires showable { IsShowable reader.old.seen }
    requires seeds { AreSeedsValid reader.old.seen job.now }
    requires permitted { ArePermittedPaths reader.old.seen job.now permitted.now }
    requires verdict { (answer : AnAnswer) × IsVerdict job.now permitted.now answer (Ok checked) }
    ensures { (answer : AnAnswer) → IsVerdict job.now permitted.now answer (Ok checked)
        → IsFoundBy reader.new.seen job.now (Ok answer) result }
{
    let checks = match JobChecks::read(alloc, job) {
        Ok(checks) => checks,
        Err(reason) => return JobVerdict::Examined(Err(reason)),
    };
    let built = BuiltJob {
        job,
        checks: &checks,
        checked: &checked,
    };
    let closures = match built.closures(alloc, reader) {
        Ok(closures) => closures,
        Err(refusal) => return JobVerdict::Refused(refusal),
    };
    let asked = AskedChecks { checks, closures };
    match test_outputs(alloc, job, permitted, &checked, &asked) {
        Ok(()) => JobVerdict::Examined(Ok(checked)),
        Err(reason) => JobVerdict::Examined(Err(reason)),
    }
}

// The paths to which the outputs of a job may refer, by the list that the reader sees; or what was
// refused, memory or the view.
pub(crate) fn permitted<J: ListId>(
    alloc: Global,
    reader: &mut ViewReader<J>,
    job: &Job,
) -> Result<Vec<StorePath>, RefusedCall>
    requires { AreSeedsValid reader.old.told job.now }
    ensures showable { OnOk result (IsShowable reader.new.seen) }
    ensures seeds { OnOk result (AreSeedsValid reader.new.seen job.now) }
    ensures permitted { IfOk result
        (λ paths. ArePermittedPaths reader.new.seen job.now paths.items) }
    ensures err { IfErr result IsUnseen }
{
    let reached = closure(alloc, reader, &job.seeds)?;
    Ok(permitted_beside(alloc, reached, job)?)
}
