//! What lies at the outputs' paths, heard in one pass. No file's bytes are kept.
ghost use Rattle.std.specs.Prelude.{◌≡◌, Err, IfErr, IfOk, length};
ghost use Rattle.build_outcome.specs.declared.reason.Reason.TheVariants.{TooLarge};
ghost use Rattle.drv_graph.specs.declared.profile.Profile.TheVariants.{Plain};
ghost use Rattle.nix_names.specs.Rising.{IsRising};
ghost use Rattle.process_build.specs.private.Answers.{IsReadingFault};
ghost use Rattle.process_build.specs.private.HeardOutputs.{AreOutputsHeard, IsOutputHeard};

use crate::disk::outputs::others_may_write_at;
use crate::walk::limit::Limit;
use crate::walk::tree_walk::Walk;
use build_outcome::{HeardOutput, Job, OutputHearer, Reason};
use nix_names::StorePath;
use std::fs;
use std::rt::Files;

// An output is told as long as it may be taken.
#[derive(Clone, Copy)]
struct OutputLimit;

impl Limit<OutputHearer> for OutputLimit {
    ghost use Rattle.build_outcome.specs.Hearing.{IsStillWithin};

    ghost keeps = { λ _ hearer. IsStillWithin hearer.profile hearer.counts };

    fn goes_on(&self, hearer: &OutputHearer) -> bool {
        hearer.may_be_taken()
    }
}

/// What is kept of what lies at the path of each output of a job, in the job's order, `None` where
/// nothing does; or the first fault. Each is read once. What is read of an output, what is done
/// before, and the faults are as for `read_outputs`; also where a file has another length when it
/// ends than it had when it began, there is a `ReadFault`.
pub fn hear_outputs<R: Files + AllocGlobal>(
    rt: &R,
    job: &Job,
    permitted: &[StorePath],
) -> Result<Vec<Option<HeardOutput>>, Reason>
    requires { IsRising permitted.now }
    ensures heard { IfOk result (λ heard. AreOutputsHeard job.now permitted.now
        (length job.now.outputs.items) heard.items) }
    ensures bad { IfErr result IsReadingFault }
    ensures limited { result ≡ Err TooLarge → job.now.profile ≡ Plain }
{
    let mut heard = Vec::new(rt.alloc());
    for output in &job.outputs {
        heard.push(hear_output(rt, job, permitted, output.path.as_str())?)?;
    }
    Ok(heard)
}

// What is kept of what lies at a path, if anything does.
fn hear_output<R: Files + AllocGlobal>(
    rt: &R,
    job: &Job,
    permitted: &[StorePath],
    path: &str,
) -> Result<Option<HeardOutput>, Reason>
    requires { IsRising permitted.now }
    ensures heard { IfOk result (IsOutputHeard job.now permitted.now) }
    ensures bad { IfErr result IsReadingFault }
    ensures limited { result ≡ Err TooLarge → job.now.profile ≡ Plain }
{
    let asked = fs::symlink_metadata(rt, path);
    let others_may_write = others_may_write_at(&asked);
    let limit = OutputLimit;
    let mut walk = Walk::new(rt, &limit, Some(job.profile));
    let Some(found) = walk.look(path, asked)? else {
        return Ok(None);
    };
    let path = String::from_str(rt.alloc(), path)?;
    let mut hearer = OutputHearer::new(rt.alloc(), job, permitted)?;
    walk.tell(path, found, &mut hearer)?;
    match hearer.finish(others_may_write) {
        Ok(kept) => Ok(Some(kept)),
        Err(why) => Err(why),
    }
}
