//! The job of a derivation of a plan.
ghost use Rattle.std.specs.Prelude.{◌≡◌, ◌<◌, IfOk, length, map, vec_capacity};
ghost use Rattle.build_outcome.specs.Jobs.{IsJob};
ghost use Rattle.sched_core.specs.private.Seeding.{named_texts, output_texts};
ghost use Rattle.build_outcome.specs.declared.job.JobOutput.{JobOutput};

use crate::seeds_of::seeds_of;
use crate::whole_inputs::whole_inputs_of;
use build_outcome::{Job, JobOutput};
use drv_graph::Plan;
use nix_drv::{Output, Parts};
use nix_names::StorePath;
use std::alloc::{AllocError, Global};

// The job of the derivation with this number. An error where memory is refused, and no other.
// Costs a copy of the derivation's parts, and a look-up by name for each output of its inputs;
// paths share their texts.
pub(crate) fn job_of(alloc: Global, plan: &Plan, d: usize) -> Result<Job, AllocError>
    requires { d < length plan.now.nodes }
    ensures ok { IfOk result (λ job. IsJob plan.now d job) }
{
    let drv = plan.drv(d);
    let outputs = outputs_of(alloc, drv.outputs(), plan.output_paths(d))?;
    let seeds = seeds_of(alloc, plan, d)?;
    let whole_inputs = whole_inputs_of(alloc, plan, d)?;
    let Parts {
        builder,
        args,
        env,
        ..
    } = drv.parts().copy(alloc)?;
    Ok(Job {
        derivation: d,
        builder,
        args,
        env,
        outputs,
        kind: plan.kind(d),
        profile: plan.profile(),
        seeds,
        whole_inputs,
    })
}

// The outputs that are to be made, with their paths beside them.
fn outputs_of(
    alloc: Global,
    outputs: &[Output],
    paths: &[StorePath],
) -> Result<Vec<JobOutput>, AllocError>
    requires { length paths.now ≡ length outputs.now }
    ensures names { IfOk result (λ made. named_texts made.items ≡ output_texts outputs.now) }
    ensures paths { IfOk result (λ made. map (λ (o : JobOutput). o.path) made.items ≡ paths.now) }
    ensures room { IfOk result (λ made. vec_capacity made ≡ length paths.now) }
{
    let mut made = Vec::with_capacity(alloc, paths.len())?;
    for n in 0..paths.len() {
        let name = Vec::from_slice(alloc, &outputs[n].name)?;
        let path = paths[n].copy(alloc)?;
        made.push_reserved(JobOutput { name, path });
    }
    Ok(made)
}
