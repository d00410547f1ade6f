//! Whether a job is that of a derivation of a plan.
ghost use Rattle.std.specs.Prelude.{◌≡◌, ◌<◌, ◌↔◌, IsTrue, length, map};
ghost use Rattle.nix_drv.specs.Parts.{bytes_of, entry_of};
ghost use Rattle.build_outcome.specs.Jobs.{IsJob};
ghost use Rattle.sched_core.specs.private.SameJobs.{HasRecipe, MakesAt};

use crate::has_seeds::has_seeds;
use crate::whole_inputs::has_whole_inputs;
use build_outcome::{Job, JobOutput};
use drv_graph::{Kind, Plan, Profile};
use nix_drv::{Derivation, EnvEntry, Output};
use nix_names::StorePath;

// Whether a job is that of the derivation with this number. Takes no memory. Costs a comparison of
// each part, and two look-ups by name for each output of its inputs.
pub(crate) fn is_job(plan: &Plan, d: usize, job: &Job) -> bool
    requires { d < length plan.now.nodes }
    ensures { IsTrue result ↔ IsJob plan.now d job.now }
{
    if job.derivation != d {
        return false;
    }
    if !same_kind(job.kind, plan.kind(d)) {
        return false;
    }
    if !same_profile(job.profile, plan.profile()) {
        return false;
    }
    let drv = plan.drv(d);
    if !has_recipe(drv, job) {
        return false;
    }
    if !makes(drv.outputs(), plan.output_paths(d), &job.outputs) {
        return false;
    }
    if !has_seeds(plan, d, &job.seeds) {
        return false;
    }
    has_whole_inputs(plan, d, &job.whole_inputs)
}

// Whether a job has a derivation's builder, arguments and environment.
fn has_recipe(drv: &Derivation, job: &Job) -> bool
    ensures { IsTrue result ↔ HasRecipe drv.now job.now }
{
    if job.builder.as_slice() != drv.builder() {
        return false;
    }
    if !same_texts(&job.args, drv.args()) {
        return false;
    }
    same_entries(&job.env, drv.env())
}

// Whether two lists have the same texts.
fn same_texts(left: &[Vec<u8>], right: &[Vec<u8>]) -> bool
    ensures { IsTrue result ↔ (map bytes_of left.now ≡ map bytes_of right.now) }
{
    left == right
}

// Whether two environments have the same entries.
fn same_entries(left: &[EnvEntry], right: &[EnvEntry]) -> bool
    ensures { IsTrue result ↔ (map entry_of left.now ≡ map entry_of right.now) }
{
    if left.len() != right.len() {
        return false;
    }
    for n in 0..left.len() {
        if !same_entry(&left[n], &right[n]) {
            return false;
        }
    }
    true
}

// Whether two entries of environments are the same.
fn same_entry(left: &EnvEntry, right: &EnvEntry) -> bool
    ensures { IsTrue result ↔ (entry_of left.now ≡ entry_of right.now) }
{
    left.key == right.key && left.value == right.value
}

// Whether exactly these outputs are to be made, at these paths.
fn makes(outputs: &[Output], paths: &[StorePath], made: &[JobOutput]) -> bool
    requires { length paths.now ≡ length outputs.now }
    ensures { IsTrue result ↔ MakesAt outputs.now paths.now made.now }
{
    if made.len() != outputs.len() {
        return false;
    }
    for n in 0..made.len() {
        if !is_made(&made[n], &outputs[n], &paths[n]) {
            return false;
        }
    }
    true
}

// Whether an output is to be made, at this path.
fn is_made(made: &JobOutput, output: &Output, path: &StorePath) -> bool
    ensures { IsTrue result
        ↔ ((made.now.name.items ≡ output.now.name.items) × (made.now.path ≡ path.now)) }
{
    made.name == output.name && made.path == *path
}

// Whether two profiles are the same.
fn same_profile(left: Profile, right: Profile) -> bool
    ensures { IsTrue result ↔ (left ≡ right) }
{
    left == right
}

// Whether two kinds are the same.
fn same_kind(left: Kind, right: Kind) -> bool
    ensures { IsTrue result ↔ (left ≡ right) }
{
    left == right
}
