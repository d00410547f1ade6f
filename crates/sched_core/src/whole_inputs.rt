//! The input derivations of which each output is named.
ghost use Rattle.std.specs.Prelude.{◌≡◌, ◌<◌, ◌↔◌, IfOk, IfSome, IsTrue, Some, flat_map, length, map, option_map, slice_get};
ghost use Rattle.build_outcome.specs.Jobs.{are_all_named, shown_whole, whole_input, whole_inputs_of};

use crate::seeds_of::add_paths;
use build_outcome::WholeInput;
use drv_graph::{Plan, Profile};
use nix_drv::Derivation;
use nix_names::StorePath;
use std::alloc::{AllocError, Global};

// The inputs of the derivation with this number of which it names each output, under the plan's
// profile. Costs a look-up by name for each output of its inputs.
pub(crate) fn whole_inputs_of(
    alloc: Global,
    plan: &Plan,
    d: usize,
) -> Result<Vec<WholeInput>, AllocError>
    requires { d < length plan.now.nodes }
    ensures { IfOk result (λ whole. IfSome (slice_get plan.now.nodes d) (λ node.
        map shown_whole whole.items
        ≡ whole_inputs_of plan.now.profile plan.now.nodes node.drv)) }
{
    match plan.profile() {
        Profile::Plain => Ok(Vec::new(alloc)),
        Profile::Nix => all_whole(alloc, plan, d),
    }
}

// Under `nix`, the inputs of a derivation of which it names each output.
fn all_whole(alloc: Global, plan: &Plan, d: usize) -> Result<Vec<WholeInput>, AllocError>
    requires { d < length plan.now.nodes }
    ensures { IfOk result (λ whole. IfSome (slice_get plan.now.nodes d) (λ node.
        map shown_whole whole.items ≡ flat_map (whole_input plan.now.nodes) node.drv.inputs)) }
{
    let mut whole = Vec::new(alloc);
    let inputs = plan.inputs(d);
    for index in 0..inputs.len() {
        let number = inputs[index];
        if is_whole(plan.drv(d), index, plan.drv(number)) {
            let input = whole_of(alloc, plan.path(number), plan.output_paths(number))?;
            whole.push(input)?;
        }
    }
    Ok(whole)
}

// A derivation's file with the paths of its outputs.
fn whole_of(alloc: Global, drv: &StorePath, paths: &[StorePath]) -> Result<WholeInput, AllocError>
    ensures { IfOk result (λ whole. shown_whole whole ≡ (drv.now, paths.now)) }
{
    let mut outputs = Vec::new(alloc);
    add_paths(alloc, paths, &mut outputs)?;
    Ok(WholeInput {
        drv: drv.copy(alloc)?,
        outputs,
    })
}

// Whether a derivation names each output of its input with this index.
fn is_whole(drv: &Derivation, index: usize, used: &Derivation) -> bool
    requires { index < length drv.now.inputs }
    ensures { IfSome (slice_get drv.now.inputs index)
        (λ input. result ≡ are_all_named input.names used.now) }
{
    for output in used.outputs() {
        if !drv.uses(index, &output.name) {
            return false;
        }
    }
    true
}

// Whether these are the inputs of the derivation with this number of which it names each output,
// under the plan's profile. Takes no memory. Costs a comparison for each, and a look-up by name for
// each output of its inputs.
pub(crate) fn has_whole_inputs(plan: &Plan, d: usize, whole: &[WholeInput]) -> bool
    requires { d < length plan.now.nodes }
    ensures { IfSome (slice_get plan.now.nodes d) (λ node. IsTrue result
        ↔ (map shown_whole whole.now
        ≡ whole_inputs_of plan.now.profile plan.now.nodes node.drv)) }
{
    match plan.profile() {
        Profile::Plain => whole.is_empty(),
        Profile::Nix => has_all_whole(plan, d, whole),
    }
}

// Under `nix`, whether these are the inputs of which a derivation names each output.
fn has_all_whole(plan: &Plan, d: usize, whole: &[WholeInput]) -> bool
    requires { d < length plan.now.nodes }
    ensures { IfSome (slice_get plan.now.nodes d) (λ node. IsTrue result
        ↔ (map shown_whole whole.now ≡ flat_map (whole_input plan.now.nodes) node.drv.inputs)) }
{
    let mut count = 0;
    let inputs = plan.inputs(d);
    for index in 0..inputs.len() {
        let number = inputs[index];
        if is_whole(plan.drv(d), index, plan.drv(number)) {
            if !is_at(whole, count, plan.path(number), plan.output_paths(number)) {
                return false;
            }
            count += 1;
        }
    }
    count == whole.len()
}

// Whether the whole input at this index has this path and these outputs.
fn is_at(whole: &[WholeInput], index: usize, drv: &StorePath, paths: &[StorePath]) -> bool
    ensures { IsTrue result
        ↔ (option_map shown_whole (slice_get whole.now index) ≡ Some (drv.now, paths.now)) }
{
    match whole.get(index) {
        Some(input) => is_same(input, drv, paths),
        None => false,
    }
}

// Whether a whole input has this path and these outputs.
fn is_same(input: &WholeInput, drv: &StorePath, paths: &[StorePath]) -> bool
    ensures { IsTrue result ↔ (shown_whole input.now ≡ (drv.now, paths.now)) }
{
    input.drv == *drv && are_same(&input.outputs, paths)
}

// Whether two lists have the same paths.
fn are_same(left: &[StorePath], right: &[StorePath]) -> bool
    ensures { IsTrue result ↔ (left.now ≡ right.now) }
{
    left == right
}
