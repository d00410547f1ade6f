//! The paths that a derivation is built from.
ghost use Rattle.std.specs.Prelude.{◌≡◌, ◌<◌, ◌++◌, IfOk, IfSome, OnOk, Some, length, slice_get};
ghost use Rattle.nix_drv.specs.Derivation.{Input};
ghost use Rattle.drv_graph.specs.PlanNodes.{output_paths_of};
ghost use Rattle.build_outcome.specs.Jobs.{paths_named, seeds_of};

use drv_graph::Plan;
use nix_drv::Derivation;
use nix_names::StorePath;
use std::alloc::{AllocError, Global};

// The paths that the derivation with this number is built from: its sources, then the outputs that
// it uses of each of its inputs. Costs a look-up by name for each output of its inputs.
pub(crate) fn seeds_of(alloc: Global, plan: &Plan, d: usize) -> Result<Vec<StorePath>, AllocError>
    requires { d < length plan.now.nodes }
    ensures { IfOk result
        (λ seeds. IfSome (slice_get plan.now.nodes d)
        (λ node. seeds.items ≡ seeds_of plan.now.nodes node.drv)) }
{
    let mut seeds = Vec::new(alloc);
    add_paths(alloc, plan.sources(d), &mut seeds)?;
    let inputs = plan.inputs(d);
    for index in 0..inputs.len() {
        let used = plan.drv(inputs[index]);
        let paths = plan.output_paths(inputs[index]);
        add_used(alloc, plan.drv(d), index, used, paths, &mut seeds)?;
    }
    Ok(seeds)
}

// Adds some paths.
pub(crate) fn add_paths(
    alloc: Global,
    paths: &[StorePath],
    seeds: &mut Vec<StorePath>,
) -> Result<(), AllocError>
    ensures { OnOk result (seeds.new.items ≡ seeds.old.items ++ paths.now) }
{
    for path in paths {
        seeds.push(path.copy(alloc)?)?;
    }
    Ok(())
}

// Adds the paths of the outputs that a derivation uses of its input with this index.
fn add_used(
    alloc: Global,
    drv: &Derivation,
    index: usize,
    used: &Derivation,
    paths: &[StorePath],
    seeds: &mut Vec<StorePath>,
) -> Result<(), AllocError>
    requires index { index < length drv.now.inputs }
    requires paths { paths.now ≡ output_paths_of used.now }
    ensures { OnOk result ((input : Input) → slice_get drv.now.inputs index ≡ Some input
        → seeds.new.items ≡ seeds.old.items ++ paths_named input.names used.now) }
{
    let outputs = used.outputs();
    for n in 0..paths.len() {
        if drv.uses(index, &outputs[n].name) {
            let path = paths[n].copy(alloc)?;
            seeds.push(path)?;
        }
    }
    Ok(())
}
