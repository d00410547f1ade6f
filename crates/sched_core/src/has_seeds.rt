//! Whether paths are those that a derivation is built from.
ghost use Rattle.std.specs.Prelude.{◌≡◌, ◌<◌, ◌↔◌, [], ◌∷◌, IfSome, IsTrue, Some, length, slice_get};
ghost use Rattle.nix_drv.specs.Derivation.{Input};
ghost use Rattle.drv_graph.specs.PlanNodes.{output_paths_of};
ghost use Rattle.sched_core.specs.private.Following.{IsRest};
ghost use Rattle.build_outcome.specs.Jobs.{paths_named, seeds_of};

use drv_graph::Plan;
use nix_drv::Derivation;
use nix_names::StorePath;

// Whether these are the paths that the derivation with this number is built from. Takes no memory.
// Costs a comparison for each, and a look-up by name for each output of its inputs.
pub(crate) fn has_seeds(plan: &Plan, d: usize, seeds: &[StorePath]) -> bool
    requires { d < length plan.now.nodes }
    ensures { IfSome (slice_get plan.now.nodes d)
        (λ node. IsTrue result ↔ (seeds.now ≡ seeds_of plan.now.nodes node.drv)) }
{
    let drv = plan.drv(d);
    let inputs = plan.inputs(d);
    let mut left = rest_after_paths(seeds, plan.sources(d));
    for index in 0..inputs.len() {
        let used = plan.drv(inputs[index]);
        let paths = plan.output_paths(inputs[index]);
        left = match left {
            Some(rest) => rest_after_used(drv, index, used, paths, rest),
            None => None,
        };
    }
    match left {
        Some(rest) => rest.is_empty(),
        None => false,
    }
}

// What is left of some seeds after these paths, or none where they don't begin with them.
fn rest_after_paths<'a>(seeds: &'a [StorePath], paths: &[StorePath]) -> Option<&'a [StorePath]>
    ensures { IsRest seeds.now paths.now result }
{
    let mut left = Some(seeds);
    for path in paths {
        left = match left {
            Some(rest) => rest_after_path(rest, path),
            None => None,
        };
    }
    left
}

// What is left of some seeds after the paths of the outputs that a derivation uses of its input
// with this index.
fn rest_after_used<'a>(
    drv: &Derivation,
    index: usize,
    used: &Derivation,
    paths: &[StorePath],
    seeds: &'a [StorePath],
) -> Option<&'a [StorePath]>
    requires index { index < length drv.now.inputs }
    requires paths { paths.now ≡ output_paths_of used.now }
    ensures { (input : Input) → slice_get drv.now.inputs index ≡ Some input
        → IsRest seeds.now (paths_named input.names used.now) result }
{
    let outputs = used.outputs();
    let mut left = Some(seeds);
    for n in 0..paths.len() {
        if drv.uses(index, &outputs[n].name) {
            left = match left {
                Some(rest) => rest_after_path(rest, &paths[n]),
                None => None,
            };
        }
    }
    left
}

// What is left of some seeds after this path.
fn rest_after_path<'a>(seeds: &'a [StorePath], path: &StorePath) -> Option<&'a [StorePath]>
    ensures { IsRest seeds.now (path.now ∷ []) result }
{
    match seeds.split_first() {
        Some((first, rest)) if first == path => Some(rest),
        _ => None,
    }
}
