//! Which derivation owns an output path: the first of those that have it.
ghost use Rattle.std.specs.Prelude.{◌≡◌, ◌<◌, All, IfOk, IfSome, length, slice_get};
ghost use Rattle.drv_graph.specs.Loading.{AreDistinct};
ghost use Rattle.drv_graph.specs.Nodes.{Node, output_paths_of};
ghost use Rattle.drv_graph.specs.private.Owners.{AreOwners, HasAsMany, IsEntering, IsOwning, first_owner, outputs_of, owned};
ghost use Rattle.drv_graph.specs.PlanNodes.{AreKept, nodes_of};

use crate::fault::{GraphFault, NodeFault};
use crate::plans::node::PlanNode;
use indexmap::IndexMap;
use nix_names::StorePath;
use std::alloc::{AllocError, Global};

// Enters the outputs of the next derivation, whose text stands at the path, among their owners. It
// becomes their owner where no earlier derivation has one of them. Where an earlier one has just
// these, that one stays their owner. Else they clash. Answers the owner's number.
pub(crate) fn own(
    alloc: Global,
    kept: &[PlanNode],
    owners: &mut IndexMap<StorePath, usize>,
    path: &StorePath,
    outputs: &[StorePath],
) -> Result<usize, GraphFault>
    requires kept { AreKept kept.now }
    requires own_outputs { All (λ (n : Node). AreDistinct (output_paths_of n.drv))
        (nodes_of kept.now) }
    requires owners { AreOwners (owned owners.old) (outputs_of kept.now) }
    requires distinct { AreDistinct outputs.now }
    ensures { IsOwning kept.now path.now outputs.now (owned owners.new) result }
{
    let owner = first_owner(owners, outputs);
    if !has_as_many(kept, owner, outputs.len()) {
        return Err(clash(alloc, path)?);
    }
    let first = owner.unwrap_or(kept.len());
    if !enter(alloc, owners, owner, outputs, first)? {
        return Err(clash(alloc, path)?);
    }
    Ok(first)
}

// The owner of the first of some paths.
fn first_owner(owners: &IndexMap<StorePath, usize>, paths: &[StorePath]) -> Option<usize>
    ensures { result ≡ first_owner (owned owners.now) paths.now }
{
    match paths.first() {
        Some(path) => owners.get(path).copied(),
        None => None,
    }
}

// Whether the derivation with this number has `count` outputs; true where there is no number.
fn has_as_many(kept: &[PlanNode], number: Option<usize>, count: usize) -> bool
    requires { IfSome number (λ n. n < length kept.now) }
    ensures { HasAsMany kept.now number count result }
{
    match number {
        Some(number) => kept[number].outputs.len() == count,
        None => true,
    }
}

// Enters paths under a number, where each of them has this owner so far. Answers whether each has.
// Where one hasn't, some paths are entered already, and the owners must not be used any more.
fn enter(
    alloc: Global,
    owners: &mut IndexMap<StorePath, usize>,
    owner: Option<usize>,
    paths: &[StorePath],
    number: usize,
) -> Result<bool, AllocError>
    requires { AreDistinct paths.now }
    ensures { IfOk result
        (IsEntering (owned owners.old) (owned owners.new) owner paths.now number) }
{
    for path in paths {
        let key = path.copy(alloc)?;
        if owners.insert(key, number)? != owner {
            return Ok(false);
        }
    }
    Ok(true)
}

// The fault that the outputs of the derivation at a path clash.
fn clash(alloc: Global, path: &StorePath) -> Result<GraphFault, AllocError>
    ensures { IfOk result (λ fault. fault ≡ GraphFault.At path.now NodeFault.OutputClash) }
{
    Ok(GraphFault::At(path.copy(alloc)?, NodeFault::OutputClash))
}
