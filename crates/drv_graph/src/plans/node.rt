//! A derivation of a plan, and what is kept beside it.
ghost use Rattle.std.specs.Prelude.{◌≡◌, length, vec_capacity, IfOk};
ghost use Rattle.std.specs.Cmp.Lexicographic.{pointwise};
ghost use Rattle.std.specs.List.{AllZip};
ghost use Rattle.drv_graph.specs.Equality.{same_node};
ghost use Rattle.drv_graph.specs.PlanNodes.{IsSameNode, nodes_of};

use crate::kinds::Kind;
use crate::paths::copy_paths;
use nix_drv::{Derivation, DrvFault};
use nix_names::StorePath;
use std::alloc::{AllocError, Global};

// A derivation of a plan.
#[derive(Debug, Drop)]
pub(crate) struct PlanNode {
    // The path of its text.
    pub(crate) path: StorePath,
    pub(crate) drv: Derivation,
    pub(crate) kind: Kind,
    // Its modulo hash, which replaces its path in its users' modulo texts.
    pub(crate) hash: [u8; 32],
    // The numbers of its inputs, in its text's order.
    pub(crate) inputs: Vec<usize>,
    // The paths of its outputs, in its text's order.
    pub(crate) outputs: Vec<StorePath>,
    // The paths of its sources, in its text's order.
    pub(crate) sources: Vec<StorePath>,
    // The number of the first derivation of the plan that has the same output paths.
    pub(crate) first: usize,
}

impl PlanNode {
    // A copy of the derivation.
    fn copy(&self, alloc: Global) -> Result<PlanNode, AllocError>
        ensures { IfOk result (IsSameNode self.now) }
    {
        Ok(PlanNode {
            path: self.path.copy(alloc)?,
            drv: copy_drv(alloc, &self.drv)?,
            kind: self.kind,
            hash: self.hash,
            inputs: Vec::from_slice(alloc, &self.inputs)?,
            outputs: copy_paths(alloc, &self.outputs)?,
            sources: copy_paths(alloc, &self.sources)?,
            first: self.first,
        })
    }
}

// Derivations are equal by their paths and texts; in a plan, what is kept beside those follows from
// them.
impl PartialEq for PlanNode {
    ghost use Rattle.std.specs.Cmp.{partial_equiv_from_equiv};
    ghost use Rattle.drv_graph.specs.Equality.{nodes_equal, nodes_equal_laws};

    ghost eq = { nodes_equal };

    ghost laws = { partial_equiv_from_equiv nodes_equal_laws };

    fn eq(&self, other: &PlanNode) -> bool {
        self.path == other.path && self.drv == other.drv
    }
}

impl Eq for PlanNode {
    ghost use Rattle.drv_graph.specs.Equality.{nodes_equal_laws};

    ghost laws = { nodes_equal_laws };
}

// Whether lists of derivations are the same.
pub(crate) fn same_nodes(a: &[PlanNode], b: &[PlanNode]) -> bool
    ensures { result ≡ pointwise same_node (nodes_of a.now) (nodes_of b.now) }
{
    a == b
}

// Copies of the derivations, with room for these alone.
pub(crate) fn copy_nodes(alloc: Global, nodes: &[PlanNode]) -> Result<Vec<PlanNode>, AllocError>
    ensures ok { IfOk result (λ copies. AllZip IsSameNode nodes.now copies.items) }
    ensures room { IfOk result (λ copies. vec_capacity copies ≡ length nodes.now) }
{
    let mut copies = Vec::with_capacity(alloc, nodes.len())?;
    for node in nodes {
        copies.push_reserved(node.copy(alloc)?);
    }
    Ok(copies)
}

// A copy of a derivation as it was read.
fn copy_drv(alloc: Global, drv: &Derivation) -> Result<Derivation, AllocError>
    ensures { IfOk result (λ copy. copy ≡ drv.now) }
{
    match drv.copy(alloc) {
        Ok(copy) => Ok(copy),
        Err(DrvFault::NoMemory) => Err(AllocError),
        // A copy is refused for want of memory alone.
        Err(_) => unreachable!(),
    }
}
