//! The state of a walk over derivations, and how it leaves one of them.
ghost use Rattle.std.specs.Prelude.{◌≡◌, ◌++◌, ◌∷◌, [], ◌<◌, All, Contains, IfErr, IfOk, OnOk, None, Some, length, vec_capacity};
ghost use Rattle.std.specs.List.{AllZip};
ghost use Rattle.indexmap.specs.IndexMap.{keys};
ghost use Rattle.nix_names.specs.StorePaths.{IsPathOf};
ghost use Rattle.drv_graph.specs.Expected.{drv_name_of};
ghost use Rattle.drv_graph.specs.Nodes.{inputs_of, paths_of};
ghost use Rattle.drv_graph.specs.Plans.{AreNumbers};
ghost use Rattle.drv_graph.specs.PlanNodes.{AreKept, nodes_of};
ghost use Rattle.drv_graph.specs.private.Walks.{HasAllNumbers, IsOutputsChecking, IsWalkSoFar, IsLeaving, IsOutputFaultAt, IsUsed, IsVisit, SetsEntry, marked};

use crate::fault::{GraphFault, NodeFault, OutputFault};
use crate::kinds::Kind;
use crate::outputs::output_checks::{UsedInput, check_outputs, modulo_hash};
use crate::paths::known_paths;
use crate::plans::node::PlanNode;
use crate::profile::Rules;
use crate::walks::output_owners::own;
use indexmap::IndexMap;
use nix_drv::Derivation;
use nix_names::StorePath;
use std::alloc::{AllocError, Global};

// The length of `.drv`, in which the name of a derivation's file ends.
const SUFFIX_LEN: usize = 4;

// The state of a walk: what it found so far.
#[derive(Debug, Drop)]
pub(crate) struct WalkState {
    // The derivations that were left, inputs before users.
    pub(crate) nodes: Vec<PlanNode>,
    // Each path that was met: the number of its derivation, or none while that is open.
    pub(crate) marks: IndexMap<StorePath, Option<usize>>,
    // The number of the first derivation that has an output at a path.
    pub(crate) owners: IndexMap<StorePath, usize>,
}

// A derivation that is open: some of its inputs may still have to be walked.
#[derive(Debug, Drop)]
pub(crate) struct Visit {
    // The path of its text.
    pub(crate) path: StorePath,
    pub(crate) drv: Derivation,
    // The paths of its inputs, in its text's order.
    pub(crate) inputs: Vec<StorePath>,
    // The numbers of its first inputs, which were left.
    pub(crate) numbers: Vec<usize>,
}

// Leaves an open derivation whose inputs were all left: checks its outputs, and gives it the next
// number.
pub(crate) fn leave(
    alloc: Global,
    rules: &Rules,
    found: &mut WalkState,
    visit: Visit,
) -> Result<(), GraphFault>
    requires found { IsWalkSoFar rules.now.profile rules.now.dir.now found.old }
    requires visit { IsVisit (nodes_of found.old.nodes.items) visit }
    requires walked { HasAllNumbers visit }
    requires pending { marked found.old.marks visit.path ≡ Some None }
    requires is_new { Contains (paths_of (nodes_of found.old.nodes.items)) visit.path → ⊥ }
    requires in_store { All (IsPathOf rules.now.dir.now) visit.drv.sources }
    ensures { IsLeaving rules.now.profile rules.now.dir.now found.old found.new visit result }
{
    let (kind, hash) = check_visit(alloc, rules, &found.nodes, &visit)?;
    let parts = visit.drv.parts();
    let outputs = known_paths(alloc, rules.dir, &parts.outputs)?;
    let sources = known_paths(alloc, rules.dir, &parts.sources)?;
    let first = own(
        alloc,
        &found.nodes,
        &mut found.owners,
        &visit.path,
        &outputs,
    )?;
    let Visit {
        path,
        drv,
        inputs: _,
        numbers,
    } = visit;
    let node = PlanNode {
        path,
        drv,
        kind,
        hash,
        inputs: numbers,
        outputs,
        sources,
        first,
    };
    Ok(add_node(alloc, found, node)?)
}

// The kind of the outputs and the modulo hash of an open derivation whose inputs were all left.
fn check_visit(
    alloc: Global,
    rules: &Rules,
    kept: &[PlanNode],
    visit: &Visit,
) -> Result<(Kind, [u8; 32]), GraphFault>
    requires kept { AreKept kept.now }
    requires numbers { AreNumbers (nodes_of kept.now) visit.now.numbers.items
        (inputs_of visit.now.drv) }
    ensures { IsOutputsChecking rules.now.profile rules.now.dir.now kept.now visit.now result }
{
    let used = used_inputs(alloc, kept, &visit.numbers)?;
    let name = drv_name(&visit.path);
    match check_outputs(alloc, rules, name, &visit.drv, &used) {
        Ok(kind) => {
            let hash = modulo_hash(alloc, &visit.drv, kind, &used)?;
            Ok((kind, hash))
        }
        Err(fault) => Err(output_fault_at(visit.path.copy(alloc)?, fault)),
    }
}

// What is wrong with the outputs of the derivation at a path.
fn output_fault_at(path: StorePath, fault: OutputFault) -> GraphFault
    ensures { IsOutputFaultAt path fault result }
{
    match fault {
        OutputFault::NoMemory => GraphFault::NoMemory,
        fault => GraphFault::At(path, NodeFault::Outputs(fault)),
    }
}

// The derivations with these numbers, as inputs of another one, with room for these alone.
pub(crate) fn used_inputs<'a>(
    alloc: Global,
    kept: &'a [PlanNode],
    numbers: &[usize],
) -> Result<Vec<UsedInput<'a>>, AllocError>
    requires { All (λ number. number < length kept.now) numbers.now }
    ensures ok { IfOk result (λ used. AllZip (IsUsed kept.now) numbers.now used.items) }
    ensures room { IfOk result (λ used. vec_capacity used ≡ length numbers.now) }
{
    let mut used = Vec::with_capacity(alloc, numbers.len())?;
    for number in numbers {
        let node = &kept[*number];
        used.push_reserved(UsedInput {
            path: &node.path,
            drv: &node.drv,
            hash: node.hash,
        });
    }
    Ok(used)
}

// The name of the derivation whose text stands at a path.
fn drv_name(path: &StorePath) -> &[u8]
    ensures { result.now ≡ drv_name_of path.now }
{
    let name = path.name();
    &name[..name.len().saturating_sub(SUFFIX_LEN)]
}

// Adds a derivation under the next number.
fn add_node(alloc: Global, found: &mut WalkState, node: PlanNode) -> Result<(), AllocError>
    requires { marked found.old.marks node.path ≡ Some None }
    ensures nodes { OnOk result (found.new.nodes.items ≡ found.old.nodes.items ++ node ∷ []) }
    ensures owners { OnOk result (found.new.owners ≡ found.old.owners) }
    ensures marks { OnOk result
        (SetsEntry (marked found.old.marks) (marked found.new.marks) node.path
        (Some (length found.old.nodes.items))) }
    ensures count { OnOk result (length (keys found.new.marks) ≡ length (keys found.old.marks)) }
{
    let path = node.path.copy(alloc)?;
    found.marks.insert(path, Some(found.nodes.len()))?;
    found.nodes.push(node)?;
    Ok(())
}
