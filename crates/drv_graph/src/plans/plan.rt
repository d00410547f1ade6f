//! Plans of derivations.
ghost use Rattle.std.specs.Prelude.{◌≡◌, ◌<◌, ◌≤◌, All, IfErr, IfOk, IfSome, Some, length, slice_get};
ghost use Rattle.std.specs.Cmp.Lexicographic.{pointwise};
ghost use Rattle.nix_names.specs.StorePaths.{IsDrvPath};
ghost use Rattle.nix_drv.specs.Sources.{GivesSame};
ghost use Rattle.drv_graph.specs.Equality.{same_node};
ghost use Rattle.drv_graph.specs.Kinds.{HasKind};
ghost use Rattle.drv_graph.specs.Loading.{AreDistinct, IsCountedFault, IsLoading};
ghost use Rattle.drv_graph.specs.Nodes.{inputs_of, paths_of};
ghost use Rattle.drv_graph.specs.Plans.{AreNumbers};
ghost use Rattle.drv_graph.specs.PlanNodes.{AreKept, drvs_of, nodes_of, output_paths_of};
ghost use Rattle.drv_graph.specs.SoundGraphs.{IsSound};
ghost use Rattle.drv_graph.specs.Twins.{first_twin_of};

use crate::fault::GraphFault;
use crate::kinds::Kind;
use crate::plans::node::{PlanNode, copy_nodes, same_nodes};
use crate::profile::{Profile, Rules};
use crate::walks::reach::{LoadedGraph, walk_all};
use crate::walks::walk_state::WalkState;
use nix_drv::{Derivation, DrvSource};
use nix_names::{StoreDir, StorePath};
use std::alloc::Global;
use std::marker::Model;

/// The derivations that some roots reach, each after its inputs; a derivation's number is its
/// index, counted from 0. A contract sees the profile under which they were loaded, the derivations
/// with their paths, and the roots' numbers.
#[derive(Debug, Drop)]
pub struct Plan {
    profile: Profile,
    nodes: Vec<PlanNode>,
    roots: Vec<usize>,
}

impl Model for Plan {
    ghost use Rattle.drv_graph.specs.Plans.{Graph};

    ghost Value = { Graph };

    ghost use Rattle.drv_graph.specs.PlanNodes.{AreKept, nodes_of};
    ghost use Rattle.drv_graph.specs.SoundGraphs.{IsSound};

    ghost view = { λ plan. record {
      profile = plan.profile;
      nodes = nodes_of plan.nodes.items;
      roots = plan.roots.items;
    } };

    ghost invariant = { λ plan. AreKept plan.nodes.items × IsSound
        (record {
          profile = plan.profile;
          nodes = nodes_of plan.nodes.items;
          roots = plan.roots.items;
        }) };
}

impl Plan {
    /// The plan of the roots under the profile `Plain`, as `load_as` gives it.
    pub fn load<S: DrvSource>(
        alloc: Global,
        source: &mut S,
        dir: &StoreDir,
        roots: &[StorePath],
    ) -> Result<Plan, GraphFault>
        ensures keeps { GivesSame (S.gives source.old) (S.gives source.new) }
        ensures counts { S.failures source.old ≤ S.failures source.new }
        ensures device { IfErr result (IsCountedFault (S.gives source.old)
            (S.failures source.old) (S.failures source.new)) }
        ensures loading { IsLoading Profile.Plain dir.now (S.gives source.old) roots.now result }
    {
        Plan::load_as(alloc, Profile::Plain, source, dir, roots)
    }

    /// The plan of the roots under a profile: what they reach by the source's answers, in the
    /// folder. A root that is repeated counts once. A fault has the path at which it was found. At
    /// each derivation that is met for the first time, in this order: `Unreadable`, `TooMany`, the
    /// faults of `check_text`, those of its inputs in turn, those of its outputs, `OutputClash`
    /// last. An input whose own inputs are still being met is a `Cycle`: that is answered in the
    /// input's turn, at its path, after the faults of the inputs before it. Where the device
    /// failed, the source counted it. Each path is fetched once, and each derivation read, checked
    /// and digested once; the rest is linear in the pairs of a user and an input, by look-ups by
    /// hash. Does not recurse.
    pub fn load_as<S: DrvSource>(
        alloc: Global,
        profile: Profile,
        source: &mut S,
        dir: &StoreDir,
        roots: &[StorePath],
    ) -> Result<Plan, GraphFault>
        ensures keeps { GivesSame (S.gives source.old) (S.gives source.new) }
        ensures counts { S.failures source.old ≤ S.failures source.new }
        ensures device { IfErr result (IsCountedFault (S.gives source.old)
            (S.failures source.old) (S.failures source.new)) }
        ensures loading { IsLoading profile dir.now (S.gives source.old) roots.now result }
    {
        let rules = Rules { profile, dir };
        let LoadedGraph { found, roots } = walk_all(alloc, source, &rules, roots)?;
        let roots = Vec::from_slice(alloc, roots.as_slice())?;
        let WalkState {
            nodes,
            marks: _,
            owners: _,
        } = found;
        Ok(Plan {
            profile,
            nodes,
            roots,
        })
    }

    /// A copy of the plan. Answers `NoMemory` where memory is refused, and no other fault. Copies
    /// each derivation; paths share their texts.
    pub fn copy(&self, alloc: Global) -> Result<Plan, GraphFault>
        ensures ok { IfOk result (λ plan. plan ≡ self.now) }
        ensures err { IfErr result (λ fault. fault ≡ GraphFault.NoMemory) }
    {
        let nodes = copy_nodes(alloc, &self.nodes)?;
        let roots = Vec::from_slice(alloc, &self.roots)?;
        Ok(Plan {
            profile: self.profile,
            nodes,
            roots,
        })
    }

    // Whether the plans have the same derivations in the same order.
    pub(crate) fn has_same_nodes(&self, other: &Plan) -> bool
        ensures { result ≡ pointwise same_node self.now.nodes other.now.nodes }
    {
        same_nodes(&self.nodes, &other.nodes)
    }

    /// The profile under which the plan was loaded.
    pub fn profile(&self) -> Profile
        ensures { result ≡ self.now.profile }
    {
        self.profile
    }

    /// How many derivations there are.
    pub fn len(&self) -> usize
        ensures value { result ≡ length self.now.nodes }
        ensures sound { IsSound self.now }
    {
        self.nodes.len()
    }

    /// The derivation with this number.
    pub fn drv(&self, number: usize) -> &Derivation
        requires { number < length self.now.nodes }
        ensures { slice_get (drvs_of self.now.nodes) number ≡ Some result.now }
    {
        &self.nodes[number].drv
    }

    /// The path of the text of the derivation with this number. Its name is that of a derivation's
    /// file.
    pub fn path(&self, number: usize) -> &StorePath
        requires { number < length self.now.nodes }
        ensures value { slice_get (paths_of self.now.nodes) number ≡ Some result.now }
        ensures sound { IsDrvPath result.now }
    {
        &self.nodes[number].path
    }

    /// The numbers of the inputs of the derivation with this number, in its text's order: each is
    /// smaller.
    pub fn inputs(&self, number: usize) -> &[usize]
        requires { number < length self.now.nodes }
        ensures numbers { IfSome (slice_get self.now.nodes number)
            (λ node. AreNumbers self.now.nodes result.now (inputs_of node.drv)) }
        ensures smaller { All (λ input. input < number) result.now }
        ensures sound { IsSound self.now }
    {
        &self.nodes[number].inputs
    }

    /// The kind of the outputs of the derivation with this number.
    pub fn kind(&self, number: usize) -> Kind
        requires { number < length self.now.nodes }
        ensures { IfSome (slice_get self.now.nodes number) (λ node. HasKind node.drv result) }
    {
        self.nodes[number].kind
    }

    /// The paths of the outputs of the derivation with this number, in its text's order. No two are
    /// the same.
    pub fn output_paths(&self, number: usize) -> &[StorePath]
        requires { number < length self.now.nodes }
        ensures value { IfSome (slice_get self.now.nodes number)
            (λ node. result.now ≡ output_paths_of node.drv) }
        ensures distinct { AreDistinct result.now }
    {
        &self.nodes[number].outputs
    }

    /// The number of the first derivation that has the same output paths as the one with this
    /// number: the first of its twins, or itself.
    pub fn first_twin(&self, number: usize) -> usize
        requires { number < length self.now.nodes }
        ensures value { result ≡ first_twin_of self.now.nodes number }
        ensures within { result ≤ number }
    {
        self.nodes[number].first
    }

    /// The paths of the sources of the derivation with this number, in its text's order.
    pub fn sources(&self, number: usize) -> &[StorePath]
        requires { number < length self.now.nodes }
        ensures { IfSome (slice_get self.now.nodes number) (λ node. result.now ≡ node.drv.sources) }
    {
        &self.nodes[number].sources
    }

    // The derivations, and what is kept beside each.
    pub(crate) fn nodes(&self) -> &[PlanNode]
        ensures nodes { nodes_of result.now ≡ self.now.nodes }
        ensures kept { AreKept result.now }
    {
        &self.nodes
    }

    /// The numbers of the roots, in their order, each once.
    pub fn roots(&self) -> &[usize]
        ensures { result.now ≡ self.now.roots }
    {
        &self.roots
    }
}
