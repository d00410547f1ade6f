//! How all that some roots reach is found.
ghost use Rattle.std.specs.Prelude.{◌≡◌, ◌≤◌, IfErr};
ghost use Rattle.nix_drv.specs.Sources.{GivesSame};
ghost use Rattle.drv_graph.specs.Loading.{IsCountedFault};
ghost use Rattle.drv_graph.specs.private.Walks.{IsEmptyWalk, IsWalkingAll};

use crate::fault::GraphFault;
use crate::profile::Rules;
use crate::walks::walk::walk;
use crate::walks::walk_state::WalkState;
use indexmap::{IndexMap, IndexSet};
use nix_drv::DrvSource;
use nix_names::StorePath;
use std::alloc::Global;

// A walk that reached all that the roots reach, and the numbers of the roots, each once.
#[derive(Debug, Drop)]
pub(crate) struct LoadedGraph {
    pub(crate) found: WalkState,
    pub(crate) roots: IndexSet<usize>,
}

// Walks from each root in turn.
pub(crate) fn walk_all<S: DrvSource>(
    alloc: Global,
    source: &mut S,
    rules: &Rules,
    roots: &[StorePath],
) -> Result<LoadedGraph, GraphFault>
    ensures keeps { GivesSame (S.gives source.old) (S.gives source.new) }
    ensures counts { S.failures source.old ≤ S.failures source.new }
    ensures device { IfErr result (IsCountedFault (S.gives source.old) (S.failures source.old)
        (S.failures source.new)) }
    ensures walking { IsWalkingAll rules.now.profile rules.now.dir.now (S.gives source.old)
        roots.now result }
{
    let mut found = empty_walk(alloc);
    let mut numbers = IndexSet::new(alloc);
    'roots: for index in 0..roots.len() {
        let number = walk(alloc, source, rules, &mut found, roots, index)?;
        numbers.insert(number)?;
    }
    Ok(LoadedGraph {
        found,
        roots: numbers,
    })
}

// The state of a walk that begins: nothing was found.
fn empty_walk(alloc: Global) -> WalkState
    ensures { IsEmptyWalk result }
{
    WalkState {
        nodes: Vec::new(alloc),
        marks: IndexMap::new(alloc),
        owners: IndexMap::new(alloc),
    }
}
