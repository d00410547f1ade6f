//! How derivations are walked: depth first, by a list of those that are open, outermost first.
ghost use Rattle.std.specs.Prelude.{◌≡◌, ◌≤◌, ◌<◌, ℕ, List, [], All, Contains, IfErr, IfOk, None, Some, length, slice_get};
ghost use Rattle.indexmap.specs.IndexMap.{keys};
ghost use Rattle.nix_names.specs.StorePaths.{IsPathOf};
ghost use Rattle.nix_drv.specs.Sources.{Answer, GivesSame, IsGiven};
ghost use Rattle.drv_graph.specs.Loading.{IsCountedFault};
ghost use Rattle.drv_graph.specs.Nodes.{inputs_of, paths_of};
ghost use Rattle.drv_graph.specs.Plans.{MayBeAt};
ghost use Rattle.drv_graph.specs.PlanNodes.{nodes_of};
ghost use Rattle.drv_graph.specs.private.Walks.{IsFetching, IsWalkSoFar, IsGoingOn, IsMeeting, IsOpening, IsReadingOf, IsStepping, IsTextFaultAt, IsVisit, IsWalked, IsWalking, marked};

use crate::fault::{GraphFault, NodeFault};
use crate::paths::known_paths;
use crate::profile::Rules;
use crate::walks::walk_state::{Visit, WalkState, leave};
use indexmap::IndexMap;
use nix_drv::{Derivation, DrvFault, DrvSource, SourceFault, check_text};
use nix_names::{StoreDir, StorePath};
use std::alloc::{AllocError, Global};

// The greatest number of derivations in a plan.
const MAX_NODES: usize = 65536;

// What a path is that a walk meets.
#[derive(Debug, Drop)]
pub(crate) enum Meeting {
    // The derivation with this number was left before.
    Done(usize),
    // This derivation is opened.
    New(Visit),
}

// Walks from the root with this index among the roots, and answers its number. Each path is fetched
// once, and each derivation is left after its inputs, which are walked in its text's order.
pub(crate) fn walk<S: DrvSource>(
    alloc: Global,
    source: &mut S,
    rules: &Rules,
    found: &mut WalkState,
    roots: &[StorePath],
    index: usize,
) -> Result<usize, GraphFault>
    requires index { index < length roots.now }
    requires walked { IsWalked rules.now.profile rules.now.dir.now (S.gives source.old) roots.now
        found.old [] }
    ensures keeps { GivesSame (S.gives source.old) (S.gives source.new) }
    ensures counts { S.failures source.old ≤ S.failures source.new }
    ensures device { IfErr result (IsCountedFault (S.gives source.old) (S.failures source.old)
        (S.failures source.new)) }
    ensures walking { (root : List ℕ) → slice_get roots.now index ≡ Some root
        → IsWalking rules.now.profile rules.now.dir.now (S.gives source.old) roots.now root
        found.old found.new result }
{
    let root = &roots[index];
    let mut visits = Vec::new(alloc);
    'walk: loop {
        match visits.pop() {
            Some(visit) => go_on(alloc, source, rules, found, &mut visits, visit)?,
            None => match meet(alloc, source, rules.dir, &mut found.marks, root)? {
                Meeting::Done(number) => return Ok(number),
                Meeting::New(visit) => visits.push(visit)?,
            },
        }
    }
}

// Goes on with an open derivation, below which others are open: with its next input, or leaves it
// where it has no more.
fn go_on<S: DrvSource>(
    alloc: Global,
    source: &mut S,
    rules: &Rules,
    found: &mut WalkState,
    visits: &mut Vec<Visit>,
    mut visit: Visit,
) -> Result<(), GraphFault>
    requires found { IsWalkSoFar rules.now.profile rules.now.dir.now found.old }
    requires visit { IsVisit (nodes_of found.old.nodes.items) visit }
    requires pending { marked found.old.marks visit.path ≡ Some None }
    requires is_new { Contains (paths_of (nodes_of found.old.nodes.items)) visit.path → ⊥ }
    requires in_store { All (IsPathOf rules.now.dir.now) visit.drv.sources }
    ensures keeps { GivesSame (S.gives source.old) (S.gives source.new) }
    ensures counts { S.failures source.old ≤ S.failures source.new }
    ensures device { IfErr result (IsCountedFault (S.gives source.old) (S.failures source.old)
        (S.failures source.new)) }
    ensures going_on { IsGoingOn rules.now.profile rules.now.dir.now (S.gives source.old) found.old
        found.new visits.old.items visit visits.new.items result }
{
    if visit.inputs.len() <= visit.numbers.len() {
        return leave(alloc, rules, found, visit);
    }
    let child = step(alloc, source, rules.dir, &mut found.marks, &mut visit)?;
    visits.push(visit)?;
    if let Some(child) = child {
        visits.push(child)?;
    }
    Ok(())
}

// Meets the next input of an open derivation: adds its number, or gives the derivation that is
// opened for it.
fn step<S: DrvSource>(
    alloc: Global,
    source: &mut S,
    dir: &StoreDir,
    marks: &mut IndexMap<StorePath, Option<usize>>,
    visit: &mut Visit,
) -> Result<Option<Visit>, GraphFault>
    requires { length visit.old.numbers.items < length visit.old.inputs.items }
    ensures keeps { GivesSame (S.gives source.old) (S.gives source.new) }
    ensures counts { S.failures source.old ≤ S.failures source.new }
    ensures device { IfErr result (IsCountedFault (S.gives source.old) (S.failures source.old)
        (S.failures source.new)) }
    ensures stepping { IsStepping dir.now (S.gives source.old) marks.old marks.new visit.old
        visit.new result }
{
    let input = &visit.inputs[visit.numbers.len()];
    match meet(alloc, source, dir, marks, input)? {
        Meeting::Done(number) => {
            visit.numbers.push(number)?;
            Ok(None)
        }
        Meeting::New(child) => Ok(Some(child)),
    }
}

// Meets a path: the number of its derivation where it was left, else opens it. `Cycle` where it is
// open.
fn meet<S: DrvSource>(
    alloc: Global,
    source: &mut S,
    dir: &StoreDir,
    marks: &mut IndexMap<StorePath, Option<usize>>,
    path: &StorePath,
) -> Result<Meeting, GraphFault>
    ensures keeps { GivesSame (S.gives source.old) (S.gives source.new) }
    ensures counts { S.failures source.old ≤ S.failures source.new }
    ensures device { IfErr result (IsCountedFault (S.gives source.old) (S.failures source.old)
        (S.failures source.new)) }
    ensures meeting { IsMeeting dir.now (S.gives source.old) marks.old marks.new path.now result }
{
    match marks.get(path).copied() {
        Some(Some(number)) => Ok(Meeting::Done(number)),
        Some(None) => Err(GraphFault::At(path.copy(alloc)?, NodeFault::Cycle)),
        None => {
            let visit = open(alloc, source, dir, marks, path)?;
            Ok(Meeting::New(visit))
        }
    }
}

// Opens the derivation at a path that wasn't met.
fn open<S: DrvSource>(
    alloc: Global,
    source: &mut S,
    dir: &StoreDir,
    marks: &mut IndexMap<StorePath, Option<usize>>,
    path: &StorePath,
) -> Result<Visit, GraphFault>
    requires { marked marks.old path.now ≡ None }
    ensures keeps { GivesSame (S.gives source.old) (S.gives source.new) }
    ensures counts { S.failures source.old ≤ S.failures source.new }
    ensures device { IfErr result (IsCountedFault (S.gives source.old) (S.failures source.old)
        (S.failures source.new)) }
    ensures opening { IsOpening dir.now (S.gives source.old) marks.old marks.new path.now result }
{
    let drv = read_drv(alloc, source, dir, path, marks.len())?;
    let visit = begin(alloc, dir, path, drv)?;
    let key = path.copy(alloc)?;
    marks.insert(key, None)?;
    Ok(visit)
}

// An open derivation none of whose inputs were walked.
fn begin(
    alloc: Global,
    dir: &StoreDir,
    path: &StorePath,
    drv: Derivation,
) -> Result<Visit, AllocError>
    requires { All (IsPathOf dir.now) (inputs_of drv) }
    ensures path { IfOk result (λ visit. visit.path ≡ path.now) }
    ensures drv { IfOk result (λ visit. visit.drv ≡ drv) }
    ensures inputs { IfOk result (λ visit. visit.inputs.items ≡ inputs_of drv) }
    ensures numbers { IfOk result (λ visit. visit.numbers.items ≡ []) }
{
    let inputs = known_paths(alloc, dir, drv.inputs())?;
    Ok(Visit {
        path: path.copy(alloc)?,
        drv,
        inputs,
        numbers: Vec::new(alloc),
    })
}

// The derivation at a path; `count` paths were met before. Its faults come in this order:
// `Unreadable`, `TooMany`, the faults of `check_text`.
fn read_drv<S: DrvSource>(
    alloc: Global,
    source: &mut S,
    dir: &StoreDir,
    path: &StorePath,
    count: usize,
) -> Result<Derivation, GraphFault>
    ensures keeps { GivesSame (S.gives source.old) (S.gives source.new) }
    ensures counts { S.failures source.old ≤ S.failures source.new }
    ensures device { IfErr result (IsCountedFault (S.gives source.old) (S.failures source.old)
        (S.failures source.new)) }
    ensures reading { IsReadingOf dir.now (S.gives source.old) path.now count result }
{
    let bytes = fetch(alloc, source, path)?;
    if count >= MAX_NODES {
        return Err(GraphFault::At(path.copy(alloc)?, NodeFault::TooMany));
    }
    match check_text(alloc, dir, path, &bytes) {
        Ok(drv) => Ok(drv),
        Err(fault) => Err(text_fault_at(path.copy(alloc)?, fault)),
    }
}

// What is wrong with the text at a path.
fn text_fault_at(path: StorePath, fault: DrvFault) -> GraphFault
    ensures { IsTextFaultAt path fault result }
{
    match fault {
        DrvFault::NoMemory => GraphFault::NoMemory,
        fault => GraphFault::At(path, NodeFault::Text(fault)),
    }
}

// The bytes at a path, or `Unreadable`.
fn fetch<S: DrvSource>(
    alloc: Global,
    source: &mut S,
    path: &StorePath,
) -> Result<Vec<u8>, GraphFault>
    ensures keeps { GivesSame (S.gives source.old) (S.gives source.new) }
    ensures counts { S.failures source.old ≤ S.failures source.new }
    ensures device { IfErr result (IsCountedFault (S.gives source.old) (S.failures source.old)
        (S.failures source.new)) }
    ensures fetching { IsFetching (S.gives source.old path.now) path.now result }
{
    match source.fetch(alloc, path) {
        Ok(bytes) => Ok(bytes),
        Err(SourceFault::NoMemory) => Err(GraphFault::NoMemory),
        Err(SourceFault::Missing) | Err(SourceFault::Device) => {
            Err(GraphFault::At(path.copy(alloc)?, NodeFault::Unreadable))
        }
    }
}
