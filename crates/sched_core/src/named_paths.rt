//! The paths that the lines of a report name.
ghost use Rattle.std.specs.Prelude.{◌≡◌, ◌<◌, All, IfOk, IfSome, length, slice_get};
ghost use Rattle.valid_table.specs.Entries.{registered};
ghost use Rattle.valid_table.specs.Valid.{IsValid};
ghost use Rattle.build_outcome.specs.Jobs.{seeds_of};
ghost use Rattle.run_report.specs.NamedPaths.{IsNamedIn, IsPermittedAt};
ghost use Rattle.run_states.specs.StateTables.{table_state};
ghost use Rattle.sched_core.specs.private.Naming.{AreNamed, HadSeeds};

use crate::job_of::job_of;
use crate::permitted::permitted_to;
use build_outcome::Reason;
use drv_graph::Plan;
use nix_names::StorePath;
use run_states::{State, StateTable};
use std::alloc::{AllocError, Global};
use valid_table::Journal;

// The path that the line of each derivation names, at its number: where it failed since an output
// refers to a path to which it may not, that path. Costs a step for each derivation, and for each
// that failed so a copy of its parts, the closure of its seeds, and a copy of each path of that.
pub(crate) fn named_paths(
    alloc: Global,
    states: &StateTable,
    journal: &Journal,
) -> Result<Vec<Option<StorePath>>, AllocError>
    requires { HadSeeds states.now journal.now.entries }
    ensures ok { IfOk result (λ named. AreNamed states.now journal.now.entries named.items) }
{
    let mut named = Vec::with_capacity(alloc, states.plan().len())?;
    for d in 0..states.plan().len() {
        named.push_reserved(named_path(alloc, states, journal, d)?);
    }
    Ok(named)
}

// The path that the line of the derivation with this number names.
fn named_path(
    alloc: Global,
    states: &StateTable,
    journal: &Journal,
    d: usize,
) -> Result<Option<StorePath>, AllocError>
    requires within { d < length states.now.graph.nodes }
    requires seeds { HadSeeds states.now journal.now.entries }
    ensures ok { IfOk result
        (IsNamedIn states.now.graph journal.now.entries d (table_state states.now d)) }
{
    match states.state(d) {
        State::Failed(Reason::NotAllowed(_, index)) => {
            permitted_at(alloc, states.plan(), journal, d, index)
        }
        State::Failed(Reason::UnknownNar(index)) => {
            permitted_at(alloc, states.plan(), journal, d, index)
        }
        _ => Ok(None),
    }
}

// The path at an index among those that are permitted to the derivation with this number, in rising
// order; none past their end.
fn permitted_at(
    alloc: Global,
    plan: &Plan,
    journal: &Journal,
    d: usize,
    index: usize,
) -> Result<Option<StorePath>, AllocError>
    requires within { d < length plan.now.nodes }
    requires seeds { IfSome (slice_get plan.now.nodes d)
        (λ node. All (IsValid (registered journal.now.entries))
        (seeds_of plan.now.nodes node.drv)) }
    ensures ok { IfOk result (IsPermittedAt plan.now journal.now.entries d index) }
{
    let job = job_of(alloc, plan, d)?;
    let permitted = permitted_to(alloc, journal, &job)?;
    match permitted.get(index) {
        Some(path) => Ok(Some(path.copy(alloc)?)),
        None => Ok(None),
    }
}
