//! The derivations of a plan that have lines in a report, ordered by path.
ghost use Rattle.std.specs.Prelude.{◌≡◌, IfOk, length, vec_capacity};
ghost use Rattle.run_report.specs.Listing.{AreListed, AreWithin, IsMarked, listed_in, numbers_of};
ghost use Rattle.run_report.specs.Reports.{AreByPath};

use drv_graph::Plan;
use nix_names::StorePath;
use std::alloc::{AllocError, Global};

/// A derivation of which a text tells.
#[derive(Drop)]
pub struct Listed<'a> {
    /// Its path.
    pub path: &'a StorePath,
    /// Its number in the plan.
    pub number: usize,
}

// A derivation of which a text tells, with the key of its path.
#[derive(Drop)]
struct Keyed<'a> {
    key: u64,
    listed: Listed<'a>,
}

/// The marked derivations of a plan, in the order of their paths: the mark of each stands at its
/// number. An error where memory is refused, and no other. Costs a step for each derivation, and
/// one sort of the marked ones.
pub fn marked_by_path<'a>(
    alloc: Global,
    plan: &'a Plan,
    marks: &[bool],
) -> Result<Vec<Listed<'a>>, AllocError>
    requires { length marks.now ≡ length plan.now.nodes }
    ensures by_path { IfOk result
        (λ listed. AreByPath plan.now.nodes (IsMarked marks.now (length plan.now.nodes))
        (numbers_of listed.items)) }
    ensures within { IfOk result (λ listed. AreWithin (length plan.now.nodes) listed.items) }
{
    let mut keyed = keyed_of(alloc, plan, marks)?;
    keyed.sort_unstable_by_key(|one| one.key);
    let mut listed = listed_of(alloc, &keyed)?;
    // The paths of one folder are in order already, unless keys are equal: then this is one pass.
    // The keys were sorted before, since most texts stand far apart in memory.
    listed.sort_unstable_by(|a, b| a.path.cmp(b.path));
    Ok(listed)
}

// The marked derivations, each with its key, in the order of the plan.
fn keyed_of<'a>(alloc: Global, plan: &'a Plan, marks: &[bool]) -> Result<Vec<Keyed<'a>>, AllocError>
    requires { length marks.now ≡ length plan.now.nodes }
    ensures { IfOk result
        (λ keyed. AreListed plan.now.nodes (IsMarked marks.now (length plan.now.nodes))
        (listed_in keyed.items)) }
{
    let mut keyed = Vec::new(alloc);
    for number in 0..plan.len() {
        if marks[number] {
            let path = plan.path(number);
            let key = path.key();
            let listed = Listed { path, number };
            keyed.push(Keyed { key, listed })?;
        }
    }
    Ok(keyed)
}

// The derivations without their keys, in their order.
fn listed_of<'a>(alloc: Global, keyed: &[Keyed<'a>]) -> Result<Vec<Listed<'a>>, AllocError>
    ensures listed { IfOk result (λ listed. listed.items ≡ listed_in keyed.now) }
    ensures room { IfOk result (λ listed. vec_capacity listed ≡ length keyed.now) }
{
    let mut listed = Vec::with_capacity(alloc, keyed.len())?;
    for one in keyed {
        let Listed { path, number } = one.listed;
        listed.push_reserved(Listed { path, number });
    }
    Ok(listed)
}
