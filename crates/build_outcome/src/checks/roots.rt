//! Where the closure of an output begins.
ghost use Rattle.std.specs.Prelude.{◌≡◌, ◌<◌, ◌↔◌, Contains, IfOk, IsTrue, List, OnOk, Some, length, nat_eq, slice_get, ℕ};
ghost use Rattle.std.specs.Cmp.Lexicographic.{pointwise};
ghost use Rattle.std.specs.List.{IsDistinct};
ghost use Rattle.build_outcome.specs.Checks.{AreRootsOf};
ghost use Rattle.build_outcome.specs.Verdicts.{outputs_of};
ghost use Rattle.build_outcome.specs.private.RootPaths.{AddsOutside, IsMetPath, RefersOut};

use crate::checked_records::Checked;
use crate::checks::reach::reached_from;
use crate::job::Job;
use crate::links::{each_once, index_of, links_by};
use crate::verdict::paths_of;
use indexmap::IndexSet;
use nix_names::{StorePath, sort_paths};
use std::alloc::{AllocError, Global};
use valid_table::Record;

/// Where the closure of an output begins.
#[derive(Debug, Drop)]
pub struct OutputRoots {
    /// The outputs to which it leads by references among the outputs, itself among them. Strictly
    /// rising.
    pub own: Vec<StorePath>,
    /// The paths that are no outputs, and to which one of those refers. Strictly rising.
    pub outside: Vec<StorePath>,
}

/// Where the closure of the output with this number begins, by the records of the outputs. An error
/// where memory is refused, and no other. Costs a look-up by hash for each output and each
/// reference, and a sort of what is found.
pub fn output_roots(
    alloc: Global,
    job: &Job,
    checked: &Checked,
    n: usize,
) -> Result<OutputRoots, AllocError>
    requires count { length checked.now ≡ length job.now.outputs.items }
    requires within { n < length job.now.outputs.items }
    ensures { IfOk result (λ roots. (own : List ℕ) → slice_get (outputs_of job.now) n ≡ Some own
        → AreRootsOf job.now checked.now own roots.own.items roots.outside.items) }
{
    let outputs = paths_of(alloc, &job.outputs)?;
    roots_among(alloc, &outputs, checked.records(), n)
}

// Where the closure of the output with this number begins, by the paths of all outputs.
fn roots_among(
    alloc: Global,
    outputs: &[StorePath],
    records: &[Record],
    n: usize,
) -> Result<OutputRoots, AllocError>
    requires count { length records.now ≡ length outputs.now }
    requires within { n < length outputs.now }
    ensures { IfOk result (λ roots. (job : _) (own : List ℕ) → outputs.now ≡ outputs_of job
        → slice_get outputs.now n ≡ Some own
        → AreRootsOf job records.now own roots.own.items roots.outside.items) }
{
    let keys = each_once(alloc, outputs)?;
    let links = links_by(alloc, &keys, outputs, records)?;
    let Some(start) = index_of(&keys, &outputs[n]) else {
        unreachable!()
    };
    let marks = reached_from(alloc, &links, start)?;
    let met = paths_met(alloc, &keys, outputs, &marks)?;
    let outside = paths_outside(alloc, &keys, outputs, records, &marks)?;
    Ok(OutputRoots {
        own: sort_paths(met),
        outside: sort_paths(outside),
    })
}

// Those of the outputs' paths that are met.
fn paths_met(
    alloc: Global,
    keys: &IndexSet<StorePath>,
    outputs: &[StorePath],
    marks: &[bool],
) -> Result<Vec<StorePath>, AllocError>
    requires same { length marks.now ≡ length keys.now.keys }
    requires once { IsDistinct (pointwise nat_eq) keys.now.keys }
    ensures { IfOk result (λ met. (path : List ℕ) → Contains met.items path
        ↔ (Contains outputs.now path × IsMetPath keys.now.keys marks.now path)) }
{
    let mut met = Vec::new(alloc);
    for output in outputs {
        if is_met(keys, marks, output) {
            met.push(output.copy(alloc)?)?;
        }
    }
    Ok(met)
}

// The paths that are no keys, and to which one of the outputs that are met refers.
fn paths_outside(
    alloc: Global,
    keys: &IndexSet<StorePath>,
    outputs: &[StorePath],
    records: &[Record],
    marks: &[bool],
) -> Result<Vec<StorePath>, AllocError>
    requires count { length records.now ≡ length outputs.now }
    requires same { length marks.now ≡ length keys.now.keys }
    requires once { IsDistinct (pointwise nat_eq) keys.now.keys }
    ensures { IfOk result (λ outside. (path : List ℕ) → Contains outside.items path
        ↔ RefersOut outputs.now records.now keys.now.keys marks.now (length records.now) path) }
{
    let mut outside = Vec::new(alloc);
    for (n, record) in records.iter().enumerate() {
        if is_met(keys, marks, &outputs[n]) {
            add_outside(alloc, keys, record.references(), &mut outside)?;
        }
    }
    Ok(outside)
}

// Adds those references that are no keys.
fn add_outside(
    alloc: Global,
    keys: &IndexSet<StorePath>,
    references: &[StorePath],
    outside: &mut Vec<StorePath>,
) -> Result<(), AllocError>
    ensures { OnOk result
        (AddsOutside keys.now.keys references.now outside.old.items outside.new.items) }
{
    for reference in references {
        match index_of(keys, reference) {
            Some(_) => {}
            None => outside.push(reference.copy(alloc)?)?,
        }
    }
    Ok(())
}

// Whether a path is a key whose index is marked.
fn is_met(keys: &IndexSet<StorePath>, marks: &[bool], path: &StorePath) -> bool
    requires same { length marks.now ≡ length keys.now.keys }
    requires once { IsDistinct (pointwise nat_eq) keys.now.keys }
    ensures { IsTrue result ↔ IsMetPath keys.now.keys marks.now path.now }
{
    match index_of(keys, path) {
        Some(index) => marks[index],
        None => false,
    }
}
