//! The paths to which outputs may refer.
ghost use Rattle.std.specs.Prelude.{◌≡◌, All, IfOk, length, vec_capacity};
ghost use Rattle.nix_names.specs.Rising.{IsRising};
ghost use Rattle.valid_table.specs.private.Closing.{HaveSame};
ghost use Rattle.valid_table.specs.Closure.{IsClosure};
ghost use Rattle.valid_table.specs.Entries.{registered};
ghost use Rattle.valid_table.specs.Unions.{IsUnion};
ghost use Rattle.valid_table.specs.Valid.{IsValid};
ghost use Rattle.build_outcome.specs.Verdicts.{outputs_of};
ghost use Rattle.sched_core.specs.Books.{ArePermittedPaths, AreSeedsValid};

use crate::union::union_of;
use build_outcome::Job;
use nix_names::StorePath;
use std::alloc::{AllocError, Global};
use valid_table::{Journal, TableFault};

/// The paths to which the outputs of a job may refer, strictly rising: those of `reached`, to which
/// its seeds lead, and its own outputs. `reached` is strictly rising too, and is given away. An
/// error where memory is refused, and no other. Costs one sort of the job's outputs, a copy and a
/// binary search for each of them, and a move of the paths of `reached` that stand above the least
/// of them. A search compares an output with some of the paths of `reached`. None of those is
/// copied, and those below the least output aren't moved.
pub fn permitted_beside(
    alloc: Global,
    reached: Vec<StorePath>,
    job: &Job,
) -> Result<Vec<StorePath>, AllocError>
    requires { IsRising reached.items }
    ensures ok { IfOk result (λ paths. IsUnion reached.items (outputs_of job.now) paths.items) }
{
    let own = sorted_outputs(alloc, job)?;
    union_of(reached, own)
}

// The paths that are permitted to a job whose seeds are valid by a journal.
pub(crate) fn permitted_to(
    alloc: Global,
    journal: &Journal,
    job: &Job,
) -> Result<Vec<StorePath>, AllocError>
    requires { AreSeedsValid journal.now.entries job.now }
    ensures ok { IfOk result
        (λ paths. ArePermittedPaths journal.now.entries job.now paths.items) }
{
    let reached = closure_of(alloc, journal, &job.seeds)?;
    permitted_beside(alloc, reached, job)
}

// What some paths lead to that are valid by a journal.
fn closure_of(
    alloc: Global,
    journal: &Journal,
    seeds: &[StorePath],
) -> Result<Vec<StorePath>, AllocError>
    requires { All (IsValid (registered journal.now.entries)) seeds.now }
    ensures { IfOk result
        (λ paths. IsClosure (registered journal.now.entries) seeds.now paths.items) }
{
    match journal.table().closure(alloc, seeds) {
        Ok(paths) => Ok(paths),
        Err(fault) => match fault {
            TableFault::NoMemory => Err(AllocError),
            _ => unreachable!(),
        },
    }
}

// The paths of a job's outputs, in strictly rising order.
fn sorted_outputs(alloc: Global, job: &Job) -> Result<Vec<StorePath>, AllocError>
    ensures rising { IfOk result (λ sorted. IsRising sorted.items) }
    ensures same { IfOk result (λ sorted. HaveSame sorted.items (outputs_of job.now)) }
    ensures room { IfOk result (λ sorted. vec_capacity sorted ≡ length (outputs_of job.now)) }
{
    let mut sorted = Vec::with_capacity(alloc, job.outputs.len())?;
    for output in &job.outputs {
        sorted.push_reserved(output.path.copy(alloc)?);
    }
    sorted.sort_unstable();
    sorted.dedup();
    Ok(sorted)
}
