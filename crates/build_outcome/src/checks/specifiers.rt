//! The paths that a list of specifiers names.
ghost use Rattle.std.specs.Prelude.{IfOk, List, map, ℕ};
ghost use Rattle.nix_names.specs.StorePaths.{IsPathOf};
ghost use Rattle.build_outcome.specs.private.Listing.{AddsNamed, AddsSpecified, IsWithoutSlash, TellsListed, TellsPath};

use crate::folders::folder_of;
use crate::job::{Job, JobOutput};
use nix_names::{NameFault, StoreDir, StorePath, parse_path, sort_paths};
use std::alloc::{AllocError, Global};

// The paths that a list names for the output at `own`, in rising order; none where a specifier in
// it names no path. Costs one pass, a copy of each path in two allocations, and one sort.
pub(crate) fn paths_listed(
    alloc: Global,
    job: &Job,
    own: &StorePath,
    list: &[&[u8]],
) -> Result<Option<Vec<StorePath>>, AllocError>
    ensures { IfOk result (TellsListed job.now own.now (map (λ s. s.now) list.now)) }
{
    let dir = folder_of(alloc, own)?;
    let mut named = Vec::new(alloc);
    for specifier in list {
        if !add_specified(alloc, job, &dir, specifier, &mut named)? {
            return Ok(None);
        }
    }
    Ok(Some(sort_paths(named)))
}

// Adds the paths that a specifier names for an output in this folder. Whether there are any.
fn add_specified(
    alloc: Global,
    job: &Job,
    dir: &StoreDir,
    specifier: &[u8],
    named: &mut Vec<StorePath>,
) -> Result<bool, AllocError>
    ensures { IfOk result (λ some. (own : List ℕ) → IsPathOf dir.now own
        → AddsSpecified job.now own specifier.now named.old.items named.new.items some) }
{
    match path_told(alloc, dir, specifier)? {
        Some(path) => {
            named.push(path)?;
            Ok(true)
        }
        None => add_named(alloc, &job.outputs, specifier, named),
    }
}

// Adds the paths of the outputs with this name. Whether there are any.
fn add_named(
    alloc: Global,
    outputs: &[JobOutput],
    name: &[u8],
    named: &mut Vec<StorePath>,
) -> Result<bool, AllocError>
    ensures { IfOk result
        (AddsNamed outputs.now name.now named.old.items named.new.items) }
{
    let mut some = false;
    for output in outputs {
        if output.name.as_slice() == name {
            named.push(output.path.copy(alloc)?)?;
            some = true;
        }
    }
    Ok(some)
}

// The path of the folder that a text is, save for a slash at its end.
fn path_told(alloc: Global, dir: &StoreDir, text: &[u8]) -> Result<Option<StorePath>, AllocError>
    ensures { IfOk result (TellsPath dir.now text.now) }
{
    match parse_path(alloc, dir, without_slash(text)) {
        Ok(path) => Ok(Some(path)),
        Err(fault) => match fault {
            NameFault::NoMemory => Err(AllocError),
            _ => Ok(None),
        },
    }
}

// A text without a slash at its end.
fn without_slash(text: &[u8]) -> &[u8]
    ensures { IsWithoutSlash text.now result.now }
{
    match text.split_last() {
        Some((b'/', front)) => front,
        _ => text,
    }
}
