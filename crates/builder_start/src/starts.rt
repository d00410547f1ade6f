//! The graphs of paths, and where their closures start.
ghost use Rattle.std.specs.Prelude.{◌≡◌, ◌↔◌, ◌++◌, All, Contains, IfErr, IfOk, IsTrue, List, OnOk, ℕ, map};
ghost use Rattle.nix_names.specs.Rising.{IsRising};
ghost use Rattle.nix_names.specs.StorePaths.{IsDrvPath};
ghost use Rattle.valid_table.specs.Valid.{IsValid};
ghost use Rattle.build_outcome.specs.declared.reason.Reason.TheVariants.{BadGraph};
ghost use Rattle.builder_start.specs.Graphs.{IsGraph, MayBeGraph};
ghost use Rattle.builder_start.specs.private.Shown.{IsWhy};
ghost use Rattle.builder_start.specs.private.Starts.{AreStarts, IsOutputAmong};

use crate::rows::Rows;
use build_outcome::{Reason, WholeInput, is_among};
use nix_names::{StorePath, is_drv_name, sort_paths};
use std::alloc::{AllocError, Global};
use valid_table::Registration;

// The records of the graph of some paths. Costs two closures, a sort of the whole inputs, and a
// binary search for each of them and for each derivation's file that the paths reach.
pub(crate) fn graph_from(
    alloc: Global,
    rows: &Rows,
    whole: &[WholeInput],
    roots: &[StorePath],
) -> Result<Vec<Registration>, Reason>
    requires { All (IsValid rows.now) roots.now }
    ensures may_be { IfOk result (λ _. MayBeGraph rows.now whole.now roots.now) }
    ensures graph { IfOk result (λ graph. IsGraph rows.now whole.now roots.now graph.items) }
    ensures bad { IfErr result
        (IsWhy BadGraph (MayBeGraph rows.now whole.now roots.now → ⊥)) }
{
    let starts = starts_of(alloc, rows, whole, roots)?;
    Ok(rows.records(alloc, &starts)?)
}

// The paths whose closures are the graph of some paths: these, and the outputs of the whole inputs
// whose files they reach.
fn starts_of(
    alloc: Global,
    rows: &Rows,
    whole: &[WholeInput],
    roots: &[StorePath],
) -> Result<Vec<StorePath>, Reason>
    requires { All (IsValid rows.now) roots.now }
    ensures may_be { IfOk result (λ _. MayBeGraph rows.now whole.now roots.now) }
    ensures starts { IfOk result (λ starts. AreStarts rows.now whole.now roots.now starts.items) }
    ensures valid { IfOk result (λ starts. All (IsValid rows.now) starts.items) }
    ensures bad { IfErr result
        (IsWhy BadGraph (MayBeGraph rows.now whole.now roots.now → ⊥)) }
{
    let reached = rows.closure(alloc, roots)?;
    let files = files_of(alloc, whole)?;
    if !are_files_among(&reached, &files) {
        return Err(Reason::BadGraph);
    }
    let mut starts = outputs_among(alloc, &reached, whole)?;
    if !rows.have(&starts) {
        return Err(Reason::BadGraph);
    }
    add_paths(alloc, roots, &mut starts)?;
    Ok(starts)
}

// The files of the derivations of whole inputs, in rising order.
fn files_of(alloc: Global, whole: &[WholeInput]) -> Result<Vec<StorePath>, AllocError>
    ensures rising { IfOk result (λ files. IsRising files.items) }
    ensures same { IfOk result (λ files. (path : List ℕ)
        → Contains files.items path ↔ Contains (map (λ input. input.drv) whole.now) path) }
{
    let mut files = Vec::new(alloc);
    'inputs: for input in whole {
        files.push(input.drv.copy(alloc)?)?;
    }
    Ok(sort_paths(files))
}

// Whether each of some paths that is a derivation's file is one of some files in rising order.
fn are_files_among(paths: &[StorePath], files: &[StorePath]) -> bool
    requires { IsRising files.now }
    ensures { IsTrue result ↔ ((path : List ℕ) → Contains paths.now path → IsDrvPath path
        → Contains files.now path) }
{
    'paths: for path in paths {
        if is_drv_name(path.name()) && !is_among(files, path) {
            return false;
        }
    }
    true
}

// The outputs of the whole inputs whose files are among some paths in rising order.
fn outputs_among(
    alloc: Global,
    paths: &[StorePath],
    whole: &[WholeInput],
) -> Result<Vec<StorePath>, AllocError>
    requires { IsRising paths.now }
    ensures { IfOk result (λ outputs. (path : List ℕ) → Contains outputs.items path
        ↔ IsOutputAmong paths.now whole.now path) }
{
    let mut outputs = Vec::new(alloc);
    'inputs: for input in whole {
        if is_among(paths, &input.drv) {
            add_paths(alloc, &input.outputs, &mut outputs)?;
        }
    }
    Ok(outputs)
}

// Adds some paths.
fn add_paths(
    alloc: Global,
    added: &[StorePath],
    paths: &mut Vec<StorePath>,
) -> Result<(), AllocError>
    ensures { OnOk result (paths.new.items ≡ paths.old.items ++ added.now) }
{
    'added: for path in added {
        paths.push(path.copy(alloc)?)?;
    }
    Ok(())
}
