//! The paths of which structured attributes ask for graphs.
ghost use Rattle.std.specs.Prelude.{◌≡◌, ◌++◌, ◌⊎◌, ℕ, List, All, IfErr, IfOk, OnOk, Some, map, slice_get};
ghost use Rattle.nix_names.specs.Bytes.{Path};
ghost use Rattle.valid_table.specs.Entries.{paths_registered};
ghost use Rattle.valid_table.specs.Valid.{IsValid};
ghost use Rattle.structured_attrs.specs.Graphs.{shown_request};
ghost use Rattle.build_outcome.specs.declared.reason.Reason.TheVariants.{BadGraph, UnknownNar};
ghost use Rattle.builder_start.specs.Structured.{AreGoodRequests, AreNamable, IsFirstWithoutNar, LacksNar, texts_asked};
ghost use Rattle.builder_start.specs.private.Shown.{IsWhy, texts_of};

use crate::rows::Rows;
use crate::starts::graph_from;
use build_outcome::{Job, JobOutput, Reason};
use nix_names::{StorePath, sort_paths};
use std::alloc::{AllocError, Global};
use structured_attrs::GraphRequest;
use valid_table::Registration;

// Tests what is asked for: that the texts are paths of records, that the graph of them may be asked
// for, and that each archive is known.
pub(crate) fn check_requests(
    alloc: Global,
    job: &Job,
    rows: &Rows,
    requests: &[GraphRequest],
) -> Result<(), Reason>
    ensures good { OnOk result (AreGoodRequests rows.now job.now.whole_inputs.items
        (map shown_request requests.now)) }
    ensures nars { OnOk result ((path : Path) → LacksNar rows.now job.now.whole_inputs.items
        (map shown_request requests.now) path → ⊥) }
    ensures bad { IfErr result (λ reason. IsWhy BadGraph
        (AreGoodRequests rows.now job.now.whole_inputs.items (map shown_request requests.now) → ⊥)
        reason
        ⊎ ((index : ℕ) × (reason ≡ UnknownNar index)
        × AreGoodRequests rows.now job.now.whole_inputs.items (map shown_request requests.now)
        × IsFirstWithoutNar rows.now job.now (map shown_request requests.now) index)) }
{
    // The call tells that the paths of the records rise, so each path has one record.
    let _ = rows.as_slice();
    let roots = roots_of(alloc, rows, requests)?;
    let graph = graph_from(alloc, rows, &job.whole_inputs, &roots)?;
    match graph.iter().find(|row| row.info.nar().is_none()) {
        Some(row) => Err(Reason::UnknownNar(index_of(alloc, job, rows, &row.path)?)),
        None => Ok(()),
    }
}

// The paths that are asked for under all keys.
fn roots_of(alloc: Global, rows: &Rows, requests: &[GraphRequest]) -> Result<Vec<StorePath>, Reason>
    ensures ok { IfOk result
        (λ paths. paths.items ≡ texts_asked (map shown_request requests.now)) }
    ensures valid { IfOk result (λ paths. All (IsValid rows.now) paths.items) }
    ensures bad { IfErr result (IsWhy BadGraph
        (All (IsValid rows.now) (texts_asked (map shown_request requests.now)) → ⊥)) }
{
    let mut roots = Vec::new(alloc);
    'requests: for request in requests {
        let mut paths = paths_of(alloc, rows, &request.paths)?;
        roots.append(&mut paths)?;
    }
    Ok(roots)
}

// The paths of records that texts are.
pub(crate) fn paths_of(
    alloc: Global,
    rows: &Rows,
    texts: &[String],
) -> Result<Vec<StorePath>, Reason>
    ensures ok { IfOk result (λ paths. paths.items ≡ texts_of texts.now) }
    ensures valid { IfOk result (λ paths. All (IsValid rows.now) paths.items) }
    ensures bad { IfErr result
        (IsWhy BadGraph (All (IsValid rows.now) (texts_of texts.now) → ⊥)) }
{
    let mut paths = Vec::new(alloc);
    'texts: for text in texts {
        match rows.path_at(text.as_bytes()) {
            Some(path) => paths.push(path.copy(alloc)?)?,
            None => return Err(Reason::BadGraph),
        }
    }
    Ok(paths)
}

// The index of a path among the paths of the records and of a job's outputs, in rising order.
fn index_of(alloc: Global, job: &Job, rows: &Rows, path: &StorePath) -> Result<usize, AllocError>
    requires { IsValid rows.now path.now }
    ensures { IfOk result (λ index. (paths : List Path) × AreNamable rows.now job.now paths
        × (slice_get paths index ≡ Some path.now)) }
{
    let paths = namable(alloc, job, rows)?;
    match paths.binary_search(path) {
        Ok(index) => Ok(index),
        Err(_) => unreachable!(),
    }
}

// The paths of the records and of a job's outputs, in rising order.
fn namable(alloc: Global, job: &Job, rows: &Rows) -> Result<Vec<StorePath>, AllocError>
    ensures { IfOk result (λ paths. AreNamable rows.now job.now paths.items) }
{
    let mut paths = paths_of_rows(alloc, rows.as_slice())?;
    add_outputs(alloc, &job.outputs, &mut paths)?;
    Ok(sort_paths(paths))
}

// Adds the paths of outputs.
fn add_outputs(
    alloc: Global,
    outputs: &[JobOutput],
    paths: &mut Vec<StorePath>,
) -> Result<(), AllocError>
    ensures { OnOk result
        (paths.new.items ≡ paths.old.items ++ map (λ o. o.path) outputs.now) }
{
    'outputs: for output in outputs {
        paths.push(output.path.copy(alloc)?)?;
    }
    Ok(())
}

// The paths of some records.
fn paths_of_rows(alloc: Global, rows: &[Registration]) -> Result<Vec<StorePath>, AllocError>
    ensures { IfOk result (λ paths. paths.items ≡ paths_registered rows.now) }
{
    let mut paths = Vec::new(alloc);
    'rows: for row in rows {
        paths.push(row.path.copy(alloc)?)?;
    }
    Ok(paths)
}
