//! The graphs that structured attributes ask for.
ghost use Rattle.std.specs.Prelude.{◌≡◌, ◌≢◌, List, All, Contains, IfOk, OnOk, None, map};
ghost use Rattle.std.specs.List.{AllZip};
ghost use Rattle.nix_names.specs.Bytes.{Bytes, Path};
ghost use Rattle.valid_table.specs.Entries.{paths_registered};
ghost use Rattle.valid_table.specs.Valid.{IsValid};
ghost use Rattle.structured_attrs.specs.Attributes.{attributes};
ghost use Rattle.structured_attrs.specs.Graphs.{shown_request};
ghost use Rattle.structured_attrs.specs.declared.graph.GraphRow.{GraphRow as ARow};
ghost use Rattle.builder_start.specs.Graphs.{AreGraphPaths, IsInGraph, MayBeGraph};
ghost use Rattle.builder_start.specs.Structured.{AreGoodRequests, IsGraphOf, IsRow, LacksNar, closure_size, size_of, with_graphs};
ghost use Rattle.builder_start.specs.private.Shown.{texts_of};

use crate::addresses::content_address;
use crate::requests::paths_of;
use crate::rows::Rows;
use crate::starts::graph_from;
use build_outcome::WholeInput;
use std::alloc::{AllocError, Global};
use std::slice;
use structured_attrs::{Attributes, GraphRequest, GraphRow};
use valid_table::Registration;

// Sets each graph that is asked for under its key.
pub(crate) fn set_graphs(
    alloc: Global,
    rows: &Rows,
    whole: &[WholeInput],
    requests: &[GraphRequest],
    given: &mut Attributes,
) -> Result<(), AllocError>
    requires good { AreGoodRequests rows.now whole.now (map shown_request requests.now) }
    requires nars { (path : Path) → LacksNar rows.now whole.now (map shown_request requests.now) path
        → ⊥ }
    ensures { OnOk result ((graphs : List (Bytes × List ARow))
        × AllZip (IsGraphOf rows.now whole.now) (map shown_request requests.now) graphs
        × (attributes given.new ≡ with_graphs graphs (attributes given.old))) }
{
    'requests: for request in requests {
        let graph = graph_of(alloc, rows, whole, &request.paths)?;
        given.set_graph(alloc, request.key.as_str(), &graph)?;
    }
    Ok(())
}

// The rows of the graph of some texts, which are paths of records and whose graph may be asked for.
fn graph_of(
    alloc: Global,
    rows: &Rows,
    whole: &[WholeInput],
    texts: &[String],
) -> Result<Vec<GraphRow>, AllocError>
    requires valid { All (IsValid rows.now) (texts_of texts.now) }
    requires may_be { MayBeGraph rows.now whole.now (texts_of texts.now) }
    requires nars { (row : Registration) → IsInGraph rows.now whole.now (texts_of texts.now) row.path
        → Contains rows.now row → row.info.nar ≢ None }
    ensures paths { IfOk result (λ found. AreGraphPaths rows.now whole.now (texts_of texts.now)
        (map (λ r. r.registration.path) found.items)) }
    ensures each { IfOk result (λ found. All (IsRow rows.now) found.items) }
{
    let Ok(roots) = paths_of(alloc, rows, texts) else {
        return Err(AllocError);
    };
    let Ok(graph) = graph_from(alloc, rows, whole, &roots) else {
        return Err(AllocError);
    };
    rows_of(alloc, rows, &graph)
}

// What is told of each path of a graph.
fn rows_of(alloc: Global, rows: &Rows, graph: &[Registration]) -> Result<Vec<GraphRow>, AllocError>
    requires known { All (Contains rows.now) graph.now }
    requires nars { All (λ row. row.info.nar ≢ None) graph.now }
    ensures paths { IfOk result (λ found.
        map (λ r. r.registration.path) found.items ≡ paths_registered graph.now) }
    ensures each { IfOk result (λ found. All (IsRow rows.now) found.items) }
{
    let mut found = Vec::new(alloc);
    'rows: for row in graph {
        found.push(row_of(alloc, rows, row)?)?;
    }
    Ok(found)
}

// What is told of a path.
fn row_of(alloc: Global, rows: &Rows, row: &Registration) -> Result<GraphRow, AllocError>
    requires known { Contains rows.now row.now }
    requires nar { row.now.info.nar ≢ None }
    ensures path { IfOk result (λ found. found.registration ≡ row.now) }
    ensures row { IfOk result (IsRow rows.now) }
{
    let Some(nar) = row.info.nar() else {
        unreachable!();
    };
    let closure = rows.records(alloc, slice::from_ref(&row.path))?;
    Ok(GraphRow {
        registration: row.copy(alloc)?,
        nar,
        closure_size: closure_size(&closure),
        ca: content_address(alloc, row)?,
    })
}

// The lengths of the archives of some paths together.
fn closure_size(graph: &[Registration]) -> u64
    ensures { result ≡ closure_size graph.now }
{
    let mut size = 0u64;
    'rows: for row in graph {
        size = size.wrapping_add(size_of(row));
    }
    size
}

// The length of a path's archive, 0 where it is not known.
fn size_of(row: &Registration) -> u64
    ensures { result ≡ size_of row.now.info.nar }
{
    match row.info.nar() {
        Some(nar) => nar.size(),
        None => 0,
    }
}
