//! The links among outputs, by numbers.
ghost use Rattle.std.specs.Prelude.{◌≡◌, IfOk, MatchOption, OnOk, Contains, Some, length, nat_eq, slice_get, vec_capacity};
ghost use Rattle.std.specs.Cmp.Lexicographic.{pointwise};
ghost use Rattle.std.specs.List.{IsDistinct};
ghost use Rattle.build_outcome.specs.private.Linking.{AddsLinks, AreEachOnce, AreLinks, HaveLinks, HaveNoLinks};

use indexmap::IndexSet;
use nix_names::StorePath;
use std::alloc::{AllocError, Global};
use valid_table::Record;

// For each different one of the outputs' paths, the indices of those that its outputs refer to.
pub(crate) fn links_among(
    alloc: Global,
    outputs: &[StorePath],
    records: &[Record],
) -> Result<Vec<Vec<usize>>, AllocError>
    requires { length records.now ≡ length outputs.now }
    ensures { IfOk result (λ links. HaveLinks outputs.now records.now links.items) }
{
    let paths = each_once(alloc, outputs)?;
    links_by(alloc, &paths, outputs, records)
}

// For each of the paths, the indices of those that its outputs refer to.
pub(crate) fn links_by(
    alloc: Global,
    paths: &IndexSet<StorePath>,
    outputs: &[StorePath],
    records: &[Record],
) -> Result<Vec<Vec<usize>>, AllocError>
    requires same { length records.now ≡ length outputs.now }
    requires once { AreEachOnce outputs.now paths.now.keys }
    ensures { IfOk result (λ links. AreLinks outputs.now records.now paths.now.keys
        (length records.now) links.items) }
{
    let mut links = no_links(alloc, paths.len())?;
    fill_links(paths, outputs, records, &mut links)?;
    Ok(links)
}

// Adds the links of each output, by its record.
fn fill_links(
    paths: &IndexSet<StorePath>,
    outputs: &[StorePath],
    records: &[Record],
    links: &mut Vec<Vec<usize>>,
) -> Result<(), AllocError>
    requires same { length records.now ≡ length outputs.now }
    requires once { AreEachOnce outputs.now paths.now.keys }
    requires count { length links.old.items ≡ length paths.now.keys }
    requires none { HaveNoLinks links.old.items }
    ensures { OnOk result (AreLinks outputs.now records.now paths.now.keys (length records.now)
        links.new.items) }
{
    for (n, record) in records.iter().enumerate() {
        if let Some(from) = index_of(paths, &outputs[n]) {
            add_links(paths, record.references(), &mut links[from])?;
        }
    }
    Ok(())
}

// The paths of the outputs, each once.
pub(crate) fn each_once(
    alloc: Global,
    outputs: &[StorePath],
) -> Result<IndexSet<StorePath>, AllocError>
    ensures { IfOk result (λ paths. AreEachOnce outputs.now paths.keys) }
{
    let mut paths = IndexSet::new(alloc);
    for output in outputs {
        paths.insert(output.copy(alloc)?)?;
    }
    Ok(paths)
}

// `count` lists without links.
fn no_links(alloc: Global, count: usize) -> Result<Vec<Vec<usize>>, AllocError>
    ensures count { IfOk result (λ links. length links.items ≡ count) }
    ensures none { IfOk result (λ links. HaveNoLinks links.items) }
    ensures room { IfOk result (λ links. vec_capacity links ≡ count) }
{
    let mut links = Vec::with_capacity(alloc, count)?;
    for _ in 0..count {
        links.push_reserved(Vec::new(alloc));
    }
    Ok(links)
}

// The index of a path among these, if it is one of them.
pub(crate) fn index_of(paths: &IndexSet<StorePath>, path: &StorePath) -> Option<usize>
    ensures { MatchOption result (Contains paths.now.keys path.now → ⊥)
        (λ n. slice_get paths.now.keys n ≡ Some path.now) }
{
    paths.get_index_of(path)
}

// Adds the indices of those of the references that are among the paths.
fn add_links(
    paths: &IndexSet<StorePath>,
    references: &[StorePath],
    own: &mut Vec<usize>,
) -> Result<(), AllocError>
    requires { IsDistinct (pointwise nat_eq) paths.now.keys }
    ensures { OnOk result (AddsLinks paths.now.keys references.now own.old.items own.new.items) }
{
    for reference in references {
        if let Some(to) = index_of(paths, reference) {
            own.push(to)?;
        }
    }
    Ok(())
}
