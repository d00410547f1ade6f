//! How a closure is found: from the rows of the roots to the rows of their references, and on.
ghost use Rattle.std.specs.Prelude.{◌≡◌, ◌≤◌, ◌<◌, [], All, IfErr, IfOk, OnOk, length};
ghost use Rattle.valid_table.specs.private.Closing.{AddsReferences, AddsRows, AreRows, IsFollowed, paths_at};
ghost use Rattle.valid_table.specs.Closure.{IsClosing};
ghost use Rattle.valid_table.specs.private.FirstRows.{AreFirst, rows_of_keyed};
ghost use Rattle.valid_table.specs.private.Keys.{AreKeyed};
ghost use Rattle.valid_table.specs.private.Linking.{AreLinked};
ghost use Rattle.valid_table.specs.Tables.{registrations_of};
ghost use Rattle.valid_table.specs.Valid.{IsOnce, IsValid};

use crate::entry::Record;
use crate::fault::TableFault;
use crate::path_table::order::RowOrder;
use crate::path_table::row_set::RowSet;
use crate::path_table::rows::row_of;
use crate::path_table::sort_paths::sorted_paths;
use crate::reachability::links::Links;
use indexmap::IndexMap;
use nix_names::StorePath;
use std::alloc::{AllocError, Global};

// The closure of some roots by the references of rows, in rising order.
pub(crate) fn close(
    alloc: Global,
    rows: &IndexMap<StorePath, Record>,
    links: &Links,
    order: &RowOrder,
    roots: &[StorePath],
) -> Result<Vec<StorePath>, TableFault>
    requires once { IsOnce (registrations_of rows.now.entries) }
    requires linked { AreLinked (registrations_of rows.now.entries) links.now.ends.items
        links.now.numbers.items }
    requires first { AreFirst (length rows.now.entries) (rows_of_keyed order.now.keyed.items) }
    requires keys { AreKeyed (registrations_of rows.now.entries) order.now.keyed.items }
    ensures { IsClosing (registrations_of rows.now.entries) roots.now result }
{
    let mut found = root_rows(alloc, rows, roots)?;
    follow_all(rows, links, &mut found)?;
    Ok(sorted_paths(alloc, rows, order, &found)?)
}

// The rows of the roots, each once. `NotValid` with the first root that has none.
fn root_rows(
    alloc: Global,
    rows: &IndexMap<StorePath, Record>,
    roots: &[StorePath],
) -> Result<RowSet, TableFault>
    ensures valid { OnOk result (All (IsValid (registrations_of rows.now.entries)) roots.now) }
    ensures added { IfOk result
        (λ found. AddsRows (registrations_of rows.now.entries) [] roots.now found.rows) }
    ensures room { IfOk result (λ found. length rows.now.entries ≤ found.room) }
    ensures err { IfErr result
        (λ e. IsClosing (registrations_of rows.now.entries) roots.now (Err e)) }
{
    let mut found = RowSet::new(alloc, rows.len())?;
    for root in roots {
        let Some(row) = row_of(rows, root) else {
            return Err(TableFault::NotValid(root.copy(alloc)?));
        };
        found.insert(row)?;
    }
    Ok(found)
}

// Adds the rows of the references of each found row, until each found row was followed.
fn follow_all(
    rows: &IndexMap<StorePath, Record>,
    links: &Links,
    found: &mut RowSet,
) -> Result<(), AllocError>
    requires once { IsOnce (registrations_of rows.now.entries) }
    requires linked { AreLinked (registrations_of rows.now.entries) links.now.ends.items
        links.now.numbers.items }
    requires rows { AreRows (registrations_of rows.now.entries) found.old.rows }
    requires room { length rows.now.entries ≤ found.old.room }
    ensures { OnOk result
        (IsFollowed (registrations_of rows.now.entries) found.old.rows found.new.rows
        (length found.new.rows)) }
{
    let mut next = 0;
    while next < found.rows().len() {
        let row = found.rows()[next];
        follow(rows, links, row, found)?;
        next += 1;
    }
    Ok(())
}

// Adds the rows of the references of a row: by their numbers where it is linked, else by look-ups.
fn follow(
    rows: &IndexMap<StorePath, Record>,
    links: &Links,
    row: usize,
    found: &mut RowSet,
) -> Result<(), AllocError>
    requires linked { AreLinked (registrations_of rows.now.entries) links.now.ends.items
        links.now.numbers.items }
    requires within { row < length rows.now.entries }
    requires rows { AreRows (registrations_of rows.now.entries) found.old.rows }
    requires room { length rows.now.entries ≤ found.old.room }
    ensures adds { OnOk result
        (AddsReferences (registrations_of rows.now.entries) found.old.rows row found.new.rows) }
    ensures room { found.new.room ≡ found.old.room }
{
    match links.of_row(rows, row) {
        Some(numbers) => add_numbers(rows, numbers, found),
        None => add_rows(rows, rows[row].references(), found),
    }
}

// Adds rows by their numbers.
fn add_numbers(
    rows: &IndexMap<StorePath, Record>,
    numbers: &[u32],
    found: &mut RowSet,
) -> Result<(), AllocError>
    requires below { All (λ row. row < length (registrations_of rows.now.entries)) numbers.now }
    requires rows { AreRows (registrations_of rows.now.entries) found.old.rows }
    requires room { length rows.now.entries ≤ found.old.room }
    ensures adds { OnOk result
        (AddsRows (registrations_of rows.now.entries) found.old.rows
        (paths_at (registrations_of rows.now.entries) numbers.now) found.new.rows) }
    ensures room { found.new.room ≡ found.old.room }
{
    for number in numbers {
        found.insert(*number as usize)?;
    }
    Ok(())
}

// Adds the rows of those of the paths that are valid.
fn add_rows(
    rows: &IndexMap<StorePath, Record>,
    paths: &[StorePath],
    found: &mut RowSet,
) -> Result<(), AllocError>
    requires rows { AreRows (registrations_of rows.now.entries) found.old.rows }
    requires room { length rows.now.entries ≤ found.old.room }
    ensures adds { OnOk result
        (AddsRows (registrations_of rows.now.entries) found.old.rows paths.now found.new.rows) }
    ensures room { found.new.room ≡ found.old.room }
{
    for path in paths {
        if let Some(row) = row_of(rows, path) {
            found.insert(row)?;
        }
    }
    Ok(())
}
