//! The paths of rows that were found, in rising order.
ghost use Rattle.std.specs.Prelude.{◌≡◌, ◌<◌, ◌≤◌, ◌/◌, ◌++◌, ◌⊎◌, [], ℕ, All, IfOk, IsTrue, OnOk, length, map, nat_eq, nat_lt, not, vec_capacity};
ghost use Rattle.std.specs.Cmp.Lexicographic.{slice_cmp};
ghost use Rattle.std.specs.List.{filter, list_any};
ghost use Rattle.std.specs.List.Sorted.{IsPermutation, IsSorted};
ghost use Rattle.std.specs.Ordering.{nat_cmp};
ghost use Rattle.nix_names.specs.Rising.{IsRising};
ghost use Rattle.valid_table.specs.private.Closing.{AreRows, HaveSame, paths_at};
ghost use Rattle.valid_table.specs.private.FirstRows.{AreFirst, rows_of_keyed};
ghost use Rattle.valid_table.specs.private.Keys.{AreKeyed, KeysRiseAbove, folder_of};
ghost use Rattle.valid_table.specs.Tables.{registrations_of};
ghost use Rattle.valid_table.specs.Valid.{IsOnce};

use crate::entry::Record;
use crate::path_table::order::{RowOrder, folder_of, key_of};
use crate::path_table::row_set::RowSet;
use indexmap::IndexMap;
use nix_names::StorePath;
use std::alloc::{AllocError, Global};

// A pass over the ordered rows costs less than a sort where one in `SWEEP` of them was found.
const SWEEP: usize = 16;

// The paths of the rows, in rising order.
pub(crate) fn sorted_paths(
    alloc: Global,
    rows: &IndexMap<StorePath, Record>,
    order: &RowOrder,
    found: &RowSet,
) -> Result<Vec<StorePath>, AllocError>
    requires once { IsOnce (registrations_of rows.now.entries) }
    requires first { AreFirst (length rows.now.entries) (rows_of_keyed order.now.keyed.items) }
    requires keys { AreKeyed (registrations_of rows.now.entries) order.now.keyed.items }
    requires rows { AreRows (registrations_of rows.now.entries) found.now.rows }
    ensures rising { IfOk result (λ paths. IsRising paths.items) }
    ensures same { IfOk result
        (λ paths. HaveSame paths.items
        (paths_at (registrations_of rows.now.entries) found.now.rows)) }
{
    let mut keyed = keyed_rows(alloc, rows, order, found)?;
    keyed.sort()?;
    let mut paths = copy_paths(alloc, rows, &keyed)?;
    if !keys_rise(&keyed) {
        put_in_order(&mut paths);
    }
    Ok(paths)
}

// The rows that were found, each paired with the key of its path, mostly in the order of the keys.
fn keyed_rows(
    alloc: Global,
    rows: &IndexMap<StorePath, Record>,
    order: &RowOrder,
    found: &RowSet,
) -> Result<Vec<(u64, usize)>, AllocError>
    requires first { AreFirst (length rows.now.entries) (rows_of_keyed order.now.keyed.items) }
    requires keys { AreKeyed (registrations_of rows.now.entries) order.now.keyed.items }
    requires rows { AreRows (registrations_of rows.now.entries) found.now.rows }
    ensures rows { IfOk result
        (λ keyed. AreRows (registrations_of rows.now.entries) (rows_of_keyed keyed.items)) }
    ensures same { IfOk result
        (λ keyed. (row : ℕ) → list_any (nat_eq row) (rows_of_keyed keyed.items)
        ≡ list_any (nat_eq row) found.now.rows) }
    ensures keys { IfOk result
        (λ keyed. AreKeyed (registrations_of rows.now.entries) keyed.items) }
{
    let mut keyed = Vec::with_capacity(alloc, found.rows().len())?;
    let ordered = rows_to_sweep(order, found);
    push_found(ordered, found, &mut keyed)?;
    push_late(rows, ordered.len(), found, &mut keyed)?;
    Ok(keyed)
}

// The ordered rows that a closure passes over: all of them, or none where few rows were found.
fn rows_to_sweep<'a>(order: &'a RowOrder, found: &RowSet) -> &'a [(u64, usize)]
    ensures either { (result.now ≡ []) ⊎ (result.now ≡ order.now.keyed.items) }
    ensures few { length found.now.rows < length order.now.keyed.items / 16 → result.now ≡ [] }
    ensures many { length order.now.keyed.items / 16 ≤ length found.now.rows
        → result.now ≡ order.now.keyed.items }
{
    if found.rows().len() < order.keyed.len() / SWEEP {
        &[]
    } else {
        &order.keyed
    }
}

// Adds those of the ordered rows that were found.
fn push_found(
    ordered: &[(u64, usize)],
    found: &RowSet,
    keyed: &mut Vec<(u64, usize)>,
) -> Result<(), AllocError>
    ensures { OnOk result
        (keyed.new.items ≡ keyed.old.items
        ++ filter (λ k. list_any (nat_eq k.1) found.now.rows) ordered.now) }
{
    for item in ordered {
        if found.has(item.1) {
            keyed.push(*item)?;
        }
    }
    Ok(())
}

// Adds those of the found rows that are not among the `first` first rows of the table.
fn push_late(
    rows: &IndexMap<StorePath, Record>,
    first: usize,
    found: &RowSet,
    keyed: &mut Vec<(u64, usize)>,
) -> Result<(), AllocError>
    requires rows { AreRows (registrations_of rows.now.entries) found.now.rows }
    requires keys { AreKeyed (registrations_of rows.now.entries) keyed.old.items }
    ensures rows { OnOk result
        (rows_of_keyed keyed.new.items ≡ rows_of_keyed keyed.old.items
        ++ filter (λ row. not (nat_lt row first)) found.now.rows) }
    ensures keys { OnOk result
        (AreKeyed (registrations_of rows.now.entries) keyed.new.items) }
{
    let folder = folder_of(rows);
    let paths = rows.keys();
    for row in found.rows() {
        if *row >= first {
            keyed.push((key_of(folder, &paths[*row]), *row))?;
        }
    }
    Ok(())
}

// The paths of the rows, in their order.
fn copy_paths(
    alloc: Global,
    rows: &IndexMap<StorePath, Record>,
    keyed: &[(u64, usize)],
) -> Result<Vec<StorePath>, AllocError>
    requires { All (λ k. k.1 < length (registrations_of rows.now.entries)) keyed.now }
    ensures paths { IfOk result (λ paths. paths.items
        ≡ paths_at (registrations_of rows.now.entries) (map (λ k. k.1) keyed.now)) }
    ensures room { IfOk result (λ paths. vec_capacity paths ≡ length keyed.now) }
{
    let texts = rows.keys();
    let mut paths = Vec::with_capacity(alloc, keyed.len())?;
    for row in keyed {
        paths.push_reserved(texts[row.1].copy(alloc)?);
    }
    Ok(paths)
}

// Whether keys rise strictly, and none is 0: then their paths rise too.
fn keys_rise(keyed: &[(u64, usize)]) -> bool
    ensures { IsTrue result → KeysRiseAbove 0 keyed.now }
{
    let mut last = 0;
    for item in keyed {
        if item.0 <= last {
            return false;
        }
        last = item.0;
    }
    true
}

// Sorts paths that are in the order of their keys. Two may have the same key, or they may be of
// several folders.
fn put_in_order(paths: &mut Vec<StorePath>)
    ensures moved { IsPermutation paths.old.items paths.new.items }
    ensures sorted { IsSorted (slice_cmp nat_cmp) paths.new.items }
{
    if !paths.is_sorted() {
        paths.sort_unstable();
    }
}
