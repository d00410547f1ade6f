//! The rows of a table: how they are looked up, copied in and moved in.
ghost use Rattle.std.specs.Prelude.{◌≡◌, ◌≤◌, ◌<◌, ◌+◌, ◌++◌, ◌↔◌, [], ◌∷◌, IfOk, IsTrue, MatchOption, OnOk, length, take};
ghost use Rattle.indexmap.specs.IndexMap.{spare};
ghost use Rattle.valid_table.specs.private.Closing.{IsRowOf};
ghost use Rattle.nix_names.specs.Rising.{IsRising};
ghost use Rattle.valid_table.specs.private.Entering.{IsNewPrefix, IsPut};
ghost use Rattle.valid_table.specs.Entries.{paths_registered, registered_by};
ghost use Rattle.valid_table.specs.Tables.{registrations_of};
ghost use Rattle.valid_table.specs.Valid.{IsNotValid, IsOnce, IsValid};

use crate::entry::{Entry, Record, Registration};
use indexmap::IndexMap;
use nix_names::StorePath;
use std::alloc::{AllocError, Global};

// Whether a path has a row.
pub(crate) fn has_row(rows: &IndexMap<StorePath, Record>, path: &StorePath) -> bool
    ensures { IsTrue result ↔ IsValid (registrations_of rows.now.entries) path.now }
{
    rows.contains_key(path)
}

// The row of a path, if it is valid.
pub(crate) fn row_of(rows: &IndexMap<StorePath, Record>, path: &StorePath) -> Option<usize>
    ensures { MatchOption result (IsValid (registrations_of rows.now.entries) path.now → ⊥)
        (IsRowOf (registrations_of rows.now.entries) path.now) }
{
    rows.get_index_of(path)
}

// Adds a row for each registration. None of their paths has a row yet.
pub(crate) fn add_rows(
    alloc: Global,
    rows: &mut IndexMap<StorePath, Record>,
    registrations: &[Registration],
) -> Result<(), AllocError>
    requires { IsOnce (registrations_of rows.old.entries ++ registrations.now) }
    ensures { OnOk result
        (registrations_of rows.new.entries
        ≡ registrations_of rows.old.entries ++ registrations.now) }
{
    for registration in registrations {
        let path = registration.path.copy(alloc)?;
        let info = registration.info.copy(alloc)?;
        rows.insert(path, info)?;
    }
    Ok(())
}

// Adds a row for each registration before the first whose path has one already, and gives the
// number of these. The record of that first path is replaced.
pub(crate) fn add_new(
    alloc: Global,
    rows: &mut IndexMap<StorePath, Record>,
    registrations: &[Registration],
) -> Result<usize, AllocError>
    requires once { IsOnce (registrations_of rows.old.entries) }
    requires rising { IsRising (paths_registered registrations.now) }
    ensures prefix { IfOk result
        (λ count. IsNewPrefix (paths_registered (registrations_of rows.old.entries))
        (paths_registered registrations.now) count) }
    ensures paths { IfOk result
        (λ count. paths_registered (registrations_of rows.new.entries)
        ≡ paths_registered (registrations_of rows.old.entries)
        ++ take count (paths_registered registrations.now)) }
    ensures whole { IfOk result
        (λ count. length registrations.now ≤ count → registrations_of rows.new.entries
        ≡ registrations_of rows.old.entries ++ registrations.now) }
{
    for (count, registration) in registrations.iter().enumerate() {
        if put_row(rows, registration.copy(alloc)?)? {
            return Ok(count);
        }
    }
    Ok(registrations.len())
}

// Puts a registration among the rows, and answers whether its path had a row. The record of that
// row is replaced.
fn put_row(
    rows: &mut IndexMap<StorePath, Record>,
    registration: Registration,
) -> Result<bool, AllocError>
    ensures { IfOk result
        (IsPut (registrations_of rows.old.entries) (registrations_of rows.new.entries)
        registration) }
{
    let Registration { path, info } = registration;
    Ok(rows.insert(path, info)?.is_some())
}

// Moves in what an entry registers. There is room, and none of its paths has a row yet.
pub(crate) fn push_entry(rows: &mut IndexMap<StorePath, Record>, entry: Entry)
    requires room { length (registered_by entry) ≤ spare rows.old }
    requires once { IsOnce (registrations_of rows.old.entries ++ registered_by entry) }
    ensures rows { registrations_of rows.new.entries
        ≡ registrations_of rows.old.entries ++ registered_by entry }
    ensures room { spare rows.old ≤ spare rows.new + length (registered_by entry) }
{
    match entry {
        Entry::Add(registration) => push_row(rows, registration),
        Entry::Done(_, outputs) => push_rows(rows, outputs.into_registrations()),
    }
}

// Moves in registrations. There is room, and none of their paths has a row yet.
fn push_rows(rows: &mut IndexMap<StorePath, Record>, registrations: Vec<Registration>)
    requires room { length registrations.items ≤ spare rows.old }
    requires once { IsOnce (registrations_of rows.old.entries ++ registrations.items) }
    ensures rows { registrations_of rows.new.entries
        ≡ registrations_of rows.old.entries ++ registrations.items }
    ensures room { spare rows.old ≤ spare rows.new + length registrations.items }
{
    for registration in registrations {
        push_row(rows, registration);
    }
}

// Moves in a registration. There is room, and its path has no row yet.
fn push_row(rows: &mut IndexMap<StorePath, Record>, registration: Registration)
    requires room { 0 < spare rows.old }
    requires new { IsNotValid (registrations_of rows.old.entries) registration.path }
    ensures rows { registrations_of rows.new.entries
        ≡ registrations_of rows.old.entries ++ registration ∷ [] }
    ensures room { spare rows.old ≤ spare rows.new + 1 }
{
    let Registration { path, info } = registration;
    let _ = rows.insert(path, info);
}
