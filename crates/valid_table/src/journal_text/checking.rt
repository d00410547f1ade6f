//! Entries whose text was read, checked line by line.
ghost use Rattle.std.specs.Prelude.{◌≡◌, ◌++◌, ◌+◌, ◌<◌, ◌≤◌, ◌^◌, IfOk, IfErr, OnOk, flat_map, length};
ghost use Rattle.nix_names.specs.Rising.{IsRising};
ghost use Rattle.valid_table.specs.private.Checking.{IsEntryCheck, IsLineCheck, header};
ghost use Rattle.valid_table.specs.Entries.{paths_registered, registered, registered_by};
ghost use Rattle.valid_table.specs.Reading.{IsEntriesChecking};
ghost use Rattle.valid_table.specs.Tables.{registrations_of};
ghost use Rattle.valid_table.specs.Texts.{entry_lines, lines, output_lines};
ghost use Rattle.valid_table.specs.Valid.{IsClosed, IsOnce};

use crate::entry::{Entry, Record, Registration};
use crate::fault::TableFault;
use crate::path_table::admission::first_unknown;
use crate::path_table::rows::add_new;
use crate::path_table::table::Table;
use indexmap::IndexMap;
use nix_names::StorePath;
use std::alloc::Global;

// The table of what entries register. `Twice` and `NotClosed` have the first line with one of these
// faults; the lines are counted from 1, the version's.
pub(crate) fn check_entries(alloc: Global, entries: &[Entry]) -> Result<Table, TableFault>
    requires few { length (lines entries.now) ≤ 134217729 }
    ensures closed { OnOk result (IsClosed entries.now) }
    ensures once { OnOk result (IsOnce (registered entries.now)) }
    ensures table { IfOk result (λ table. table.registrations ≡ registered entries.now) }
    ensures err { IfErr result (λ fault. IsEntriesChecking entries.now (Err fault)) }
{
    let mut rows = IndexMap::with_capacity(alloc, entries.len())?;
    let mut line = 2;
    for entry in entries {
        line = check_entry(alloc, &mut rows, entry, line)?;
    }
    Ok(Table::of_rows(rows))
}

// Adds the rows of an entry whose first line has the number `line`, and gives the number of the
// line after the entry. `Twice` and `NotClosed` have the entry's first line with one of these
// faults.
fn check_entry(
    alloc: Global,
    rows: &mut IndexMap<StorePath, Record>,
    entry: &Entry,
    line: usize,
) -> Result<usize, TableFault>
    requires few { line + length (entry_lines entry.now) < 2 ^ 64 }
    requires once { IsOnce (registrations_of rows.old.entries) }
    ensures checked { IsEntryCheck (paths_registered (registrations_of rows.old.entries))
        (paths_registered (registrations_of rows.old.entries ++ registered_by entry.now))
        (entry_lines entry.now) line result }
    ensures added { OnOk result
        (registrations_of rows.new.entries
        ≡ registrations_of rows.old.entries ++ registered_by entry.now) }
    ensures unique { OnOk result (IsOnce (registrations_of rows.new.entries)) }
{
    let registrations = entry.registrations();
    let new = add_new(alloc, rows, registrations)?;
    check_lines(rows, registrations, new, line + header_len(entry))
}

// The number of lines of an entry before those of its registrations.
fn header_len(entry: &Entry) -> usize
    ensures { result ≡ length (header entry.now) }
{
    match entry {
        Entry::Add(_) => 0,
        Entry::Done(..) => 1,
    }
}

// Checks the lines of registrations. The paths of the first `new` of these had no row, and the
// first line has the number `line`.
fn check_lines(
    rows: &IndexMap<StorePath, Record>,
    registrations: &[Registration],
    new: usize,
    mut line: usize,
) -> Result<usize, TableFault>
    requires few { line + length (flat_map output_lines registrations.now) < 2 ^ 64 }
    requires rising { IsRising (paths_registered registrations.now) }
    ensures { IsLineCheck
        (paths_registered (registrations_of rows.now.entries ++ registrations.now))
        registrations.now new line result }
{
    for (index, registration) in registrations.iter().enumerate() {
        if index == new {
            return Err(TableFault::Twice(line));
        }
        let references = registration.info.references();
        if let Some(at) = first_unknown(rows, registrations, references) {
            return Err(TableFault::NotClosed(line + 1 + at));
        }
        line += 1 + references.len();
    }
    Ok(line)
}
