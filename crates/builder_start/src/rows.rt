//! The records of the paths that a job is built from.
ghost use Rattle.std.specs.Prelude.{◌≡◌, ◌↔◌, All, IfOk, IsTrue, MatchOption, option_map};
ghost use Rattle.nix_names.specs.Rising.{IsRising};
ghost use Rattle.valid_table.specs.Closure.{IsClosure};
ghost use Rattle.valid_table.specs.Entries.{paths_registered};
ghost use Rattle.valid_table.specs.Valid.{AreReferencesValid, IsNotValid, IsValid};
ghost use Rattle.builder_start.specs.Graphs.{AreClosureRecords};
ghost use Rattle.builder_start.specs.Entries.{is_cut, is_within, root_of};

use nix_names::StorePath;
use std::alloc::{AllocError, Global};
use std::marker::Model;
use valid_table::{Entry, Outputs, Registration, Table};

// The records of the paths that a job is built from, in rising order of paths. Each reference in
// them is the path of one of them. A contract sees their list.
#[derive(Drop)]
pub(crate) struct Rows {
    rows: Vec<Registration>,
    table: Table,
}

impl Model for Rows {
    ghost use Rattle.std.specs.Prelude.{List, ◌≡◌};
    ghost use Rattle.nix_names.specs.Rising.{IsRising};
    ghost use Rattle.valid_table.specs.Entries.{paths_registered};
    ghost use Rattle.valid_table.specs.declared.entry.Registration.{Registration};

    ghost Value = { List Registration };

    ghost view = { λ r. r.rows.items };

    ghost invariant = { λ r. (r.table.registrations ≡ r.rows.items)
        × IsRising (paths_registered r.rows.items) };
}

impl Rows {
    // These records. Costs a copy of each record that shares what is known, and a look-up by hash
    // for each path and reference.
    pub(crate) fn new(alloc: Global, rows: Vec<Registration>) -> Result<Rows, AllocError>
        requires rising { IsRising (paths_registered rows.items) }
        requires closed { AreReferencesValid rows.items }
        ensures { IfOk result (λ r. r ≡ rows.items) }
    {
        let table = table_of(alloc, copy_rows(alloc, &rows)?)?;
        Ok(Rows { rows, table })
    }

    // The records, by path.
    pub(crate) fn as_slice(&self) -> &[Registration]
        ensures value { result.now ≡ self.now }
        ensures rising { IsRising (paths_registered result.now) }
    {
        &self.rows
    }

    // The closure of some paths, in rising order. Costs as `Table::closure` does.
    pub(crate) fn closure(
        &self,
        alloc: Global,
        roots: &[StorePath],
    ) -> Result<Vec<StorePath>, AllocError>
        requires { All (IsValid self.now) roots.now }
        ensures { IfOk result (λ paths. IsClosure self.now roots.now paths.items) }
    {
        // The roots are valid, so want of memory is the only fault.
        match self.table.closure(alloc, roots) {
            Ok(paths) => Ok(paths),
            Err(_) => Err(AllocError),
        }
    }

    // The records of the closure of some paths, by path. Costs as `Table::closure` does, and a
    // look-up by hash and a copy of the record for each path.
    pub(crate) fn records(
        &self,
        alloc: Global,
        roots: &[StorePath],
    ) -> Result<Vec<Registration>, AllocError>
        requires { All (IsValid self.now) roots.now }
        ensures { IfOk result (λ found. AreClosureRecords self.now roots.now found.items) }
    {
        let paths = self.closure(alloc, roots)?;
        self.table.records(alloc, &paths)
    }

    // Whether each of some paths has a record.
    pub(crate) fn have(&self, paths: &[StorePath]) -> bool
        ensures { IsTrue result ↔ All (IsValid self.now) paths.now }
    {
        'paths: for path in paths {
            if !self.table.registers(path) {
                return false;
            }
        }
        true
    }

    // The path that a text is, where it is that of a record.
    pub(crate) fn path_at(&self, text: &[u8]) -> Option<&StorePath>
        ensures { MatchOption result (IsNotValid self.now text.now)
            (λ path. (path.now ≡ text.now) × IsValid self.now path.now) }
    {
        let of_text = |row: &&Registration| row.path.text() == text;
        match self.rows.iter().find(of_text) {
            Some(row) => Some(&row.path),
            None => None,
        }
    }

    // The first path of a record, by path, that a text is or is below.
    pub(crate) fn root_of(&self, text: &[u8]) -> Option<&StorePath>
        ensures { option_map (λ path. path.now) result ≡ root_of self.now text.now }
    {
        let of_text = |row: &&Registration| is_within(row.path.text(), text);
        match self.rows.iter().find(of_text) {
            Some(row) => Some(&row.path),
            None => None,
        }
    }
}

// The table of these records.
fn table_of(alloc: Global, rows: Vec<Registration>) -> Result<Table, AllocError>
    requires rising { IsRising (paths_registered rows.items) }
    requires closed { AreReferencesValid rows.items }
    ensures { IfOk result (λ table. table.registrations ≡ rows.items) }
{
    let mut table = Table::new(alloc);
    let Some(first) = rows.first() else {
        return Ok(table);
    };
    let some = first.path.copy(alloc)?;
    table.reserve(rows.len())?;
    table.register_reserved(Entry::Done(some, Outputs::new(rows)));
    table.reserve(0)?;
    Ok(table)
}

// Copies of the records.
fn copy_rows(alloc: Global, rows: &[Registration]) -> Result<Vec<Registration>, AllocError>
    ensures { IfOk result (λ copied. copied.items ≡ rows.now) }
{
    let mut copied = Vec::with_capacity(alloc, rows.len())?;
    'rows: for row in rows {
        copied.push_reserved(row.copy(alloc)?);
    }
    Ok(copied)
}

// Whether a text is a path, or that path with a slash and more after it.
fn is_within(path: &[u8], text: &[u8]) -> bool
    ensures { result ≡ is_within path.now text.now }
{
    match text.strip_prefix(path) {
        Some(rest) => is_cut(rest),
        None => false,
    }
}

// Whether nothing stands there, or a slash first.
fn is_cut(text: &[u8]) -> bool
    ensures { result ≡ is_cut text.now }
{
    match text.first() {
        Some(byte) => *byte == b'/',
        None => true,
    }
}
