//! The table of valid paths.
ghost use Rattle.std.specs.Prelude.{◌≡◌, ◌≤◌, ◌+◌, ◌++◌, ◌↔◌, [], All, Contains, IfErr, IfOk, IsOk, IsTrue, MatchOption, OnErr, OnOk, length};
ghost use Rattle.valid_table.specs.Adding.{AreClosed, AreNew, IsObstacle, IsRegistering};
ghost use Rattle.valid_table.specs.private.Blames.{IsBlamed};
ghost use Rattle.valid_table.specs.Closure.{IsClosing};
ghost use Rattle.valid_table.specs.Entries.{paths_registered, registered, registered_by};
ghost use Rattle.valid_table.specs.Tables.{registrations_of};
ghost use Rattle.valid_table.specs.Valid.{AreReferencesValid, IsClosed, IsOnce, IsValid, Registers};

use crate::entry::{Entry, Record, Registration};
use crate::fault::TableFault;
use crate::journal::Journal;
use crate::path_table::admission::blame;
use crate::path_table::obstacle::{FaultAt, Obstacle, fault_of, obstacle_of};
use crate::path_table::order::RowOrder;
use crate::path_table::rows::{add_rows, has_row, push_entry};
use crate::reachability::closure::close;
use crate::reachability::links::Links;
use indexmap::IndexMap;
use nix_names::StorePath;
use std::alloc::{AllocError, Global};
use std::marker::Model;

/// The valid paths with their records. A contract sees the list of what was registered, in its
/// order, and how many more paths can be registered without taking memory. Each reference is
/// valid, and no path is registered twice.
#[derive(Debug, Drop)]
pub struct Table {
    rows: IndexMap<StorePath, Record>,
    // The references of the first rows, by number.
    links: Links,
    // The order of the first rows.
    order: RowOrder,
}

impl Model for Table {
    ghost use Rattle.indexmap.specs.IndexMap.{spare};
    ghost use Rattle.std.specs.Prelude.{length};
    ghost use Rattle.valid_table.specs.private.FirstRows.{AreFirst, rows_of_keyed};
    ghost use Rattle.valid_table.specs.private.Keys.{AreKeyed};
    ghost use Rattle.valid_table.specs.private.Linking.{AreLinked};
    ghost use Rattle.valid_table.specs.Tables.{TableValue, registrations_of};
    ghost use Rattle.valid_table.specs.Valid.{AreReferencesValid, IsOnce};

    ghost Value = { TableValue };

    ghost view = { λ t. record
        { registrations = registrations_of t.rows.entries; room = spare t.rows } };

    ghost invariant = { λ t. IsOnce (registrations_of t.rows.entries)
        × AreReferencesValid (registrations_of t.rows.entries)
        × AreLinked (registrations_of t.rows.entries) t.links.ends.items t.links.numbers.items
        × AreFirst (length t.rows.entries) (rows_of_keyed t.order.keyed.items)
        × AreKeyed (registrations_of t.rows.entries) t.order.keyed.items };
}

impl Table {
    /// The table without rows. Takes no memory.
    pub fn new(alloc: Global) -> Table
        ensures { result.registrations ≡ [] }
    {
        Table {
            rows: IndexMap::new(alloc),
            links: Links::new(alloc),
            order: RowOrder::new(alloc),
        }
    }

    /// The table of a journal: each path that an entry registers, with its record. Answers
    /// `NoMemory` where memory is refused, and no other fault. Costs one look-up by hash for each
    /// path and each reference.
    pub fn replay(alloc: Global, journal: &Journal) -> Result<Table, TableFault>
        ensures ok { IfOk result (λ table. table.registrations ≡ registered journal.now.entries) }
        ensures err { IfErr result (λ e. e ≡ TableFault.NoMemory) }
    {
        Ok(Table::of_entries(alloc, journal.entries())?)
    }

    /// Whether a path is valid. Costs one look-up by hash.
    pub fn registers(&self, path: &StorePath) -> bool
        ensures { IsTrue result ↔ IsValid self.now.registrations path.now }
    {
        has_row(&self.rows, path)
    }

    /// The record of a path, where it is valid. Costs one look-up by hash.
    pub fn get(&self, path: &StorePath) -> Option<&Record>
        ensures { MatchOption result (IsValid self.now.registrations path.now → ⊥)
            (λ info. Registers self.now.registrations path.now info.now) }
    {
        self.rows.get(path)
    }

    /// The records of some valid paths, in the order of the paths. Want of memory is its only
    /// fault. Costs a look-up by hash for each path and a share of its text and record.
    pub fn records(
        &self,
        alloc: Global,
        paths: &[StorePath],
    ) -> Result<Vec<Registration>, AllocError>
        requires { All (IsValid self.now.registrations) paths.now }
        ensures paths { IfOk result (λ found. paths_registered found.items ≡ paths.now) }
        ensures known { IfOk result (λ found. All (Contains self.now.registrations) found.items) }
    {
        let mut found = Vec::with_capacity(alloc, paths.len())?;
        'paths: for path in paths {
            found.push_reserved(self.record(alloc, path)?);
        }
        Ok(found)
    }

    // The record of a valid path, with the path.
    fn record(&self, alloc: Global, path: &StorePath) -> Result<Registration, AllocError>
        requires { IsValid self.now.registrations path.now }
        ensures path { IfOk result (λ found. found.path ≡ path.now) }
        ensures known { IfOk result (Contains self.now.registrations) }
    {
        match self.get(path) {
            Some(info) => Ok(Registration {
                path: path.copy(alloc)?,
                info: info.copy(alloc)?,
            }),
            None => unreachable!(),
        }
    }

    /// The closure of the roots: the roots and all paths that they lead to by references, in
    /// strictly rising order. The closure of no roots is empty. Answers `NotValid` with the first
    /// root that is not valid, `NoMemory` where memory is refused, and no other fault. Costs a bit
    /// for each row of the table, one look-up by hash for each root, a step for each reference of
    /// the closure's paths, a sort of numbers most of which are in order, and a copy of each path.
    /// Texts are compared only where two hash parts begin with the same eight characters, or the
    /// paths are of several folders. A path that was registered after the last call that made room
    /// costs one look-up by hash for each of its references instead. Does not recurse.
    pub fn closure(&self, alloc: Global, roots: &[StorePath]) -> Result<Vec<StorePath>, TableFault>
        ensures { IsClosing self.now.registrations roots.now result }
    {
        close(alloc, &self.rows, &self.links, &self.order, roots)
    }

    /// Why an entry can't be registered, if it can't: the first path of its registrations that is
    /// valid, or else its first reference that is neither valid nor registered by the entry itself.
    /// Takes no memory. Costs a look-up by hash for each registration and reference, and a binary
    /// search among the registrations for each reference that is not valid.
    pub fn obstacle<'a>(&self, entry: &'a Entry) -> Option<Obstacle<'a>>
        ensures { MatchOption result
            (AreNew self.now.registrations (registered_by entry.now)
            × AreClosed self.now.registrations (registered_by entry.now))
            (IsObstacle self.now.registrations (registered_by entry.now)) }
    {
        let registrations = entry.registrations();
        let blame = self.blame(entry)?;
        let registration = &registrations[blame.registration];
        Some(obstacle_of(registration, blame.reference))
    }

    // Which of an entry's registrations is to blame where it can't be registered.
    pub(crate) fn blame(&self, entry: &Entry) -> Option<FaultAt>
        ensures { MatchOption result
            (AreNew self.now.registrations (registered_by entry.now)
            × AreClosed self.now.registrations (registered_by entry.now))
            (IsBlamed self.now.registrations (registered_by entry.now)) }
    {
        blame(&self.rows, entry.registrations())
    }

    /// Makes room for `paths` more paths. Want of memory is its only fault; what is registered
    /// stays. Looks up by hash each reference of what was registered after the last call that made
    /// room, so that closures need not, and takes a few steps for each row to put most rows in the
    /// order of their paths. Where memory is refused for this, it is no fault: closures cost the
    /// look-ups instead, or more of a sort.
    pub fn reserve(&mut self, paths: usize) -> Result<(), AllocError>
        ensures same { self.new.registrations ≡ self.old.registrations }
        ensures ok { OnOk result (paths ≤ self.new.room) }
        ensures succeeds { paths ≤ self.old.room → IsOk result }
        ensures kept { self.old.room ≤ self.new.room }
    {
        let alloc = *self.rows.allocator();
        self.links.link(alloc, &self.rows);
        self.order.extend(&self.rows);
        self.rows.reserve(paths)?;
        Ok(())
    }

    /// Registers what an entry registers. Its faults, in this order: `AlreadyValid` with the first
    /// path that is valid, `Unclosed` with the first reference that is neither valid nor registered
    /// by the entry itself. `NoMemory` may come in the place of either. A fault leaves what is
    /// registered as it was. Costs as `obstacle` does, and one more look-up by hash and a copy for
    /// each registration.
    pub fn register(&mut self, entry: &Entry) -> Result<(), TableFault>
        ensures registering { IsRegistering self.old.registrations self.new.registrations entry.now
            result }
        ensures room { self.old.room ≤ self.new.room + length (registered_by entry.now) }
        ensures kept { OnErr result (self.old.room ≤ self.new.room) }
    {
        let alloc = *self.rows.allocator();
        if let Some(blame) = self.blame(entry) {
            let registration = entry.registrations()[blame.registration].copy(alloc)?;
            return Err(fault_of(registration, blame.reference));
        }
        let copy = entry.copy(alloc)?;
        self.reserve(entry.registrations().len())?;
        self.register_reserved(copy);
        Ok(())
    }

    /// Registers what an entry registers, for which there is room. Takes no memory. Costs one
    /// look-up by hash for each registration.
    pub fn register_reserved(&mut self, entry: Entry)
        requires room { length (registered_by entry) ≤ self.old.room }
        requires new { AreNew self.old.registrations (registered_by entry) }
        requires closed { AreClosed self.old.registrations (registered_by entry) }
        ensures registrations { self.new.registrations
            ≡ self.old.registrations ++ registered_by entry }
        ensures room { self.old.room ≤ self.new.room + length (registered_by entry) }
    {
        entry.show_registered();
        push_entry(&mut self.rows, entry);
    }

    // The table of what entries register.
    pub(crate) fn of_entries(alloc: Global, entries: &[Entry]) -> Result<Table, AllocError>
        requires closed { IsClosed entries.now }
        requires once { IsOnce (registered entries.now) }
        ensures { IfOk result (λ table. table.registrations ≡ registered entries.now) }
    {
        let mut rows = IndexMap::new(alloc);
        for entry in entries {
            add_rows(alloc, &mut rows, entry.registrations())?;
        }
        Ok(Table::of_rows(rows))
    }

    // The table of these rows.
    pub(crate) fn of_rows(rows: IndexMap<StorePath, Record>) -> Table
        requires once { IsOnce (registrations_of rows.entries) }
        requires closed { AreReferencesValid (registrations_of rows.entries) }
        ensures { result.registrations ≡ registrations_of rows.entries }
    {
        let alloc = *rows.allocator();
        let mut links = Links::new(alloc);
        links.link(alloc, &rows);
        let order = RowOrder::new(alloc);
        Table { rows, links, order }
    }
}
