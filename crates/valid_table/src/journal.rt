//! Journals: entries in their order, each reference registered, no path twice.
ghost use Rattle.std.specs.Prelude.{◌≡◌, ◌≤◌, ◌+◌, ◌↔◌, ◌++◌, [], ◌∷◌, All, IfOk, IfErr, IsTrue, MatchOption, OnErr, OnOk, length};
ghost use Rattle.nix_names.specs.StorePaths.{IsDrvPath};
ghost use Rattle.valid_table.specs.Adding.{AreClosed, AreNew, IsAdding};
ghost use Rattle.valid_table.specs.Entries.{registered, registered_by};
ghost use Rattle.valid_table.specs.Reading.{IsEntriesChecking, answered};
ghost use Rattle.valid_table.specs.Texts.{lines};
ghost use Rattle.valid_table.specs.Valid.{HasDrvPath, IsJournal, IsValid};
ghost use Rattle.valid_table.specs.declared.entry.Entry.TheVariants.{Add, Done};

use crate::entry::{Entry, Outputs, Record, Registration, copy_entries};
use crate::fault::TableFault;
use crate::journal_text::checking::check_entries;
use crate::path_table::obstacle::fault_of;
use crate::path_table::table::Table;
use nix_names::StorePath;
use std::alloc::{AllocError, Global};
use std::marker::Model;

/// The entries of a journal in their order. Each reference in an entry is registered by an earlier
/// entry or by the same one, no path is registered twice, and each deriver has the name of a
/// derivation's file. A contract sees the list of entries, and how many more paths they can
/// register without taking memory. Beside its entries a journal keeps the table of what they
/// register, which shares their paths and references.
#[derive(Debug, Drop)]
pub struct Journal {
    entries: Vec<Entry>,
    // What the entries register, in their order.
    table: Table,
}

impl Model for Journal {
    ghost use Rattle.std.specs.Prelude.{◌≡◌, ◌-◌, length, min, vec_capacity};
    ghost use Rattle.valid_table.specs.Entries.{registered};
    ghost use Rattle.valid_table.specs.Tables.{JournalValue};
    ghost use Rattle.valid_table.specs.Valid.{IsJournal};

    ghost Value = { JournalValue };

    ghost view = { λ j. record {
      entries = j.entries.items;
      room = min j.table.room (vec_capacity j.entries - length j.entries.items);
    } };

    ghost invariant = { λ j. IsJournal j.entries.items
        × (j.table.registrations ≡ registered j.entries.items) };
}

impl Journal {
    /// The journal without entries. Takes no memory.
    pub fn new(alloc: Global) -> Journal
        ensures { result.entries ≡ [] }
    {
        Journal {
            entries: Vec::new(alloc),
            table: Table::new(alloc),
        }
    }

    /// The entries, in their order.
    pub fn entries(&self) -> &[Entry]
        ensures value { result.now ≡ self.now.entries }
        ensures is_journal { IsJournal result.now }
    {
        &self.entries
    }

    /// The table of what the entries register.
    pub fn table(&self) -> &Table
        ensures value { result.now.registrations ≡ registered self.now.entries }
        ensures is_journal { IsJournal self.now.entries }
    {
        &self.table
    }

    /// Whether a path is valid by the journal, that is whether an entry registers it. Costs one
    /// look-up by hash.
    pub fn registers(&self, path: &StorePath) -> bool
        ensures { IsTrue result ↔ IsValid (registered self.now.entries) path.now }
    {
        self.table.registers(path)
    }

    /// Makes room for entries that register `paths` more paths. Want of memory is its only fault;
    /// the entries stay. Costs as `Table::reserve` does.
    pub fn reserve(&mut self, paths: usize) -> Result<(), AllocError>
        ensures same { self.new.entries ≡ self.old.entries }
        ensures ok { OnOk result (paths ≤ self.new.room) }
        ensures kept { self.old.room ≤ self.new.room }
    {
        self.entries.reserve(paths)?;
        self.table.reserve(paths)
    }

    /// Adds a path with its record. Its faults, in this order: `AlreadyValid` with the path where
    /// it is valid, `Unclosed` with the first reference that is neither valid nor the path itself,
    /// and `NoMemory`, only where neither of these holds. A fault leaves the entries as they were.
    /// Costs one look-up by hash for each reference, two for the path, and as `reserve` does.
    pub fn add(&mut self, path: StorePath, info: Record) -> Result<(), TableFault>
        ensures adding { IsAdding self.old.entries self.new.entries
            (Add (record { path = path; info = info })) result }
        ensures room { self.old.room ≤ self.new.room + 1 }
        ensures kept { OnErr result (self.old.room ≤ self.new.room) }
    {
        self.add_entry(Entry::Add(Registration { path, info }))
    }

    /// Adds the outputs of a derivation that was built; its path ends in `.drv`. Its faults, in
    /// this order: `AlreadyValid` with the first output that is valid, `Unclosed` with the first
    /// reference that is neither valid nor an output, and `NoMemory`, only where neither of these
    /// holds. A fault leaves the entries as they were. Costs one look-up by hash for each reference
    /// and two for each output, a binary search among the outputs for each reference that is not
    /// valid, and as `reserve` does.
    pub fn append(&mut self, deriver: StorePath, outputs: Outputs) -> Result<(), TableFault>
        requires { IsDrvPath deriver }
        ensures adding { IsAdding self.old.entries self.new.entries (Done deriver outputs) result }
        ensures room { self.old.room ≤ self.new.room + length outputs }
        ensures kept { OnErr result (self.old.room ≤ self.new.room) }
    {
        self.add_entry(Entry::Done(deriver, outputs))
    }

    /// Adds an entry for which there is room, and which has no obstacle (`Table::obstacle`). The
    /// table registers the copy of the entry. Takes no memory, and never fails. Costs one look-up
    /// by hash for each registration.
    pub fn push_reserved(&mut self, entry: Entry, copy: Entry)
        requires room { length (registered_by entry) ≤ self.old.room }
        requires new { AreNew (registered self.old.entries) (registered_by entry) }
        requires closed { AreClosed (registered self.old.entries) (registered_by entry) }
        requires derived { HasDrvPath entry }
        requires same { copy ≡ entry }
        ensures entries { self.new.entries ≡ self.old.entries ++ entry ∷ [] }
        ensures room { self.old.room ≤ self.new.room + length (registered_by entry) }
    {
        entry.show_registered();
        self.entries.push_reserved(entry);
        self.table.register_reserved(copy);
    }

    /// A copy of the journal. Answers `NoMemory` where memory is refused, and no other fault.
    /// Costs one look-up by hash for each registered path and each reference.
    pub fn copy(&self, alloc: Global) -> Result<Journal, TableFault>
        ensures ok { IfOk result (λ journal. journal.entries ≡ self.now.entries) }
        ensures err { IfErr result (λ e. e ≡ TableFault.NoMemory) }
    {
        let entries = copy_entries(alloc, &self.entries)?;
        let table = Table::of_entries(alloc, &entries)?;
        Ok(Journal { entries, table })
    }

    // The journal of entries whose text was read. `Twice` has the first line that registers a path
    // again and `NotClosed` the first that refers to a path which neither an earlier entry nor its
    // own registers, whichever comes first; line 1 is the version's. `NoMemory` may come in the
    // place of either. Costs one look-up by hash for each registered path, and two for each
    // reference.
    pub(crate) fn of_entries(alloc: Global, entries: Vec<Entry>) -> Result<Journal, TableFault>
        requires derived { All HasDrvPath entries.items }
        requires few { length (lines entries.items) ≤ 134217729 }
        ensures { IsEntriesChecking entries.items (answered result) }
    {
        let table = check_entries(alloc, &entries)?;
        Ok(Journal { entries, table })
    }

    // Adds an entry, or leaves the entries as they were.
    fn add_entry(&mut self, entry: Entry) -> Result<(), TableFault>
        requires { HasDrvPath entry }
        ensures adding { IsAdding self.old.entries self.new.entries entry result }
        ensures room { self.old.room ≤ self.new.room + length (registered_by entry) }
        ensures kept { OnErr result (self.old.room ≤ self.new.room) }
    {
        let alloc = *self.entries.allocator();
        if let Some(blame) = self.table.blame(&entry) {
            let registration = entry.into_registration(blame.registration);
            return Err(fault_of(registration, blame.reference));
        }
        let copy = entry.copy(alloc)?;
        self.reserve(entry.registrations().len())?;
        self.push_reserved(entry, copy);
        Ok(())
    }
}
