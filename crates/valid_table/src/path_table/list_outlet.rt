//! The plain outlet: a list of entries in memory.
ghost use Rattle.std.specs.Prelude.{◌≡◌, ◌++◌, [], IfErr, IfOk, IsOk, OnErr, OnOk};

use crate::entry::{Entry, copy_entries};
use crate::fault::OutletFault;
use crate::journal::Journal;
use crate::path_table::outlet::Outlet;
use std::alloc::Global;
use std::marker::Model;

/// A list of entries in memory, of which the first ones are shown. A contract sees the shown ones
/// and those that wait.
#[derive(Debug, Drop)]
pub struct ListOutlet {
    entries: Vec<Entry>,
    // How many of the entries are shown.
    shown: usize,
}

impl Model for ListOutlet {
    ghost use Rattle.std.specs.Prelude.{◌≤◌, drop, length, take};
    ghost use Rattle.valid_table.specs.Outlets.{Outgoing};

    ghost Value = { Outgoing };

    ghost view = { λ outlet. record {
      shown = take outlet.shown outlet.entries.items;
      pending = drop outlet.shown outlet.entries.items;
    } };

    ghost invariant = { λ outlet. outlet.shown ≤ length outlet.entries.items };
}

impl ListOutlet {
    /// The outlet that shows the journal's entries. Answers `NoMemory` where memory is refused, and
    /// no other fault. Copies each entry.
    pub fn open(alloc: Global, journal: &Journal) -> Result<ListOutlet, OutletFault>
        ensures shown { IfOk result (λ outlet. outlet.shown ≡ journal.now.entries) }
        ensures pending { IfOk result (λ outlet. outlet.pending ≡ []) }
        ensures err { IfErr result (λ e. e ≡ OutletFault.NoMemory) }
    {
        let entries = copy_entries(alloc, journal.entries())?;
        let shown = entries.len();
        Ok(ListOutlet { entries, shown })
    }

    /// The entries that are shown, in their order.
    pub fn shown(&self) -> &[Entry]
        ensures { result.now ≡ self.now.shown }
    {
        &self.entries[..self.shown]
    }

    /// The entries that wait to be published, in their order.
    pub fn pending(&self) -> &[Entry]
        ensures { result.now ≡ self.now.pending }
    {
        &self.entries[self.shown..]
    }
}

impl Outlet for ListOutlet {
    ghost use Rattle.valid_table.specs.Outlets.{CountsEntries};

    /// How many entries are shown.
    type Told = usize;

    ghost shown = { λ outlet. outlet.shown };

    ghost pending = { λ outlet. outlet.pending };

    ghost names = { CountsEntries };

    fn append(&mut self, entry: Entry) -> Result<(), OutletFault> {
        self.entries.push(entry)?;
        Ok(())
    }

    /// Shows the entries that wait. Never fails.
    fn publish(&mut self) -> Result<(), OutletFault>
        ensures always { IsOk result }
        ensures ok { OnOk result
            ((self.new.shown ≡ self.old.shown ++ self.old.pending) × (self.new.pending ≡ [])) }
        ensures err { OnErr result
            ((self.new.shown ≡ self.old.shown) × (self.new.pending ≡ self.old.pending)) }
    {
        self.shown = self.entries.len();
        Ok(())
    }

    fn tell(&self) -> usize {
        self.shown
    }

    fn close(self) {}
}
