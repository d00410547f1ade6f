//! Where registrations go: a list of entries that readers see, and that each publication extends.
ghost use Rattle.std.specs.Prelude.{◌≡◌, ◌++◌, [], ◌∷◌, List, All, IfOk, IfErr, IsOk, OnOk, OnErr, drop, length, take};
ghost use Rattle.valid_table.specs.Adding.{IsNew, IsValidWith};
ghost use Rattle.valid_table.specs.Entries.{registered_by};
ghost use Rattle.valid_table.specs.Outlets.{CountsEntries, Outgoing};
ghost use Rattle.valid_table.specs.Valid.{references_of};
ghost use Rattle.valid_table.specs.declared.entry.Entry.{Entry};

use crate::entry::Entry;
use crate::fault::OutletFault;
use crate::journal::Journal;
use std::alloc::Global;
use std::marker::Model;

/// A published list of entries. An entry that is appended waits until it is published; the shown
/// list only grows. `close` ends an outlet.
pub trait Outlet {
    /// The name of a list that an outlet shows.
    type Told: Drop + Send;

    // The entries that are shown.
    ghost shown: { Self → List Entry };
    // The entries that wait to be published.
    ghost pending: { Self → List Entry };
    // Whether a name is that of a list of entries.
    ghost names: { Self.Told → List Entry → Type 0 };

    /// Appends an entry to those that wait. Its paths must be new, and each of its references must
    /// be registered before or by the entry itself. `NoMemory`, the only fault, changes nothing.
    fn append(&mut self, entry: Entry) -> Result<(), OutletFault>
        requires new { IsNew (shown self.old ++ pending self.old) entry }
        requires closed { All (IsValidWith (shown self.old ++ pending self.old) entry)
            (references_of (registered_by entry)) }
        ensures same { shown self.new ≡ shown self.old }
        ensures ok { OnOk result (pending self.new ≡ pending self.old ++ entry ∷ []) }
        ensures err { OnErr result (pending self.new ≡ pending self.old) }
        ensures memory { IfErr result (λ e. e ≡ OutletFault.NoMemory) };

    /// Shows the entries that wait. A fault changes nothing. Where nothing waits there is no fault.
    fn publish(&mut self) -> Result<(), OutletFault>
        ensures idle { pending self.old ≡ [] → IsOk result }
        ensures ok { OnOk result
            ((shown self.new ≡ shown self.old ++ pending self.old) × (pending self.new ≡ [])) }
        ensures err { OnErr result
            ((shown self.new ≡ shown self.old) × (pending self.new ≡ pending self.old)) };

    /// The name of the list that is shown.
    fn tell(&self) -> Self::Told
        ensures { names result (shown self.now) };

    /// Ends the outlet.
    fn close(self);
}
