//! The entry of a derivation that was built, made ready to be added.
ghost use Rattle.std.specs.Prelude.{◌≡◌, ◌<◌, ◌≤◌, IfErr, IfOk, length};
ghost use Rattle.valid_table.specs.Entries.{registered_by};
ghost use Rattle.valid_table.specs.Valid.{HasDrvPath};
ghost use Rattle.sched_core.specs.private.Dones.{IsDoneEntry, IsDoneFault};

use crate::done_entry::done_entry;
use build_outcome::Checked;
use drv_graph::Plan;
use run_states::BookFault;
use std::alloc::{AllocError, Global};
use valid_table::{Entry, Journal};

// The entry of a derivation that was built, for the journal, its table and an outlet.
#[derive(Drop)]
pub(crate) struct PreparedEntry {
    pub(crate) entry: Entry,
    pub(crate) copy: Entry,
    pub(crate) shown: Entry,
}

impl PreparedEntry {
    // The entry of the derivation with this number that was built with these records, for which the
    // journal has room then. The faults are those of `done_entry`; the journal's entries stay.
    pub(crate) fn new(
        alloc: Global,
        plan: &Plan,
        d: usize,
        checked: &Checked,
        journal: &mut Journal,
    ) -> Result<PreparedEntry, BookFault>
        requires { d < length plan.now.nodes }
        ensures same { journal.new.entries ≡ journal.old.entries }
        ensures entry { IfOk result
            (λ p. IsDoneEntry plan.now d journal.old.entries checked.now p.entry) }
        ensures derived { IfOk result (λ p. HasDrvPath p.entry) }
        ensures copy { IfOk result (λ p. p.copy ≡ p.entry) }
        ensures shown { IfOk result (λ p. p.shown ≡ p.entry) }
        ensures room { IfOk result (λ p. length (registered_by p.entry) ≤ journal.new.room) }
        ensures err { IfErr result (IsDoneFault plan.now d journal.old.entries checked.now) }
    {
        let entry = done_entry(alloc, plan, d, checked, journal)?;
        let copy = entry.copy(alloc)?;
        let shown = entry.copy(alloc)?;
        journal.reserve(entry.registrations().len())?;
        Ok(PreparedEntry { entry, copy, shown })
    }
}
