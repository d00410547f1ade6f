//! Whether a book is over a plan, for a system, and opened with a journal's entries.
ghost use Rattle.std.specs.Prelude.{◌↔◌, IsTrue};
ghost use Rattle.run_states.specs.Legal.{IsLegal};
ghost use Rattle.store_run.specs.Realising.{IsBookOver};

use drv_graph::Plan;
use drv_graph::laws::equal_plans_are_same;
use run_states::System;
use sched_core::Book;
use valid_table::laws::equal_entries_are_same;
use valid_table::{Journal, Outlet};

// Whether a book is over this plan, for this system, and opened with the journal's entries. The
// history of each book is legal. Compares the whole plan, system and entries; takes no memory.
pub(crate) fn is_this_run<O: Outlet>(
    book: &Book<O>,
    plan: &Plan,
    system: &System,
    journal: &Journal,
) -> bool
    ensures over { IsTrue result ↔ IsBookOver plan.now system.now journal.now.entries book.now }
    ensures legal { IsLegal book.now.run book.now.history }
{
    equal_plans_are_same();
    equal_entries_are_same();
    let opening = &book.journal().entries()[..book.opening()];
    book.plan() == plan && book.system() == system && opening == journal.entries()
}
