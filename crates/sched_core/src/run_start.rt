//! What a book opens with.
ghost use Rattle.std.specs.Prelude.{◌≡◌, [], IfOk, length, vec_capacity};
ghost use Rattle.sched_core.specs.private.Booking.{IsRunKept, history_of};

use drv_graph::Plan;
use run_states::{Event, StateTable, System, nearest_twins, preconditions_of, wanted_of};
use std::alloc::{AllocError, Global};
use valid_table::Journal;

// The states of a plan's derivations before anything has begun, and a list without events with room
// for all that may come.
#[derive(Drop)]
pub(crate) struct RunStart {
    pub(crate) states: StateTable,
    pub(crate) events: Vec<Event>,
}

impl RunStart {
    // What a book opens with over a plan, for a system, after a journal's entries.
    pub(crate) fn new(
        alloc: Global,
        plan: Plan,
        journal: &Journal,
        system: &System,
    ) -> Result<RunStart, AllocError>
        ensures graph { IfOk result (λ start. start.states.graph ≡ plan) }
        ensures events { IfOk result (λ start. start.events.items ≡ []) }
        ensures kept { IfOk result (λ start. IsRunKept system.now
            (history_of (length journal.now.entries) journal.now.entries start.events.items)
            start.states 0 (vec_capacity start.events)) }
    {
        let preconditions = preconditions_of(alloc, &plan, journal, system)?;
        let wanted = wanted_of(alloc, &plan, &preconditions)?;
        let twins = nearest_twins(alloc, &plan, &wanted)?;
        let events = Vec::with_capacity(alloc, 2 * preconditions.len())?;
        let states = StateTable::open(alloc, plan, preconditions, wanted, twins)?;
        // Its contract says that the entries are a journal.
        let _ = journal.entries();
        Ok(RunStart { states, events })
    }
}
