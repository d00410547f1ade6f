//! What a worker is to do next, and whom it wakes.

use sched_core::Lease;

// What a worker is to do next.
pub(crate) enum Step<T> {
    // Build the job of this lease.
    Build(Lease<T>),
    // Wait until another worker has ended a lease.
    Wait,
    // End: the book is settled, or the run stops.
    End,
}

// Whom a worker wakes once it has let go of the lock.
#[derive(Clone, Copy, Debug, PartialEq, Eq)]
pub(crate) enum Wake {
    // Nobody: no other derivation is ready.
    Nobody,
    // One waiting worker, if any waits: another derivation is ready.
    One,
    // All waiting workers: the run ends.
    All,
}

// A worker's turn at the lock.
pub(crate) struct Turn<T> {
    // What the worker is to do next.
    pub(crate) step: Step<T>,
    // Whom it wakes.
    pub(crate) wake: Wake,
    // How many wanted derivations are blocked, ready or building.
    pub(crate) unsettled: usize,
}
