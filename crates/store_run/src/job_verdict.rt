//! What a worker finds of the job of its lease, and how the lease ends.

use crate::refusal::RefusedCall;
use sched_core::{BookFault, Checked, Reason};

// What a worker found of the job of its lease.
#[derive(Debug, Drop)]
pub(crate) enum JobVerdict {
    // The verdict on what the builder left behind.
    Examined(Result<Checked, Reason>),
    // The builder's reason why there is no answer.
    Unanswered(Reason),
    // What was refused to the worker, so that there is no verdict: memory, or the view.
    Refused(RefusedCall),
}

// How a lease ended.
#[derive(Clone, Copy, Debug, PartialEq, Eq)]
pub(crate) enum LeaseEnd {
    // Its derivation's outputs were registered.
    Registered,
    // Its derivation failed, for this reason.
    Failed(Reason),
    // It was given up for this cause, which stops the run if nothing stopped it before.
    Stopped(BookFault),
}
