//! The text of the trace of a run, by its book.
ghost use Rattle.std.specs.Prelude.{◌≡◌, ◌++◌, ◌<◌, IfOk, OnOk, length, map};
ghost use Rattle.nix_realise.specs.RunTraces.{IsRunTrace, lease_at, lease_end};
ghost use Rattle.nix_realise.specs.RunTraces.{lease_of, leases_of};
ghost use Rattle.nix_realise.specs.private.Leases.{derivation_of};

use crate::runs::summary::is_realised;
use process_build::{EndedLease, NotedTimes, trace_text};
use sched_core::{Book, Event};
use std::alloc::{AllocError, Global};
use valid_table::Outlet;

/// The trace of a run with this book: an event for each lease, in the order of their numbers.
/// `AllocError` also where the times of one were not noted.
pub fn run_trace<V: Outlet>(
    alloc: Global,
    book: &Book<V>,
    times: &NotedTimes,
) -> Result<Vec<u8>, AllocError>
    ensures { IfOk result (λ text. IsRunTrace book.now.run book.now.history text.items) }
{
    let leases = begun_leases(alloc, book, times)?;
    trace_text(alloc, &leases)
}

// The leases of a book, in the order of their numbers, each with its times.
fn begun_leases<V: Outlet>(
    alloc: Global,
    book: &Book<V>,
    times: &NotedTimes,
) -> Result<Vec<EndedLease>, AllocError>
    ensures { IfOk result (λ leases. map lease_end leases.items
        ≡ leases_of book.now.run book.now.history book.now.history.events) }
{
    let mut leases = Vec::new(alloc);
    'events: for event in book.events() {
        push_lease(alloc, book, times, event, &mut leases)?;
    }
    Ok(leases)
}

// Adds the lease that an event began, if it did.
#[tactic(auto, using(crate::proofs::RunTraces::one_more))]
fn push_lease<V: Outlet>(
    alloc: Global,
    book: &Book<V>,
    times: &NotedTimes,
    event: &Event,
    leases: &mut Vec<EndedLease>,
) -> Result<(), AllocError>
    requires { derivation_of event.now < length book.now.run.graph.nodes }
    ensures { OnOk result (map lease_end leases.new.items
        ≡ map lease_end leases.old.items ++ lease_of book.now.run book.now.history event.now) }
{
    match event {
        Event::Begin(d, number) => {
            let lease = lease_at(alloc, book, times, *d, *number)?;
            leases.push(lease)?;
        }
        _ => {}
    }
    Ok(())
}

// The lease with this number, of the derivation with this one. `AllocError` also where its times
// were not noted.
fn lease_at<V: Outlet>(
    alloc: Global,
    book: &Book<V>,
    times: &NotedTimes,
    d: usize,
    number: u64,
) -> Result<EndedLease, AllocError>
    requires { d < length book.now.run.graph.nodes }
    ensures { IfOk result
        (λ lease. lease_end lease ≡ lease_at book.now.run book.now.history d number) }
{
    let Some(times) = times.get(number) else {
        return Err(AllocError);
    };
    let path = book.plan().path(d).copy(alloc)?;
    let is_good = is_realised(book.state(d));
    Ok(EndedLease {
        path,
        times,
        is_good,
    })
}
