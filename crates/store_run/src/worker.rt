//! What one worker does.
ghost use Rattle.std.specs.Prelude.{IfSome};
ghost use Rattle.sched_core.specs.Books.{AreSeedsValid};
ghost use Rattle.store_run.specs.private.JobVerdicts.{IsToldOfSeeds, MayBeFound};
ghost use Rattle.store_run.specs.Starts.{IsStart};

use crate::basis::Basis;
use crate::job_verdict::{JobVerdict, LeaseEnd};
use crate::locked::Locked;
use crate::monitor::{Listen, NoListener};
use crate::start::start;
use crate::turn::{Step, Turn};
use crate::verdict::{learn, permitted, verdict};
use build_outcome::Prepared;
use sched_core::{Build, Lease, LeaseObserver, Reason};
use std::alloc::Global;
use std::sync::Wait;
use valid_view::{ListId, Tells, ViewReader};

/// Builds ready derivations, one after the other, until the book is settled or the run stops; waits
/// while none is ready. No lock is held while a builder's start is prepared and while it runs, nor
/// while the verdict is found: the records for the start and the permitted paths are asked of the
/// reader, whose view is the book's outlet. Where memory is refused to the worker, the derivation
/// of its lease fails for that reason. The builder hears of each lease that was taken and of each
/// that has ended, also without the lock; the other workers that can go on were woken before.
pub fn work<R: Wait, J: ListId, O: Tells<J>, B: Build + LeaseObserver, S: Basis>(
    rt: &R,
    alloc: Global,
    locked: &Locked<O, B, S>,
    reader: ViewReader<J>,
    builder: &B,
) {
    work_heard(&NoListener::over(rt), alloc, locked, reader, builder);
}

/// Does what `work` does; the handle hears of each call of the lock.
pub fn work_heard<R: Listen, J: ListId, O: Tells<J>, B: Build + LeaseObserver, S: Basis>(
    rt: &R,
    alloc: Global,
    locked: &Locked<O, B, S>,
    mut reader: ViewReader<J>,
    builder: &B,
) {
    let mut taken = locked.take(rt);
    for _ in rt.forever() {
        taken = match taken {
            Some((lease, unsettled)) => {
                builder.begun(lease.number(), lease.job(), unsettled);
                build(rt, alloc, locked, &mut reader, builder, lease)
            }
            None => return,
        };
    }
    unreachable!()
}

// Builds the job of a lease, and ends the lease. Gives the next lease, and how many wanted
// derivations were unsettled when it was taken; none where the run ends.
fn build<R: Listen, J: ListId, O: Tells<J>, B: Build + LeaseObserver, S: Basis>(
    rt: &R,
    alloc: Global,
    locked: &Locked<O, B, S>,
    reader: &mut ViewReader<J>,
    builder: &B,
    mut lease: Lease<O::Told>,
) -> Option<(Lease<O::Told>, usize)>
    requires { IsToldOfSeeds O.names lease }
    ensures { IfSome result (λ taken. IsToldOfSeeds O.names taken.0) }
{
    learn::<J, O>(reader, &mut lease);
    let found = found_of(alloc, reader, builder, &lease);
    let number = lease.number();
    let (end, turn) = locked.end(rt, reader, lease, found);
    let Turn {
        step,
        wake: _,
        unsettled,
    } = turn;
    builder.ended(number, matches!(end, LeaseEnd::Registered), unsettled);
    match step {
        Step::Build(lease) => Some((lease, unsettled)),
        Step::Wait => locked.take(rt),
        Step::End => None,
    }
}

// What is found of the job of a lease that the reader has learned of: of what its builder makes of
// it, or that the reader was refused what the builder's start needs.
fn found_of<J: ListId, T, B: Build>(
    alloc: Global,
    reader: &mut ViewReader<J>,
    builder: &B,
    lease: &Lease<T>,
) -> JobVerdict
    requires { AreSeedsValid reader.old.told lease.now.job }
    ensures { MayBeFound B.may reader.new.seen lease.now.job result }
{
    match start(alloc, reader, lease.job()) {
        Ok(prepared) => run_builder(alloc, reader, builder, lease, &prepared),
        Err(refusal) => JobVerdict::Refused(refusal),
    }
}

// What is found of what a builder makes of the job of a lease, by what was prepared for its start.
fn run_builder<J: ListId, T, B: Build>(
    alloc: Global,
    reader: &mut ViewReader<J>,
    builder: &B,
    lease: &Lease<T>,
    prepared: &Result<Prepared, Reason>,
) -> JobVerdict
    requires seeds { AreSeedsValid reader.old.told lease.now.job }
    requires start { IsStart reader.old.seen lease.now.job prepared.now }
    ensures { MayBeFound B.may reader.new.seen lease.now.job result }
{
    let job = lease.job();
    let permitted = match permitted(alloc, reader, job) {
        Ok(permitted) => permitted,
        Err(refusal) => return JobVerdict::Refused(refusal),
    };
    let examined = builder.run_examined(lease.number(), job, prepared, &permitted);
    verdict::<J, B>(alloc, reader, job, &permitted, examined)
}
