//! A book behind a lock, on which workers wait.
ghost use Rattle.std.specs.Prelude.{IfSome};
ghost use Rattle.store_run.specs.Builders.{IsAnswered};
ghost use Rattle.store_run.specs.private.JobVerdicts.{IsToldOfSeeds, MayBeFound};
ghost use Rattle.store_run.specs.private.Looking.{IsLook};
ghost use Rattle.store_run.specs.private.Sharing.{IfGiven};

use crate::basis::Basis;
use crate::end_signal::EndSignal;
use crate::job_verdict::{JobVerdict, LeaseEnd};
use crate::kept_text::{KeptText, NewLines};
use crate::monitor::{Listen, Monitor};
use crate::shared::Shared;
use crate::turn::{Step, Turn};
use sched_core::{Book, BookFault, Build, Lease};
use std::alloc::Global;
use std::marker::Brand;
use std::sync::Wait;
use std::time::{Clock, Duration};
use valid_table::Outlet;
use valid_view::{ListId, Tells, ViewReader};

/// The book of a run behind a lock, and the condition on which workers wait for work. Whenever the
/// lock is free, the book's history is legal, its tables agree with it, and what became of each
/// derivation is a verdict on what a builder of this type may give. The run is over the basis.
pub struct Locked<O: Outlet, B: Build, S: Basis = Brand> {
    shared: Monitor<Shared<O, B, S>>,
    // Rung once all workers have ended.
    end: EndSignal,
}

impl<O: Outlet, B: Build, S: Basis> Locked<O, B, S> {
    /// A book behind a lock.
    pub fn new(book: Book<O>) -> Locked<O, B, S>
        requires answered { IsAnswered B.may book.run book.history }
        requires over { S.is_this_run book.run book.history.opening }
    {
        Locked {
            shared: Monitor::new(Shared::new(book)),
            end: EndSignal::new(),
        }
    }

    // Waits for a lease of a ready derivation. Gives the lease and how many wanted derivations are
    // unsettled then; none where the run ends. Wakes the workers that its turn names.
    pub(crate) fn take<R: Listen>(&self, rt: &R) -> Option<(Lease<O::Told>, usize)>
        ensures { IfSome result (λ taken. IsToldOfSeeds O.names taken.0) }
    {
        let mut held = self.shared.lock(rt);
        for _ in rt.forever() {
            let Turn {
                step,
                wake,
                unsettled,
            } = held.value().turn();
            let taken = match step {
                Step::Build(lease) => Some((lease, unsettled)),
                Step::End => None,
                Step::Wait => {
                    held = self.shared.wait(held);
                    continue;
                }
            };
            drop(held);
            self.shared.wake(rt, wake);
            return taken;
        }
        unreachable!()
    }

    // Ends a lease by what was found of its job by the list that the reader saw, and takes a turn,
    // in one hold of the lock. Then wakes the workers that the turn names. Waits for nothing but
    // the lock. In the hold the reader looks once; no closure is computed, and what was built is
    // not read.
    pub(crate) fn end<R: Listen, J: ListId>(
        &self,
        rt: &R,
        reader: &mut ViewReader<J>,
        lease: Lease<O::Told>,
        found: JobVerdict,
    ) -> (LeaseEnd, Turn<O::Told>)
    where
        O: Tells<J>,
        requires { MayBeFound B.may reader.old.seen lease.job found }
        ensures { IfGiven result.1.step (IsToldOfSeeds O.names) }
    {
        let mut held = self.shared.lock(rt);
        let shared = held.value();
        let caught_up = shared.catch_up(reader, lease.job());
        let end = shared.end(lease, found, caught_up);
        let turn = shared.turn();
        drop(held);
        self.shared.wake(rt, turn.wake);
        (end, turn)
    }

    // What the book has that a keeper's text has not, by one look, in one hold of the lock.
    pub(crate) fn look<R: Listen, J: ListId>(
        &self,
        rt: &R,
        alloc: Global,
        text: &KeptText<J, S>,
    ) -> Option<NewLines<J>>
    where
        O: Tells<J>,
        ensures { IfSome result (IsLook B.may (J.Showing.shown J.book) S.is_this_run
            text.now.version text.now.shown) }
    {
        let mut held = self.shared.lock(rt);
        let news = held.value().look(alloc, text);
        drop(held);
        news
    }

    // Rings the signal that all workers have ended, for the thread that keeps texts on the way.
    pub(crate) fn ends<R: Wait>(&self, rt: &R) {
        self.end.ring(rt);
    }

    // Waits until all workers have ended, so long at most, or until the thread wakes by itself.
    // Says whether they have. Does not take the lock.
    pub(crate) fn ends_within<R: Wait + Clock>(&self, rt: &R, pause: Duration) -> bool {
        self.end.rings_within(rt, pause)
    }

    /// The book, and why the run stopped, if it did.
    pub fn into_parts(self) -> (Book<O>, Option<BookFault>)
        ensures { IsAnswered B.may result.0.run result.0.history }
    {
        self.into_shared().into_parts()
    }

    // What the workers shared.
    pub(crate) fn into_shared(self) -> Shared<O, B, S> {
        let Locked { shared, end: _ } = self;
        shared.into_inner()
    }
}
