//! What the workers of a run share.
ghost use Rattle.std.specs.Prelude.{◌≡◌, ◌⊎◌, Err, IfErr, IfSome, List, None, Ok, OnOk};
ghost use Rattle.valid_table.specs.declared.entry.Entry.{Entry};
ghost use Rattle.sched_core.specs.Books.{IsBooksLease};
ghost use Rattle.run_states.specs.StateTables.{IsUnsettled};
ghost use Rattle.run_states.specs.Counts.{HasCount};
ghost use Rattle.run_states.specs.declared.fault.BookFault.TheVariants.{NoView};
ghost use Rattle.build_outcome.specs.declared.reason.Reason.TheVariants.{OutOfMemory};
ghost use Rattle.store_run.specs.Builders.{IsAnswered, MayEndAs};
ghost use Rattle.store_run.specs.private.JobVerdicts.{HasCaughtUp, IsToldOfSeeds, MayBeFound};
ghost use Rattle.store_run.specs.private.Looking.{IsLook};
ghost use Rattle.store_run.specs.private.Sharing.{IfGiven, IsEnding, IsNoting, IsNotingVerdict, IsLeaseRegistering, IsStep, IsStopping, IsWake};
ghost use Rattle.store_run.specs.declared.job_verdict.LeaseEnd.TheVariants.{Stopped};

use crate::basis::Basis;
use crate::job_verdict::{JobVerdict, LeaseEnd};
use crate::kept_text::{KeptText, NewLines};
use crate::refusal::{RefusedCall, fail, finish, look, next};
use crate::turn::{Step, Turn, Wake};
use sched_core::{Book, BookFault, Build, Checked, Job, Lease, Reason};
use std::alloc::Global;
use std::marker::{Brand, Model, PhantomData};
use valid_table::Outlet;
use valid_view::{ListId, Tells, ViewReader};

// The book of a run and why the run stops, once a call was refused. A contract sees both. What
// became of each derivation is a verdict on what a builder may give, and the run is over the basis.
pub(crate) struct Shared<O: Outlet, B: Build, S: Basis = Brand> {
    book: Book<O>,
    stop: Option<RefusedCall>,
    of: PhantomData<(B, S)>,
}

impl<O: Outlet, B: Build, S: Basis> Model for Shared<O, B, S> {
    ghost use Rattle.store_run.specs.Builders.{IsAnswered};
    ghost use Rattle.store_run.specs.private.Looking.{IsLook};
    ghost use Rattle.store_run.specs.private.Sharing.{Share};

    ghost Value = { Share };

    ghost view = { λ s. record { book = s.book; stop = s.stop } };

    ghost invariant = { λ s. IsAnswered B.may s.book.run s.book.history
        × S.is_this_run s.book.run s.book.history.opening };
}

impl<O: Outlet, B: Build, S: Basis> Shared<O, B, S> {
    // A book over a basis that builders of a type share, before anything stops the run.
    pub(crate) fn new(book: Book<O>) -> Shared<O, B, S>
        requires answered { IsAnswered B.may book.run book.history }
        requires over { S.is_this_run book.run book.history.opening }
        ensures book { result.book ≡ book }
        ensures stop { result.stop ≡ None }
    {
        Shared {
            book,
            stop: None,
            of: PhantomData,
        }
    }

    // A worker's turn: its next step, whom it wakes then, and how many wanted derivations are
    // blocked, ready or building. It wakes all where the run ends, and one where it takes a lease
    // and another derivation is ready.
    pub(crate) fn turn(&mut self) -> Turn<O::Told>
        ensures step { IsStep self.old self.new result.step }
        ensures told { IfGiven result.step (IsToldOfSeeds O.names) }
        ensures wake { IsWake self.new result.step result.wake }
        ensures unsettled { HasCount (IsUnsettled self.new.book.run self.new.book.history)
            result.unsettled }
    {
        let step = self.step();
        let unsettled = self.book.unsettled();
        let wake = match &step {
            Step::Build(_) if self.book.can_begin() => Wake::One,
            Step::Build(_) | Step::Wait => Wake::Nobody,
            Step::End => Wake::All,
        };
        Turn {
            step,
            wake,
            unsettled,
        }
    }

    // Has a reader see the list that the outlet shows. Then the paths that were permitted to a job
    // of the book's by the list that the reader saw before are permitted after the book's entries,
    // and reach the same paths there, but for the job's outputs. Refused where the view is gone.
    // Costs one look.
    pub(crate) fn catch_up<J: ListId>(
        &self,
        reader: &mut ViewReader<J>,
        job: &Job,
    ) -> Result<(), RefusedCall>
    where
        O: Tells<J>,
        ensures ok { OnOk result (HasCaughtUp reader.old.seen self.now.book job.now) }
        ensures err { IfErr result (λ fault. fault ≡ NoView) }
    {
        let Some(seed) = job.seeds.first() else {
            // Nothing leads anywhere from no seeds, whatever is valid.
            return Ok(());
        };
        reader.learn(O::prefix(self.book.tell()));
        look(reader, seed)
    }

    // Ends a lease by what was found of its job, and by whether the reader then caught up with the
    // book. Registers what was built, or notes why the build failed; where memory is refused, the
    // derivation failed for that reason. A lease is given up, which stops the run, where it isn't
    // the book's, where its derivation may not be registered with these records, and where its
    // verdict can't be used since the view is gone. Costs what `Book::finish` costs.
    pub(crate) fn end(
        &mut self,
        lease: Lease<O::Told>,
        found: JobVerdict,
        caught_up: Result<(), RefusedCall>,
    ) -> LeaseEnd
        requires { (seen : List Entry) × MayBeFound B.may seen lease.job found
            × OnOk caught_up (HasCaughtUp seen self.old.book lease.job) }
        ensures { IsEnding self.old self.new lease.job lease.number found caught_up result }
    {
        match found {
            JobVerdict::Examined(verdict) => match caught_up {
                Ok(()) => self.note(lease, verdict),
                Err(refusal) => self.give_up(lease, refusal),
            },
            JobVerdict::Unanswered(reason) => self.fail(lease, reason),
            JobVerdict::Refused(refusal) => match refusal.fault() {
                BookFault::NoMemory => self.fail(lease, Reason::OutOfMemory),
                _ => self.give_up(lease, refusal),
            },
        }
    }

    // What the book has that a keeper's text has not, in one look.
    pub(crate) fn look<J: ListId>(
        &self,
        alloc: Global,
        text: &KeptText<J, S>,
    ) -> Option<NewLines<J>>
    where
        O: Tells<J>,
        ensures { IfSome result (IsLook B.may (J.Showing.shown J.book) S.is_this_run
            text.now.version text.now.shown) }
    {
        // Its contract says that the history is legal.
        let _ = self.book.events();
        text.look(alloc, &self.book)
    }

    // The list that the book shows was shown.
    pub(crate) fn shows<J: ListId>(&self)
    where
        O: Tells<J>,
        ensures { J.Showing.shown J.book self.now.book.shown }
    {
        O::prefix(self.book.tell()).was_shown();
    }

    // What is shared, over any basis.
    pub(crate) fn over_any(self) -> Shared<O, B>
        ensures { result ≡ self }
    {
        let Shared { book, stop, of: _ } = self;
        Shared {
            book,
            stop,
            of: PhantomData,
        }
    }

    // The book, and why the run stopped, if it did.
    pub(crate) fn into_parts(self) -> (Book<O>, Option<BookFault>)
        ensures book { result.0 ≡ self.book }
        ensures stop { result.1 ≡ self.stop }
        ensures answered { IsAnswered B.may result.0.run result.0.history }
    {
        let Shared { book, stop, of: _ } = self;
        match stop {
            Some(refusal) => (book, Some(refusal.fault())),
            None => (book, None),
        }
    }

    // The next step of a worker: `End` where the run stops or the book is settled, else a lease if
    // a derivation is ready, and else `Wait`. A refusal of the book stops the run.
    fn step(&mut self) -> Step<O::Told>
        ensures step { IsStep self.old self.new result }
        ensures told { IfGiven result (IsToldOfSeeds O.names) }
    {
        if self.stop.is_some() || self.book.settled() {
            return Step::End;
        }
        match next(&mut self.book) {
            Ok(Some(lease)) => Step::Build(lease),
            Ok(None) => Step::Wait,
            Err(refusal) => {
                self.stop = Some(refusal);
                Step::End
            }
        }
    }

    // Ends a lease by a verdict that holds after the book's entries.
    fn note(&mut self, lease: Lease<O::Told>, verdict: Result<Checked, Reason>) -> LeaseEnd
        requires { (verdict ≡ Err OutOfMemory)
            ⊎ (IsBooksLease self.old.book.run self.old.book.history lease.job lease.number
            → MayEndAs B.may self.old.book.history.entries lease.job verdict) }
        ensures { IsNotingVerdict self.old self.new lease.job lease.number verdict result }
    {
        match verdict {
            Ok(checked) => self.register(lease, checked),
            Err(reason) => self.fail(lease, reason),
        }
    }

    // Ends a lease by registering what was built.
    fn register(&mut self, lease: Lease<O::Told>, checked: Checked) -> LeaseEnd
        requires { IsBooksLease self.old.book.run self.old.book.history lease.job lease.number
            → MayEndAs B.may self.old.book.history.entries lease.job (Ok checked) }
        ensures { IsLeaseRegistering self.old self.new lease.job lease.number checked result }
    {
        match finish(&mut self.book, lease, checked) {
            Ok(()) => LeaseEnd::Registered,
            Err((refusal, lease, _checked)) => match refusal.fault() {
                BookFault::NoMemory => self.fail(lease, Reason::OutOfMemory),
                _ => self.give_up(lease, refusal),
            },
        }
    }

    // Ends a lease by noting why building its derivation failed.
    fn fail(&mut self, lease: Lease<O::Told>, reason: Reason) -> LeaseEnd
        requires { (reason ≡ OutOfMemory)
            ⊎ (IsBooksLease self.old.book.run self.old.book.history lease.job lease.number
            → MayEndAs B.may self.old.book.history.entries lease.job (Err reason)) }
        ensures { IsNoting self.old self.new lease.job lease.number reason result }
    {
        match fail(&mut self.book, lease, reason) {
            Ok(()) => LeaseEnd::Failed(reason),
            Err((refusal, lease)) => self.give_up(lease, refusal),
        }
    }

    // Gives a lease up, and stops the run for this refusal, if nothing stopped it before.
    fn give_up(&mut self, lease: Lease<O::Told>, refusal: RefusedCall) -> LeaseEnd
        ensures stopping { IsStopping self.old self.new refusal }
        ensures end { result ≡ Stopped refusal }
    {
        lease.give_up();
        let fault = refusal.fault();
        if self.stop.is_none() {
            self.stop = Some(refusal);
        }
        LeaseEnd::Stopped(fault)
    }
}
