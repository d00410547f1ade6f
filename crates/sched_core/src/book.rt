//! Books: what is built, and what can be.
ghost use Rattle.std.specs.Prelude.{◌≡◌, ◌<◌, ◌%◌, ◌^◌, ◌↔◌, ◌⊎◌, ◌++◌, ℕ, IfErr, IfOk, IsTrue, MatchOption, OnErr, OnOk, length, take, ⊤};
ghost use Rattle.valid_table.specs.Valid.{IsJournal};
ghost use Rattle.sched_core.specs.Books.{ArePermittedPaths, AreSeedsValid, BuildsOver, IsBeginning, IsBooksLease, IsFailing, IsFinishFault, IsFinishing, IsSameRun, MayAllRefer};
ghost use Rattle.run_states.specs.StateTables.{CanBegin, IsRunSettled, IsUnsettled, table_state};
ghost use Rattle.run_states.specs.Runs.{opened};
ghost use Rattle.run_states.specs.Counts.{HasCount};
ghost use Rattle.run_states.specs.Legal.{IsLegal};
ghost use Rattle.run_report.specs.Reports.{IsReportIn};
ghost use Rattle.run_states.specs.Runs.{state_in};
ghost use Rattle.run_states.specs.Steps.{steps_in};
ghost use Rattle.run_states.specs.declared.fault.BookFault.TheVariants.{ForeignLease, NoMemory, NoView};
ghost use Rattle.run_states.specs.declared.state.State.TheVariants.{Building};
ghost use Rattle.build_outcome.specs.declared.reason.Reason.TheVariants.{OutOfMemory};

use crate::is_job::is_job;
use crate::job_of::job_of;
use crate::lease::Lease;
use crate::named_paths::named_paths;
use crate::permitted::permitted_to;
use crate::prepared_entry::PreparedEntry;
use crate::run_start::RunStart;
use build_outcome::{Checked, Job, Reason};
use drv_graph::Plan;
use nix_names::StorePath;
use run_report::report_of;
use run_states::{BookFault, Event, State, StateTable, System};
use std::alloc::{AllocError, Global};
use std::marker::Model;
use valid_table::{Journal, Outlet};

/// The book of a run over a plan: its journal, its events, and an outlet to which what is
/// registered goes. A contract sees the run, its history, and the entries that the outlet shows and
/// those that wait there. A book is ended by `close`.
///
/// In each book the history is legal, the entries are a journal, and the outlet holds exactly the
/// entries; `journal` and `events` say so.
#[derive(Debug)]
pub struct Book<O: Outlet> {
    states: StateTable,
    system: System,
    journal: Journal,
    // How many entries the journal opened with.
    opening: usize,
    // There is room for all events that may come, two of each derivation.
    events: Vec<Event>,
    // How many leases were given.
    given: u64,
    outlet: O,
}

impl<O: Outlet> Model for Book<O> {
    ghost use Rattle.std.specs.Prelude.{vec_capacity};
    ghost use Rattle.sched_core.specs.Books.{Ledger};
    ghost use Rattle.sched_core.specs.private.Booking.{IsBook, history_of, run_over};

    ghost Value = { Ledger };

    ghost view = { λ b. record {
      run = run_over b.states b.system;
      history = history_of b.opening b.journal.entries b.events.items;
      shown = O.shown b.outlet;
      pending = O.pending b.outlet;
    } };

    ghost invariant = { λ b. IsBook b.states b.system b.opening b.journal.entries
        b.events.items b.given (vec_capacity b.events) (O.shown b.outlet)
        (O.pending b.outlet) };
}

impl<O: Outlet> Book<O> {
    /// The book of a run over a plan, for a system, that opens with the journal's entries, which
    /// the outlet holds. An error where memory is refused, and no other; the outlet is closed then.
    /// Asks the journal for each output and source of the plan, and takes memory for all events
    /// that may come.
    pub fn open(
        alloc: Global,
        plan: Plan,
        journal: Journal,
        system: System,
        outlet: O,
    ) -> Result<Book<O>, AllocError>
        requires { O.shown outlet ++ O.pending outlet ≡ journal.entries }
        ensures run { IfOk result (λ book. book.run
            ≡ record { graph = plan; system = system }) }
        ensures history { IfOk result (λ book. book.history ≡ opened journal.entries) }
        ensures shown { IfOk result (λ book. book.shown ≡ O.shown outlet) }
        ensures pending { IfOk result (λ book. book.pending ≡ O.pending outlet) }
    {
        match RunStart::new(alloc, plan, &journal, &system) {
            Ok(RunStart { states, events }) => Ok(Book {
                states,
                system,
                opening: journal.entries().len(),
                journal,
                events,
                given: 0,
                outlet,
            }),
            Err(fault) => {
                outlet.close();
                Err(fault)
            }
        }
    }

    /// The lease of a wanted derivation that is ready, which begins with it; none exactly where
    /// there is no such derivation, and then nothing changes and no memory is taken. Before a
    /// derivation begins the outlet publishes all entries, and the lease is told of that list, by
    /// which all that the derivation is built from is valid.
    ///
    /// `NoView` changes nothing. `NoMemory` begins nothing; the outlet may have published all that
    /// waited. Takes memory for the lease's job.
    pub fn next(&mut self) -> Result<Option<Lease<O::Told>>, BookFault>
        ensures none { IfOk result
            (λ next. MatchOption next ((self.new ≡ self.old)
            × ((d : ℕ) → CanBegin self.old.run self.old.history d → ⊥))
            (λ lease. IsBeginning self.old self.new lease.job lease.number)) }
        ensures told { IfOk result
            (λ next. MatchOption next ⊤
            (λ lease. MatchOption lease.told ⊥ (λ told. O.names told self.old.history.entries))) }
        ensures seeds { IfOk result
            (λ next. MatchOption next ⊤
            (λ lease. AreSeedsValid self.old.history.entries lease.job)) }
        ensures lease { IfOk result
            (λ next. MatchOption next ⊤
            (λ lease. IsBooksLease self.new.run self.new.history lease.job lease.number)) }
        ensures same { OnErr result (IsSameRun self.old self.new) }
        ensures view { IfErr result (λ fault. fault ≡ NoView → self.new ≡ self.old) }
        ensures some { OnErr result ((d : ℕ) × CanBegin self.old.run self.old.history d) }
        ensures err { IfErr result (λ fault. (fault ≡ NoMemory) ⊎ (fault ≡ NoView)) }
    {
        let Some(d) = self.states.next() else {
            return Ok(None);
        };
        self.outlet.publish()?;
        let job = job_of(*self.events.allocator(), self.states.plan(), d)?;
        let number = self.given;
        self.events.push_reserved(Event::Begin(d, number));
        self.states.begin(d, number);
        self.given += 1;
        Ok(Some(Lease::new(job, number, self.outlet.tell())))
    }

    /// Ends a lease by registering what was built, with these records, by an entry that waits
    /// in the outlet. Each reference in them must be permitted to the lease's job after the
    /// journal's entries, if the lease is the book's.
    ///
    /// `ForeignLease` exactly where the lease isn't the book's. `NotLawful` only where it is and
    /// the derivation may not be registered with these records: there isn't one record for each
    /// output, an output is valid, a fixed output hasn't its declared digest, or two outputs lead
    /// to each other. `NoMemory` where memory is refused, which is asked for only where the lease
    /// is the book's and none of the first three reasons for `NotLawful` holds. A fault leaves the
    /// book as it was, and hands back lease and records. Compares the lease's job with the plan's
    /// derivation, asks the journal for each output and reference, and copies each record twice.
    pub fn finish(
        &mut self,
        lease: Lease<O::Told>,
        checked: Checked,
    ) -> Result<(), (BookFault, Lease<O::Told>, Checked)>
        requires { IsBooksLease self.old.run self.old.history lease.job lease.number
            → MayAllRefer self.old.history.entries lease.job checked }
        ensures ok { OnOk result (IsFinishing self.old self.new lease.job lease.number checked) }
        ensures fault { IfErr result
            (λ e. IsFinishFault self.old lease.job lease.number checked e.0) }
        ensures back { IfErr result (λ e. (e.1 ≡ lease) × (e.2 ≡ checked)) }
        ensures same { OnErr result (self.new ≡ self.old) }
    {
        match self.register(&lease, &checked) {
            Ok(()) => {
                lease.give_up();
                Ok(())
            }
            Err(fault) => Err((fault, lease, checked)),
        }
    }

    /// Ends a lease by noting that building its derivation failed, for this reason. Where the lease
    /// isn't the book's, and only there, it comes back, and the book stays. Compares the lease's
    /// job with the plan's derivation, and takes no memory.
    pub fn fail(&mut self, lease: Lease<O::Told>, reason: Reason) -> Result<(), Lease<O::Told>>
        ensures ok { OnOk result (IsFailing self.old self.new lease.job lease.number reason) }
        ensures foreign { OnErr result
            (IsBooksLease self.old.run self.old.history lease.job lease.number → ⊥) }
        ensures back { IfErr result (λ e. e ≡ lease) }
        ensures same { OnErr result (self.new ≡ self.old) }
    {
        let job = lease.job();
        let (d, number) = (job.derivation, lease.number());
        if !self.has_given(job, number) {
            return Err(lease);
        }
        self.events.push_reserved(Event::Fail(d, number, reason));
        self.states.fail(d, reason);
        lease.give_up();
        Ok(())
    }

    /// Ends a lease as `fail` does, since memory was refused to whoever builds its derivation.
    pub fn abandon(&mut self, lease: Lease<O::Told>) -> Result<(), Lease<O::Told>>
        ensures ok { OnOk result (IsFailing self.old self.new lease.job lease.number OutOfMemory) }
        ensures foreign { OnErr result
            (IsBooksLease self.old.run self.old.history lease.job lease.number → ⊥) }
        ensures back { IfErr result (λ e. e ≡ lease) }
        ensures same { OnErr result (self.new ≡ self.old) }
    {
        self.fail(lease, Reason::OutOfMemory)
    }

    /// The paths to which the outputs of a lease's job may refer, strictly rising: what its seeds
    /// lead to in the journal, and its own outputs. `ForeignLease` exactly where the lease isn't
    /// the book's, else `NoMemory` where memory is refused; no other fault. Costs the closure of
    /// the seeds, and a copy of each path.
    pub fn permitted(&self, lease: &Lease<O::Told>) -> Result<Vec<StorePath>, BookFault>
        ensures lease { OnOk result
            (IsBooksLease self.now.run self.now.history lease.now.job lease.now.number) }
        ensures ok { IfOk result
            (λ paths. ArePermittedPaths self.now.history.entries lease.now.job paths.items) }
        ensures err { IfErr result
            (λ fault.
            ((fault ≡ ForeignLease)
            × (IsBooksLease self.now.run self.now.history lease.now.job lease.now.number → ⊥))
            ⊎ ((fault ≡ NoMemory) × IsBooksLease self.now.run self.now.history lease.now.job
            lease.now.number)) }
    {
        let job = lease.job();
        if !self.has_given(job, lease.number()) {
            return Err(BookFault::ForeignLease);
        }
        Ok(permitted_to(*self.events.allocator(), &self.journal, job)?)
    }

    /// What the outlet tells of the list that it shows. The list is a beginning of the book's
    /// entries, and by it each path that a building derivation is built from is valid.
    pub fn tell(&self) -> O::Told
        ensures told { O.names result self.now.shown }
        ensures outlet { self.now.shown ++ self.now.pending ≡ self.now.history.entries }
        ensures is_journal { IsJournal self.now.history.entries }
        ensures seeds { BuildsOver self.now.run self.now.history self.now.shown }
    {
        self.outlet.tell()
    }

    /// The state of the derivation with this number.
    pub fn state(&self, d: usize) -> State
        requires { d < length self.now.run.graph.nodes }
        ensures { result ≡ state_in self.now.run self.now.history d }
    {
        self.states.state(d)
    }

    /// Whether no wanted derivation is blocked, ready or building.
    pub fn settled(&self) -> bool
        ensures { IsTrue result ↔ IsRunSettled self.now.run self.now.history }
    {
        self.states.settled()
    }

    /// Whether some wanted derivation is ready, so that `next` would begin one. Goes over none of
    /// them.
    pub fn can_begin(&self) -> bool
        ensures { IsTrue result ↔ ((d : ℕ) × CanBegin self.now.run self.now.history d) }
    {
        self.states.next().is_some()
    }

    /// How many wanted derivations are blocked, ready or building. Goes over none of them.
    pub fn unsettled(&self) -> usize
        ensures { HasCount (IsUnsettled self.now.run self.now.history) result }
    {
        self.states.unsettled()
    }

    /// How much work it was to find the states of derivations: one for each state that an event
    /// worked out, and one for each edge that it followed, from a derivation to one that waits for
    /// it as for an input, or as for the nearest of its earlier twins. That is one for each event,
    /// and two for each edge from a derivation that ended since the book opened. In a run it is at
    /// most twice its derivations, twice the pairs of a derivation and an input that its text
    /// names, and twice the derivations that have an earlier twin.
    pub fn steps(&self) -> u64
        ensures { result ≡ steps_in self.now.run self.now.history % 2 ^ 64 }
    {
        let events = self.events.len() as u64;
        let followed = self.states.followed_edges() as u64;
        events.wrapping_add(followed.wrapping_mul(2))
    }

    /// The report of the run, which is settled. For each wanted derivation, by path, it has a line:
    /// `built P`, `reused P`, `failed P: WHY` or `refused P: WHY`. Then for each root that was
    /// built or reused, in the order of the roots, it has a line `output O` for each of its
    /// outputs. Where a derivation failed since an output refers to a path to which it may not, WHY
    /// names that path, which `Reason::NotAllowed` gives by its index in the list of `permitted`,
    /// or the index where the list has no such index. An error where memory is refused, and no
    /// other. Costs one sort of the wanted derivations by path, for each derivation that failed so
    /// what `permitted` costs, and else time in proportion to the plan's derivations and the text.
    pub fn report(&self) -> Result<Vec<u8>, AllocError>
        requires { IsRunSettled self.now.run self.now.history }
        ensures ok { IfOk result (λ text. IsReportIn self.now.run self.now.history text.items) }
    {
        let alloc = *self.events.allocator();
        let named = named_paths(alloc, &self.states, &self.journal)?;
        let text = report_of(alloc, &self.states, &named)?;
        Ok(text)
    }

    /// The plan.
    pub fn plan(&self) -> &Plan
        ensures { result.now ≡ self.now.run.graph }
    {
        self.states.plan()
    }

    /// The system for which the run builds.
    pub fn system(&self) -> &System
        ensures { result.now ≡ self.now.run.system }
    {
        &self.system
    }

    /// The journal: the entries that the book opened with, then one for each derivation that was
    /// built.
    pub fn journal(&self) -> &Journal
        ensures entries { result.now.entries ≡ self.now.history.entries }
        ensures is_journal { IsJournal self.now.history.entries }
        ensures legal { IsLegal self.now.run self.now.history }
        ensures outlet { self.now.shown ++ self.now.pending ≡ self.now.history.entries }
    {
        &self.journal
    }

    /// Each Begin, Done and Fail, in order; a Done's records are its entry in the journal.
    pub fn events(&self) -> &[Event]
        ensures value { result.now ≡ self.now.history.events }
        ensures legal { IsLegal self.now.run self.now.history }
    {
        &self.events
    }

    /// How many of the journal's entries the book opened with: its first ones.
    pub fn opening(&self) -> usize
        ensures count { result ≡ length self.now.history.opening }
        ensures first { take result self.now.history.entries ≡ self.now.history.opening }
    {
        self.opening
    }

    /// Ends the book, and closes its outlet.
    pub fn close(self) {
        let Book {
            states: _states,
            system: _system,
            journal: _journal,
            opening: _,
            events: _events,
            given: _,
            outlet,
        } = self;
        outlet.close();
    }

    // Registers what was built under a lease, or leaves all as it was.
    fn register(&mut self, lease: &Lease<O::Told>, checked: &Checked) -> Result<(), BookFault>
        requires { IsBooksLease self.old.run self.old.history lease.now.job lease.now.number
            → MayAllRefer self.old.history.entries lease.now.job checked.now }
        ensures ok { OnOk result
            (IsFinishing self.old self.new lease.now.job lease.now.number checked.now) }
        ensures fault { IfErr result
            (IsFinishFault self.old lease.now.job lease.now.number checked.now) }
        ensures same { OnErr result (self.new ≡ self.old) }
    {
        let job = lease.job();
        let (d, number) = (job.derivation, lease.number());
        if !self.has_given(job, number) {
            return Err(BookFault::ForeignLease);
        }
        let alloc = *self.events.allocator();
        let prepared = PreparedEntry::new(
            alloc,
            self.states.plan(),
            d,
            checked,
            &mut self.journal,
        )?;
        let PreparedEntry { entry, copy, shown } = prepared;
        self.outlet.append(shown)?;
        self.journal.push_reserved(entry, copy);
        self.events.push_reserved(Event::Done(d, number));
        self.states.finish(d);
        Ok(())
    }

    // Whether a lease with this job and this number was given and not ended. Costs a comparison of
    // the job with the plan's derivation, and takes no memory.
    fn has_given(&self, job: &Job, number: u64) -> bool
        ensures { IsTrue result ↔ IsBooksLease self.now.run self.now.history job.now number }
    {
        let d = job.derivation;
        is_building(&self.states, d, number) && is_job(self.states.plan(), d, job)
    }
}

// Whether a derivation has begun under the lease with this number and not ended.
fn is_building(states: &StateTable, d: usize, number: u64) -> bool
    ensures { IsTrue result ↔ ((d < length states.now.graph.nodes)
        × (table_state states.now d ≡ Building number)) }
{
    if d >= states.plan().len() {
        return false;
    }
    match states.state(d) {
        State::Building(lease) => lease == number,
        _ => false,
    }
}
