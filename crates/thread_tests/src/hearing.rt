//! Workers that note what they do, in one order: each call of the run's lock, and what their
//! builders hear and do.
ghost use Rattle.std.specs.Prelude.{⊤};

use crate::plans::left;
use build_outcome::{Checked, Prepared, examined};
use nix_names::StorePath;
use sched_core::{Answer, Build, Job, LeaseObserver, Reason};
use std::alloc::Global;
use std::sync::{Mutex, Wait};
use std::test::Fail;
use std::thread;
use std::time::{Clock, Duration};
use store_run::{Listen, LockCall};
use valid_table::OutletFault;

/// What a worker does.
#[derive(Clone, Copy, Debug, PartialEq, Eq)]
pub(crate) enum Act {
    /// It calls the run's lock.
    Lock(LockCall),
    /// Its builder hears that the job of a derivation is run next, under the lease with this
    /// number, and how many derivations are unsettled.
    Begins(usize, u64, usize),
    /// Its builder runs the job of a derivation, under the lease with this number.
    Runs(usize, u64),
    /// Its builder hears that the lease with this number has ended, whether the job's outputs were
    /// registered, and how many derivations are unsettled.
    Ends(u64, bool, usize),
    /// It has ended.
    Leaves,
}

/// What the workers of a run do, in order, each with its number.
pub(crate) type Acts = Vec<(usize, Act)>;

/// Waits at most ten seconds until an act was noted so often, and says whether it was.
pub(crate) fn awaits<R: Wait + Clock>(rt: &R, log: &Mutex<Acts>, act: Act, times: usize) -> bool {
    for _ in 0..10_000 {
        if count(&log.lock(rt), act) >= times {
            return true;
        }
        thread::sleep(rt, Duration::from_millis(1));
    }
    false
}

/// How often an act was noted.
pub(crate) fn count(acts: &[(usize, Act)], act: Act) -> usize {
    acts.iter().filter(|(_, known)| *known == act).count()
}

/// What one worker did, in order, as a text.
pub(crate) fn text_of(alloc: Global, acts: &[(usize, Act)], worker: usize) -> Result<String, Fail> {
    let mut text = String::new(alloc);
    for (by, act) in acts {
        if *by == worker {
            write!(text, "{act:?} ")?;
        }
    }
    Ok(text)
}

/// The builder of the lease with this number ends once an act was noted so often.
pub(crate) type Gate = (u64, Act, usize);

/// A gate of a lease that opens once workers have waited so often.
pub(crate) fn waiting(lease: u64, times: usize) -> Gate {
    (lease, Act::Lock(LockCall::Waits), times)
}

/// What becomes of the view of a run.
#[derive(Clone, Copy, Debug, PartialEq, Eq)]
pub(crate) enum View {
    /// It shows all that is registered.
    Whole,
    /// It has no memory for what is registered.
    Full,
    /// It shows nothing more, for this fault.
    Stuck(OutletFault),
    /// It is gone before the first lease.
    Gone,
}

/// How a run is made: by how many workers, and over which view; for which derivations, of each 64
/// by a bit, builders have no answer, and why; and their gates.
#[derive(Clone, Copy)]
pub(crate) struct Behaviour<'a> {
    pub workers: usize,
    pub view: View,
    pub failing: u64,
    pub reason: Reason,
    pub gates: &'a [Gate],
}

/// By so many workers over a whole view, where these derivations fail, and with these gates.
pub(crate) fn by(workers: usize, failing: u64, gates: &[Gate]) -> Behaviour<'_> {
    let (view, reason) = (View::Whole, Reason::ExitStatus(7));
    Behaviour {
        workers,
        view,
        failing,
        reason,
        gates,
    }
}

impl Behaviour<'_> {
    /// A builder's answer.
    pub(crate) fn answer(&self, alloc: Global, job: &Job) -> Result<Answer, Reason> {
        if self.failing >> (job.derivation % 64) & 1 == 1 {
            return Err(self.reason);
        }
        Ok(left(alloc, job)?)
    }
}

/// A worker's handle, and its builder.
#[derive(Drop)]
pub(crate) struct Worker<'a, R> {
    pub rt: &'a R,
    pub alloc: Global,
    pub log: &'a Mutex<Acts>,
    pub number: usize,
    pub behaviour: Behaviour<'a>,
}

impl<R: Wait> Worker<'_, R> {
    // Notes what the worker does, unless memory is refused or too much was noted.
    fn note(&self, act: Act) {
        let mut acts = self.log.lock(self.rt);
        if acts.len() < 100_000 {
            let _ = acts.push((self.number, act));
        }
    }
}

/// What a worker does before its first turn, and after its last one.
pub(crate) trait Comes {
    /// Waits until the worker may take its first turn.
    fn comes<R: Wait + Clock>(&self, rt: &R);

    /// The worker has ended.
    fn leaves(&self);
}

// The first worker takes a turn before the others.
impl<R: Wait> Comes for Worker<'_, R> {
    fn comes<S: Wait + Clock>(&self, rt: &S) {
        if self.number > 0 {
            let _ = awaits(rt, self.log, Act::Lock(LockCall::Freed), 1);
        }
    }

    fn leaves(&self) {
        self.note(Act::Leaves);
    }
}

impl<R: Wait> Wait for Worker<'_, R> {}

impl<R: Wait> Listen for Worker<'_, R> {
    fn hear(&self, call: LockCall) {
        self.note(Act::Lock(call));
    }
}

impl<R: Wait + Clock> Build for Worker<'_, R> {
    ghost may = { λ job outcome. ⊤ };

    fn run(
        &self,
        number: u64,
        job: &Job,
        prepared: &Result<Prepared, Reason>,
    ) -> Result<Answer, Reason> {
        self.note(Act::Runs(job.derivation, number));
        if let Err(why) = prepared {
            return Err(*why);
        }
        for (lease, act, times) in self.behaviour.gates {
            if *lease == number && !awaits(self.rt, self.log, *act, *times) {
                return Err(Reason::ExitStatus(99));
            }
        }
        self.behaviour.answer(self.alloc, job)
    }

    fn run_examined(
        &self,
        number: u64,
        job: &Job,
        prepared: &Result<Prepared, Reason>,
        permitted: &[StorePath],
    ) -> Result<Result<Checked, Reason>, Reason> {
        let outcome = self.run(number, job, prepared);
        examined(self.alloc, job, permitted, outcome)
    }
}

impl<R: Wait> LeaseObserver for Worker<'_, R> {
    fn begun(&self, number: u64, job: &Job, unsettled: usize) {
        self.note(Act::Begins(job.derivation, number, unsettled));
    }

    fn ended(&self, number: u64, is_good: bool, unsettled: usize) {
        self.note(Act::Ends(number, is_good, unsettled));
    }
}
