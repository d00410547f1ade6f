//! Builders whose leases a trace notes.

use crate::observe::trace::Trace;
use crate::process::builders::Builders;
use crate::process::lease::LeaseTimes;
use crate::process::options::BuildOptions;
use build_outcome::{Answer, Build, Checked, Job, LeaseObserver, Prepared, Reason};
use nix_names::StorePath;
use std::alloc::{AllocError, Global};
use std::cell::Cell;
use std::sync::Wait;
use std::time::Clock;

/// A builder whose leases a trace notes, if one is wanted.
#[derive(Drop)]
pub struct Traced<'a, R, B> {
    rt: &'a R,
    builder: B,
    worker: usize,
    trace: Option<&'a Trace>,
}

impl<R: Wait + Clock + AllocGlobal, B: Build> Build for Traced<'_, R, B> {
    ghost may = { B.may };

    /// Builds a job as the builder does, and notes when that was.
    fn run(
        &self,
        number: u64,
        job: &Job,
        prepared: &Result<Prepared, Reason>,
    ) -> Result<Answer, Reason> {
        let start = self.time();
        let outcome = self.builder.run(number, job, prepared);
        self.note(number, start);
        outcome
    }

    /// Builds and examines a job as the builder does, and notes when that was.
    fn run_examined(
        &self,
        number: u64,
        job: &Job,
        prepared: &Result<Prepared, Reason>,
        permitted: &[StorePath],
    ) -> Result<Result<Checked, Reason>, Reason> {
        let start = self.time();
        let outcome = self.builder.run_examined(number, job, prepared, permitted);
        self.note(number, start);
        outcome
    }
}

impl<R: Wait + Clock + AllocGlobal, B> Traced<'_, R, B> {
    // The time, for the trace.
    fn time(&self) -> Option<u64> {
        Some(self.trace?.time(self.rt))
    }

    // Notes that the builder was asked to run at a time, and has answered now.
    fn note(&self, number: u64, start: Option<u64>) {
        let (Some(trace), Some(start)) = (self.trace, start) else {
            return;
        };
        let end = trace.time(self.rt);
        trace.note(self.rt, LeaseTimes::of(number, self.worker, start, end));
    }
}

impl<R: Wait + Clock + AllocGlobal, B: LeaseObserver> LeaseObserver for Traced<'_, R, B> {
    /// Tells the builder that a lease begins.
    fn begun(&self, number: u64, job: &Job, unsettled: usize) {
        self.builder.begun(number, job, unsettled);
    }

    /// Tells the builder that a lease has ended.
    fn ended(&self, number: u64, is_good: bool, unsettled: usize) {
        self.builder.ended(number, is_good, unsettled);
    }
}

/// Makes builders whose leases a trace notes, if one is wanted. The workers have numbers from 1 in
/// the order in which their builders are made.
#[derive(Drop)]
pub struct WithTrace<'a, R, M> {
    rt: &'a R,
    make: &'a M,
    trace: Option<&'a Trace>,
    // How many builders were made. It is in a cell, since `builder` counts by a shared reference.
    made: Cell<usize>,
}

impl<'a, R, M> WithTrace<'a, R, M> {
    /// Makes these builders, and notes their leases in this trace.
    pub fn new(rt: &'a R, make: &'a M, trace: Option<&'a Trace>) -> WithTrace<'a, R, M> {
        WithTrace {
            rt,
            make,
            trace,
            made: Cell::new(0),
        }
    }
}

impl<'a, R, M> Builders for WithTrace<'a, R, M>
where
    R: Wait + Clock + AllocGlobal + Sync,
    M: Builders,
{
    type Builder = Traced<'a, R, M::Builder>;

    ghost builds_in = { λ traced options. M.builds_in traced.builder options };

    fn builder(
        &self,
        alloc: Global,
        options: &BuildOptions<'_>,
    ) -> Result<Traced<'a, R, M::Builder>, AllocError> {
        let builder = self.make.builder(alloc, options)?;
        let worker = self.made.get().saturating_add(1);
        self.made.set(worker);
        Ok(Traced {
            rt: self.rt,
            builder,
            worker,
            trace: self.trace,
        })
    }
}
