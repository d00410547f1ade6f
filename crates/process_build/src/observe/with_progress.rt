//! Builders whose builds the line of progress tells.

use crate::observe::progress::ProgressLine;
use crate::observe::time::now;
use crate::process::builders::Builders;
use crate::process::drv_paths::DrvPaths;
use crate::process::lease::RunningLease;
use crate::process::options::BuildOptions;
use build_outcome::{Answer, Build, Checked, Job, LeaseObserver, Prepared, Reason};
use nix_names::StorePath;
use std::alloc::{AllocError, Global};
use std::io::Write;
use std::sync::Wait;
use std::time::Clock;

/// A builder whose builds the line of progress tells.
#[derive(Drop)]
pub struct Watched<'a, R, B, W> {
    rt: &'a R,
    builder: B,
    drvs: DrvPaths,
    progress: &'a ProgressLine<W>,
}

impl<R: Wait + Clock + AllocGlobal, B: Build, W: Write> Build for Watched<'_, R, B, W> {
    ghost may = { B.may };

    /// Builds a job as the builder does.
    fn run(
        &self,
        number: u64,
        job: &Job,
        prepared: &Result<Prepared, Reason>,
    ) -> Result<Answer, Reason> {
        self.builder.run(number, job, prepared)
    }

    /// Builds and examines a job as the builder does.
    fn run_examined(
        &self,
        number: u64,
        job: &Job,
        prepared: &Result<Prepared, Reason>,
        permitted: &[StorePath],
    ) -> Result<Result<Checked, Reason>, Reason> {
        self.builder.run_examined(number, job, prepared, permitted)
    }
}

impl<R: Wait + Clock + AllocGlobal, B: LeaseObserver, W: Write> LeaseObserver
    for Watched<'_, R, B, W> {
    /// Tells the line that a lease begins, and the builder.
    fn begun(&self, number: u64, job: &Job, unsettled: usize) {
        let drv = self.drvs.get(job.derivation);
        let running = RunningLease::of(self.rt.alloc(), drv, number, now(self.rt));
        self.progress.begin(self.rt, running, unsettled);
        self.builder.begun(number, job, unsettled);
    }

    /// Tells the line that a lease has ended, and the builder.
    fn ended(&self, number: u64, is_good: bool, unsettled: usize) {
        self.progress.finish(self.rt, number, is_good, unsettled);
        self.builder.ended(number, is_good, unsettled);
    }
}

/// Makes builders whose builds the line of progress tells.
#[derive(Drop)]
pub struct WithProgress<'a, R, M, W> {
    rt: &'a R,
    make: &'a M,
    progress: &'a ProgressLine<W>,
}

impl<'a, R, M, W> WithProgress<'a, R, M, W> {
    /// Makes these builders, and tells their builds by this line.
    pub fn new(rt: &'a R, make: &'a M, progress: &'a ProgressLine<W>) -> WithProgress<'a, R, M, W> {
        WithProgress { rt, make, progress }
    }
}

impl<'a, R, M, W> Builders for WithProgress<'a, R, M, W>
where
    R: Wait + Clock + AllocGlobal + Sync,
    M: Builders,
    W: Write + Send,
{
    type Builder = Watched<'a, R, M::Builder, W>;

    ghost builds_in = { λ watched options. M.builds_in watched.builder options };

    fn builder(
        &self,
        alloc: Global,
        options: &BuildOptions<'_>,
    ) -> Result<Watched<'a, R, M::Builder, W>, AllocError> {
        Ok(Watched {
            rt: self.rt,
            builder: self.make.builder(alloc, options)?,
            drvs: options.drvs.copy()?,
            progress: self.progress,
        })
    }
}
