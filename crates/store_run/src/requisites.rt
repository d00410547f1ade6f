//! The closures of a job's outputs, for the checks that ask for them.
ghost use Rattle.std.specs.Prelude.{◌≡◌, ◌<◌, IfErr, IfOk, OnOk, length, vec_capacity};
ghost use mathlib.Core.List.{IsPrefix};
ghost use Rattle.valid_table.specs.Entries.{paths_registered};
ghost use Rattle.valid_view.specs.Shown.{IsShowable};
ghost use Rattle.build_outcome.specs.Checks.{AreJobChecks};
ghost use Rattle.sched_core.specs.Books.{MayAllRefer};
ghost use Rattle.store_run.specs.private.JobVerdicts.{AreClosures, IsClosureAt, IsUnseen};

use crate::refusal::{RefusedCall, closure, records};
use build_outcome::{JobChecks, OutputClosure, OutputRoots, output_roots};
use nix_names::StorePath;
use sched_core::{Checked, Job, union_of};
use std::alloc::{AllocError, Global};
use valid_table::Registration;
use valid_view::{ListId, ViewReader};

// A job that was built: its checks, and the records of its outputs.
#[derive(Drop)]
pub(crate) struct BuiltJob<'a> {
    pub(crate) job: &'a Job,
    pub(crate) checks: &'a JobChecks,
    pub(crate) checked: &'a Checked,
}

impl BuiltJob<'_> {
    // The closure of each output, in the job's order, by the list that the reader sees in the end;
    // without paths where no check asks for it, and with records where its size is asked for.
    // Refused where memory is, or where the view is gone. Costs for each output what `output_roots`
    // costs, and a closure of what it and the outputs to which it leads refer to, with records where
    // they are given.
    pub(crate) fn closures<J: ListId>(
        &self,
        alloc: Global,
        reader: &mut ViewReader<J>,
    ) -> Result<Vec<OutputClosure>, RefusedCall>
        requires checks { AreJobChecks self.now.job.now self.now.checks.now }
        requires count { length self.now.checked.now ≡ length self.now.job.now.outputs.items }
        requires showable { IsShowable reader.old.seen }
        requires refers { MayAllRefer reader.old.seen self.now.job.now self.now.checked.now }
        ensures later { IsPrefix reader.old.seen reader.new.seen }
        ensures showable { OnOk result (IsShowable reader.new.seen) }
        ensures each { IfOk result (λ closures.
            AreClosures reader.new.seen self.now.job.now self.now.checked.now closures.items) }
        ensures all { IfOk result (λ closures.
            length closures.items ≡ length self.now.job.now.outputs.items) }
        ensures err { IfErr result IsUnseen }
    {
        let mut closures = Vec::with_capacity(alloc, self.job.outputs.len())?;
        for n in 0..self.job.outputs.len() {
            let closure = self.closure_asked(alloc, reader, n)?;
            closures.push_reserved(closure);
        }
        Ok(closures)
    }

    // What is asked for of the closure of the output with this number.
    fn closure_asked<J: ListId>(
        &self,
        alloc: Global,
        reader: &mut ViewReader<J>,
        n: usize,
    ) -> Result<OutputClosure, RefusedCall>
        requires checks { AreJobChecks self.now.job.now self.now.checks.now }
        requires count { length self.now.checked.now ≡ length self.now.job.now.outputs.items }
        requires within { n < length self.now.job.now.outputs.items }
        requires showable { IsShowable reader.old.seen }
        requires refers { MayAllRefer reader.old.seen self.now.job.now self.now.checked.now }
        ensures later { IsPrefix reader.old.seen reader.new.seen }
        ensures showable { OnOk result (IsShowable reader.new.seen) }
        ensures closure { IfOk result
            (IsClosureAt reader.new.seen self.now.job.now self.now.checked.now n) }
        ensures err { IfErr result IsUnseen }
    {
        if self.checks.asks_for_closure(self.job, n) {
            return self.closure_at(alloc, reader, n);
        }
        Ok(OutputClosure {
            paths: Vec::new(alloc),
            records: Vec::new(alloc),
        })
    }

    // The closure of the output with this number.
    fn closure_at<J: ListId>(
        &self,
        alloc: Global,
        reader: &mut ViewReader<J>,
        n: usize,
    ) -> Result<OutputClosure, RefusedCall>
        requires checks { AreJobChecks self.now.job.now self.now.checks.now }
        requires count { length self.now.checked.now ≡ length self.now.job.now.outputs.items }
        requires within { n < length self.now.job.now.outputs.items }
        requires showable { IsShowable reader.old.seen }
        requires refers { MayAllRefer reader.old.seen self.now.job.now self.now.checked.now }
        ensures later { IsPrefix reader.old.seen reader.new.seen }
        ensures showable { OnOk result (IsShowable reader.new.seen) }
        ensures closure { IfOk result
            (IsClosureAt reader.new.seen self.now.job.now self.now.checked.now n) }
        ensures err { IfErr result IsUnseen }
    {
        let OutputRoots { own, outside } = output_roots(alloc, self.job, self.checked, n)?;
        match self.checks.closure_limit(n) {
            Some(_) => {
                let records = records(alloc, reader, &outside)?;
                let reached = paths_of(alloc, &records)?;
                let paths = union_of(reached, own)?;
                Ok(OutputClosure { paths, records })
            }
            None => {
                let reached = closure(alloc, reader, &outside)?;
                let paths = union_of(reached, own)?;
                let records = Vec::new(alloc);
                Ok(OutputClosure { paths, records })
            }
        }
    }
}

// The paths of some registrations.
fn paths_of(alloc: Global, records: &[Registration]) -> Result<Vec<StorePath>, AllocError>
    ensures paths { IfOk result (λ paths. paths.items ≡ paths_registered records.now) }
    ensures room { IfOk result (λ paths. vec_capacity paths ≡ length records.now) }
{
    let mut paths = Vec::with_capacity(alloc, records.len())?;
    for record in records {
        paths.push_reserved(record.path.copy(alloc)?);
    }
    Ok(paths)
}
