//! Runs over the plan of the definitions' example of a whole run, by the example's builder.
ghost use Rattle.std.specs.Prelude.{◌≡◌, ℕ, Result};
ghost use Rattle.build_outcome.specs.declared.job.Answer.{Answer as Given};
ghost use Rattle.build_outcome.specs.declared.reason.Reason.{Reason as Why};
ghost use Rattle.store_run.specs.GivenOutcomes.{IsDecided};
ghost use Rattle.store_run.specs.ScheduleExample.{both, in_turn, may_leave, side_by_side};
ghost use Rattle.store_run.specs.Scheduling.{AreAlike};

use crate::plans::{Host, Made, SYSTEM, store_dir};
use build_outcome::{Checked, Prepared, examined};
use drv_graph::Plan;
use nix_names::{StorePath, parse_path};
use ref_scan::Tree;
use run_states::System;
use sched_core::{Answer, Book, Build, Job, LeaseObserver, LeftOutput, Reason};
use std::alloc::{AllocError, Global};
use std::marker::Brand;
use std::sync::Wait;
use std::test::*;
use store_run::laws::{any_schedule, builds_may_overlap, outcomes_decide};
use store_run::{RunFault, RunResult, realise};
use valid_table::{Journal, Outlet};
use valid_view::{ListId, Name};

// The paths were computed with Python's hashlib.
const LEFT: &[u8] = b"/nix/store/jbgzpvl5d32l046pn5l2g0zdhnnw9lvb-left.drv";

const LEFT_TEXT: &[u8] =
    b"Derive([(\"out\",\"/nix/store/7i5zz7smgzka8dky51y14cz7qmvmkgni-left\",\"\",\"\")],[],[],\"x86_64-linux\",\"/bin/false\",[],[(\"builder\",\"/bin/false\"),(\"name\",\"left\"),(\"out\",\"/nix/store/7i5zz7smgzka8dky51y14cz7qmvmkgni-left\"),(\"system\",\"x86_64-linux\")])";

const RIGHT: &[u8] = b"/nix/store/m03z95idp2zpb6jp4mgsl7hrcw1lprr8-right.drv";

const RIGHT_TEXT: &[u8] =
    b"Derive([(\"out\",\"/nix/store/p97i2xxx6v7p6xyy2x3cky78y1s290zm-right\",\"\",\"\")],[],[],\"x86_64-linux\",\"/bin/sh\",[\"-c\",\"/bin/mkdir $out\"],[(\"builder\",\"/bin/sh\"),(\"name\",\"right\"),(\"out\",\"/nix/store/p97i2xxx6v7p6xyy2x3cky78y1s290zm-right\"),(\"system\",\"x86_64-linux\")])";

const REPORT: &[u8] =
    b"failed /nix/store/jbgzpvl5d32l046pn5l2g0zdhnnw9lvb-left.drv: ExitStatus(1)\nbuilt /nix/store/m03z95idp2zpb6jp4mgsl7hrcw1lprr8-right.drv\noutput /nix/store/p97i2xxx6v7p6xyy2x3cky78y1s290zm-right\n";

/// A builder for which `/bin/false` fails, and any other program makes an empty folder, which only
/// its owner may write.
#[derive(Drop)]
struct Program {
    alloc: Global,
}

impl Build for Program {
    ghost may = { may_leave };

    // Its jobs ask for nothing that could not be prepared, but where memory was refused.
    fn run(
        &self,
        _number: u64,
        job: &Job,
        prepared: &Result<Prepared, Reason>,
    ) -> Result<Answer, Reason> {
        if prepared.is_err() {
            return Err(Reason::OutOfMemory);
        }
        if job.builder.as_slice() == b"/bin/false".as_slice() {
            return Ok(Answer {
                status: Some(1),
                outputs: Vec::new(self.alloc),
            });
        }
        let mut outputs = Vec::new(self.alloc);
        outputs.push(Some(LeftOutput {
            tree: Tree::Dir(Vec::new(self.alloc)),
            others_may_write: false,
        }))?;
        Ok(Answer {
            status: Some(0),
            outputs,
        })
    }

    fn run_examined(
        &self,
        number: u64,
        job: &Job,
        prepared: &Result<Prepared, Reason>,
        permitted: &[StorePath],
    ) -> Result<Result<Checked, Reason>, Reason> {
        let outcome = self.run(number, job, prepared);
        examined(self.alloc, job, permitted, outcome)
    }
}

impl LeaseObserver for Program {
    fn begun(&self, _number: u64, _job: &Job, _unsettled: usize) {}

    fn ended(&self, _number: u64, _is_good: bool, _unsettled: usize) {}
}

// The law at this builder: both histories of the example are alike.
fn alike()
    ensures { AreAlike both side_by_side in_turn }
{
    any_schedule::<Program>();
    builds_may_overlap();
}

// The law at this builder: the outcomes that were given decide the example's history.
fn decided()
    ensures { (outcomes : ℕ → Result Given Why) × IsDecided may_leave both side_by_side outcomes }
{
    outcomes_decide::<Program>();
    builds_may_overlap();
}

fn plan(alloc: Global) -> Result<Plan, Fail> {
    let dir = store_dir(alloc)?;
    let mut made = Made::new(alloc);
    for (path, text) in [(LEFT, LEFT_TEXT), (RIGHT, RIGHT_TEXT)] {
        made.push_text(alloc, parse_path(alloc, &dir, path)?, text)?;
    }
    made.plan(alloc)
}

fn programs(alloc: Global, count: usize) -> Result<Vec<Program>, AllocError> {
    let mut programs = Vec::new(alloc);
    for _ in 0..count {
        programs.push(Program { alloc })?;
    }
    Ok(programs)
}

// The report of a book that is settled.
fn report_of<O: Outlet>(book: &Book<O>) -> Result<Vec<u8>, RunFault> {
    if !book.settled() {
        return Err(RunFault::ThreadFault);
    }
    Ok(book.report()?)
}

// The report of a run that went to its end, or why it didn't. Its book is closed.
fn report_at_end<J: ListId + Send, R: Wait>(ended: RunResult<J, R>) -> Result<Vec<u8>, RunFault> {
    match ended {
        Ok(book) => {
            let report = report_of(&book);
            book.close();
            report
        }
        Err((fault, Some(book))) => {
            book.close();
            Err(fault)
        }
        Err((fault, None)) => Err(fault),
    }
}

// The report of a run over an empty journal and a view of this name.
fn run_named<J: ListId + Send + Sync, R: Host>(
    rt: &R,
    alloc: Global,
    name: Name,
    plan: &Plan,
    builders: Vec<Program>,
) -> Result<Vec<u8>, RunFault>
    requires { name ≡ J.book }
{
    let journal = Journal::new(alloc);
    let system = System::named(alloc, SYSTEM)?;
    let ended: RunResult<J, R> = realise(rt, alloc, name, plan, &journal, &system, builders);
    report_at_end(ended)
}

// The report of a run by so many workers.
fn realised<R: Host>(rt: &R, alloc: Global, plan: &Plan, count: usize) -> Result<Vec<u8>, Fail> {
    let builders = programs(alloc, count)?;
    Ok(run_named::<Brand, _>(rt, alloc, Name::new(), plan, builders)?)
}

// One worker and two workers give the example's report.
#[test]
fn report_of_the_example(rt: HostRuntime) -> Result<(), Fail> {
    alike();
    decided();
    let plan = plan(rt.alloc())?;
    for workers in [1, 2] {
        let report = realised(&rt, rt.alloc(), &plan, workers)?;
        assert_eq!(rt; report.as_slice(), REPORT);
    }
    Ok(())
}
