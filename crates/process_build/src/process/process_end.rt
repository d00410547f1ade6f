//! How a builder ended, and what it left behind. Only waiting for the builder makes these values.
ghost use Rattle.std.specs.Prelude.{◌≡◌, ◌↔◌, IfErr, IfOk, IsTrue, Ok, Some, pos};
ghost use Rattle.std.specs.Process.{child_status, exit_code};
ghost use Rattle.nix_names.specs.Rising.{IsRising};
ghost use Rattle.build_outcome.specs.Heard.{IsRunExamined};
ghost use Rattle.process_build.specs.Ends.{IsAnswerOf, MayEnd};
ghost use Rattle.process_build.specs.private.Answers.{IsReadingFault, answer_of};
ghost use Rattle.process_build.specs.private.HeardOutputs.{IsHeardBuild};

use crate::disk::heard_outputs::hear_outputs;
use crate::disk::outputs::read_outputs;
use build_outcome::{Answer, Checked, HeardOutput, Job, LeftOutput, Reason, examine_heard};
use nix_names::StorePath;
use std::alloc::Global;
use std::io;
use std::process::{Child, ExitStatus, OpenProcess};
use std::rt::Files;

/// How a process ended that was waited for. Waiting alone makes this value.
#[derive(Drop)]
pub struct ProcessEnd {
    status: ExitStatus,
}

impl ProcessEnd {
    /// Waits for a process.
    pub fn of<P: OpenProcess>(process: &mut Child<P>) -> io::Result<ProcessEnd>
        ensures { IfOk result (λ ended. child_status process.new ≡ Some ended.status) }
    {
        let status = process.wait()?;
        Ok(ProcessEnd { status })
    }

    /// Its exit status, none where a signal ended it.
    pub fn code(&self) -> Option<i32>
        ensures { result ≡ exit_code self.now.status }
    {
        self.status.code()
    }

    // Whether that is 0.
    fn is_good(&self) -> bool
        ensures { IsTrue result ↔ exit_code self.now.status ≡ Some (pos 0) }
    {
        matches!(self.code(), Some(0))
    }
}

/// What a builder that was waited for left behind.
#[derive(Drop)]
pub struct EndedBuild {
    ended: ProcessEnd,
    outputs: Vec<Option<LeftOutput>>,
}

impl EndedBuild {
    /// What a builder of a job left that ended so: if its exit status is 0, what lies at the
    /// outputs' paths.
    pub fn read<R: Files + AllocGlobal>(
        rt: &R,
        job: &Job,
        ended: ProcessEnd,
    ) -> Result<EndedBuild, Reason>
        ensures good { IfOk result (λ left. IsAnswerOf job.now (answer_of left)) }
        ensures bad { IfErr result IsReadingFault }
    {
        if ended.is_good() {
            let outputs = read_outputs(rt, job)?;
            return Ok(EndedBuild { ended, outputs });
        }
        let outputs = Vec::new(rt.alloc());
        Ok(EndedBuild { ended, outputs })
    }

    /// The answer to the builder's job.
    pub fn answer(self) -> Answer
        ensures { result ≡ answer_of self }
    {
        Answer {
            status: self.ended.code(),
            outputs: self.outputs,
        }
    }
}

/// What was heard of what a builder left behind that was waited for.
#[derive(Drop)]
pub struct HeardBuild {
    ended: ProcessEnd,
    outputs: Vec<Option<HeardOutput>>,
}

impl HeardBuild {
    /// What is heard of what a builder of a job left that ended so: if its exit status is 0, of
    /// what lies at the outputs' paths, which may refer to these permitted paths alone.
    pub fn hear<R: Files + AllocGlobal>(
        rt: &R,
        job: &Job,
        permitted: &[StorePath],
        ended: ProcessEnd,
    ) -> Result<HeardBuild, Reason>
        requires { IsRising permitted.now }
        ensures good { IfOk result (IsHeardBuild job.now permitted.now) }
        ensures bad { IfErr result IsReadingFault }
    {
        if ended.is_good() {
            let outputs = hear_outputs(rt, job, permitted)?;
            return Ok(HeardBuild { ended, outputs });
        }
        let outputs = Vec::new(rt.alloc());
        Ok(HeardBuild { ended, outputs })
    }

    /// The verdict on it.
    pub fn examined(
        self,
        alloc: Global,
        job: &Job,
        permitted: &[StorePath],
    ) -> Result<Checked, Reason>
        requires rising { IsRising permitted.now }
        requires heard { IsHeardBuild job.now permitted.now self }
        ensures { IsRunExamined MayEnd job.now permitted.now (Ok result) }
    {
        examine_heard(alloc, job, permitted, self.ended.code(), self.outputs)
    }
}
