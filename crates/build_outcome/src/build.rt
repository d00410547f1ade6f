//! Builders, and the calls by which a builder hears of the jobs of its worker.
ghost use Rattle.std.specs.Prelude.{◌≡◌, ◌⊎◌, IfErr, Result, Err};
ghost use Rattle.nix_names.specs.Rising.{IsRising};
ghost use Rattle.build_outcome.specs.declared.job.Answer.{Answer};
ghost use Rattle.build_outcome.specs.declared.job.Job.{Job};
ghost use Rattle.build_outcome.specs.declared.reason.Reason.{Reason};
ghost use Rattle.build_outcome.specs.declared.reason.Reason.TheVariants.{OutOfMemory};
ghost use Rattle.build_outcome.specs.Heard.{IsRunExamined};

use crate::checked_records::Checked;
use crate::job::{Answer, Job};
use crate::preparation::Prepared;
use crate::reason::Reason;
use nix_names::StorePath;

/// Builds what a job asks for.
pub trait Build {
    // The outcomes of a job, whichever builder of the type builds it: an exit status with what lies
    // at the outputs' paths, or the reason why there is none.
    ghost may: { Job → Result Answer Reason → Type 0 };

    /// Builds a job, whose lease has this number, by what was prepared for its start. Answers the
    /// exit status with what lies at each output's path, or the reason why there is no answer;
    /// `OutOfMemory` where memory was refused. Where nothing could be prepared, nothing is built,
    /// and the reason for that is answered.
    fn run(
        &self,
        number: u64,
        job: &Job,
        prepared: &Result<Prepared, Reason>,
    ) -> Result<Answer, Reason>
        ensures outcome { (result ≡ Err OutOfMemory) ⊎ may job.now result }
        ensures unprepared { IfErr prepared.now
            (λ why. (result ≡ Err OutOfMemory) ⊎ (result ≡ Err why)) };

    /// Builds a job as `run` does, and examines what lies at its outputs' paths, which may refer to
    /// these permitted paths alone: the verdict that `examine` has on an answer that may be given.
    /// The outer error is the reason why there is no answer.
    fn run_examined(
        &self,
        number: u64,
        job: &Job,
        prepared: &Result<Prepared, Reason>,
        permitted: &[StorePath],
    ) -> Result<Result<Checked, Reason>, Reason>
        requires { IsRising permitted.now }
        ensures outcome { IsRunExamined may job.now permitted.now result }
        ensures unprepared { IfErr prepared.now
            (λ why. (result ≡ Err OutOfMemory) ⊎ (result ≡ Err why)) };
}

/// Hears of the jobs that a worker runs. This is no part of building, and nothing is promised of
/// it. The calls have no default bodies, so that a builder around another builder can't forget to
/// pass them on.
pub trait LeaseObserver {
    /// Hears that a job is run next, under the lease with this number. `unsettled` is the number of
    /// wanted derivations that were blocked, ready or building once the lease was taken. No lock is
    /// held. Calls of other workers may come before this one, with newer numbers.
    fn begun(&self, number: u64, job: &Job, unsettled: usize);

    /// Hears that the lease with this number has ended, of which `begun` told. `is_good` says
    /// whether the outputs of its job were registered; `unsettled` is the number of wanted
    /// derivations that were blocked, ready or building then. No lock is held, as for `begun`.
    fn ended(&self, number: u64, is_good: bool, unsettled: usize);
}
