//! A builder that runs a job's program as a process.
ghost use Rattle.std.specs.Prelude.{◌≡◌, ◌⊎◌, Err, IfErr, IfOk, Some, map, option_map, slice_get};
ghost use Rattle.std.specs.Prelude.{string_bytes};
ghost use Rattle.nix_drv.specs.Parts.{entry_of};
ghost use Rattle.nix_names.specs.Rising.{IsRising};
ghost use Rattle.build_outcome.specs.Heard.{IsRunExamined};
ghost use Rattle.process_build.specs.Ends.{IsAnswerOf};
ghost use Rattle.process_build.specs.private.HeardOutputs.{IsHeardBuild};
ghost use Rattle.process_build.specs.private.Answers.{answer_of, may_have_run, IsReadingFault};
ghost use Rattle.process_build.specs.private.Answers.{IsRoomFault, IsRunFault};
ghost use Rattle.process_build.specs.Options.{AreOptionsOf};
ghost use Rattle.process_build.specs.private.Preparations.{AreAround, IsFolderOf, IsLogOf};
ghost use Rattle.process_build.specs.private.Preparations.{IsPreparationOf};
ghost use Rattle.process_build.specs.private.BuilderCalls.{Runs};
ghost use Rattle.build_outcome.specs.declared.reason.Reason.TheVariants.{OutOfMemory};

use crate::disk::cleanup::Cleanup;
use crate::disk::folders::BuildFolder;
use crate::disk::fresh_folders::fresh_folder;
use crate::disk::logs::{LogPath, Logs, OutputStreams};
use crate::disk::setup_files::write_files;
use crate::process::builders::Builders;
use crate::process::caller::caller_entries;
use crate::process::options::{BuildOptions, OwnOptions};
use crate::process::process_end::{EndedBuild, HeardBuild, ProcessEnd};
use crate::process::setup::{Setup, SetupFile};
use crate::process::start::{command, run_command};
use crate::process::surroundings::Surroundings;
use crate::reasons::{no_start, reason_before_start};
use build_outcome::{Answer, Build, Checked, Job, LeaseObserver, Prepared, Reason};
use drv_graph::Profile;
use nix_drv::EnvEntry;
use nix_names::StorePath;
use std::alloc::{AllocError, Global};
use std::cell::Cell;
use std::env::Env;
use std::fs;
use std::process::{Command, Processes};
use std::rt::Files;
use std::sync::Wait;

/// Builds each job by a process of its own, in a folder of its own: under `plain` within the store
/// folder, under `nix` within the folder for build folders, made with mode 0700 where nothing lay.
///
/// The job's output paths are cleared first, and under `plain` the build folder's: a file, a link
/// or an empty folder is removed, anything else is moved aside. The builder then runs in the build
/// folder, with the setup of the job's profile. Its standard input is empty, and what it prints
/// goes to its log, or is not shown. If its exit status is 0, what it left at the output paths is
/// read. At the end the build folder is cleared in the same way, and what was moved aside is
/// removed. Where the folders of builders that failed are kept, that of a builder that ran waits
/// for the end of the lease.
#[derive(Drop)]
pub struct ProcessBuild<'a, R, P> {
    rt: &'a R,
    processes: &'a P,
    options: OwnOptions,
    // The build folder of a builder that ran, whose lease hasn't ended. It is in a cell, since
    // `run` leaves it for `ended`, and both have `self` by a shared reference.
    left: Cell<Option<BuildFolder>>,
}

// What is made for a lease before anything is changed.
#[derive(Drop)]
struct Preparation<'a> {
    setup: Setup<'a>,
    log: Option<LogPath>,
}

/// A builder that was run in a folder: how it ended, or why it didn't.
#[derive(Drop)]
pub struct EndedRun {
    folder: BuildFolder,
    ended: Result<ProcessEnd, Reason>,
}

impl<'a, R, P> ProcessBuild<'a, R, P> {
    /// Builds by these options, with the files and memory of a runtime and these processes. Want of
    /// memory is the only error.
    pub fn new(
        alloc: Global,
        rt: &'a R,
        processes: &'a P,
        options: &BuildOptions<'_>,
    ) -> Result<ProcessBuild<'a, R, P>, AllocError>
        ensures { IfOk result (λ build. AreOptionsOf options.now build.options) }
    {
        Ok(ProcessBuild {
            rt,
            processes,
            options: OwnOptions::of(alloc, options)?,
            left: Cell::new(None),
        })
    }
}

/// Makes builders that build by processes.
#[derive(Drop)]
pub struct ProcessBuilders<'a, R, P> {
    rt: &'a R,
    processes: &'a P,
}

impl<'a, R, P> ProcessBuilders<'a, R, P> {
    /// With the files and memory of a runtime and these processes.
    pub fn new(rt: &'a R, processes: &'a P) -> ProcessBuilders<'a, R, P> {
        ProcessBuilders { rt, processes }
    }
}

impl<'a, R, P> Builders for ProcessBuilders<'a, R, P>
where
    R: Files + Logs + Env + AllocGlobal + Wait + Sync,
    P: Processes + Sync,
{
    type Builder = ProcessBuild<'a, R, P>;

    ghost builds_in = { λ build options. AreOptionsOf options build.options };

    fn builder(
        &self,
        alloc: Global,
        options: &BuildOptions<'_>,
    ) -> Result<ProcessBuild<'a, R, P>, AllocError> {
        ProcessBuild::new(alloc, self.rt, self.processes, options)
    }
}

impl<R: Files + Logs + Env + AllocGlobal, P: Processes> Build for ProcessBuild<'_, R, P> {
    ghost use Rattle.process_build.specs.Ends.{MayAnswer, MayEnd};

    // No more is promised of what a builder does.
    ghost may = { MayAnswer };

    /// Builds a job. `NoStart` where it has a text that no process can be started with, which
    /// leaves all files as they are, or where making room for the builder, its log or its start
    /// fails. `ReadFault` where its end can't be waited for. `ReadFault` and `TooLarge` where an
    /// output can't be read or passes a limit. `OutOfMemory` where memory was refused. Where
    /// nothing could be prepared, the reason for that, and all files stay as they are.
    fn run(
        &self,
        number: u64,
        job: &Job,
        prepared: &Result<Prepared, Reason>,
    ) -> Result<Answer, Reason>
        ensures outcome { (result ≡ Err OutOfMemory) ⊎ MayAnswer job.now result }
        ensures unprepared { IfErr prepared.now
            (λ why. (result ≡ Err OutOfMemory) ⊎ (result ≡ Err why)) }
        ensures prepared { IfOk prepared.now
            (λ _. (result ≡ Err OutOfMemory) ⊎ MayEnd job.now result) }
    {
        let prepared = match prepared {
            Ok(prepared) => prepared,
            Err(why) => return Err(*why),
        };
        let mut clearing = Cleanup::new(self.rt, self.options.store_dir());
        let EndedRun { folder, ended } = self.start(number, job, prepared, &mut clearing)?;
        let left = self.read(job, ended);
        self.leave(folder, may_have_run(&left));
        clearing.finish();
        Ok(left?.answer())
    }

    /// Reads what lies at each output's path once, and keeps no file's bytes. `ReadFault` also where
    /// a file has another length when its reading ends than it had when it began, or an archive that
    /// is asked for has 2^63 bytes or more.
    fn run_examined(
        &self,
        number: u64,
        job: &Job,
        prepared: &Result<Prepared, Reason>,
        permitted: &[StorePath],
    ) -> Result<Result<Checked, Reason>, Reason>
        requires { IsRising permitted.now }
        ensures outcome { IsRunExamined MayAnswer job.now permitted.now result }
        ensures unprepared { IfErr prepared.now
            (λ why. (result ≡ Err OutOfMemory) ⊎ (result ≡ Err why)) }
        ensures prepared { IfOk prepared.now
            (λ _. IsRunExamined MayEnd job.now permitted.now result) }
    {
        let prepared = match prepared {
            Ok(prepared) => prepared,
            Err(why) => return Err(*why),
        };
        let mut clearing = Cleanup::new(self.rt, self.options.store_dir());
        let EndedRun { folder, ended } = self.start(number, job, prepared, &mut clearing)?;
        let heard = self.hear(job, permitted, ended);
        self.leave(folder, may_have_run(&heard));
        clearing.finish();
        Ok(heard?.examined(self.rt.alloc(), job, permitted))
    }
}

impl<R: Files + AllocGlobal + Wait, P> LeaseObserver for ProcessBuild<'_, R, P> {
    fn begun(&self, _number: u64, _job: &Job, _unsettled: usize) {}

    /// Clears the build folder that waits for the end of its lease, or keeps it, if the build
    /// failed.
    fn ended(&self, _number: u64, is_good: bool, _unsettled: usize) {
        match self.left.take() {
            Some(left) if is_good => self.clear(&left),
            Some(left) => self.note_kept_folder(&left),
            None => {}
        }
    }
}

// Whether a builder may have run that left this. A want of memory is no fault of the builder.
fn may_have_run<T>(left: &Result<T, Reason>) -> bool
    ensures { result ≡ may_have_run left.now }
{
    !matches!(left, Err(Reason::NoStart | Reason::OutOfMemory))
}

impl<R: Files + Logs + Env + AllocGlobal, P: Processes> ProcessBuild<'_, R, P> {
    // Runs the builder of a job in a folder that is made for it. An error where that isn't begun.
    fn start(
        &self,
        number: u64,
        job: &Job,
        prepared: &Prepared,
        clearing: &mut Cleanup<'_, R>,
    ) -> Result<EndedRun, Reason>
        ensures ended { IfOk result (λ run. IfErr run.ended IsRunFault) }
        ensures err { IfErr result IsRoomFault }
    {
        let caller = caller_entries(self.rt, job, prepared)?;
        let folder = self.folder_of(number, job)?;
        let preparation = self.prepare_or_remove(&folder, &caller, job, prepared)?;
        let ended = self.build(preparation, &folder, job, clearing);
        Ok(EndedRun { folder, ended })
    }
}

impl<R: Files + AllocGlobal, P> ProcessBuild<'_, R, P> {
    // Clears a build folder, within the folder in which it is. It may be that it can't be removed.
    fn clear(&self, left: &BuildFolder) {
        let mut clearing = Cleanup::new(self.rt, left.dir());
        let _ = clearing.clear(left.path());
        clearing.finish();
    }
}

impl<R: Files + AllocGlobal + Wait, P> ProcessBuild<'_, R, P> {
    // Adds a build folder to the list of those that are kept, unless nothing lies there. The list
    // has room for every derivation of the run.
    fn note_kept_folder(&self, left: &BuildFolder) {
        let Some(kept) = self.options.kept() else {
            return;
        };
        if fs::symlink_metadata(self.rt, left.path()).is_ok() {
            let _ = kept.note(self.rt, left);
        }
    }
}

impl<R: Files + Logs + AllocGlobal, P: Processes> ProcessBuild<'_, R, P> {
    // The path of a job's derivation.
    fn drv_of(&self, job: &Job) -> Result<&StorePath, Reason>
        ensures ok { IfOk result (λ drv.
            slice_get self.now.options.drvs job.now.derivation ≡ Some drv.now) }
        ensures err { IfErr result IsRoomFault }
    {
        match self.options.drvs().get(job.derivation) {
            Some(drv) => Ok(drv),
            None => Err(Reason::NoStart),
        }
    }

    // The path of the log of a job's builder, if logs are kept.
    fn log_of(&self, job: &Job) -> Result<Option<LogPath>, Reason>
        ensures ok { IfOk result (IsLogOf self.now.options job.now.derivation) }
        ensures err { IfErr result IsRoomFault }
    {
        let Some(logs) = self.options.logs() else {
            return Ok(None);
        };
        let drv = self.drv_of(job)?;
        let log = LogPath::of(self.rt.alloc(), logs, self.options.store_dir(), drv)?;
        Ok(Some(log))
    }

    // The build folder of the lease with this number. Under `nix` it is made.
    fn folder_of(&self, number: u64, job: &Job) -> Result<BuildFolder, Reason>
        ensures ok { IfOk result (IsFolderOf self.now.options number job.now job.now.profile) }
        ensures err { IfErr result IsRoomFault }
    {
        match job.profile {
            Profile::Plain => {
                let store_dir = self.options.store_dir();
                Ok(BuildFolder::new(self.rt.alloc(), store_dir, number)?)
            }
            Profile::Nix => {
                let drv = self.drv_of(job)?;
                fresh_folder(self.rt, self.options.build_dir(), drv, number)
            }
        }
    }

    // What is made before anything is changed for a builder that runs in a folder, where the
    // caller's environment has these entries.
    fn prepare<'j>(
        &'j self,
        folder: &'j BuildFolder,
        caller: &'j [EnvEntry],
        job: &'j Job,
        prepared: &'j Prepared,
    ) -> Result<Preparation<'j>, Reason>
        ensures ok { IfOk result (IsPreparationOf self.now.options folder.now
            (map entry_of caller.now) job.now prepared.now) }
        ensures err { IfErr result IsRoomFault }
    {
        let around = self.around(folder, caller);
        let setup = Setup::of(self.rt.alloc(), &around, job, prepared)?;
        let log = self.log_of(job)?;
        Ok(Preparation { setup, log })
    }

    // What is made before anything is changed for a builder. Where that fails, the folder is
    // removed that was made under `nix`.
    fn prepare_or_remove<'j>(
        &'j self,
        folder: &'j BuildFolder,
        caller: &'j [EnvEntry],
        job: &'j Job,
        prepared: &'j Prepared,
    ) -> Result<Preparation<'j>, Reason>
        ensures ok { IfOk result (IsPreparationOf self.now.options folder.now
            (map entry_of caller.now) job.now prepared.now) }
        ensures err { IfErr result IsRoomFault }
    {
        match self.prepare(folder, caller, job, prepared) {
            Ok(preparation) => Ok(preparation),
            Err(reason) => {
                self.give_back(folder, job.profile);
                Err(reason)
            }
        }
    }

    // Removes a folder that was made under `nix` and in which nothing lies yet.
    fn give_back(&self, folder: &BuildFolder, profile: Profile) {
        match profile {
            Profile::Plain => {}
            Profile::Nix => {
                let _ = fs::remove_dir(self.rt, folder.path());
            }
        }
    }

    // What the setup of a builder depends on that runs in a folder.
    fn around<'s>(&'s self, folder: &'s BuildFolder, caller: &'s [EnvEntry]) -> Surroundings<'s>
        ensures { AreAround self.now.options folder.now (map entry_of caller.now) result }
    {
        Surroundings {
            store_dir: self.options.store_dir(),
            folder: folder.path(),
            cores: self.options.cores(),
            caller,
            builtins: self.options.builtins(),
        }
    }

    // Leaves the build folder of a builder that may have run until the end of the lease, if the
    // folders of builders that failed are kept, and else clears it. The answer stands, whether the
    // folder can be removed or not.
    fn leave(&self, folder: BuildFolder, may_have_run: bool) {
        if may_have_run && self.options.kept().is_some() {
            self.left.set(Some(folder));
        } else {
            self.clear(&folder);
        }
    }

    // Makes room, and runs the builder.
    fn build(
        &self,
        preparation: Preparation<'_>,
        folder: &BuildFolder,
        job: &Job,
        clearing: &mut Cleanup<'_, R>,
    ) -> Result<ProcessEnd, Reason>
        ensures { IfErr result IsRunFault }
    {
        self.make_room(folder, &preparation.setup.files, job, clearing)?;
        let streams = OutputStreams::to(self.rt, self.rt, preparation.log.as_ref())?;
        let mut command = self.command(&preparation.setup, folder, streams)?;
        run_command(self.processes, &mut command)
    }

    // What the builder of a job left, by how it ended, or why it didn't.
    fn read(&self, job: &Job, ended: Result<ProcessEnd, Reason>) -> Result<EndedBuild, Reason>
        requires { IfErr ended IsRunFault }
        ensures good { IfOk result (λ left. IsAnswerOf job.now (answer_of left)) }
        ensures bad { IfErr result (λ reason. IsRunFault reason ⊎ IsReadingFault reason) }
    {
        EndedBuild::read(self.rt, job, ended?)
    }

    // What is heard of what the builder of a job left, by how it ended, or why it didn't.
    fn hear(
        &self,
        job: &Job,
        permitted: &[StorePath],
        ended: Result<ProcessEnd, Reason>,
    ) -> Result<HeardBuild, Reason>
        requires rising { IsRising permitted.now }
        requires ended { IfErr ended IsRunFault }
        ensures good { IfOk result (IsHeardBuild job.now permitted.now) }
        ensures bad { IfErr result (λ reason. IsRunFault reason ⊎ IsReadingFault reason) }
    {
        HeardBuild::hear(self.rt, job, permitted, ended?)
    }

    // The command that runs a builder with its setup in a folder, with these outputs, by the runner
    // of the options, where there is one.
    fn command(
        &self,
        setup: &Setup<'_>,
        folder: &BuildFolder,
        outputs: OutputStreams<'_>,
    ) -> Result<Command, AllocError>
        ensures { IfOk result (Runs (option_map string_bytes self.now.options.runner) setup.now
            (string_bytes folder.now.path)) }
    {
        let runner = self.options.runner();
        command(self.rt.alloc(), runner, folder, setup, outputs)
    }

    // Clears the paths of the job's outputs, and what may lie at the build folder's; makes the
    // folder under `plain`, and fills it under `nix`.
    fn make_room(
        &self,
        folder: &BuildFolder,
        files: &[SetupFile<'_>],
        job: &Job,
        clearing: &mut Cleanup<'_, R>,
    ) -> Result<(), Reason>
        ensures { IfErr result IsRoomFault }
    {
        for path in folder.cleared_paths(self.rt.alloc(), job)? {
            clearing.clear(path).map_err(reason_before_start)?;
        }
        match job.profile {
            Profile::Plain => fs::create_dir(self.rt, folder.path()).map_err(no_start),
            Profile::Nix => write_files(self.rt, folder, files),
        }
    }
}
