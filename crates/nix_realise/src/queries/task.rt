//! The task of `plan` and `realise`: the plan of their roots, and the journal. Files are read
//! through the source alone.
ghost use Rattle.std.specs.Prelude.{◌≡◌, Err, IfErr, IfOk, Ok, map};
ghost use Rattle.nix_realise.specs.AddedText.{IsJournalOf};
ghost use Rattle.nix_realise.specs.Files.{journal_bytes};
ghost use Rattle.nix_realise.specs.JournalFiles.{IsRunsJournal};
ghost use Rattle.nix_realise.specs.Tasks.{ArePathsOf, HasPlan, IsNotPlanned, IsWordsPath, IsPlanOf};

use crate::additions::added_text::journal_of;
use crate::cli::run_error::RunError;
use crate::cli::store_dir::store_dir;
use crate::io::files::FileRead;
use command_line::RunRequest;
use drv_graph::{GraphFault, Plan, Profile};
use nix_drv::DrvSource;
use nix_names::{NameFault, StoreDir, StorePath, parse_path};
use std::alloc::Global;
use valid_table::Journal;

/// What a run takes: a plan and a journal. Only `Task::new` makes one, of what reading the journal
/// file gave.
#[derive(Drop)]
pub struct Task {
    plan: Plan,
    journal: Journal,
}

impl Task {
    /// The task of a request over its plan, by what its journal file gave. The faults are those of
    /// `journal_of`.
    pub fn new<'a>(
        alloc: Global,
        _request: &RunRequest<'_>,
        dir: &StoreDir,
        plan: Plan,
        journal: FileRead<'_>,
    ) -> Result<Task, RunError<'a>>
        requires { IsRunsJournal _request.now journal }
        ensures ok { IfOk result (λ task. (task.plan ≡ plan)
            × IsJournalOf dir.now (journal_bytes journal.entry) (Ok task.journal)) }
        ensures err { IfErr result
            (λ stop. IsJournalOf dir.now (journal_bytes journal.entry) (Err stop)) }
    {
        let journal = journal_of(alloc, dir, journal)?;
        Ok(Task { plan, journal })
    }

    /// The derivations that the roots reach.
    pub fn plan(&self) -> &Plan
        ensures { result.now ≡ self.now.plan }
    {
        &self.plan
    }

    /// The valid paths.
    pub fn journal(&self) -> &Journal
        ensures { result.now ≡ self.now.journal }
    {
        &self.journal
    }

    /// The plan and the journal.
    pub fn into_parts(self) -> (Plan, Journal)
        ensures { (result.0 ≡ self.plan) × (result.1 ≡ self.journal) }
    {
        let Task { plan, journal } = self;
        (plan, journal)
    }
}

/// The store folder of a request, and the plan of its derivations under the request's profile,
/// which the source gives. The faults, in this order: `BadStoreDir`; `NoPath` for the first word
/// that is no path of the folder; `BadDrv` with a fault of `Plan::load_as`. `NoMemory` may be
/// answered in place of each but the first. Files are read through the source alone, and none is
/// read unless all words are paths.
pub fn load_plan<'a, S: DrvSource>(
    alloc: Global,
    source: &mut S,
    request: &RunRequest<'a>,
) -> Result<(StoreDir, Plan), RunError<'a>>
    ensures ok { IfOk result (λ found. (found.0 ≡ request.now.store_dir.now)
        × HasPlan (S.gives source.old) request.now found.1) }
    ensures err { IfErr result (IsNotPlanned (S.gives source.old) request.now) }
{
    let dir = store_dir(alloc, request.store_dir)?;
    let roots = paths_of(alloc, &dir, &request.drvs)?;
    let plan = plan_of(alloc, request.profile, source, &dir, &roots)?;
    Ok((dir, plan))
}

/// The paths that some words spell, in their order. `NoPath` for the first that spells none;
/// `NoMemory`.
pub fn paths_of<'a>(
    alloc: Global,
    dir: &StoreDir,
    words: &[&'a str],
) -> Result<Vec<StorePath>, RunError<'a>>
    ensures { ArePathsOf dir.now (map (λ w. w.now) words.now) result }
{
    let mut paths = Vec::new(alloc);
    for word in words {
        paths.push(path_of(alloc, dir, word)?)?;
    }
    Ok(paths)
}

// The path that a word spells.
fn path_of<'a>(alloc: Global, dir: &StoreDir, word: &'a str) -> Result<StorePath, RunError<'a>>
    ensures { IsWordsPath dir.now word.entry result }
{
    match parse_path(alloc, dir, word.as_bytes()) {
        Ok(path) => Ok(path),
        Err(NameFault::NoMemory) => Err(RunError::NoMemory),
        Err(fault) => Err(RunError::NoPath(word, fault)),
    }
}

// The plan of some roots under a profile.
fn plan_of<'a, S: DrvSource>(
    alloc: Global,
    profile: Profile,
    source: &mut S,
    dir: &StoreDir,
    roots: &[StorePath],
) -> Result<Plan, RunError<'a>>
    ensures { IsPlanOf profile dir.now (S.gives source.old) roots.now result }
{
    match Plan::load_as(alloc, profile, source, dir, roots) {
        Ok(plan) => Ok(plan),
        Err(GraphFault::At(path, fault)) => Err(RunError::BadDrv(path, fault)),
        Err(GraphFault::NoMemory) => Err(RunError::NoMemory),
        Err(_) => unreachable!(),
    }
}
