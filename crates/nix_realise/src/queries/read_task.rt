//! The plan and the journal of a run that changes nothing, by the files on disk.
ghost use Rattle.std.specs.Prelude.{Err, IfErr, IfOk, Ok};
ghost use Rattle.nix_realise.specs.Files.{FileBytes};
ghost use Rattle.nix_realise.specs.Folders.{may_give};
ghost use Rattle.nix_realise.specs.Tasks.{IsTaskTaken};

use crate::cli::run_error::RunError;
use crate::io::folder::FolderSource;
use crate::io::journal_file::JournalFile;
use crate::queries::task::{Task, load_plan};
use command_line::RunRequest;
use std::rt::Files;

/// The plan and the journal of a request that changes nothing. The plan is loaded, then the journal
/// is read.
pub fn read_task<'a, R: Files + AllocGlobal>(
    rt: &R,
    request: &RunRequest<'a>,
) -> Result<Task, RunError<'a>>
    ensures ok { IfOk result (λ task. (gave : FileBytes)
        × IsTaskTaken (λ _ answer. may_give answer) request.now gave (Ok task)) }
    ensures err { IfErr result (λ stop. (gave : FileBytes)
        × IsTaskTaken (λ _ answer. may_give answer) request.now gave (Err stop)) }
{
    let (dir, plan) = load_plan(rt.alloc(), &mut FolderSource::new(rt), request)?;
    let file = JournalFile::new(rt.alloc(), request.store_dir, request.journal)?;
    let gave = file.read(rt);
    let task = Task::new(rt.alloc(), request, &dir, plan, gave)?;
    Ok(task)
}
