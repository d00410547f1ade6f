//! The subcommand `restore`.
ghost use Rattle.std.specs.Prelude.{◌≡◌};
ghost use Rattle.nix_realise.specs.ArchiveEndings.{RestoreEnds, RestoreEndsBy};
ghost use Rattle.nix_realise.specs.private.Restoring.{input_stop};

use crate::archives::input::{InputFault, read_archive};
use crate::cli::exit::Status;
use crate::cli::run_error::RunError;
use command_line::RestoreRequest;
use process_build::{MakerFault, TreeMaker};
use std::io::{Input, Read};
use std::rt::Files;

/// Does what `restore` does with what standard input gives.
pub fn restore_input<'a, R: Files + Input + AllocGlobal>(
    rt: &R,
    request: &RestoreRequest<'a>,
) -> Result<Status, RunError<'a>>
    ensures { RestoreEnds request.now result }
{
    let mut input = rt.reader();
    restore(rt, request, &mut input)
}

/// Makes at the request's path what the archive holds that a reader gives, while it is read.
/// `BadArchive` with the offset of the first byte that can't stand there, `InputUnreadable`;
/// `NotRestored` where something lies at the path or below it already, or can't be made, once the
/// whole archive was read; `NoMemory`. Where it ends so, what was made is removed, as far as the
/// system allows.
pub fn restore<'a, R: Files + AllocGlobal, I: Read>(
    rt: &R,
    request: &RestoreRequest<'a>,
    input: &mut I,
) -> Result<Status, RunError<'a>>
    ensures { RestoreEndsBy request.now (I.remaining input.old) (I.remaining input.new) result }
{
    let mut maker = TreeMaker::new(rt, request.path)?;
    if let Err(fault) = read_archive(rt.alloc(), input, &mut maker) {
        maker.remove();
        return Err(stop_of(request.path, fault));
    }
    match maker.finish() {
        Ok(()) => Ok(Status::Done),
        Err(MakerFault::NoMemory) => Err(RunError::NoMemory),
        Err(MakerFault::Unwritable) => Err(RunError::NotRestored(request.path)),
    }
}

// What ends a run that read no archive.
fn stop_of<'a>(path: &'a str, fault: InputFault) -> RunError<'a>
    ensures { result ≡ input_stop path.entry fault }
{
    match fault {
        InputFault::Stray(offset) => RunError::BadArchive(path, offset),
        InputFault::Unreadable => RunError::InputUnreadable,
        InputFault::NoMemory => RunError::NoMemory,
    }
}
