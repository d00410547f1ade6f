//! The subcommand `verify`.
ghost use Rattle.std.specs.Prelude.{◌≡◌, All, Err, IfErr, IfOk, Ok};
ghost use Rattle.valid_table.specs.Entries.{registered};
ghost use Rattle.valid_table.specs.Valid.{IsValid};
ghost use Rattle.nix_realise.specs.Files.{FileBytes};
ghost use Rattle.nix_realise.specs.Verifying.{AreLines, IsNotVerified, VerifyEnds};
ghost use Rattle.nix_realise.specs.Verifying.{VerifyEndsOver, words_of};
ghost use Rattle.nix_realise.specs.private.Verified.{IsFound, IsJournalTaken};
ghost use Rattle.nix_realise.specs.declared.cli.run_error.RunError.{RunError};

use crate::additions::added_text::journal_of;
use crate::cli::exit::Status;
use crate::cli::printing::print_bytes;
use crate::cli::run_error::RunError;
use crate::cli::store_dir::store_dir;
use crate::io::journal_file::JournalFile;
use crate::queries::task::paths_of;
use crate::verification::asked_paths::asked_paths;
use crate::verification::verified::{Verified, verify_path, write_line};
use command_line::VerifyRequest;
use nix_names::StorePath;
use std::io::Write;
use std::rt::Files;
use valid_table::Journal;

/// Reads the valid paths that the request asks for, and prints what is found of each, by path. The
/// store folder is tested, then the words, then the journal is read, without the folder's lock. The
/// first fault ends the run: `BadStoreDir`, `NoPath`, those of `journal_of`, `NotValid`. Costs one
/// reading of what lies at each path.
pub fn verify<'a, R: Files + AllocGlobal, O: Write>(
    rt: &R,
    request: &VerifyRequest<'a>,
    out: &mut O,
) -> Result<Status, RunError<'a>>
    ensures { VerifyEnds request.now (O.contents out.old) (O.contents out.new) result }
{
    let (named, journal) = read_journal(rt, request)?;
    verify_by(rt, request, named, &journal, out)
}

// The paths that a request names, and the journal, by the file on disk.
fn read_journal<'a, R: Files + AllocGlobal>(
    rt: &R,
    request: &VerifyRequest<'a>,
) -> Result<(Vec<StorePath>, Journal), RunError<'a>>
    ensures ok { IfOk result (λ taken. (gave : FileBytes)
        × IsJournalTaken request.now gave taken.0.items taken.1) }
    ensures err { IfErr result (λ stop. (gave : FileBytes) × IsNotVerified request.now gave stop) }
{
    let dir = store_dir(rt.alloc(), request.store_dir)?;
    let named = paths_of(rt.alloc(), &dir, &request.paths)?;
    let file = JournalFile::new(rt.alloc(), request.store_dir, request.journal)?;
    let journal = journal_of(rt.alloc(), &dir, file.read(rt))?;
    Ok((named, journal))
}

// Reads the paths that are asked for, and prints their lines.
fn verify_by<'a, R: Files + AllocGlobal, O: Write>(
    rt: &R,
    request: &VerifyRequest<'a>,
    named: Vec<StorePath>,
    journal: &Journal,
    out: &mut O,
) -> Result<Status, RunError<'a>>
    requires { named.items ≡ words_of request.now }
    ensures { VerifyEndsOver request.now journal.now (O.contents out.old) (O.contents out.new)
        result }
{
    let paths = asked_paths(rt.alloc(), request, named, journal)?;
    let (lines, status) = verify_all(rt, journal, &paths)?;
    match print_bytes(&lines, out) {
        Ok(()) => Ok(status),
        Err(_) => Err(RunError::Unwritable),
    }
}

// The lines of some valid paths, and the status.
fn verify_all<'a, R: Files + AllocGlobal>(
    rt: &R,
    journal: &Journal,
    paths: &[StorePath],
) -> Result<(Vec<u8>, Status), RunError<'a>>
    requires { All (IsValid (registered journal.now.entries)) paths.now }
    ensures ok { IfOk result (λ r. AreLines journal.now paths.now r.0.items r.1) }
    ensures err { IfErr result (λ stop. stop ≡ RunError.NoMemory) }
{
    let mut lines = Vec::new(rt.alloc());
    let mut status = Status::Done;
    for path in paths {
        let found = verify_one(rt, journal, path)?;
        if found.is_bad() {
            status = Status::Unrealised;
        }
        write_line(path, found, &mut lines)?;
    }
    Ok((lines, status))
}

// What is found of a valid path by its record.
fn verify_one<'a, R: Files + AllocGlobal>(
    rt: &R,
    journal: &Journal,
    path: &StorePath,
) -> Result<Verified, RunError<'a>>
    requires { IsValid (registered journal.now.entries) path.now }
    ensures ok { IfOk result (IsFound journal.now path.now) }
    ensures err { IfErr result (λ stop. stop ≡ RunError.NoMemory) }
{
    match journal.table().get(path) {
        Some(record) => verify_path(rt, path, record),
        None => unreachable!(),
    }
}
