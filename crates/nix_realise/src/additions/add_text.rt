//! The subcommand `add-text`.
ghost use Rattle.std.specs.Prelude.{◌≡◌, IfErr, IfOk, OnOk};
ghost use Rattle.std.specs.Io.KnownBytes.{Appends};
ghost use Rattle.nix_realise.specs.Endings.{Ends, HeldTextEnds, IsPrintedAndWritten, path_line};
ghost use Rattle.nix_realise.specs.Filed.{AreFiled, IsUnfiled, unfiled_stop};
ghost use Rattle.nix_realise.specs.JournalFiles.{text_stop};

use crate::additions::added_text::{AddedText, NamedText, added_text, named_text};
use crate::cli::printing::print_bytes;
use crate::cli::run_error::RunError;
use crate::cli::store_dir::store_dir;
use crate::io::all_written::{AllWritten, Filed};
use crate::io::files::read_text;
use crate::io::journal_file::OwnJournal;
use crate::io::journal_write::UnwrittenJournal;
use crate::io::locks::{LockProof, Locks, hold};
use crate::io::whole_file::{WriteError, write_whole};
use command_line::AddTextRequest;
use nix_names::{StoreDir, StorePath};
use process_build::Failure;
use std::io;
use std::io::Write;
use std::rt::Files;

/// Prints the path of a file's bytes as a text without references. Then, unless the path is valid
/// by the journal, writes the text at its path, and the journal with one more entry. The store
/// folder is tested, the file is read and the name tested; then the folder's lock is taken, and the
/// journal is read. The faults in this order: `BadStoreDir`; those of `named_text`, `hold` and
/// `added_text`. Nothing is printed where the text is refused, and nothing is written where
/// standard output refuses the path's line.
pub fn add_text<'a, R, L, O>(
    rt: &R,
    locks: &L,
    request: &AddTextRequest<'a>,
    out: &mut O,
) -> Result<AllWritten, RunError<'a>>
where
    R: Files + AllocGlobal,
    L: Locks,
    O: Write,
    ensures { Ends request.now (O.contents out.old) (O.contents out.new) result }
{
    let dir = store_dir(rt.alloc(), request.store_dir)?;
    let text = read_text(rt, request.file);
    let named = named_text(rt.alloc(), request, &dir, text)?;
    let held = hold(locks, request.store_dir, request.wait)?;
    add_held(rt, request, held.holding(), &dir, named, out)
}

// Adds a text to the store folder that is held.
fn add_held<'a, R: Files + AllocGlobal, O: Write>(
    rt: &R,
    request: &AddTextRequest<'a>,
    holding: LockProof<'_>,
    dir: &StoreDir,
    named: NamedText,
    out: &mut O,
) -> Result<AllWritten, RunError<'a>>
    requires held { holding.dir.now ≡ request.now.store_dir.now }
    requires dir { dir.now ≡ request.now.store_dir.now }
    ensures { HeldTextEnds request.now named (O.contents out.old) (O.contents out.new) result }
{
    let file = OwnJournal::new(rt.alloc(), holding, request.journal)?;
    let added = added_text(rt.alloc(), request, dir, named, file.read(rt))?;
    put(rt, &file, added, out)
}

// Prints the path of an accepted text, and writes the files.
#[tactic(auto, using(crate::proofs::Endings::filed_not_long))]
fn put<'a, R: Files + AllocGlobal, O: Write>(
    rt: &R,
    file: &OwnJournal<'_>,
    added: AddedText,
    out: &mut O,
) -> Result<AllWritten, RunError<'a>>
    ensures { IsPrintedAndWritten added (O.contents out.old) (O.contents out.new) result }
{
    let Ok(()) = print_path(added.path(), out) else {
        return Err(RunError::Unwritable);
    };
    match write_files(rt, file, &added) {
        Ok(filed) => Ok(AllWritten::of_text(file, &added, filed)),
        Err(unfiled) => Err(stop_of(unfiled, added)),
    }
}

/// Prints the line of a path.
pub fn print_path<O: Write>(path: &StorePath, out: &mut O) -> io::Result<()>
    ensures { OnOk result (Appends (O.contents out.old) (O.contents out.new) (path_line path.now)) }
{
    out.write_all(path.text())?;
    print_bytes(b"\n", out)
}

// Evidence that a file of a text was not written.
#[derive(Clone, Copy)]
enum AddTextError {
    Text(WriteError),
    Journal(UnwrittenJournal),
}

// Writes the text at its path and then the journal, unless the path is valid already.
#[tactic(auto, using(crate::proofs::Endings::unwritten_new))]
fn write_files<'w, R: Files + AllocGlobal>(
    rt: &R,
    file: &'w OwnJournal<'_>,
    added: &'w AddedText,
) -> Result<Option<Filed<'w>>, AddTextError>
    ensures ok { IfOk result (AreFiled added.entry.now file.entry.now) }
    ensures err { IfErr result (IsUnfiled added.entry.now) }
{
    let Some(bytes) = added.journal() else {
        return Ok(None);
    };
    let text = match write_whole(rt, added.path().as_str(), added.text()) {
        Ok(text) => text,
        Err(unwritten) => return Err(AddTextError::Text(unwritten)),
    };
    match file.write(rt, bytes) {
        Ok(journal) => Ok(Some(Filed { text, journal })),
        Err(fault) => {
            text.spend();
            Err(AddTextError::Journal(fault))
        }
    }
}

// What ends a run of which a file was not written.
fn stop_of<'a>(unfiled: AddTextError, added: AddedText) -> RunError<'a>
    ensures { result ≡ unfiled_stop added.path unfiled }
{
    match unfiled {
        AddTextError::Text(unwritten) => text_stop(added.into_path(), unwritten),
        AddTextError::Journal(fault) => RunError::from(fault),
    }
}

/// What ends a run of which the file at this path was not written.
pub fn text_stop<'a>(path: StorePath, unwritten: WriteError) -> RunError<'a>
    ensures { result ≡ text_stop path unwritten.failure }
{
    match unwritten.failure() {
        Failure::NoMemory => RunError::NoMemory,
        _ => RunError::NotWritten(path),
    }
}
