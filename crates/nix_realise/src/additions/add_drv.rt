//! The subcommand `add-drv`.
ghost use Rattle.std.specs.Prelude.{◌≡◌, IfErr, IfOk};
ghost use Rattle.std.specs.Io.KnownBytes.{Appends};
ghost use Rattle.nix_realise.specs.DrvEndings.{DrvEnds};
ghost use Rattle.nix_realise.specs.Filed.{IsDrvWritten, IsUnprinted, unput_stop};
ghost use Rattle.nix_realise.specs.Endings.{path_line};

use crate::additions::add_text::{print_path, text_stop};
use crate::additions::added_drv::{AddedDrv, added_drv};
use crate::cli::run_error::RunError;
use crate::cli::store_dir::store_dir;
use crate::io::all_written::AllWritten;
use crate::io::files::read_text;
use crate::io::folder::FolderSource;
use crate::io::whole_file::{WriteError, WriteReceipt, write_whole};
use command_line::AddDrvRequest;
use std::io::Write;
use std::rt::Files;

/// Fills the outputs of a file's draft, writes the derivation at its path, in place of the file
/// that is there, and prints the path. The store folder is tested before a file is opened. The
/// faults and their order are those of `added_drv`. Nothing is printed where the draft is refused
/// or the derivation's file is not written.
pub fn add_drv<'a, R: Files + AllocGlobal, O: Write>(
    rt: &R,
    request: &AddDrvRequest<'a>,
    out: &mut O,
) -> Result<AllWritten, RunError<'a>>
    ensures { DrvEnds request.now (O.contents out.old) (O.contents out.new) result }
{
    store_dir(rt.alloc(), request.store_dir)?;
    let draft = read_text(rt, request.file);
    let mut source = FolderSource::new(rt);
    let added = added_drv(rt.alloc(), &mut source, request, draft)?;
    match put(rt, &added, out) {
        Ok(written) => Ok(AllWritten::of_drv(&added, written)),
        Err(unput) => Err(stop_of(unput, added)),
    }
}

// Evidence that the file of a derivation was not written, or that the line of its path was not.
#[derive(Clone, Copy)]
enum AddDrvError {
    File(WriteError),
    Line,
}

// Writes a derivation at its path, and prints the path.
fn put<'w, R: Files + AllocGlobal, O: Write>(
    rt: &R,
    added: &'w AddedDrv,
    out: &mut O,
) -> Result<WriteReceipt<'w>, AddDrvError>
    ensures written { IfOk result (IsDrvWritten added.entry.now) }
    ensures printed { IfOk result (λ _.
        Appends (O.contents out.old) (O.contents out.new) (path_line added.entry.now.path)) }
    ensures err { IfErr result (IsUnprinted (O.contents out.old) (O.contents out.new)) }
{
    let written = match write_whole(rt, added.path.as_str(), &added.text) {
        Ok(written) => written,
        Err(unwritten) => return Err(AddDrvError::File(unwritten)),
    };
    match print_path(&added.path, out) {
        Ok(()) => Ok(written),
        Err(_) => {
            written.spend();
            Err(AddDrvError::Line)
        }
    }
}

// What ends a run whose derivation was not put.
fn stop_of<'a>(unput: AddDrvError, added: AddedDrv) -> RunError<'a>
    ensures { result ≡ unput_stop added.path unput }
{
    match unput {
        AddDrvError::File(unwritten) => text_stop(added.path, unwritten),
        AddDrvError::Line => RunError::Unwritable,
    }
}
