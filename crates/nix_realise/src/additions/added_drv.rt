//! The answer of `add-drv`: the filled derivation's path and its text. Files are read through the
//! source alone.
ghost use Rattle.std.specs.Prelude.{◌≡◌, IfErr, IfOk};
ghost use Rattle.nix_drv.specs.Derivation.{IsDrvText};
ghost use Rattle.nix_realise.specs.AddedDrv.{IsAddingDrv, IsDraftOf, IsDraftRead, IsFillingOf};
ghost use Rattle.nix_realise.specs.AddedDrv.{fill_stop};
ghost use Rattle.nix_realise.specs.Files.{IsReadFrom, needed_bytes};

use crate::cli::run_error::RunError;
use crate::cli::store_dir::store_dir;
use crate::io::files::{FileFault, FileRead};
use command_line::AddDrvRequest;
use drv_graph::{GraphFault, NodeFault, fill_outputs_as};
use nix_drv::{Derivation, DrvFault, DrvSource, read, write};
use nix_names::{StoreDir, StorePath};
use std::alloc::Global;

/// A derivation that is put into a store.
#[derive(Debug, Drop)]
pub struct AddedDrv {
    /// The path of its file.
    pub path: StorePath,
    /// The bytes of its file.
    pub text: Vec<u8>,
}

/// The derivation of a draft, with its outputs filled, under the request's profile, folder and
/// name. The source gives the derivations that the draft reaches; `draft` is what the draft's file
/// gave.
///
/// The faults, in this order: `BadStoreDir`; `Unreadable`; `BadDraft` with the fault of the draft's
/// text; then those of `fill_outputs_as`: `BadName` for its `Name`, `BadDraft` for a fault of the
/// draft, `BadDrv` for a fault of a derivation that the draft reaches. `NoMemory` may be answered
/// in place of each but the first.
///
/// The draft is read once, and its filled text is written twice.
pub fn added_drv<'a, S: DrvSource>(
    alloc: Global,
    source: &mut S,
    request: &AddDrvRequest<'a>,
    draft: FileRead<'_>,
) -> Result<AddedDrv, RunError<'a>>
    requires { IsReadFrom request.now.file.now 4194305 draft }
    ensures { IsAddingDrv (S.gives source.old) request.now (needed_bytes draft.entry) result }
{
    let dir = store_dir(alloc, request.store_dir)?;
    let draft = draft_of(alloc, request.file, draft)?;
    let (filled, path) = fill_draft(alloc, source, &dir, request, &draft)?;
    let text = text_of(alloc, &filled)?;
    Ok(AddedDrv { path, text })
}

// The draft whose text the file gave.
fn draft_of<'a>(
    alloc: Global,
    file: &'a str,
    gave: FileRead<'_>,
) -> Result<Derivation, RunError<'a>>
    ensures { IsDraftOf file.entry (needed_bytes gave.entry) result }
{
    match gave.bytes() {
        Ok(bytes) => read_draft(alloc, file, &bytes),
        Err(FileFault::NoMemory) => Err(RunError::NoMemory),
        Err(FileFault::Unreadable) => Err(RunError::Unreadable(file)),
    }
}

// The draft with this text.
fn read_draft<'a>(alloc: Global, file: &'a str, bytes: &[u8]) -> Result<Derivation, RunError<'a>>
    ensures { IsDraftRead file.entry bytes.now result }
{
    match read(alloc, bytes) {
        Ok(draft) => Ok(draft),
        Err(DrvFault::NoMemory) => Err(RunError::NoMemory),
        Err(fault) => Err(RunError::BadDraft(file, NodeFault::Text(fault))),
    }
}

// The filled draft, and the path of its text.
fn fill_draft<'a, S: DrvSource>(
    alloc: Global,
    source: &mut S,
    dir: &StoreDir,
    request: &AddDrvRequest<'a>,
    draft: &Derivation,
) -> Result<(Derivation, StorePath), RunError<'a>>
    ensures { IsFillingOf dir.now (S.gives source.old) request.now draft.now result }
{
    let name = request.name.as_bytes();
    match fill_outputs_as(alloc, request.profile, source, dir, name, draft) {
        Ok(filled) => Ok(filled),
        Err(fault) => Err(stop_of(request, fault)),
    }
}

// What ends a run whose draft can't be filled, for this fault.
fn stop_of<'a>(request: &AddDrvRequest<'a>, fault: GraphFault) -> RunError<'a>
    ensures { result ≡ fill_stop request.now fault }
{
    match fault {
        GraphFault::NoMemory => RunError::NoMemory,
        GraphFault::At(path, fault) => RunError::BadDrv(path, fault),
        GraphFault::Draft(fault) => RunError::BadDraft(request.file, fault),
        GraphFault::Name => RunError::BadName(request.name),
    }
}

// A derivation's text.
fn text_of<'a>(alloc: Global, drv: &Derivation) -> Result<Vec<u8>, RunError<'a>>
    ensures ok { IfOk result (λ text. IsDrvText drv.now text.items) }
    ensures err { IfErr result (λ stop. stop ≡ RunError.NoMemory) }
{
    match write(alloc, drv) {
        Ok(text) => Ok(text),
        Err(DrvFault::NoMemory) => Err(RunError::NoMemory),
        Err(_) => unreachable!(),
    }
}
