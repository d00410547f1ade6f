//! The subcommand `dump`.
ghost use Rattle.std.specs.Prelude.{◌≡◌, false};
ghost use Rattle.nix_realise.specs.ArchiveEndings.{DumpEnds};

use crate::cli::exit::Status;
use crate::cli::run_error::RunError;
use command_line::DumpRequest;
use nix_archive::{ArchiveWriter, Sink};
use process_build::{WalkFault, tell_path};
use std::alloc::AllocError;
use std::io::Write;
use std::rt::Files;

/// Prints the archive of what lies at the request's path, piece by piece, while it is read.
/// `Unreadable` where nothing lies there or something can't be read, `NoMemory` where memory is
/// refused: a part of an archive may be printed then. `Unwritable` where standard output refuses
/// the archive, which is read to its end all the same. Costs one reading of the tree.
pub fn dump<'a, R: Files + AllocGlobal, O: Write>(
    rt: &R,
    request: &DumpRequest<'a>,
    out: &mut O,
) -> Result<Status, RunError<'a>>
    ensures { DumpEnds request.now (O.contents out.old) (O.contents out.new) result }
{
    let mut writer = ArchiveWriter::begin(PrintSink::new(out))?;
    match tell_path(rt, request.path, &mut writer) {
        Ok(true) => {}
        Ok(false) | Err(WalkFault::Unreadable) => return Err(RunError::Unreadable(request.path)),
        Err(WalkFault::NoMemory) => return Err(RunError::NoMemory),
    }
    let PrintSink { out, refused } = writer.sink;
    if refused {
        return Err(RunError::Unwritable);
    }
    match out.flush() {
        Ok(()) => Ok(Status::Done),
        Err(_) => Err(RunError::Unwritable),
    }
}

/// A sink that prints what it takes, until a write is refused.
#[derive(Drop)]
pub struct PrintSink<'a, O> {
    out: &'a mut O,
    refused: bool,
}

impl<'a, O: Write> PrintSink<'a, O> {
    // A sink that took nothing.
    fn new(out: &'a mut O) -> PrintSink<'a, O>
        ensures same { result.out.ghost_name ≡ out.entry.ghost_name }
        ensures out { result.out.now ≡ out.old }
        ensures refused { result.refused ≡ false }
    {
        PrintSink {
            out,
            refused: false,
        }
    }
}

impl<O: Write> Sink for PrintSink<'_, O> {
    ghost use Rattle.nix_realise.specs.private.Printing.{IsPrinted, printed_both, printed_none};

    ghost took = { λ s bytes t. IsPrinted O.contents s bytes t };

    ghost silence = { λ s. printed_none O.contents s };

    ghost joins = { λ s m t before after h g. printed_both O.contents s m t before after h g };

    fn put(&mut self, bytes: &[u8]) -> Result<(), AllocError> {
        if !self.refused {
            self.refused = self.out.write_all(bytes).is_err();
        }
        Ok(())
    }
}
