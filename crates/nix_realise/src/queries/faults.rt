//! The table of faults.
ghost use Rattle.nix_realise.specs.ProgramEndings.{FaultsEnd};

use crate::cli::exit::Status;
use crate::cli::printing::print_bytes;
use crate::cli::run_error::RunError;
use command_line::FaultTable;
use std::alloc::Global;
use std::io::Write;

/// Prints what each fault means, and what to do. No file is read.
pub fn print_faults<'a, O: Write>(alloc: Global, out: &mut O) -> Result<Status, RunError<'a>>
    ensures { FaultsEnd (O.contents out.old, O.contents out.new) result }
{
    let table = FaultTable::new(alloc)?;
    match print_bytes(table.text().as_bytes(), out) {
        Ok(()) => Ok(Status::Done),
        Err(_) => Err(RunError::Unwritable),
    }
}
