//! The subcommand `hash`.
ghost use Rattle.std.specs.Prelude.{◌≡◌, IfErr, IfOk, string_bytes};
ghost use Rattle.nix_names.specs.Base32.{base32};
ghost use Rattle.nix_realise.specs.ArchiveEndings.{HashEnds, sum_line};
ghost use Rattle.nix_realise.specs.declared.cli.run_error.RunError.{RunError};

use crate::archives::path_sum::sum_at;
use crate::cli::exit::Status;
use crate::cli::printing::print_bytes;
use crate::cli::run_error::RunError;
use command_line::HashRequest;
use itoa::Buffer;
use nix_names::{NameFault, to_base32};
use process_build::WalkFault;
use std::alloc::Global;
use std::io::Write;
use std::rt::Files;
use valid_table::Nar;

/// Prints the SHA-256, in base-32, and the length of the archive of what lies at the request's path.
/// `Unreadable` where nothing lies there or something can't be read, `NoMemory`: nothing is printed
/// then. Costs one reading of the tree.
pub fn hash<'a, R: Files + AllocGlobal, O: Write>(
    rt: &R,
    request: &HashRequest<'a>,
    out: &mut O,
) -> Result<Status, RunError<'a>>
    ensures { HashEnds request.now (O.contents out.old) (O.contents out.new) result }
{
    let sum = match sum_at(rt, request.path) {
        Ok(Some(sum)) => sum,
        Ok(None) | Err(WalkFault::Unreadable) => return Err(RunError::Unreadable(request.path)),
        Err(WalkFault::NoMemory) => return Err(RunError::NoMemory),
    };
    let line = sum_line(rt.alloc(), &sum)?;
    match print_bytes(&line, out) {
        Ok(()) => Ok(Status::Done),
        Err(_) => Err(RunError::Unwritable),
    }
}

// The line of an archive with this SHA-256 and this length. Want of memory is the only error.
fn sum_line<'a>(alloc: Global, sum: &Nar) -> Result<Vec<u8>, RunError<'a>>
    ensures ok { IfOk result (λ line. line.items ≡ sum_line sum.now) }
    ensures err { IfErr result (λ stop. stop ≡ RunError.NoMemory) }
{
    let digits = base32_of(alloc, &sum.hash())?;
    let mut line = Vec::from_slice(alloc, b"sha256:")?;
    line.extend_from_slice(digits.as_bytes())?;
    line.extend_from_slice(b" ")?;
    line.extend_from_slice(Buffer::new().format(sum.size()).as_bytes())?;
    line.extend_from_slice(b"\n")?;
    Ok(line)
}

// The base-32 text of some bytes. Want of memory is the only error.
fn base32_of<'a>(alloc: Global, bytes: &[u8]) -> Result<String, RunError<'a>>
    ensures ok { IfOk result (λ text. string_bytes text ≡ base32 bytes.now) }
    ensures err { IfErr result (λ stop. stop ≡ RunError.NoMemory) }
{
    match to_base32(alloc, bytes) {
        Ok(text) => Ok(text),
        Err(NameFault::NoMemory) => Err(RunError::NoMemory),
        Err(_) => unreachable!(),
    }
}
