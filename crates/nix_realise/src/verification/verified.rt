//! Whether a valid path is what its record says, and its line.
ghost use Rattle.std.specs.Prelude.{◌≡◌, ◌++◌, ◌↔◌, IfErr, IfOk, IsTrue, List, OnOk, ℕ};
ghost use Rattle.nix_realise.specs.Verifying.{IsFinding, is_bad, line_of};
ghost use Rattle.nix_realise.specs.private.PathReads.{Agrees};
ghost use Rattle.nix_realise.specs.declared.cli.run_error.RunError.{RunError};

use crate::cli::run_error::RunError;
use crate::verification::path_read::{PathRead, read_path};
use nix_names::StorePath;
use process_build::WalkFault;
use std::alloc::AllocError;
use std::rt::Files;
use valid_table::Record;

/// What is found of a valid path by its record.
#[derive(Clone, Copy, Debug, PartialEq, Eq)]
pub enum Verified {
    /// It is what its record says.
    Same,
    /// Nothing lies there, or something can't be read.
    Unreadable,
    /// It is not what its record says.
    Differs,
    /// Its record says nothing of what lies there.
    Unknown,
}

impl Verified {
    /// Whether something is wrong with the path.
    pub fn is_bad(self) -> bool
        ensures { result ≡ is_bad self }
    {
        match self {
            Verified::Unreadable | Verified::Differs => true,
            Verified::Same | Verified::Unknown => false,
        }
    }
}

/// What is found of a path by its record. A path whose record says nothing is not read. `NoMemory`
/// is the only error. Costs one reading of what lies there, which is not kept.
pub fn verify_path<'a, R: Files + AllocGlobal>(
    rt: &R,
    path: &StorePath,
    known: &Record,
) -> Result<Verified, RunError<'a>>
    ensures ok { IfOk result (IsFinding known.now) }
    ensures err { IfErr result (λ stop. stop ≡ RunError.NoMemory) }
{
    if known.digest().is_none() && known.nar().is_none() {
        return Ok(Verified::Unknown);
    }
    match read_path(rt, path.as_str(), known.digest()) {
        Ok(Some(read)) if agrees(known, &read) => Ok(Verified::Same),
        Ok(Some(_)) => Ok(Verified::Differs),
        Ok(None) | Err(WalkFault::Unreadable) => Ok(Verified::Unreadable),
        Err(WalkFault::NoMemory) => Err(RunError::NoMemory),
    }
}

// Whether what was read of a path agrees with its record.
fn agrees(known: &Record, read: &PathRead) -> bool
    ensures { IsTrue result ↔ Agrees known.now read.now }
{
    let same_digest = match known.digest() {
        Some(told) => read.digest == Some(told.digest),
        None => true,
    };
    let same_sum = match known.nar() {
        Some(sum) => sum == read.sum,
        None => true,
    };
    same_digest && same_sum
}

/// Adds the line of a path, with its newline.
pub fn write_line(path: &StorePath, found: Verified, out: &mut Vec<u8>) -> Result<(), AllocError>
    ensures { OnOk result (out.new.items ≡ out.old.items ++ line_of path.now found) }
{
    let (before, after) = words_round(found);
    out.extend_from_slice(before)?;
    out.extend_from_slice(path.text())?;
    out.extend_from_slice(after)
}

// The words of a line before the path, and after it.
fn words_round(found: Verified) -> (&'static [u8], &'static [u8])
    ensures { (path : List ℕ) → result.0.now ++ path ++ result.1.now ≡ line_of path found }
{
    match found {
        Verified::Same => (b"ok ", b"\n"),
        Verified::Unreadable => (b"bad ", b": Unreadable\n"),
        Verified::Differs => (b"bad ", b": Differs\n"),
        Verified::Unknown => (b"unknown ", b"\n"),
    }
}
