//! Reading files.
ghost use Rattle.std.specs.Prelude.{◌≡◌, ◌≤◌, IfErr, IfOk, length};
ghost use Rattle.std.specs.Fs.{file_type};
ghost use Rattle.process_build.specs.Errors.{IsFailure, IsNoMemory};
ghost use Rattle.nix_realise.specs.Files.{IsReadFrom, IsRegular, file_bytes, journal_bytes};
ghost use Rattle.nix_realise.specs.Files.{needed_bytes};

use nix_drv::MAX_LEN;
use process_build::Failure;
use std::alloc::{AllocError, Global};
use std::fs::Metadata;
use std::io::Read;
use std::rt::Files;
use std::{fs, io};
use valid_table::MAX_JOURNAL;

/// How many bytes of a text's file are read: one more than a text may have, so that a file that is
/// too long is known by the number of its bytes.
pub const MAX_READ: u64 = MAX_LEN as u64 + 1;

// How many bytes of a journal file are read: one more than a journal may have.
const MAX_JOURNAL_READ: u64 = MAX_JOURNAL as u64 + 1;

/// Why a file gave no bytes.
#[derive(Clone, Copy, Debug, PartialEq, Eq)]
pub enum FileFault {
    /// Memory was refused.
    NoMemory,
    /// The file cannot be read.
    Unreadable,
}

impl From<AllocError> for FileFault {
    ghost use Rattle.nix_realise.specs.declared.io.files.FileFault.TheVariants.{NoMemory};

    ghost from_gives = { λ _ fault. fault ≡ NoMemory };

    fn from(_: AllocError) -> Self {
        FileFault::NoMemory
    }
}

impl From<Failure> for FileFault {
    ghost use Rattle.nix_realise.specs.Files.{file_fault_of};

    ghost from_gives = { λ failure fault. fault ≡ file_fault_of failure };

    fn from(failure: Failure) -> Self {
        match failure {
            Failure::NoMemory => FileFault::NoMemory,
            _ => FileFault::Unreadable,
        }
    }
}

/// What the system gave for the file at a path: its first bytes, or why it gave none. Only the
/// reading of a file makes one.
#[derive(Drop)]
pub struct FileRead<'p> {
    path: &'p str,
    most: u64,
    bytes: Result<Vec<u8>, Failure>,
}

impl FileRead<'_> {
    /// The bytes of a file that has to be there, or why there are none.
    pub fn bytes(self) -> Result<Vec<u8>, FileFault>
        ensures { file_bytes result ≡ needed_bytes self.entry }
    {
        Ok(self.bytes?)
    }

    /// The bytes of a file, or why there are none. A file that is not found has no bytes.
    pub fn bytes_or_none(self, alloc: Global) -> Result<Vec<u8>, FileFault>
        ensures { file_bytes result ≡ journal_bytes self.entry }
    {
        match self.bytes {
            Ok(bytes) => Ok(bytes),
            Err(Failure::NotFound) => Ok(Vec::new(alloc)),
            Err(failure) => Err(FileFault::from(failure)),
        }
    }
}

/// The first bytes of the file at a path, which may be of any kind; at most `most` bytes.
pub fn read_start<R: Files>(
    alloc: Global,
    files: &R,
    path: &str,
    most: u64,
) -> Result<Vec<u8>, Failure>
    ensures { IfOk result (λ bytes. length bytes.items ≤ most) }
{
    let mut bytes = Vec::new(alloc);
    let file = fs::open(files, path)?;
    if let Err(error) = file.take(most).read_to_end(&mut bytes) {
        return Err(read_failure(error));
    }
    // Nothing is known of the reader: it may claim to have read more than it was asked for.
    bytes.truncate(most as usize);
    Ok(bytes)
}

// What an error in the reading of an open file means: such a file is not missing.
fn read_failure(error: io::Error) -> Failure
    ensures memory { IsNoMemory error → result ≡ Failure.NoMemory }
    ensures other { ¬ IsNoMemory error → result ≡ Failure.Other }
{
    match Failure::from(error) {
        Failure::NoMemory => Failure::NoMemory,
        _ => Failure::Other,
    }
}

/// The first bytes of the regular file at a path, to which a link may lead. No other kind of file
/// is ever opened: a pipe would hold the program up.
pub fn read_regular<R: Files>(
    alloc: Global,
    files: &R,
    path: &str,
    most: u64,
) -> Result<Vec<u8>, Failure>
    ensures { IfOk result (λ bytes. length bytes.items ≤ most) }
{
    is_regular(fs::metadata(files, path))?;
    read_start(alloc, files, path, most)
}

// A fault where no regular file lies at a path, by what the system answered for the path.
fn is_regular(asked: io::Result<Metadata>) -> Result<(), Failure>
    ensures found { IfOk asked (λ found. IsRegular (file_type found) result) }
    ensures fault { IfErr asked (λ error. IfErr result (IsFailure error)) }
    ensures refused { IfErr asked (λ _. IfOk result (λ _. ⊥)) }
{
    if asked?.is_file() {
        Ok(())
    } else {
        Err(Failure::Other)
    }
}

/// What a text's file gives, which may be of any kind; at most one byte more than a text may have.
pub fn read_text<'p, R: Files + AllocGlobal>(rt: &R, path: &'p str) -> FileRead<'p>
    ensures { IsReadFrom path.entry.now 4194305 result }
{
    FileRead {
        path,
        most: MAX_READ,
        bytes: read_start(rt.alloc(), rt, path, MAX_READ),
    }
}

/// What the journal file at a path gives, which must be a regular file; at most one byte more than
/// a journal may have.
pub fn read_journal<'p, R: Files + AllocGlobal>(rt: &R, path: &'p str) -> FileRead<'p>
    ensures { IsReadFrom path.entry.now 134217729 result }
{
    FileRead {
        path,
        most: MAX_JOURNAL_READ,
        bytes: read_regular(rt.alloc(), rt, path, MAX_JOURNAL_READ),
    }
}
