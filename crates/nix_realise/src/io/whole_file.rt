//! A file that is written whole or not at all.
ghost use Rattle.std.specs.Prelude.{◌≡◌, ◌++◌, IfErr, IfOk, OnOk, codes, decimal, string_bytes};
ghost use Rattle.std.specs.Io.KnownBytes.{Appends};
ghost use Rattle.nix_realise.specs.Files.{IsNothingThere, IsWritableOver};

use process_build::Failure;
use std::alloc::{AllocError, Global};
use std::fs::{File, Metadata, OpenFile, Permissions};
use std::io::Write;
use std::path::{Path, PathBuf};
use std::rt::Files;
use std::{fs, io};

/// Evidence that a file was written: its path and its bytes. Only `write_whole` makes one, and it
/// must be used.
pub struct WriteReceipt<'a> {
    path: &'a str,
    bytes: &'a [u8],
}

impl WriteReceipt<'_> {
    /// Spends the value where nothing else is made of it.
    pub fn spend(self) {
        let WriteReceipt { path: _, bytes: _ } = self;
    }
}

/// Evidence that a file was written: its path, and the bytes that it got. Only `write_owned` makes
/// one.
#[derive(Drop)]
pub struct WrittenFile<'a> {
    path: &'a str,
    bytes: Vec<u8>,
}

/// Evidence that a file could be made beside what lies at this path. Only `try_out` makes one.
#[derive(Clone, Copy)]
pub struct WriteProbe<'a> {
    path: &'a str,
}

/// Evidence that a file was not written, and why. Only `write_whole`, `write_owned` and `try_out`
/// make one.
#[derive(Clone, Copy, Debug, PartialEq, Eq)]
pub struct WriteError {
    failure: Failure,
}

impl WriteError {
    /// Why the file was not written.
    pub fn failure(self) -> Failure
        ensures { result ≡ self.failure }
    {
        self.failure
    }
}

/// Puts a file with these bytes at a path, in place of the file or the link that is there, even a
/// read-only file; a fault where anything else is there. A process that opens the path finds the
/// whole old file or the whole new one, even if this process is killed on the way. The new file
/// gets the permissions of the file that it replaces.
///
/// The bytes are written to a file in the same folder, whose name begins with a dot. They are
/// synced to the disk, and then the file is renamed to the path. At a fault that file is removed,
/// and the path is left as it was; a process that is killed leaves the file behind. After a loss of
/// power the path may have the old file.
pub fn write_whole<'a, R: Files + AllocGlobal>(
    rt: &R,
    path: &'a str,
    bytes: &'a [u8],
) -> Result<WriteReceipt<'a>, WriteError>
    ensures { IfOk result (λ written.
        (written.path.now ≡ path.entry.now) × (written.bytes.now ≡ bytes.entry.now)) }
{
    match put_whole(rt, path, bytes) {
        Ok(()) => Ok(WriteReceipt { path, bytes }),
        Err(failure) => Err(WriteError { failure }),
    }
}

/// Does what `write_whole` does, and keeps the bytes beside the path.
pub fn write_owned<'a, R: Files + AllocGlobal>(
    rt: &R,
    path: &'a str,
    bytes: Vec<u8>,
) -> Result<WrittenFile<'a>, WriteError>
    ensures { IfOk result (λ written.
        (written.path ≡ path.entry) × (written.bytes.items ≡ bytes.items)) }
{
    match put_whole(rt, path, &bytes) {
        Ok(()) => Ok(WrittenFile { path, bytes }),
        Err(failure) => Err(WriteError { failure }),
    }
}

// Does what `write_whole` does.
fn put_whole<R: Files + AllocGlobal>(rt: &R, path: &str, bytes: &[u8]) -> Result<(), Failure> {
    let mode = replaceable(fs::symlink_metadata(rt, path))?;
    let (file, temporary) = create_beside(rt, path)?;
    let put = put_at(rt, file, mode, bytes, temporary.as_path(), path);
    if let Err(failure) = put {
        // Only the first fault is reported.
        let _ = fs::remove_file(rt, temporary.as_path());
        return Err(failure);
    }
    Ok(())
}

/// Tests whether a file can be written at a path: what lies there may be replaced, and a file can
/// be made in its folder. The made file is removed again, and the path is left as it is.
pub fn try_out<'a, R: Files + AllocGlobal>(
    rt: &R,
    path: &'a str,
) -> Result<WriteProbe<'a>, WriteError>
    ensures { IfOk result (λ tried. tried.path.now ≡ path.entry.now) }
{
    match try_path(rt, path) {
        Ok(()) => Ok(WriteProbe { path }),
        Err(failure) => Err(WriteError { failure }),
    }
}

// Does what `try_out` does.
fn try_path<R: Files + AllocGlobal>(rt: &R, path: &str) -> Result<(), Failure> {
    replaceable(fs::symlink_metadata(rt, path))?;
    let (_file, temporary) = create_beside(rt, path)?;
    Ok(fs::remove_file(rt, temporary.as_path())?)
}

// The permissions of the file that will be replaced, by what the system answered for its path; none
// where nothing or a link is there, a fault where anything else is.
fn replaceable(asked: io::Result<Metadata>) -> Result<Option<Permissions>, Failure>
    ensures found { IfOk asked (λ found. IsWritableOver found result) }
    ensures fault { IfErr asked (λ error. IsNothingThere error result) }
{
    match asked {
        Ok(found) => replaceable_found(&found),
        Err(error) => match Failure::from(error) {
            Failure::NotFound => Ok(None),
            failure => Err(failure),
        },
    }
}

// The permissions of what lies there, if it is a file; none of a link, a fault of anything else.
fn replaceable_found(found: &Metadata) -> Result<Option<Permissions>, Failure>
    ensures { IsWritableOver found.now result }
{
    match (found.is_file(), found.is_symlink()) {
        (true, _) => Ok(Some(found.permissions())),
        (_, true) => Ok(None),
        _ => Err(Failure::Other),
    }
}

// A new file in the folder of a path, under the first free name. Another process may be writing
// under a name, and a killed process may have left its own file.
fn create_beside<R: Files + AllocGlobal>(
    rt: &R,
    path: &str,
) -> Result<(R::File, PathBuf), Failure> {
    for number in 0..u32::MAX {
        let temporary = temporary_path(rt.alloc(), path, number)?;
        match File::create_new(rt, temporary.as_path()) {
            Ok(file) => return Ok((file, temporary)),
            Err(error) => match Failure::from(error) {
                Failure::Taken => {}
                failure => return Err(failure),
            },
        }
    }
    Err(Failure::Other)
}

// The path, in the folder of a path, at which the bytes for it are written; numbered.
fn temporary_path(alloc: Global, path: &str, number: u32) -> Result<PathBuf, AllocError> {
    let name = temporary_name(alloc, number)?;
    Path::new(path).with_file_name(alloc, name.as_str())
}

// The name with this number.
fn temporary_name(alloc: Global, number: u32) -> Result<String, AllocError>
    ensures { IfOk result (λ name. string_bytes name ≡ codes ".nix_realise-" ++ decimal number) }
{
    format!(in alloc; ".nix_realise-{number}")
}

// Fills a new file, and gives it the name of the path.
fn put_at<R: Files>(
    rt: &R,
    mut file: R::File,
    mode: Option<Permissions>,
    bytes: &[u8],
    temporary: Path<'_>,
    path: &str,
) -> Result<(), Failure> {
    if let Some(mode) = mode {
        file.set_permissions(mode)?;
    }
    fill(&mut file, bytes)?;
    Ok(fs::rename(rt, temporary, path)?)
}

// Writes all the bytes, and syncs them to the disk.
fn fill<F: Write + OpenFile>(file: &mut F, bytes: &[u8]) -> Result<(), Failure>
    ensures { OnOk result (Appends (F.contents file.old) (F.contents file.new) bytes.now) }
{
    file.write_all(bytes)?;
    Ok(file.sync_all()?)
}
