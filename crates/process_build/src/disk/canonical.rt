//! The canonical form of outputs under `nix`: the modes and the time that their files and folders
//! get.
ghost use Rattle.std.specs.Prelude.{◌↔◌, IsTrue, bit_and};
ghost use Rattle.process_build.specs.private.Canonical.{IsCanonicalOf};

use crate::disk::outputs::OWNER_EXECUTES;
use drv_graph::Profile;
use std::fs::{FileTimes, Metadata, OpenFile, Permissions};
use std::io::ErrorKind;
use std::os::unix::fs::{MetadataExt, PermissionsExt};
use std::rt::Files;
use std::time::{Duration, UNIX_EPOCH};
use std::{fs, io};

// The bits of a mode that are permissions.
const PERMISSIONS: u32 = 0o7777;

// The mode of what its owner may execute, and of what he may not.
const EXECUTABLE_MODE: u32 = 0o555;

const OTHER_MODE: u32 = 0o444;

// The time at which each file and folder was last written, in seconds from 1970 on.
const TIME: i64 = 1;

/// Under the profile `nix` gives a file or a folder, by what was found at its path, its canonical
/// mode and time. Makes no call of the system where it has them. An error where they can't be set,
/// for example because another user owns it.
///
/// As in Nix a folder comes before its entries. So where a folder of mode 0600 becomes one of mode
/// 0444, nobody but the superuser reads its entries.
pub(crate) fn make_canonical<R: Files>(
    rt: &R,
    path: &str,
    asked: &io::Result<Metadata>,
    profile: Profile,
) -> io::Result<()> {
    match (asked, profile) {
        (Ok(found), Profile::Nix) if found.is_file() || found.is_dir() => settle(rt, path, found),
        _ => Ok(()),
    }
}

// Sets the mode and the time of what was found at a path, unless it has them.
fn settle<R: Files>(rt: &R, path: &str, found: &Metadata) -> io::Result<()> {
    if is_canonical(found.mode()) && found.mtime() == TIME {
        return Ok(());
    }
    let file = open_readable(rt, path, canonical_mode(found.mode()))?;
    set_mode_and_time(&file, found)
}

// Opens what lies at a path. It gets a mode before, where its owner may not read it.
fn open_readable<R: Files>(rt: &R, path: &str, mode: u32) -> io::Result<R::File> {
    match fs::open(rt, path) {
        Err(error) if error.kind() == ErrorKind::PermissionDenied => {
            fs::set_permissions(rt, path, Permissions::from_mode(mode))?;
            fs::open(rt, path)
        }
        opened => opened,
    }
}

// Sets the mode and the time of what was opened, if it is what was found: a link may have come in
// its place.
fn set_mode_and_time<F: OpenFile>(file: &F, found: &Metadata) -> io::Result<()> {
    let opened = file.metadata()?;
    if opened.dev() != found.dev() || opened.ino() != found.ino() {
        return Err(io::Error::from(ErrorKind::NotFound));
    }
    file.set_permissions(Permissions::from_mode(canonical_mode(found.mode())))?;
    let time = UNIX_EPOCH + Duration::from_secs(1);
    file.set_times(FileTimes::new().set_modified(time))
}

// Whether the permissions of a mode are the canonical ones.
fn is_canonical(mode: u32) -> bool
    ensures { IsTrue result ↔ IsCanonicalOf mode (bit_and mode 0o7777) }
{
    mode & PERMISSIONS == canonical_mode(mode)
}

// The canonical mode of what has a mode.
fn canonical_mode(mode: u32) -> u32
    ensures { IsCanonicalOf mode result }
{
    if mode & OWNER_EXECUTES == 0 {
        OTHER_MODE
    } else {
        EXECUTABLE_MODE
    }
}
