//! What lies at a path, as a part of a tree.
ghost use Rattle.std.specs.Prelude.{◌≡◌, IfErr, IfOk};
ghost use Rattle.process_build.specs.private.Walking.{IsFoundAs, IsFoundBy, IsUnfound, as_told};

use crate::disk::outputs::is_executable;
use crate::walk::fault::WalkFault;
use drv_graph::Profile;
use std::fs::Metadata;
use std::io;
use std::io::ErrorKind;

/// A regular file that was found.
#[derive(Clone, Copy)]
pub struct FoundFile {
    /// Whether its owner may execute it.
    pub executable: bool,
    /// Its length.
    pub size: u64,
}

/// What lies at a path.
#[derive(Clone, Copy)]
pub enum Found {
    /// A regular file.
    File(FoundFile),
    /// A folder.
    Folder,
    /// A symbolic link.
    Link,
}

// What lies at a path, by the system's answer; `None` where nothing does.
pub(crate) fn found_at(asked: io::Result<Metadata>) -> Result<Option<Found>, WalkFault>
    ensures found { IfOk asked (λ metadata. IsFoundAs metadata result) }
    ensures fault { IfErr asked (λ error. IsUnfound error result) }
{
    match asked {
        Ok(metadata) => Ok(Some(found_by(&metadata)?)),
        Err(error) if error.kind() == ErrorKind::NotFound => Ok(None),
        Err(error) => Err(WalkFault::from(error)),
    }
}

// What was found, if a tree may have it.
fn found_by(metadata: &Metadata) -> Result<Found, WalkFault>
    ensures { IsFoundBy metadata.now result }
{
    match (metadata.is_file(), metadata.is_dir(), metadata.is_symlink()) {
        (true, _, _) => Ok(Found::File(FoundFile {
            executable: is_executable(metadata),
            size: metadata.len(),
        })),
        (_, true, _) => Ok(Found::Folder),
        (_, _, true) => Ok(Found::Link),
        _ => Err(WalkFault::Unreadable),
    }
}

// What was found as it is told of an output under a profile, or as it lies where there is none.
// Under `plain` a file is told as one that its owner may not execute, and a link is a fault.
pub(crate) fn as_told(found: Found, profile: Option<Profile>) -> Result<Found, WalkFault>
    ensures { result ≡ as_told profile found }
{
    match (found, profile) {
        (Found::File(file), Some(Profile::Plain)) => Ok(Found::File(FoundFile {
            executable: false,
            ..file
        })),
        (Found::Link, Some(Profile::Plain)) => Err(WalkFault::Unreadable),
        _ => Ok(found),
    }
}
