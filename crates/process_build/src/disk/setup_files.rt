//! The files that lie in a builder's folder before it is started.
ghost use Rattle.std.specs.Prelude.{IfErr};
ghost use Rattle.process_build.specs.private.Answers.{IsRoomFault};

use crate::disk::folders::BuildFolder;
use crate::disk::outputs::join_path;
use crate::process::setup::SetupFile;
use crate::reasons::no_start;
use build_outcome::Reason;
use std::fs::{File, OpenFile, Permissions};
use std::io;
use std::io::Write;
use std::os::unix::fs::PermissionsExt;
use std::rt::Files;

// All may read a file of a builder, and its owner may write it.
const OWNER_WRITES: u32 = 0o644;

/// Writes the files of a builder into its folder, each as a new one: nothing is followed or
/// replaced that lies at its path. Each has the mode 0644. `NoStart` where one can't be written.
pub fn write_files<R: Files + AllocGlobal>(
    rt: &R,
    folder: &BuildFolder,
    files: &[SetupFile<'_>],
) -> Result<(), Reason>
    ensures { IfErr result IsRoomFault }
{
    for file in files {
        let path = join_path(rt.alloc(), folder.path(), file.name.as_str())?;
        write_new(rt, path.as_str(), file.contents.as_slice()).map_err(no_start)?;
    }
    Ok(())
}

// Makes a file with these bytes at a path at which nothing lies. The umask of the run takes nothing
// from its mode.
fn write_new<R: Files>(rt: &R, path: &str, bytes: &[u8]) -> io::Result<()> {
    let mut file = File::create_new(rt, path)?;
    file.write_all(bytes)?;
    file.set_permissions(Permissions::from_mode(OWNER_WRITES))
}
