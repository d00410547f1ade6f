//! Folders taken away with all that is in them.
use crate::disk::outputs::join_path;
use crate::walk::entry_names::names_at;
use crate::walk::fault::WalkFault;
use std::fs::Permissions;
use std::io::ErrorKind;
use std::os::unix::fs::PermissionsExt;
use std::rt::Files;
use std::{fs, io, str};

// The mode of a folder whose owner may do anything in it, and nobody else.
const OWNERS_ALONE: u32 = 0o700;

/// Removes a folder with all that is in it. Where that is refused, the folder and each one in it
/// get the mode 0700 before it is tried again: those of outputs are read-only under `nix`, and
/// builders may leave such folders. No link is followed.
pub(crate) fn remove_folder<R: Files + AllocGlobal>(rt: &R, path: &str) -> io::Result<()> {
    match fs::remove_dir_all(rt, path) {
        Err(error) if error.kind() == ErrorKind::PermissionDenied => {
            // What this can't open is not removed then.
            let _ = open_folders(rt, path);
            fs::remove_dir_all(rt, path)
        }
        answer => answer,
    }
}

// Lets the owner of a folder do anything in it, and in each folder below it.
fn open_folders<R: Files + AllocGlobal>(rt: &R, path: &str) -> Result<(), WalkFault> {
    let alloc = rt.alloc();
    let mut folders = Vec::new(alloc);
    folders.push(String::from_str(alloc, path)?)?;
    for _ in 0..u64::MAX {
        let Some(folder) = folders.pop() else {
            break;
        };
        fs::set_permissions(rt, folder.as_str(), Permissions::from_mode(OWNERS_ALONE))?;
        push_folders(rt, folder.as_str(), &mut folders)?;
    }
    Ok(())
}

// Adds the paths of the folders in a folder, but for those whose names aren't UTF-8.
fn push_folders<R: Files + AllocGlobal>(
    rt: &R,
    folder: &str,
    folders: &mut Vec<String>,
) -> Result<(), WalkFault> {
    for name in &names_at(rt, folder, usize::MAX)? {
        if let Ok(name) = str::from_utf8(name.as_slice()) {
            let path = join_path(rt.alloc(), folder, name)?;
            if fs::symlink_metadata(rt, path.as_str())?.is_dir() {
                folders.push(path)?;
            }
        }
    }
    Ok(())
}
