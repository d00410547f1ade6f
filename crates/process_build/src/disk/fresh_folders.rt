//! Build folders under `nix`, each of which is made where nothing lay.
ghost use Rattle.std.specs.Prelude.{◌≡◌, ◌≤◌, IfErr, IfOk, string_bytes};
ghost use Rattle.process_build.specs.Folders.{nix_folder_of};
ghost use Rattle.process_build.specs.Leases.{drv_name};
ghost use Rattle.process_build.specs.private.Answers.{IsRoomFault};

use crate::disk::folders::BuildFolder;
use crate::failures::Failure;
use crate::process::lease::drv_name;
use crate::process::texts::text_of;
use crate::reasons::reason_before_start;
use build_outcome::Reason;
use nix_names::StorePath;
use std::fs::DirBuilder;
use std::os::unix::fs::DirBuilderExt;
use std::rt::Files;

// Only its owner may enter a build folder.
const OWNERS_ALONE: u32 = 0o700;

/// Makes the build folder of the lease with this number, of a derivation: at the lease's number, or
/// at the next one at which nothing lies. `NoStart` where it can't be made.
pub fn fresh_folder<R: Files + AllocGlobal>(
    rt: &R,
    build_dir: &str,
    drv: &StorePath,
    number: u64,
) -> Result<BuildFolder, Reason>
    ensures number { IfOk result (λ folder. folder.number ≡ number) }
    ensures suffix { IfOk result (λ folder. number ≤ folder.suffix) }
    ensures path { IfOk result (λ folder. string_bytes folder.path
        ≡ nix_folder_of build_dir.now (drv_name drv.now) folder.suffix) }
    ensures err { IfErr result IsRoomFault }
{
    let name = text_of(drv_name(drv))?;
    for taken in 0..u64::MAX {
        let at = number.saturating_add(taken);
        let folder = BuildFolder::at(rt.alloc(), build_dir, name, number, at)?;
        match make_folder(rt, &folder) {
            Ok(()) => return Ok(folder),
            Err(Failure::Taken) => {}
            Err(failure) => return Err(reason_before_start(failure)),
        }
    }
    Err(Reason::NoStart)
}

// Makes a folder that only its owner may enter.
fn make_folder<R: Files>(rt: &R, folder: &BuildFolder) -> Result<(), Failure> {
    let mut builder = DirBuilder::new();
    builder.mode(OWNERS_ALONE);
    builder.create(rt, folder.path())?;
    Ok(())
}
