//! What earlier runs moved aside in a store folder and could not remove.
ghost use Rattle.std.specs.Prelude.{◌≡◌, IfOk, string_bytes};
ghost use Rattle.process_build.specs.private.Folders.{aside_of};

use crate::disk::cleanup::{aside_path, remove_whole};
use crate::disk::outputs::read_once;
use crate::failures::Failure;
use std::alloc::{AllocError, Global};
use std::rt::Files;

// How many bytes of the store folder's names are read at once; there is room for any name.
const NAMES_AT_ONCE: usize = 4_096;

// How the name begins of what was moved aside; its number follows.
const ASIDE: &[u8; 18] = b".nix_realise-left-";

// A path to which something was moved aside. Only `of` makes one.
#[derive(Drop)]
struct LeftPath {
    path: String,
}

impl LeftPath {
    // The path in a store folder with this number.
    fn of(alloc: Global, store_dir: &str, number: u64) -> Result<LeftPath, AllocError>
        ensures { IfOk result (λ left. string_bytes left.path ≡ aside_of store_dir.now number) }
    {
        Ok(LeftPath {
            path: aside_path(alloc, store_dir, number)?,
        })
    }
}

/// Removes what earlier runs moved aside in a store folder and could not remove. What can't be
/// removed now stays there, and no fault is told. Only a run that holds the folder's lock may call
/// it: else it could take away what another one removes. Costs one reading of the folder's names.
pub fn remove_left<R: Files + AllocGlobal>(rt: &R, store_dir: &str) {
    if let Ok(left) = left_paths(rt, store_dir) {
        for path in &left {
            let _ = remove_whole(rt, path.path.as_str());
        }
    }
}

// The paths in a store folder to which something was moved aside.
fn left_paths<R: Files + AllocGlobal>(rt: &R, store_dir: &str) -> Result<Vec<LeftPath>, Failure> {
    let mut folder = rt.open_dir(store_dir)?;
    let mut read = [0; NAMES_AT_ONCE];
    let mut paths = Vec::new(rt.alloc());
    for _ in 0..u64::MAX {
        let count = read_once(&mut folder, &mut read)?;
        if count == 0 {
            break;
        }
        push_left(rt.alloc(), store_dir, &read[..count], &mut paths)?;
    }
    Ok(paths)
}

// Adds the paths of what was moved aside. Each of the names that were read is ended by a zero byte.
fn push_left(
    alloc: Global,
    store_dir: &str,
    read: &[u8],
    paths: &mut Vec<LeftPath>,
) -> Result<(), AllocError> {
    for name in read.split(|byte| *byte == 0) {
        if let Some(number) = aside_number(name) {
            paths.push(LeftPath::of(alloc, store_dir, number)?)?;
        }
    }
    Ok(())
}

// The number in the name of what was moved aside, and none in another name.
fn aside_number(name: &[u8]) -> Option<u64> {
    let digits = name.strip_prefix(ASIDE)?;
    str::from_utf8(digits).ok()?.parse().ok()
}
