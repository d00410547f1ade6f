//! The names of a folder's entries, in the order in which they are told.
ghost use Rattle.std.specs.Prelude.{◌≡◌, ◌<◌, ◌≤◌, ◌+◌, ◌^◌, [], ◌++◌, Err, IfOk, OnOk, length};
ghost use Rattle.std.specs.Prelude.{map, string_bytes};
ghost use Rattle.std.specs.Io.KnownBytes.{IsAtEnd};
ghost use Rattle.nix_drv.specs.Parts.{bytes_of};
ghost use Rattle.nix_archive.specs.Trees.{IsName};
ghost use Rattle.process_build.specs.Contents.{AreMembersRead, child_of, members_in};
ghost use Rattle.process_build.specs.declared.walk.fault.Halt.TheVariants.{TooLarge};
ghost use Rattle.process_build.specs.private.Walking.{AreAhead, AreNames, AreNamesLeft};
ghost use Rattle.process_build.specs.private.Walking.{HaveSameNames, first_first};

use crate::disk::outputs::{is_member, join_path, read_once};
use crate::walk::fault::{Halt, WalkFault};
use nix_archive::is_entry_name;
use std::alloc::Global;
use std::io::Read;
use std::rt::Files;
use std::str;

// How many bytes of a folder's names are read at once; there is room for any name.
const NAMES_AT_ONCE: usize = 4_096;

// The names of a folder's entries, the last by bytes first, each once. A link in the folder's place
// is not followed. `TooLarge` where there are more than `most`.
pub(crate) fn names_at<R: Files + AllocGlobal>(
    rt: &R,
    path: &str,
    most: usize,
) -> Result<Vec<Vec<u8>>, Halt>
    ensures names { IfOk result (λ names. AreAhead [] (first_first names.items)) }
    ensures limited { result ≡ Err TooLarge → most + 1 < 2 ^ 64 }
{
    let mut folder = rt.open_dir(path)?;
    names_in(rt.alloc(), &mut folder, most)
}

// The names that a folder's listing has left, the last by bytes first, each once. `TooLarge` where
// there are more than `most`.
fn names_in<F: Read>(alloc: Global, folder: &mut F, most: usize) -> Result<Vec<Vec<u8>>, Halt>
    ensures names { IfOk result (λ names. AreAhead [] (first_first names.items)) }
    ensures all { IfOk result (λ names.
        AreNamesLeft (F.remaining folder.old) (F.remaining folder.new) names.items) }
    ensures limited { result ≡ Err TooLarge → most + 1 < 2 ^ 64 }
{
    let names = read_names(alloc, folder, most)?;
    Ok(last_first(names))
}

// The names that are read in a folder, in the folder's order. A fault where one may not be a name,
// and `TooLarge` where there are more than `most`, which are not all read then.
fn read_names<F: Read>(alloc: Global, folder: &mut F, most: usize) -> Result<Vec<Vec<u8>>, Halt>
    ensures names { IfOk result (λ names. AreNames names.items) }
    ensures all { IfOk result (λ names. AreMembersRead (F.remaining folder.old)
        (F.remaining folder.new) (map bytes_of names.items)) }
    ensures ended { IfOk result (λ _. IsAtEnd (F.remaining folder.new)) }
    ensures most { IfOk result (λ names. length names.items ≤ most) }
    ensures limited { result ≡ Err TooLarge → most + 1 < 2 ^ 64 }
{
    let mut read = [0; NAMES_AT_ONCE];
    let mut names = Vec::new(alloc);
    for _ in 0..u64::MAX {
        let count = read_once(folder, &mut read)?;
        if count == 0 {
            return Ok(names);
        }
        push_names(alloc, &read[..count], &mut names)?;
        if names.len() > most {
            return Err(Halt::TooLarge);
        }
    }
    // Each reading gave a byte.
    Err(Halt::Fault(WalkFault::Unreadable))
}

// Adds the names of the members in a piece of a folder's listing, in its order, to a list.
fn push_names(alloc: Global, read: &[u8], names: &mut Vec<Vec<u8>>) -> Result<(), WalkFault>
    requires { AreNames names.old.items }
    ensures names { OnOk result (AreNames names.new.items) }
    ensures all { OnOk result (map bytes_of names.new.items
        ≡ map bytes_of names.old.items ++ members_in read.now) }
{
    for name in read.split(|byte| *byte == 0).filter(|name| is_member(name)) {
        names.push(entry_name(alloc, name)?)?;
    }
    Ok(())
}

// A copy of a name. A fault where it may not be an entry's.
fn entry_name(alloc: Global, name: &[u8]) -> Result<Vec<u8>, WalkFault>
    ensures same { IfOk result (λ copy. copy.items ≡ name.now) }
    ensures name { IfOk result (λ copy. IsName copy.items) }
{
    if !is_entry_name(name) {
        return Err(WalkFault::Unreadable);
    }
    Ok(Vec::from_slice(alloc, name)?)
}

// The names by bytes, the last first, each once.
fn last_first(names: Vec<Vec<u8>>) -> Vec<Vec<u8>>
    requires { AreNames names.items }
    ensures rising { AreAhead [] (first_first result.items) }
    ensures same { HaveSameNames result.items names.items }
{
    let mut sorted = names;
    sorted.sort_unstable();
    sorted.dedup();
    sorted.reverse();
    sorted
}

// The path of an entry of a folder. A fault where its name isn't UTF-8.
pub(crate) fn entry_path(alloc: Global, folder: &str, name: &[u8]) -> Result<String, WalkFault>
    ensures { IfOk result (λ path. string_bytes path ≡ child_of folder.now name.now) }
{
    match str::from_utf8(name) {
        Ok(name) => Ok(join_path(alloc, folder, name)?),
        Err(_) => Err(WalkFault::Unreadable),
    }
}
