//! What lies at a path of the store folder, taken away.
ghost use Rattle.std.specs.Prelude.{◌≡◌, [], IfErr, IfOk, Ok, OnErr, OnOk, string_bytes, true};
ghost use Rattle.process_build.specs.private.Folders.{aside_of, gone_after, IsAside, IsThere, NotesAside};

use crate::disk::removal::remove_folder;
use crate::failures::Failure;
use std::alloc::{AllocError, Global};
use std::fs::Metadata;
use std::rt::Files;
use std::{fs, io};

/// Clears paths of a store folder for one lease. What takes long to remove is moved aside at once
/// and removed at the end.
#[derive(Drop)]
pub struct Cleanup<'a, R> {
    rt: &'a R,
    store_dir: &'a str,
    aside: Vec<String>,
}

impl<'a, R: Files + AllocGlobal> Cleanup<'a, R> {
    /// Nothing is cleared yet.
    pub fn new(rt: &'a R, store_dir: &'a str) -> Cleanup<'a, R>
        ensures folder { result.store_dir.now ≡ store_dir.entry.now }
        ensures none { result.aside.items ≡ [] }
    {
        Cleanup {
            rt,
            store_dir,
            aside: Vec::new(rt.alloc()),
        }
    }

    /// Takes away what lies at a path, if anything does. A file, a link or an empty folder is
    /// removed. Anything else, for example a folder that holds something, is moved aside, to a name
    /// of the store folder that begins with `.nix_realise-left-`. No link is followed, and no
    /// permissions are changed.
    pub fn clear(&mut self, path: &str) -> Result<(), Failure>
        ensures noted { OnOk result (NotesAside self.old.store_dir.now
            self.old.aside.items self.new.aside.items) }
        ensures same { OnErr result (self.new.aside.items ≡ self.old.aside.items) }
    {
        if is_gone(remove(self.rt, path))? {
            return Ok(());
        }
        self.aside.reserve(1)?;
        let aside = move_aside(self.rt, self.store_dir, path)?;
        // There is room for it, so what was moved is always noted.
        self.aside.push_reserved(aside);
        Ok(())
    }

    /// Removes what was moved aside, with all that is in it. What can't be removed stays there.
    pub fn finish(&self) {
        for aside in &self.aside {
            let _ = remove_folder(self.rt, aside.as_str());
        }
    }
}

// Whether nothing is left at a path, by what its removal gave.
fn is_gone(removed: Result<(), Failure>) -> Result<bool, Failure>
    ensures { result ≡ gone_after removed }
{
    match removed {
        Ok(()) => Ok(true),
        Err(Failure::NotFound) => Ok(true),
        Err(Failure::NoMemory) => Err(Failure::NoMemory),
        Err(_) => Ok(false),
    }
}

// Removes a file, a link or an empty folder.
fn remove<R: Files + AllocGlobal>(rt: &R, path: &str) -> Result<(), Failure> {
    if fs::symlink_metadata(rt, path)?.is_dir() {
        remove_empty(rt, path)?;
    } else {
        fs::remove_file(rt, path)?;
    }
    Ok(())
}

// Removes an empty folder. It is kept open until then, if it can be opened: so the system frees it
// when it is closed, and not in the removal, which locks the store folder for all workers.
fn remove_empty<R: Files>(rt: &R, path: &str) -> io::Result<()> {
    let _open = rt.open_dir(path);
    fs::remove_dir(rt, path)
}

// Removes what lies at a path, with all that is in it if it is a folder. No link is followed.
pub(crate) fn remove_whole<R: Files + AllocGlobal>(rt: &R, path: &str) -> io::Result<()> {
    if fs::symlink_metadata(rt, path)?.is_dir() {
        remove_folder(rt, path)
    } else {
        fs::remove_file(rt, path)
    }
}

// Moves what lies at a path to the first name for such things that is free, and tells that path.
fn move_aside<R: Files + AllocGlobal>(
    rt: &R,
    store_dir: &str,
    path: &str,
) -> Result<String, Failure>
    ensures { IfOk result (IsAside store_dir.now) }
{
    for number in 0..u64::MAX {
        let aside = aside_path(rt.alloc(), store_dir, number)?;
        if moves_to(rt, path, aside.as_str())? {
            return Ok(aside);
        }
    }
    Err(Failure::Other)
}

// Moves what lies at a path to another, unless something lies there, and says whether it did.
fn moves_to<R: Files + AllocGlobal>(rt: &R, path: &str, aside: &str) -> Result<bool, Failure> {
    if is_there(fs::symlink_metadata(rt, aside))? {
        return Ok(false);
    }
    let Err(error) = fs::rename(rt, path, aside) else {
        return Ok(true);
    };
    // Another worker may have taken the name.
    if is_there(fs::symlink_metadata(rt, aside))? {
        return Ok(false);
    }
    Err(Failure::from(error))
}

// Whether something lies at a path, by what asking for it gave.
fn is_there(asked: io::Result<Metadata>) -> Result<bool, Failure>
    ensures found { IfOk asked (λ _. result ≡ Ok true) }
    ensures fault { IfErr asked (λ error. IsThere error result) }
{
    match asked {
        Ok(_) => Ok(true),
        Err(error) => match Failure::from(error) {
            Failure::NotFound => Ok(false),
            failure => Err(failure),
        },
    }
}

// The path with this number for what is moved aside.
pub(crate) fn aside_path(alloc: Global, store_dir: &str, number: u64) -> Result<String, AllocError>
    ensures { IfOk result (λ path. string_bytes path ≡ aside_of store_dir.now number) }
{
    let path = format!(in alloc; "{store_dir}/.nix_realise-left-{number}")?;
    Ok(path)
}
