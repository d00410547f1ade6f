//! The parts of a tree, made by calls of the system.
ghost use Rattle.std.specs.Prelude.{◌≡◌, OnOk, ⊤, bit_or};
ghost use Rattle.std.specs.Fs.{permissions_mode};
ghost use Rattle.process_build.specs.Making.{AreWritten};

use crate::disk::cleanup::remove_whole;
use crate::tree_maker::maker_fault::MakerFault;
use crate::tree_maker::part::{MakeParts, Part};
use std::fs::{File, OpenFile, Permissions};
use std::io::{ErrorKind, Write};
use std::os::unix::fs::{PermissionsExt, symlink};
use std::rt::Files;
use std::{fs, io};

// The bits by which everybody may execute a file.
const ALL_EXECUTE: u32 = 0o111;

/// Makes the parts of a tree on disk. Folders and files get the modes 0777 and 0666 without the
/// bits of the process's umask, and a file that may be executed gets all three bits for that.
/// Nothing that lies at a path already is replaced, written to or followed: it is a fault.
///
/// No clause can say what lies on disk, so what it makes is only tested.
#[derive(Drop)]
pub struct DiskParts<'a, R: Files> {
    rt: &'a R,
    // whether anything was made
    began: bool,
    // the file to which the next bytes go
    file: Option<R::File>,
}

impl<'a, R: Files + AllocGlobal> DiskParts<'a, R> {
    // Nothing is made yet.
    pub(crate) fn new(rt: &'a R) -> DiskParts<'a, R> {
        DiskParts {
            rt,
            began: false,
            file: None,
        }
    }

    // Removes what was made at a path, and nothing where nothing was made. What can't be removed
    // stays there.
    pub(crate) fn remove(&self, path: &str) {
        if self.began {
            let _ = remove_whole(self.rt, path);
        }
    }

    // Makes a folder.
    fn make_folder(&mut self, path: &str) -> io::Result<()> {
        fs::create_dir(self.rt, path)?;
        self.began = true;
        Ok(())
    }

    // Makes a file, to which the next bytes go.
    fn make_file(&mut self, path: &str, executable: bool) -> io::Result<()> {
        let file = File::create_new(self.rt, path)?;
        self.began = true;
        if executable {
            allow_execution(&file)?;
        }
        self.file = Some(file);
        Ok(())
    }

    // Makes a link.
    fn make_link(&mut self, path: &str, target: &str) -> io::Result<()> {
        symlink(self.rt, target, path)?;
        self.began = true;
        Ok(())
    }
}

impl<'a, R: Files + AllocGlobal> MakeParts for DiskParts<'a, R> {
    ghost made = { λ s steps t. ⊤ };

    ghost silence = { λ s. tt };

    ghost joins = { λ s m t before after h g. tt };

    fn make(&mut self, part: Part<'_>) -> Result<(), MakerFault> {
        match part {
            Part::Folder(path) => self.make_folder(path)?,
            Part::File(path, executable) => self.make_file(path, executable)?,
            Part::Piece(bytes) => write_to(&mut self.file, bytes)?,
            Part::EndFile => self.file = None,
            Part::Link(path, target) => self.make_link(path, target)?,
        }
        Ok(())
    }
}

// Adds bytes to a file. A fault where none is open.
fn write_to<W: Write>(file: &mut Option<W>, bytes: &[u8]) -> io::Result<()>
    ensures { OnOk result (AreWritten W.contents file.old file.new bytes.now) }
{
    match file {
        Some(file) => file.write_all(bytes),
        None => Err(io::Error::from(ErrorKind::InvalidInput)),
    }
}

// Lets everybody execute a file, beside what was allowed before.
fn allow_execution<F: OpenFile>(file: &F) -> io::Result<()> {
    let before = file.metadata()?.permissions();
    file.set_permissions(with_execution(before))
}

// The permissions, and those to execute.
fn with_execution(before: Permissions) -> Permissions
    ensures { permissions_mode result ≡ bit_or (permissions_mode before) 0o111 }
{
    Permissions::from_mode(before.mode() | ALL_EXECUTE)
}
