//! The file of a store folder that is locked.
ghost use Rattle.std.specs.Prelude.{◌≡◌, IfOk, string_bytes};
ghost use Rattle.nix_realise.specs.Locking.{lock_path};

use std::fs::File;
use std::io::ErrorKind;
use std::os::unix::fs::OpenOptionsExt;
use std::{fs, io};

/// The file of a store folder that is locked, which is open. Only `open` makes one.
#[derive(Drop)]
pub struct LockFile {
    path: String,
    file: File,
}

/// The lock of such a file, which is held. Only `LockFile::lock` gives one.
#[derive(Drop)]
pub struct FileLock {
    path: String,
    file: File,
}

/// The error of a call for the lock of an open file. Only `LockFile::lock` gives one.
#[derive(Debug, Drop)]
pub struct LockRefusal {
    error: io::Error,
}

impl LockRefusal {
    /// The error.
    pub fn into_error(self) -> io::Error
        ensures { result ≡ self.error }
    {
        self.error
    }
}

impl LockFile {
    /// Opens the file of a store folder. Where nothing is, it is made: empty, and only its owner may
    /// write to it.
    pub fn open(rt: &HostRuntime, dir: &str) -> io::Result<LockFile>
        ensures { IfOk result (λ file. string_bytes file.path ≡ lock_path dir.now) }
    {
        let path = format!(in rt.alloc(); "{dir}/.nix_realise-lock")?;
        let file = open_file(rt, path.as_str())?;
        Ok(LockFile { path, file })
    }

    /// Takes its lock. Where another process holds that, the call waits if `waits` is set.
    pub fn lock(self, waits: bool) -> Result<FileLock, LockRefusal>
        ensures { IfOk result (λ lock. lock.path ≡ self.path) }
    {
        let LockFile { path, file } = self;
        match take(&file, waits) {
            Ok(()) => Ok(FileLock { path, file }),
            Err(error) => Err(LockRefusal { error }),
        }
    }
}

// Opens the file at a path, which is made where nothing is: empty, and only its owner may write to
// it. So a regular file that may not be written is opened to be read: a lock needs no more. No
// process that is started inherits an open file.
fn open_file(rt: &HostRuntime, path: &str) -> io::Result<File> {
    let mut how = File::options();
    how.read(true).write(true).create(true).mode(0o644);
    match how.open(rt, path) {
        Ok(file) => Ok(file),
        Err(error) if error.kind() == ErrorKind::PermissionDenied => {
            if fs::metadata(rt, path)?.is_file() {
                File::open(rt, path)
            } else {
                Err(error)
            }
        }
        Err(error) => Err(error),
    }
}

// Takes the lock of an open file.
fn take(file: &File, waits: bool) -> io::Result<()> {
    if waits {
        file.lock()
    } else {
        Ok(file.try_lock()?)
    }
}
