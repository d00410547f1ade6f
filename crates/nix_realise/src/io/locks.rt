//! The lock of a store folder, which keeps two runs apart.
ghost use Rattle.std.specs.Prelude.{◌≡◌, IfErr, IfOk};
ghost use Rattle.nix_realise.specs.Locking.{IsNoLock, IsNotHeld, fault_in, lock_stop, stop_in};

use crate::cli::run_error::RunError;
use crate::io::lock_call::{Asked, LockFault, ask};
use crate::io::lock_file::{FileLock, LockFile, LockRefusal};
use std::io;

/// Why there is no lock of a store folder.
#[derive(Debug, Drop)]
pub enum Unlocked {
    /// The file that is locked could not be opened or made.
    NotOpened(io::Error),
    /// It was open, and the call for its lock was refused.
    Refused(LockRefusal),
}

/// What takes the locks of store folders. A lock is advisory and exclusive, and belongs to one
/// process: the system lets go of it when that ends.
pub trait Locks {
    ghost use Rattle.std.specs.Prelude.{IfErr, IfOk};
    ghost use Rattle.nix_names.specs.Bytes.{Dir};
    ghost use Rattle.nix_realise.specs.declared.io.locks.Unlocked.{Unlocked};

    /// A lock that is held. It is let go when the value is dropped.
    type Lock: Drop;

    // A lock is that of the store folder at a path.
    ghost locks_in: { Self.Lock → Dir → Type 0 };

    // Why a call for the lock of the store folder at a path may give none.
    ghost refuses: { Dir → Unlocked → Type 0 };

    /// Takes the lock of the store folder at a path. Where another process holds it, the call waits
    /// if `waits` is set, and else is refused with an error of the kind `WouldBlock`. One of the
    /// kind `Unsupported` says that the file system knows no such lock.
    fn lock(&self, dir: &str, waits: bool) -> Result<Self::Lock, Unlocked>
        ensures lock { IfOk result (λ lock. locks_in lock dir.now) }
        ensures none { IfErr result (λ why. refuses dir.now why) };
}

impl Locks for HostRuntime {
    ghost use Rattle.std.specs.Prelude.{◌≡◌, string_bytes, ⊤};
    ghost use Rattle.nix_realise.specs.Locking.{lock_path};

    type Lock = FileLock;

    ghost locks_in = { λ lock dir. string_bytes lock.path ≡ lock_path dir };

    ghost refuses = { λ _ _. ⊤ };

    fn lock(&self, dir: &str, waits: bool) -> Result<FileLock, Unlocked> {
        match LockFile::open(self, dir) {
            Ok(file) => file.lock(waits).map_err(Unlocked::Refused),
            Err(error) => Err(Unlocked::NotOpened(error)),
        }
    }
}

/// The right to use a store folder, as long as the value lives: its lock, or none where the file
/// system knows no such lock. Only `hold` makes one, of what came of asking for the lock.
#[derive(Drop)]
pub struct HeldFolder<'a, K> {
    asked: Asked<'a, K>,
}

/// Evidence that the right to use a store folder is held. Only `HeldFolder::holding` makes one.
#[derive(Clone, Copy)]
pub struct LockProof<'h> {
    dir: &'h str,
}

impl<K> HeldFolder<'_, K> {
    /// Evidence for it, for as long as it is held.
    pub fn holding(&self) -> LockProof<'_>
        ensures { result.dir.now ≡ self.now.asked.dir.now }
    {
        LockProof {
            dir: self.asked.dir(),
        }
    }
}

impl<'h> LockProof<'h> {
    /// The folder.
    pub fn dir(self) -> &'h str
        ensures { result ≡ self.entry.dir }
    {
        self.dir
    }
}

/// Takes the lock of a store folder; waits for it if `wait` is set. The faults: `InUse` where
/// another process holds it and `wait` isn't set; `NotLocked` where the file that is locked can't
/// be made, or the system gives no lock for another reason; `NoMemory`. Where a call for the lock
/// said that the file system knows none, the folder is used without one.
pub fn hold<'a, L: Locks>(
    locks: &L,
    dir: &'a str,
    wait: bool,
) -> Result<HeldFolder<'a, L::Lock>, RunError<'a>>
    ensures ok { IfOk result (λ held. held.asked.dir ≡ dir.entry) }
    ensures lock { IfOk result (λ held.
        IfOk held.asked.answer (λ lock. L.locks_in lock dir.entry.now)) }
    ensures none { IfOk result (λ held.
        IfErr held.asked.answer (IsNoLock (L.refuses dir.entry.now))) }
    ensures err { IfErr result (IsNotHeld dir.entry wait) }
{
    let asked = ask(locks, dir, false);
    if wait && asked.is_held() {
        held_by(ask(locks, dir, true), wait)
    } else {
        held_by(asked, wait)
    }
}

// The right to use a folder, by what came of asking for its lock. A run that is to wait never ends
// because another process holds the lock.
fn held_by<'a, K: Drop>(asked: Asked<'a, K>, wait: bool) -> Result<HeldFolder<'a, K>, RunError<'a>>
    ensures ok { IfOk result (λ held. held.asked ≡ asked.entry) }
    ensures err { IfErr result (IsNotHeld asked.entry.dir wait) }
    ensures by { lock_stop asked.entry.dir wait (fault_in asked.entry.answer) ≡ stop_in result }
{
    match asked.fault() {
        None | Some(LockFault::NoLock) => Ok(HeldFolder { asked }),
        Some(LockFault::Held) if !wait => Err(RunError::InUse(asked.dir())),
        Some(LockFault::NoMemory) => Err(RunError::NoMemory),
        Some(_) => Err(RunError::NotLocked(asked.dir())),
    }
}
