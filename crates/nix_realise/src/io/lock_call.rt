//! The calls for the lock of a store folder.
ghost use Rattle.std.specs.Prelude.{◌≡◌, IfErr, IfOk};
ghost use Rattle.nix_realise.specs.Locking.{IsCallFault, IsLockFault, fault_in, is_held};

use crate::io::locks::{Locks, Unlocked};
use process_build::Failure;
use std::io;
use std::io::ErrorKind;

/// Why a call for the lock of a folder gave none.
#[derive(Clone, Copy, Debug, PartialEq, Eq)]
pub enum LockFault {
    /// Another process holds the lock.
    Held,
    /// The file system knows no such lock.
    NoLock,
    /// A signal came between, and nothing was done.
    Interrupted,
    /// Memory was refused.
    NoMemory,
    /// Any other fault of the system.
    Other,
}

impl From<Unlocked> for LockFault {
    ghost use Rattle.nix_realise.specs.Locking.{IsFaultOf};

    ghost from_gives = { λ unlocked fault. IsFaultOf unlocked fault };

    fn from(unlocked: Unlocked) -> Self {
        match unlocked {
            Unlocked::Refused(refusal) => LockFault::of_call(refusal.into_error()),
            Unlocked::NotOpened(error) => match error.kind() {
                ErrorKind::Interrupted => LockFault::Interrupted,
                _ => match Failure::from(error) {
                    Failure::NoMemory => LockFault::NoMemory,
                    _ => LockFault::Other,
                },
            },
        }
    }
}

impl LockFault {
    // What an error of the call for the lock of an open file means.
    fn of_call(error: io::Error) -> LockFault
        ensures { IsLockFault error result }
    {
        match error.kind() {
            ErrorKind::WouldBlock => LockFault::Held,
            ErrorKind::Unsupported => LockFault::NoLock,
            ErrorKind::Interrupted => LockFault::Interrupted,
            _ => match Failure::from(error) {
                Failure::NoMemory => LockFault::NoMemory,
                _ => LockFault::Other,
            },
        }
    }
}

/// What came of asking for the lock of a store folder. Only `ask` makes one.
#[derive(Drop)]
pub struct Asked<'a, K> {
    dir: &'a str,
    answer: Result<K, LockFault>,
}

impl<'a, K> Asked<'a, K> {
    /// The folder.
    pub fn dir(&self) -> &'a str
        ensures { result ≡ self.now.dir }
    {
        self.dir
    }

    /// Whether another process holds the lock.
    pub fn is_held(&self) -> bool
        ensures { result ≡ is_held self.now.answer }
    {
        matches!(self.answer, Err(LockFault::Held))
    }

    /// Why there is no lock, if there is none.
    pub fn fault(&self) -> Option<LockFault>
        ensures { result ≡ fault_in self.now.answer }
    {
        match &self.answer {
            Ok(_) => None,
            Err(fault) => Some(*fault),
        }
    }
}

/// Asks for the lock of a store folder, and again while a signal interrupts the call. Where another
/// process holds it, the call waits if `waits` is set.
pub fn ask<'a, L: Locks>(locks: &L, dir: &'a str, waits: bool) -> Asked<'a, L::Lock>
    ensures dir { result.dir ≡ dir.entry }
    ensures lock { IfOk result.answer (λ lock. L.locks_in lock dir.entry.now) }
    ensures none { IfErr result.answer (IsCallFault (L.refuses dir.entry.now)) }
{
    Asked {
        dir,
        answer: answer_of(locks, dir, waits),
    }
}

// What comes of a call for the lock, which is made again while a signal interrupts it.
fn answer_of<L: Locks>(locks: &L, dir: &str, waits: bool) -> Result<L::Lock, LockFault>
    ensures lock { IfOk result (λ lock. L.locks_in lock dir.now) }
    ensures none { IfErr result (IsCallFault (L.refuses dir.now)) }
{
    for _ in 0..u64::MAX {
        match locks.lock(dir, waits) {
            Ok(lock) => return Ok(lock),
            Err(unlocked) => match LockFault::from(unlocked) {
                LockFault::Interrupted => {}
                fault => return Err(fault),
            },
        }
    }
    Err(LockFault::Interrupted)
}
