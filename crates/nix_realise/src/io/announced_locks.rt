//! The line that tells a terminal that a run waits for another one.
ghost use Rattle.std.specs.Prelude.{OnOk};
ghost use Rattle.std.specs.Io.KnownBytes.{Appends};
ghost use Rattle.nix_realise.specs.private.Waiting.{waiting_line};

use crate::io::journal_keeper::JournalSinks;
use crate::io::locks::{LockProof, Locks, Unlocked};
use std::alloc::AllocError;
use std::io;
use std::io::Write;

// What clears a terminal's line: back to the first column, then erase to the end (ECMA-48, EL).
const NO_LINE: &[u8; 4] = b"\r\x1b[K";

// What clears a terminal's line and turns line wrapping off, so that a long line is cut at the last
// column (DECAWM), and the words before the store folder.
const WAITING: &[u8; 49] = b"\r\x1b[K\x1b[?7lnix_realise: waiting for another run in ";

// What turns line wrapping on again.
const WRAP: &[u8; 5] = b"\x1b[?7h";

/// Takes locks as others do, and tells a terminal by a line while a call for one waits.
#[derive(Drop)]
pub struct AnnouncedLocks<'a, L, W> {
    locks: &'a L,
    to: W,
}

impl<'a, L, W> AnnouncedLocks<'a, L, W> {
    /// Takes the locks that `locks` takes, and tells this terminal.
    pub fn new(locks: &'a L, to: W) -> AnnouncedLocks<'a, L, W> {
        AnnouncedLocks { locks, to }
    }
}

impl<L: Locks, W: Write + Copy> Locks for AnnouncedLocks<'_, L, W> {
    type Lock = L::Lock;

    ghost locks_in = { L.locks_in };

    ghost refuses = { L.refuses };

    /// Takes the lock of a folder as the others do. A refused write to the terminal changes
    /// nothing.
    fn lock(&self, dir: &str, waits: bool) -> Result<L::Lock, Unlocked> {
        if !waits {
            return self.locks.lock(dir, waits);
        }
        let mut to = self.to;
        let _ = write_line(dir, &mut to);
        let answer = self.locks.lock(dir, waits);
        let _ = to.write_all(NO_LINE);
        answer
    }
}

impl<L: JournalSinks, W> JournalSinks for AnnouncedLocks<'_, L, W> {
    type Sink = L::Sink;

    ghost keeps_at = { L.keeps_at };

    fn sink(&self, holding: LockProof<'_>, path: String) -> Result<L::Sink, AllocError> {
        self.locks.sink(holding, path)
    }
}

// Writes the line that tells that a run waits for another one in a store folder.
fn write_line<W: Write>(dir: &str, to: &mut W) -> io::Result<()>
    ensures { OnOk result
        (Appends (W.contents to.old) (W.contents to.new) (waiting_line dir.now)) }
{
    to.write_all(WAITING)?;
    to.write_all(dir.as_bytes())?;
    to.write_all(WRAP)
}
