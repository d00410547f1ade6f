//! A file, told in pieces.
ghost use Rattle.std.specs.Prelude.{◌≡◌, ◌<◌, ◌+◌, Err, IfOk, OnOk, length, map};
ghost use Rattle.nix_archive.specs.Tokens.{FileByte};
ghost use Rattle.nix_archive.specs.Trees.{AreBytes};
ghost use Rattle.process_build.specs.Walks.{IsToldPast};
ghost use Rattle.process_build.specs.declared.walk.fault.Halt.TheVariants.{TooLarge};
ghost use Rattle.process_build.specs.private.Walking.{AreAllTold, IsFileTold};

use crate::disk::outputs::read_once;
use crate::walk::fault::{Halt, WalkFault};
use crate::walk::found::FoundFile;
use crate::walk::limit::{Limit, tell_event};
use nix_archive::{Event, Hear};
use std::io::Read;

// Tells a file, all of its bytes, each piece through the buffer. A fault where it has another
// length than the one that is told first.
pub(crate) fn tell_file<F: Read, L: Limit<H>, H: Hear>(
    file: &mut F,
    buffer: &mut [u8],
    found: FoundFile,
    limit: &L,
    hearer: &mut H,
) -> Result<(), Halt>
    requires { 0 < length buffer.old }
    ensures told { OnOk result (IsFileTold H.heard hearer.old hearer.new found.executable found.size
        (F.remaining file.old) (F.remaining file.new)) }
    ensures past { result ≡ Err TooLarge
        → IsToldPast H.heard (L.keeps limit.now) hearer.old hearer.new }
{
    let size = found.size;
    tell_event(limit, Event::BeginFile(found.executable, size), hearer)?;
    tell_bytes(file, buffer, size, limit, hearer)?;
    tell_event(limit, Event::EndFile(size), hearer)?;
    Ok(())
}

// Tells all bytes of a file. A fault where it has another length.
fn tell_bytes<F: Read, L: Limit<H>, H: Hear>(
    file: &mut F,
    buffer: &mut [u8],
    size: u64,
    limit: &L,
    hearer: &mut H,
) -> Result<(), Halt>
    requires { 0 < length buffer.old }
    ensures told { OnOk result (AreAllTold H.heard hearer.old hearer.new size
        (F.remaining file.old) (F.remaining file.new)) }
    ensures past { result ≡ Err TooLarge
        → IsToldPast H.heard (L.keeps limit.now) hearer.old hearer.new }
{
    let mut left = size;
    'pieces: loop {
        let count = read_once(file, buffer)?;
        if count == 0 {
            break;
        }
        left = tell_piece(&buffer[..count], left, limit, hearer)?;
    }
    if left != 0 {
        return Err(Halt::Fault(WalkFault::Unreadable));
    }
    Ok(())
}

// Tells a piece of a file of which so many bytes are left, and says how many are left after it. A
// fault where the piece has more.
fn tell_piece<L: Limit<H>, H: Hear>(
    piece: &[u8],
    left: u64,
    limit: &L,
    hearer: &mut H,
) -> Result<u64, Halt>
    ensures left { IfOk result (λ after. after + length piece.now ≡ left) }
    ensures bytes { OnOk result (AreBytes piece.now) }
    ensures told { OnOk result (H.heard hearer.old (map FileByte piece.now) hearer.new) }
    ensures past { result ≡ Err TooLarge
        → IsToldPast H.heard (L.keeps limit.now) hearer.old hearer.new }
{
    let Some(after) = left.checked_sub(piece.len() as u64) else {
        return Err(Halt::Fault(WalkFault::Unreadable));
    };
    tell_event(limit, Event::Piece(piece), hearer)?;
    Ok(after)
}
