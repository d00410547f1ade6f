//! An archive that a reader gives.
ghost use Rattle.std.specs.Prelude.{◌≡◌, ◌≤◌, ◌+◌, [], IfErr, IfOk, MatchResult, OnOk, length};
ghost use Rattle.std.specs.Io.KnownBytes.{ReadConsumes};
ghost use Rattle.nix_archive.specs.Reading.{IsStep};
ghost use Rattle.nix_archive.specs.Rests.{reader_rest};
ghost use Rattle.nix_realise.specs.private.Inputs.{IsNoInput, IsTreeRead, IsUnfed};
ghost use Rattle.nix_realise.specs.declared.archives.input.InputFault.TheVariants.{Stray};

use nix_archive::{ArchiveFault, ArchiveReader, Hear};
use std::alloc::Global;
use std::io;
use std::io::{ErrorKind, Read};

// How many bytes are read at once.
const PIECE: usize = 65_536;

/// Why a reader gives no archive.
#[derive(Clone, Copy, Debug, PartialEq, Eq)]
pub enum InputFault {
    /// It gives no archive: the byte at this offset, counted from 0, can't stand there.
    Stray(usize),
    /// It can't be read.
    Unreadable,
    /// Memory was refused.
    NoMemory,
}

/// Reads an archive to the end of what a reader gives, and hears what is in it. After a fault
/// nothing is known of the hearer. Keeps a piece, and the names of the entries that it is in.
pub fn read_archive<I: Read, H: Hear>(
    alloc: Global,
    input: &mut I,
    hearer: &mut H,
) -> Result<(), InputFault>
    ensures ok { OnOk result (IsTreeRead H.heard hearer.old hearer.new
        (I.remaining input.old) (I.remaining input.new)) }
    ensures err { IfErr result (IsNoInput (I.remaining input.old) (I.remaining input.new)) }
{
    let mut reader = ArchiveReader::new(alloc);
    let mut buffer = [0; PIECE];
    let mut offset = 0;
    'pieces: for _ in 0..u64::MAX {
        let Ok(count) = read_once(input, &mut buffer) else {
            return Err(InputFault::Unreadable);
        };
        if count == 0 {
            return end_of(&reader, offset);
        }
        offset = feed(&mut reader, &buffer[..count], offset, hearer)?;
    }
    Err(InputFault::Unreadable)
}

// Has a reader read the next piece, which begins at this offset of the text, and gives the offset
// after it. A text of 2^64 bytes is unreadable.
fn feed<H: Hear>(
    reader: &mut ArchiveReader,
    piece: &[u8],
    offset: usize,
    hearer: &mut H,
) -> Result<usize, InputFault>
    ensures ok { IfOk result (λ end. (end ≡ offset + length piece.now)
        × IsStep H.heard hearer.old hearer.new (reader_rest reader.old) (reader_rest reader.new)
        piece.now) }
    ensures err { IfErr result (IsUnfed (reader_rest reader.old) piece.now offset) }
{
    let Some(end) = offset.checked_add(piece.len()) else {
        return Err(InputFault::Unreadable);
    };
    match reader.feed(piece, hearer) {
        Ok(()) => Ok(end),
        Err(ArchiveFault::BadNar(stray)) => Err(InputFault::Stray(offset + stray)),
        Err(ArchiveFault::NoMemory) => Err(InputFault::NoMemory),
    }
}

// What a reader tells at the end of a text, which is at this offset.
fn end_of(reader: &ArchiveReader, offset: usize) -> Result<(), InputFault>
    ensures { MatchResult result (λ _. reader_rest reader.now [] [])
        (λ fault. (fault ≡ Stray offset) × ¬ (reader_rest reader.now [] [])) }
{
    if reader.is_done() {
        Ok(())
    } else {
        Err(InputFault::Stray(offset))
    }
}

// Reads once, and again if a signal interrupted it.
fn read_once<I: Read>(input: &mut I, buffer: &mut [u8]) -> io::Result<usize>
    ensures same { length buffer.new ≡ length buffer.old }
    ensures count { IfOk result (λ count. count ≤ length buffer.old) }
    ensures bytes { ReadConsumes (I.remaining input.old) (I.remaining input.new) result buffer.new }
{
    for _ in 0..u64::MAX {
        match input.read(buffer) {
            Err(error) if error.kind() == ErrorKind::Interrupted => {}
            answer => return answer,
        }
    }
    Err(io::Error::from(ErrorKind::Interrupted))
}
