//! Reading pieces of an archive.
ghost use Rattle.std.specs.Prelude.{◌≡◌, ◌∷◌, [], ◌<◌, ◌↔◌, IfOk, if◌then◌else◌, IsTrue, length};
ghost use Rattle.nix_archive.specs.Trees.{AreBytes};
ghost use Rattle.nix_archive.specs.Reading.{IsArchive, IsFed, IsSame};
ghost use Rattle.nix_archive.specs.Rests.{reader_rest};
ghost use Rattle.nix_archive.specs.private.Takes.{IsTaken, IsTakenOf, Unheard, is_end, is_some_count, now_rest};

use crate::event::Hear;
use crate::fault::ArchiveFault;
use crate::mode::Mode;
use crate::reader::ArchiveReader;
use std::alloc::{AllocError, Global};

impl ArchiveReader {
    /// A reader that has read nothing.
    pub fn new(alloc: Global) -> ArchiveReader
        ensures { IsSame (reader_rest result) IsArchive }
    {
        ArchiveReader {
            alloc,
            zeros: 0,
            text: b"\x0d\0\0\0\0\0\0\0nix-archive-1\0\0\0\x01\0\0\0\0\0\0\0(\0\0\0\0\0\0\0\x04\0\0\0\0\0\0\0type\0\0\0\0",
            mode: Mode::Kind,
            seen: Vec::new(alloc),
            folders: Vec::new(alloc),
        }
    }

    /// Reads the next piece of an archive, and hears what is in it. `BadNar(offset)` tells the
    /// first byte with which no archive goes on; the offset counts from the piece's first byte.
    /// After a fault nothing is known of the reader and of the hearer. Reading takes time linear in
    /// the bytes, whatever they are, and memory as they come: a length alone takes none.
    pub fn feed<H: Hear>(&mut self, piece: &[u8], hearer: &mut H) -> Result<(), ArchiveFault>
        ensures { IsFed H.heard hearer.old hearer.new (reader_rest self.old) (reader_rest self.new)
            piece.now result }
    {
        let mut done = 0;
        'bytes: while done < piece.len() {
            let count = self.take(&piece[done..], hearer)?;
            if count == 0 {
                return Err(ArchiveFault::BadNar(done));
            }
            done += count;
        }
        Ok(())
    }

    /// Whether a whole archive was read.
    pub fn is_done(&self) -> bool
        ensures { IsTrue result ↔ reader_rest self.now [] [] }
    {
        if self.zeros != 0 {
            return false;
        }
        if self.text.len() != 0 {
            return false;
        }
        is_end(self.mode)
    }

    // Takes bytes of the piece, and says how many; none where the first can't stand there.
    fn take<H: Hear>(&mut self, piece: &[u8], hearer: &mut H) -> Result<usize, AllocError>
        requires some { 0 < length piece.now }
        requires are_bytes { AreBytes piece.now }
        ensures { IfOk result (λ count. IsTakenOf H.heard hearer.old hearer.new
            (reader_rest self.old) (reader_rest self.new) piece.now count) }
    {
        if self.zeros == 0 && self.text.is_empty() {
            let count = self.take_free(piece, hearer)?;
            return Ok(count);
        }
        let byte = piece[0];
        let taken = self.take_fixed(byte);
        Ok(count_of(taken))
    }

    // Takes bytes where none is fixed, and says how many; none where the first can't stand there.
    fn take_free<H: Hear>(&mut self, piece: &[u8], hearer: &mut H) -> Result<usize, AllocError>
        requires zeros { self.old.zeros ≡ 0 }
        requires text { self.old.text.now ≡ [] }
        requires some { 0 < length piece.now }
        requires are_bytes { AreBytes piece.now }
        ensures { IfOk result (λ count. IsTakenOf H.heard hearer.old hearer.new
            (now_rest self.old) (reader_rest self.new) piece.now count) }
    {
        if let Mode::Contents(size, more) = self.mode {
            return self.take_contents(size, more, piece, hearer);
        }
        let byte = piece[0];
        let taken = self.take_byte(byte, hearer)?;
        Ok(count_of(taken))
    }

    // Takes a byte where none is fixed, or says that it can't stand there.
    fn take_byte<H: Hear>(&mut self, byte: u8, hearer: &mut H) -> Result<bool, AllocError>
        requires zeros { self.old.zeros ≡ 0 }
        requires text { self.old.text.now ≡ [] }
        ensures { IfOk result (λ taken. IsTaken H.heard hearer.old hearer.new
            (now_rest self.old) (reader_rest self.new) (byte ∷ []) taken) }
    {
        match self.mode {
            Mode::Kind => self.take_kind(byte, hearer),
            Mode::Letter => Ok(self.take_letter(byte)),
            Mode::Mark => Ok(self.take_mark(byte)),
            Mode::More => self.take_more(byte, hearer),
            Mode::Size(what) => self.take_size(what, byte, hearer),
            Mode::Contents(size, more) => {
                let count = self.take_contents(size, more, &[byte], hearer)?;
                Ok(is_some_count(count))
            }
            Mode::Name(size, tie) => self.take_name(size, tie, byte, hearer),
            Mode::Target(size) => self.take_target(size, byte, hearer),
            Mode::End => Ok(false),
        }
    }

    // Takes a byte that is fixed, or says that it can't stand there.
    fn take_fixed(&mut self, byte: u8) -> bool
        requires { (self.old.zeros ≡ 0) → (self.old.text.now ≡ []) → ⊥ }
        ensures { IsTaken Unheard 0 0 (reader_rest self.old) (reader_rest self.new) (byte ∷ [])
            result }
    {
        if self.zeros != 0 {
            if byte != 0 {
                return false;
            }
            self.zeros -= 1;
            return true;
        }
        let Some((first, rest)) = self.text.split_first() else {
            return false;
        };
        if byte != *first {
            return false;
        }
        self.text = rest;
        true
    }
}

// One byte, or none.
fn count_of(taken: bool) -> usize
    ensures { result ≡ (if taken then 1 else 0) }
{
    if taken { 1 } else { 0 }
}

// Whether there are some.
fn is_some_count(count: usize) -> bool
    ensures { result ≡ is_some_count count }
{
    count != 0
}

// Whether nothing comes next.
fn is_end(mode: Mode) -> bool
    ensures { result ≡ is_end mode }
{
    match mode {
        Mode::End => true,
        _ => false,
    }
}
