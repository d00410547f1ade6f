//! Lengths, the bytes of files and the targets of links.
ghost use Rattle.std.specs.Prelude.{◌≡◌, ◌∷◌, ◌++◌, [], ◌<◌, ◌↔◌, IfOk, OnOk, IsTrue, List, ℕ, ◌%◌, ◌-◌, length, slice_index};
ghost use Rattle.std.specs.Int.{w64, from_le_bytes};
ghost use Rattle.nix_archive.specs.Archive.{padding};
ghost use Rattle.nix_archive.specs.Trees.{AreBytes};
ghost use Rattle.nix_archive.specs.Parts.{After, Bytewise, Sized, file, link};
ghost use Rattle.nix_archive.specs.Reading.{IsRefused, IsStep};
ghost use Rattle.nix_archive.specs.Rests.{mode_rest, reader_rest};
ghost use Rattle.nix_archive.specs.Parts.{names_of};
ghost use Rattle.nix_archive.specs.private.Takes.{IsTaken, IsTakenOf, now_rest, outer_rest};

use crate::event::{Event, Hear};
use crate::kinds::CLOSE_TWICE;
use crate::mode::{Mode, What};
use crate::reader::ArchiveReader;
use std::alloc::AllocError;
use std::mem;

impl ArchiveReader {
    // Takes a byte of a length.
    pub(crate) fn take_size<H: Hear>(
        &mut self,
        what: What,
        byte: u8,
        hearer: &mut H,
    ) -> Result<bool, AllocError>
        requires zeros { self.old.zeros ≡ 0 }
        requires text { self.old.text.now ≡ [] }
        requires size { self.old.mode ≡ Mode.Size what }
        ensures { IfOk result (λ taken. IsTaken H.heard hearer.old hearer.new
            (now_rest self.old) (reader_rest self.new) (byte ∷ []) taken) }
    {
        self.seen.push(byte)?;
        if self.seen.len() != 8 {
            return Ok(true);
        }
        let size = size_of(&self.seen);
        self.seen.clear();
        match what {
            What::File(executable) => {
                self.begin_file(executable, size, hearer)?;
                Ok(true)
            }
            What::Target => {
                self.begin_target(size, hearer)?;
                Ok(true)
            }
            What::Name => Ok(self.begin_name(size)),
        }
    }

    // The file's length was read.
    pub(crate) fn begin_file<H: Hear>(
        &mut self,
        executable: bool,
        size: u64,
        hearer: &mut H,
    ) -> Result<(), AllocError>
        requires zeros { self.old.zeros ≡ 0 }
        requires text { self.old.text.now ≡ [] }
        ensures { OnOk result (IsStep H.heard hearer.old hearer.new
            (Sized size (file executable (outer_rest self.old))) (reader_rest self.new) []) }
    {
        hearer.hear(Event::BeginFile(executable, size))?;
        if size == 0 {
            return self.end_file(size, hearer);
        }
        self.mode = Mode::Contents(size, size - 1);
        Ok(())
    }

    // Takes bytes of the file, all of the piece or those that are left, and says how many.
    pub(crate) fn take_contents<H: Hear>(
        &mut self,
        size: u64,
        more: u64,
        piece: &[u8],
        hearer: &mut H,
    ) -> Result<usize, AllocError>
        requires zeros { self.old.zeros ≡ 0 }
        requires text { self.old.text.now ≡ [] }
        requires contents { self.old.mode ≡ Mode.Contents size more }
        requires some { 0 < length piece.now }
        requires are_bytes { AreBytes piece.now }
        ensures { IfOk result (λ count. IsTakenOf H.heard hearer.old hearer.new
            (now_rest self.old) (reader_rest self.new) piece.now count) }
    {
        let length = piece.len() as u64;
        if length <= more {
            hearer.hear(Event::Piece(piece))?;
            self.mode = Mode::Contents(size, more - length);
            return Ok(piece.len());
        }
        let count = more as usize + 1;
        hearer.hear(Event::Piece(&piece[..count]))?;
        self.end_file(size, hearer)?;
        Ok(count)
    }

    // The file's bytes were read.
    pub(crate) fn end_file<H: Hear>(&mut self, size: u64, hearer: &mut H) -> Result<(), AllocError>
        ensures { OnOk result (IsStep H.heard hearer.old hearer.new
            (Bytewise size 0 (outer_rest self.old)) (reader_rest self.new) []) }
    {
        hearer.hear(Event::EndFile(size))?;
        self.zeros = padding_length(size);
        self.go_up(&CLOSE_TWICE[..16], CLOSE_TWICE);
        Ok(())
    }

    // The target's length was read.
    pub(crate) fn begin_target<H: Hear>(
        &mut self,
        size: u64,
        hearer: &mut H,
    ) -> Result<(), AllocError>
        requires zeros { self.old.zeros ≡ 0 }
        requires text { self.old.text.now ≡ [] }
        requires seen { self.old.seen.items ≡ [] }
        ensures { OnOk result (IsStep H.heard hearer.old hearer.new
            (Sized size (link (outer_rest self.old))) (reader_rest self.new) []) }
    {
        if size == 0 {
            return self.end_target(b"", hearer);
        }
        self.mode = Mode::Target(size);
        Ok(())
    }

    // Takes a byte of a target.
    pub(crate) fn take_target<H: Hear>(
        &mut self,
        size: u64,
        byte: u8,
        hearer: &mut H,
    ) -> Result<bool, AllocError>
        requires zeros { self.old.zeros ≡ 0 }
        requires text { self.old.text.now ≡ [] }
        requires target { self.old.mode ≡ Mode.Target size }
        ensures { IfOk result (λ taken. IsTaken H.heard hearer.old hearer.new
            (now_rest self.old) (reader_rest self.new) (byte ∷ []) taken) }
    {
        self.seen.push(byte)?;
        if self.seen.len() as u64 != size {
            return Ok(true);
        }
        let target = mem::replace(&mut self.seen, Vec::new(self.alloc));
        self.end_target(&target, hearer)?;
        Ok(true)
    }

    // The target was read.
    pub(crate) fn end_target<H: Hear>(
        &mut self,
        target: &[u8],
        hearer: &mut H,
    ) -> Result<(), AllocError>
        ensures { OnOk result (IsStep H.heard hearer.old hearer.new
            (After (padding (length target.now)) (link (outer_rest self.old) target.now))
            (reader_rest self.new) []) }
    {
        hearer.hear(Event::Link(target))?;
        self.zeros = padding_length(target.len() as u64);
        self.go_up(&CLOSE_TWICE[..16], CLOSE_TWICE);
        Ok(())
    }
}

// How many zeros follow that many bytes.
pub(crate) fn padding_length(size: u64) -> usize
    ensures { result ≡ (8 - size % 8) % 8 }
{
    ((8 - size % 8) % 8) as usize
}

// The number in eight bytes.
fn size_of(bytes: &[u8]) -> u64
    requires { length bytes.now ≡ 8 }
    ensures value { result ≡ from_le_bytes w64 bytes.now }
    ensures fits { (i : ℕ) → slice_index bytes.now i < 256 }
{
    u64::from_le_bytes([
        bytes[0], bytes[1], bytes[2], bytes[3], bytes[4], bytes[5], bytes[6], bytes[7],
    ])
}
