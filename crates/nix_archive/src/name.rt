//! The names of entries. Each byte is looked at twice at most, in its own name and in the one
//! after.
ghost use Rattle.std.specs.Prelude.{◌≡◌, ◌∷◌, ◌++◌, [], ℕ, IfOk, length};
ghost use Rattle.nix_archive.specs.Trees.{AreBytes};
ghost use Rattle.nix_archive.specs.Rests.{mode_rest, reader_rest};
ghost use Rattle.nix_archive.specs.Parts.{names_of};
ghost use Rattle.nix_archive.specs.private.Ready.{IsMost, IsTied, IsTiedOn};
ghost use Rattle.nix_archive.specs.private.Takes.{IsTaken, Unheard, now_rest};

use crate::entry_name::{comes_next, is_name_byte};
use crate::event::{Event, Hear};
use crate::mode::{Mode, Tie};
use crate::reader::ArchiveReader;
use crate::strings::padding_length;
use std::alloc::AllocError;
use std::mem;

impl ArchiveReader {
    // A name's length was read. Says whether a name of this length may stand here.
    pub(crate) fn begin_name(&mut self, size: u64) -> bool
        requires zeros { self.old.zeros ≡ 0 }
        requires text { self.old.text.now ≡ [] }
        requires seen { self.old.seen.items ≡ [] }
        ensures { IsTaken Unheard 0 0 (mode_rest (Mode.Name size Tie.Free) []
            (names_of self.old.folders.items)) (reader_rest self.new) [] result }
    {
        let Some(before) = self.folders.last() else {
            return false;
        };
        let Some(most) = most_shared(before, size) else {
            return false;
        };
        self.mode = Mode::Name(size, Tie::Tied(most));
        true
    }

    // Takes a byte of a name.
    pub(crate) fn take_name<H: Hear>(
        &mut self,
        size: u64,
        tie: Tie,
        byte: u8,
        hearer: &mut H,
    ) -> Result<bool, AllocError>
        requires zeros { self.old.zeros ≡ 0 }
        requires text { self.old.text.now ≡ [] }
        requires name { self.old.mode ≡ Mode.Name size tie }
        ensures { IfOk result (λ taken. IsTaken H.heard hearer.old hearer.new
            (now_rest self.old) (reader_rest self.new) (byte ∷ []) taken) }
    {
        let Some(before) = self.folders.last() else {
            return Ok(false);
        };
        if !is_name_byte(byte) {
            return Ok(false);
        }
        let Some(next) = tie_after(tie, &self.seen, byte, before) else {
            return Ok(false);
        };
        self.seen.push(byte)?;
        if self.seen.len() as u64 != size {
            self.mode = Mode::Name(size, next);
            return Ok(true);
        }
        self.mode = Mode::Kind;
        let name = mem::replace(&mut self.seen, Vec::new(self.alloc));
        let taken = self.end_name(name, hearer)?;
        Ok(taken)
    }

    // A name was read. Says whether it may stand here.
    fn end_name<H: Hear>(&mut self, name: Vec<u8>, hearer: &mut H) -> Result<bool, AllocError>
        requires zeros { self.old.zeros ≡ 0 }
        requires text { self.old.text.now ≡ [] }
        requires kind { self.old.mode ≡ Mode.Kind }
        requires are_bytes { AreBytes name.items }
        ensures { IfOk result (λ taken. IsTaken H.heard hearer.old hearer.new
            (mode_rest (Mode.Name (length name.items) Tie.Free) name.items
            (names_of self.old.folders.items)) (reader_rest self.new) [] taken) }
    {
        let Some(before) = self.folders.pop() else {
            return Ok(false);
        };
        if !comes_next(&before, &name) {
            return Ok(false);
        }
        hearer.hear(Event::BeginEntry(&name))?;
        self.zeros = padding_length(name.len() as u64);
        self.text =
            b"\x04\0\0\0\0\0\0\0node\0\0\0\0\x01\0\0\0\0\0\0\0(\0\0\0\0\0\0\0\x04\0\0\0\0\0\0\0type\0\0\0\0";
        self.folders.push(name)?;
        Ok(true)
    }
}

// How many bytes a name of this length may share with the name before it; nothing where none of
// this length comes after that.
fn most_shared(before: &[u8], size: u64) -> Option<usize>
    requires { AreBytes before.now }
    ensures { IsMost size before.now result }
{
    if (before.len() as u64) < size {
        return Some(before.len());
    }
    let mut most = size as usize;
    'most: while most > 0 {
        most -= 1;
        if before[most] != 255 {
            return Some(most);
        }
    }
    None
}

// What is known of a name once it goes on with the byte; nothing where none goes on so.
fn tie_after(tie: Tie, seen: &[u8], byte: u8, before: &[u8]) -> Option<Tie>
    ensures { (size : ℕ) → IsTied tie size seen.now before.now
        → IsTiedOn size (seen.now ++ byte ∷ []) before.now result }
{
    let Tie::Tied(most) = tie else {
        return Some(Tie::Free);
    };
    if before.len() <= seen.len() {
        return Some(Tie::Free);
    }
    let next = before[seen.len()];
    if byte > next {
        return Some(Tie::Free);
    }
    if byte < next {
        return None;
    }
    if most <= seen.len() {
        return None;
    }
    Some(tie)
}
