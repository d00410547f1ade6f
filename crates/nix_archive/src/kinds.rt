//! Bytes that decide what comes next: types of trees, marks of files, and what comes next in a
//! folder.
ghost use Rattle.std.specs.Prelude.{◌≡◌, ◌∷◌, ◌++◌, [], IfOk, OnOk};
ghost use Rattle.nix_archive.specs.Parts.{After, close, ended};
ghost use Rattle.nix_archive.specs.Reading.{IsSame};
ghost use Rattle.nix_archive.specs.Rests.{reader_rest};
ghost use Rattle.nix_archive.specs.private.Takes.{IsTaken, Unheard, now_rest, outer_rest};

use crate::event::{Event, Hear};
use crate::mode::{Mode, What};
use crate::reader::ArchiveReader;
use std::alloc::AllocError;

impl ArchiveReader {
    // Takes the first byte of a tree's type.
    pub(crate) fn take_kind<H: Hear>(
        &mut self,
        byte: u8,
        hearer: &mut H,
    ) -> Result<bool, AllocError>
        requires zeros { self.old.zeros ≡ 0 }
        requires kind { self.old.mode ≡ Mode.Kind }
        ensures { IfOk result (λ taken. IsTaken H.heard hearer.old hearer.new
            (now_rest self.old) (reader_rest self.new) (byte ∷ []) taken) }
    {
        match byte {
            7 => {
                self.text = b"\0\0\0\0\0\0\0";
                self.mode = Mode::Letter;
                Ok(true)
            }
            9 => {
                self.folders.push(Vec::new(self.alloc))?;
                self.text = b"\0\0\0\0\0\0\0directory\0\0\0\0\0\0\0";
                self.mode = Mode::More;
                hearer.hear(Event::BeginFolder)?;
                Ok(true)
            }
            _ => Ok(false),
        }
    }

    // Takes the next byte, which is of a type or of a mark, or says that it can't stand there.
    pub(crate) fn take_letter(&mut self, byte: u8) -> bool
        requires zeros { self.old.zeros ≡ 0 }
        requires letter { self.old.mode ≡ Mode.Letter }
        ensures { IsTaken Unheard 0 0 (now_rest self.old) (reader_rest self.new) (byte ∷ [])
            result }
    {
        match byte {
            b'r' => {
                self.text = b"egular\0";
                self.mode = Mode::Mark;
                true
            }
            b's' => {
                self.seen.clear();
                self.text = b"ymlink\0\x06\0\0\0\0\0\0\0target\0\0";
                self.mode = Mode::Size(What::Target);
                true
            }
            _ => false,
        }
    }

    // Takes the first byte of a file's mark or of its contents.
    pub(crate) fn take_mark(&mut self, byte: u8) -> bool
        requires zeros { self.old.zeros ≡ 0 }
        requires mark { self.old.mode ≡ Mode.Mark }
        ensures { IsTaken Unheard 0 0 (now_rest self.old) (reader_rest self.new) (byte ∷ [])
            result }
    {
        self.seen.clear();
        match byte {
            10 => {
                self.text =
                    b"\0\0\0\0\0\0\0executable\0\0\0\0\0\0\0\0\0\0\0\0\0\0\x08\0\0\0\0\0\0\0contents";
                self.mode = Mode::Size(What::File(true));
                true
            }
            8 => {
                self.text = b"\0\0\0\0\0\0\0contents";
                self.mode = Mode::Size(What::File(false));
                true
            }
            _ => false,
        }
    }

    // Takes the first byte of an entry, or of a folder's end.
    pub(crate) fn take_more<H: Hear>(
        &mut self,
        byte: u8,
        hearer: &mut H,
    ) -> Result<bool, AllocError>
        requires zeros { self.old.zeros ≡ 0 }
        requires more { self.old.mode ≡ Mode.More }
        ensures { IfOk result (λ taken. IsTaken H.heard hearer.old hearer.new
            (now_rest self.old) (reader_rest self.new) (byte ∷ []) taken) }
    {
        match byte {
            5 => {
                let Some(before) = self.folders.last() else {
                    return Ok(false);
                };
                hear_end(before, hearer)?;
                self.seen.clear();
                self.text =
                    b"\0\0\0\0\0\0\0entry\0\0\0\x01\0\0\0\0\0\0\0(\0\0\0\0\0\0\0\x04\0\0\0\0\0\0\0name\0\0\0\0";
                self.mode = Mode::Size(What::Name);
                Ok(true)
            }
            1 => {
                self.mode = Mode::End;
                let Some(before) = self.folders.pop() else {
                    return Ok(false);
                };
                hear_end(&before, hearer)?;
                hearer.hear(Event::EndFolder)?;
                self.go_up(&CLOSE_TWICE[1..16], &CLOSE_TWICE[1..]);
                Ok(true)
            }
            _ => Ok(false),
        }
    }

    // The tree that ends lies in the innermost open folder, if there is one. `once` ends it, and
    // `twice` ends the entry too.
    pub(crate) fn go_up(&mut self, once: &'static [u8], twice: &'static [u8])
        requires { twice.now ≡ once.now ++ close }
        ensures same { IsSame (After once.now (outer_rest self.old))
            (After self.new.text.now (now_rest self.new)) }
        ensures zeros { self.new.zeros ≡ self.old.zeros }
    {
        if self.folders.is_empty() {
            self.text = once;
            self.mode = Mode::End;
        } else {
            self.text = twice;
            self.mode = Mode::More;
        }
    }
}

// The end of a tree, and that of the entry that it lies in.
pub(crate) const CLOSE_TWICE: &[u8] =
    b"\x01\0\0\0\0\0\0\0)\0\0\0\0\0\0\0\x01\0\0\0\0\0\0\0)\0\0\0\0\0\0\0";

// Hears the end of the entry before, if there is one.
fn hear_end<H: Hear>(before: &[u8], hearer: &mut H) -> Result<(), AllocError>
    ensures { OnOk result (H.heard hearer.old (ended before.now) hearer.new) }
{
    if before.is_empty() {
        return Ok(());
    }
    hearer.hear(Event::EndEntry)
}
