//! A hearer of a tree that has each of its parts made at its path.
ghost use Rattle.std.specs.Prelude.{◌≡◌, ◌↔◌, ◌⊎◌, [], ◌∷◌, IfErr, IfOk, IsOk, IsUtf8, None, OnErr, OnOk, Some, map, reverse, string_bytes};
ghost use Rattle.nix_archive.specs.Tokens.{EntryBegun, EntryEnded, LinkTo, tokens};
ghost use Rattle.process_build.specs.Making.{AreTaken, outermost, position_at};
ghost use Rattle.process_build.specs.declared.tree_maker.maker_fault.MakerFault.TheVariants.{NoMemory, Unwritable};

use crate::disk::outputs::join_path;
use crate::tree_maker::disk_parts::DiskParts;
use crate::tree_maker::maker_fault::MakerFault;
use crate::tree_maker::part::{MakeParts, Part};
use nix_archive::{Event, Hear};
use std::alloc::{AllocError, Global};
use std::rt::Files;
use std::{mem, str};

/// A hearer that has a tree made at a path, part by part, as it is heard. A folder's entries are
/// made below its path. The first fault ends the making: nothing more is made after it.
///
/// Takes memory for the paths of the folders that it is in, and for no bytes of files.
#[derive(Drop)]
pub struct TreeMaker<M> {
    alloc: Global,
    // what makes the parts
    parts: M,
    // the path of what is made next
    path: String,
    // the paths of the folders around it, the outermost first
    around: Vec<String>,
    // why nothing more is made
    fault: Option<MakerFault>,
}

impl<'a, R: Files + AllocGlobal> TreeMaker<DiskParts<'a, R>> {
    /// Makes what it hears on disk, at this path.
    pub fn new(rt: &'a R, path: &str) -> Result<TreeMaker<DiskParts<'a, R>>, AllocError>
        ensures position { IfOk result (λ maker.
            (string_bytes maker.path ≡ path.now) × (maker.around.items ≡ [])) }
        ensures fault { IfOk result (λ maker. maker.fault ≡ None) }
    {
        Ok(TreeMaker {
            alloc: rt.alloc(),
            parts: DiskParts::new(rt),
            path: String::from_str(rt.alloc(), path)?,
            around: Vec::new(rt.alloc()),
            fault: None,
        })
    }

    /// Ends the making. An error is the first fault that there was; what was made before it is
    /// removed, as far as the system allows.
    pub fn finish(self) -> Result<(), MakerFault>
        ensures ok { IsOk result ↔ (self.entry.fault ≡ None) }
        ensures fault { IfErr result (λ fault. self.entry.fault ≡ Some fault) }
    {
        if let Some(fault) = self.fault {
            self.remove();
            return Err(fault);
        }
        Ok(())
    }

    /// Gives the making up. What was made is removed, as far as the system allows, and nothing
    /// else: what lay there before stays as it was.
    pub fn remove(self) {
        self.parts.remove(self.outermost());
    }
}

impl<M: MakeParts> Hear for TreeMaker<M> {
    ghost use Rattle.process_build.specs.Making.{IsHeard};
    ghost use Rattle.process_build.specs.private.MakingLaws.{heard_none, heard_both};

    ghost heard = { λ s said t. IsHeard M.made s said t };

    ghost silence = { λ s. heard_none M.made M.silence s };

    ghost joins = { λ s m t before after h g.
        heard_both M.made M.joins s m t before after h g };

    fn hear(&mut self, event: Event<'_>) -> Result<(), AllocError> {
        if self.fault.is_none() {
            self.fault = self.take(event).err();
        }
        Ok(())
    }
}

impl<M: MakeParts> TreeMaker<M> {
    // The path of the whole tree.
    fn outermost(&self) -> &str
        ensures { result.now ≡ outermost (string_bytes self.now.path)
            (map string_bytes (reverse self.now.around.items)) }
    {
        match self.around.first() {
            Some(path) => path.as_str(),
            None => self.path.as_str(),
        }
    }

    // Has the part made that an event tells of, or goes to where the next one is made. A fault
    // leaves the paths as they are.
    fn take(&mut self, event: Event<'_>) -> Result<(), MakerFault>
        ensures taken { OnOk result (AreTaken M.made
            (position_at self.old.path self.old.around.items)
            (position_at self.new.path self.new.around.items) self.old.parts self.new.parts
            (tokens event.entry)) }
        ensures same { OnErr result ((self.new.path ≡ self.old.path)
            × (self.new.around.items ≡ self.old.around.items)) }
    {
        let path = self.path.as_str();
        match event {
            Event::BeginFolder => self.parts.make(Part::Folder(path)),
            Event::BeginFile(executable, _) => self.parts.make(Part::File(path, executable)),
            Event::Piece(bytes) => self.parts.make(Part::Piece(bytes)),
            Event::EndFile(_) => self.parts.make(Part::EndFile),
            Event::Link(target) => self.make_link(target),
            Event::BeginEntry(name) => self.begin_entry(name),
            Event::EndEntry => {
                self.end_entry();
                Ok(())
            }
            Event::EndFolder => Ok(()),
        }
    }

    // Goes to an entry of the folder. A fault where its name isn't UTF-8; it changes nothing.
    fn begin_entry(&mut self, name: &[u8]) -> Result<(), MakerFault>
        ensures taken { OnOk result (AreTaken M.made
            (position_at self.old.path self.old.around.items)
            (position_at self.new.path self.new.around.items) self.old.parts self.new.parts
            (EntryBegun name.now ∷ [])) }
        ensures same { OnErr result ((self.new.path ≡ self.old.path)
            × (self.new.around.items ≡ self.old.around.items)) }
        ensures bad { IfErr result (λ fault.
            (fault ≡ NoMemory) ⊎ ((fault ≡ Unwritable) × ¬ (IsUtf8 name.now))) }
    {
        let Ok(name) = str::from_utf8(name) else {
            return Err(MakerFault::Unwritable);
        };
        let entry = join_path(self.alloc, self.path.as_str(), name)?;
        // Where memory is refused, the outermost path has to stay where `remove` finds it.
        self.around.reserve(1)?;
        self.around
            .push_reserved(mem::replace(&mut self.path, entry));
        Ok(())
    }

    // Goes back to the folder around an entry.
    fn end_entry(&mut self)
        ensures { AreTaken M.made (position_at self.old.path self.old.around.items)
            (position_at self.new.path self.new.around.items) self.old.parts self.new.parts
            (EntryEnded ∷ []) }
    {
        if let Some(folder) = self.around.pop() {
            self.path = folder;
        }
    }

    // Has a link made. A fault where its target isn't UTF-8.
    fn make_link(&mut self, target: &[u8]) -> Result<(), MakerFault>
        ensures taken { OnOk result (AreTaken M.made
            (position_at self.old.path self.old.around.items)
            (position_at self.new.path self.new.around.items) self.old.parts self.new.parts
            (LinkTo target.now ∷ [])) }
        ensures same { OnErr result ((self.new.path ≡ self.old.path)
            × (self.new.around.items ≡ self.old.around.items)) }
    {
        let Ok(target) = str::from_utf8(target) else {
            return Err(MakerFault::Unwritable);
        };
        self.parts.make(Part::Link(self.path.as_str(), target))
    }
}
