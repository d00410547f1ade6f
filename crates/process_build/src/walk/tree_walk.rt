//! The walk over a tree on disk, from a path down.
ghost use Rattle.std.specs.Prelude.{◌≡◌, ◌≢◌, ◌+◌, ◌^◌, ◌∷◌, [], Err, IfOk, IfSome, List, OnOk};
ghost use Rattle.std.specs.Prelude.{Option, Some};
ghost use Rattle.drv_graph.specs.declared.profile.Profile.{Profile as AProfile};
ghost use Rattle.drv_graph.specs.declared.profile.Profile.TheVariants.{Plain};
ghost use Rattle.nix_archive.specs.Tokens.{LinkTo};
ghost use Rattle.nix_archive.specs.Trees.{Bytes, IsString};
ghost use Rattle.process_build.specs.Walks.{HearsUnder, IsPastLimits, IsTold, IsToldPast};
ghost use Rattle.process_build.specs.Walks.{IsTreeTold};
ghost use Rattle.process_build.specs.declared.walk.fault.Halt.TheVariants.{TooLarge};
ghost use Rattle.process_build.specs.private.Walking.{IsAt, IsFileAllowed, IsFolderBegun, IsFoundAllowed};
ghost use Rattle.process_build.specs.private.Walking.{IsFoundTold, IsLinkAllowed, IsAtOrDone, IsStepOf, ahead_of};

use crate::disk::canonical::make_canonical;
use crate::walk::entry_names::{entry_path, names_at};
use crate::walk::fault::{Halt, WalkFault};
use crate::walk::file_bytes::tell_file;
use crate::walk::found::{Found, FoundFile, as_told, found_at};
use crate::walk::limit::{Limit, NoLimit, tell_event};
use drv_graph::Profile;
use nix_archive::{Event, Hear};
use ref_scan::MAX_ENTRIES;
use std::fs::Metadata;
use std::rt::Files;
use std::{fs, io};

// The most bytes of a piece of a file.
const MAX_PIECE: usize = 65_536;

/// Tells a hearer what lies at a path, and says whether anything does. A folder's entries are told
/// in the byte order of their names. A regular file is executable where its owner may execute it. A
/// symbolic link is told by its target, and not followed. Times, owners and other modes are not
/// told.
///
/// `Unreadable` where something can't be read, isn't a file, a folder or a link, or has a name or a
/// target that isn't UTF-8; where a file has another length when it ends than it had when it began;
/// and where an entry is gone when it is told. `NoMemory` where memory is refused. After a fault
/// nothing is known of the hearer.
///
/// Costs one reading of the tree, and one sort of each folder's names. Keeps a piece of a file, and
/// the names of the entries of the folders that it is in. It does not recurse: folders may lie in
/// one another as deep as the system opens their paths.
pub fn tell_path<R: Files + AllocGlobal, H: Hear>(
    rt: &R,
    path: &str,
    hearer: &mut H,
) -> Result<bool, WalkFault>
    ensures { IfOk result (IsTold H.heard hearer.old hearer.new) }
{
    let limit = NoLimit;
    let mut walk = Walk::new(rt, &limit, None);
    let Some(found) = walk.look(path, fs::symlink_metadata(rt, path))? else {
        return Ok(false);
    };
    walk.tell(String::from_str(rt.alloc(), path)?, found, hearer)?;
    Ok(true)
}

/// A folder that the walk is in.
#[derive(Drop)]
pub struct OpenFolder {
    path: String,
    // the names of the entries that are still to be told, the last first
    names: Vec<Vec<u8>>,
}

/// A walk over a tree that tells it as it lies, or as an output under a profile, to hearers that a
/// limit may stop.
#[derive(Drop)]
pub struct Walk<'a, R, L> {
    rt: &'a R,
    limit: &'a L,
    // the profile of the output, if the tree is one
    profile: Option<Profile>,
    // how many names of entries may still be read of an output under `plain`
    names: usize,
    // each file is read through it
    buffer: [u8; MAX_PIECE],
}

impl<'a, R: Files + AllocGlobal, L> Walk<'a, R, L> {
    /// Nothing is told yet. An output is one of this profile.
    pub fn new(rt: &'a R, limit: &'a L, profile: Option<Profile>) -> Walk<'a, R, L>
        ensures profile { result.profile ≡ profile }
        ensures limit { result.limit.now ≡ limit.now }
    {
        Walk {
            rt,
            limit,
            profile,
            names: MAX_ENTRIES,
            buffer: [0; MAX_PIECE],
        }
    }

    /// What lies at a path, by the system's answer, as it is told. A file or a folder of an output
    /// under `nix` gets its canonical mode and time.
    pub fn look(&self, path: &str, asked: io::Result<Metadata>) -> Result<Option<Found>, WalkFault>
        ensures { IfOk result (λ found. IfSome found (IsFoundAllowed self.now.profile)) }
    {
        if let Some(profile) = self.profile {
            make_canonical(self.rt, path, &asked, profile)?;
        }
        match found_at(asked)? {
            Some(found) => Ok(Some(as_told(found, self.profile)?)),
            None => Ok(None),
        }
    }

    /// Tells what was found at a path, with all that is in it. `TooLarge` where the hearer passes
    /// the limit by what it is told, or an output under `plain` has more names than may be read.
    pub fn tell<H: Hear>(&mut self, path: String, found: Found, hearer: &mut H) -> Result<(), Halt>
    where
        L: Limit<H>,
        requires { IsFoundAllowed self.old.profile found }
        ensures told { OnOk result
            (IsTreeTold (HearsUnder self.old.profile H.heard) hearer.old hearer.new) }
        ensures past { result ≡ Err TooLarge → IsPastLimits self.old.profile H.heard
            (L.keeps self.old.limit.now) hearer.old hearer.new }
    {
        let mut around = Vec::new(self.rt.alloc());
        let mut position = self.begin(path, found, hearer)?;
        'steps: for _ in 0..u64::MAX {
            let Some(folder) = position else {
                return Ok(());
            };
            position = self.step(folder, &mut around, hearer)?;
        }
        // No system has as many entries.
        Err(Halt::Fault(WalkFault::Unreadable))
    }

    // Tells the next entry of the folder that the walk is in, or the folder's end. Gives the folder
    // in which the walk is then, and no folder where the tree was told.
    fn step<H: Hear>(
        &mut self,
        folder: OpenFolder,
        around: &mut Vec<OpenFolder>,
        hearer: &mut H,
    ) -> Result<Option<OpenFolder>, Halt>
    where
        L: Limit<H>,
        ensures position { IfOk result (λ position. (start : H)
            → IsAt (HearsUnder self.old.profile H.heard) start hearer.old (ahead_of folder)
            around.old.items
            → IsAtOrDone (HearsUnder self.old.profile H.heard) start hearer.new position
            around.new.items) }
        ensures step { IsStepOf H.heard L.keeps self.old self.new hearer.old hearer.new result }
    {
        let mut folder = folder;
        let Some(name) = folder.names.pop() else {
            let above = end_folder(around, self.limit, hearer)?;
            return Ok(above);
        };
        tell_event(self.limit, Event::BeginEntry(&name), hearer)?;
        if let Some(inside) = self.begin_entry(folder.path.as_str(), &name, hearer)? {
            around.push(folder)?;
            return Ok(Some(inside));
        }
        tell_event(self.limit, Event::EndEntry, hearer)?;
        Ok(Some(folder))
    }

    // Begins to tell what lies under a name in the folder at a path. A fault where nothing does.
    fn begin_entry<H: Hear>(
        &mut self,
        folder: &str,
        name: &[u8],
        hearer: &mut H,
    ) -> Result<Option<OpenFolder>, Halt>
    where
        L: Limit<H>,
        ensures found { IfOk result
            (IsFoundTold (HearsUnder self.old.profile H.heard) hearer.old hearer.new) }
        ensures step { IsStepOf H.heard L.keeps self.old self.new hearer.old hearer.new result }
    {
        let path = entry_path(self.rt.alloc(), folder, name)?;
        let asked = fs::symlink_metadata(self.rt, path.as_str());
        let Some(found) = self.look(path.as_str(), asked)? else {
            return Err(Halt::Fault(WalkFault::Unreadable));
        };
        self.begin(path, found, hearer)
    }

    // Tells the file or the link that was found at a path; or the begin of a folder, and gives it.
    fn begin<H: Hear>(
        &mut self,
        path: String,
        found: Found,
        hearer: &mut H,
    ) -> Result<Option<OpenFolder>, Halt>
    where
        L: Limit<H>,
        requires { IsFoundAllowed self.old.profile found }
        ensures found { IfOk result
            (IsFoundTold (HearsUnder self.old.profile H.heard) hearer.old hearer.new) }
        ensures step { IsStepOf H.heard L.keeps self.old self.new hearer.old hearer.new result }
    {
        match found {
            Found::File(file) => {
                self.tell_file_at(path.as_str(), file, hearer)?;
                Ok(None)
            }
            Found::Link => {
                self.tell_link(path.as_str(), hearer)?;
                Ok(None)
            }
            Found::Folder => Ok(Some(self.begin_folder(path, hearer)?)),
        }
    }

    // Tells the file at a path.
    fn tell_file_at<H: Hear>(
        &mut self,
        path: &str,
        found: FoundFile,
        hearer: &mut H,
    ) -> Result<(), Halt>
    where
        L: Limit<H>,
        requires { IsFileAllowed self.old.profile found }
        ensures told { OnOk result
            (IsTreeTold (HearsUnder self.old.profile H.heard) hearer.old hearer.new) }
        ensures step { IsStepOf H.heard L.keeps self.old self.new hearer.old hearer.new result }
    {
        let mut file = fs::open(self.rt, path)?;
        tell_file(&mut file, &mut self.buffer, found, self.limit, hearer)?;
        Ok(())
    }

    // Tells the link at a path, which is not followed.
    fn tell_link<H: Hear>(&self, path: &str, hearer: &mut H) -> Result<(), Halt>
    where
        L: Limit<H>,
        requires { IsLinkAllowed self.now.profile }
        ensures told { OnOk result
            (IsTreeTold (HearsUnder self.now.profile H.heard) hearer.old hearer.new) }
        ensures past { result ≡ Err TooLarge
            → IsToldPast H.heard (L.keeps self.now.limit.now) hearer.old hearer.new }
    {
        let target = fs::read_link(self.rt, path)?.into_string().into_bytes();
        tell_target(&target, self.limit, hearer)?;
        Ok(())
    }

    // Tells the begin of the folder at a path, once the names of its entries are read.
    fn begin_folder<H: Hear>(&mut self, path: String, hearer: &mut H) -> Result<OpenFolder, Halt>
    where
        L: Limit<H>,
        ensures folder { IfOk result (λ folder.
            IsFolderBegun (HearsUnder self.old.profile H.heard) hearer.old hearer.new folder) }
        ensures step { IsStepOf H.heard L.keeps self.old self.new hearer.old hearer.new result }
    {
        let names = names_at(self.rt, path.as_str(), self.most_names())?;
        self.names = self.names.saturating_sub(names.len());
        tell_event(self.limit, Event::BeginFolder, hearer)?;
        Ok(OpenFolder { path, names })
    }

    // The most names that may be read of a folder's entries. Nothing limits them but for an output
    // under `plain`.
    fn most_names(&self) -> usize
        ensures plain { self.now.profile ≡ Some Plain → result ≡ self.now.names }
        ensures other { self.now.profile ≢ Some Plain → result + 1 ≡ 2 ^ 64 }
    {
        match self.profile {
            Some(Profile::Plain) => self.names,
            _ => usize::MAX,
        }
    }
}

// Tells the target of a link.
fn tell_target<L: Limit<H>, H: Hear>(target: &[u8], limit: &L, hearer: &mut H) -> Result<(), Halt>
    ensures string { OnOk result (IsString target.now) }
    ensures told { OnOk result (H.heard hearer.old (LinkTo target.now ∷ []) hearer.new) }
    ensures past { result ≡ Err TooLarge
        → IsToldPast H.heard (L.keeps limit.now) hearer.old hearer.new }
{
    tell_event(limit, Event::Link(target), hearer)?;
    Ok(())
}

// Tells the end of a folder, and of the entry that it is, where it lies in another one. Gives that
// one.
fn end_folder<L: Limit<H>, H: Hear>(
    around: &mut Vec<OpenFolder>,
    limit: &L,
    hearer: &mut H,
) -> Result<Option<OpenFolder>, Halt>
    ensures position { IfOk result (λ position. (profile : Option AProfile) (start : H)
        (ahead : List Bytes)
        → IsAt (HearsUnder profile H.heard) start hearer.old ahead around.old.items
        → IsAtOrDone (HearsUnder profile H.heard) start hearer.new position around.new.items) }
    ensures past { result ≡ Err TooLarge
        → IsToldPast H.heard (L.keeps limit.now) hearer.old hearer.new }
{
    tell_event(limit, Event::EndFolder, hearer)?;
    let Some(folder) = around.pop() else {
        return Ok(None);
    };
    tell_event(limit, Event::EndEntry, hearer)?;
    Ok(Some(folder))
}
