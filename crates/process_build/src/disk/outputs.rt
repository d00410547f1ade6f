//! What lies at the outputs' paths, read within the limits of an output.
ghost use Rattle.std.specs.Prelude.{◌≡◌, ◌≤◌, ◌+◌, ◌⊎◌, ◌↔◌, [], All, Err, IfErr, IfOk, IfSome, IsTrue};
ghost use Rattle.std.specs.Prelude.{IsUtf8, length, string_bytes};
ghost use Rattle.std.specs.Fs.{metadata_mode};
ghost use Rattle.std.specs.Io.KnownBytes.{Consumes, IsAtEnd, ReadConsumes};
ghost use Rattle.drv_graph.specs.declared.profile.Profile.TheVariants.{Nix, Plain};
ghost use Rattle.process_build.specs.private.Answers.{IsExecutable, IsKindAt, IsKindOf, IsNoKind};
ghost use Rattle.process_build.specs.private.Answers.{IsReadAs, IsReadingFault, OthersMayWrite};
ghost use Rattle.process_build.specs.Contents.{IsAllowed};
ghost use Rattle.build_outcome.specs.declared.job.LeftOutput.{LeftOutput};
ghost use Rattle.ref_scan.specs.declared.tree.Member.{Member};
ghost use Rattle.process_build.specs.Contents.{child_of, is_member, IsMoreThan, IsWhole};
ghost use Rattle.ref_scan.specs.Trees.{joined};
ghost use Rattle.build_outcome.specs.declared.reason.Reason.TheVariants.{OutOfMemory, ReadFault};
ghost use Rattle.build_outcome.specs.declared.reason.Reason.TheVariants.{TooLarge};

use crate::disk::canonical::make_canonical;
use crate::failures::is_made_again;
use crate::reasons::read_fault;
use build_outcome::{Job, LeftOutput, Reason};
use drv_graph::Profile;
use ref_scan::{MAX_DEPTH, MAX_ENTRIES, MAX_FILE_BYTES, Member, Tree};
use std::alloc::{AllocError, Global};
use std::fs::Metadata;
use std::io::{ErrorKind, Read};
use std::os::unix::fs::PermissionsExt;
use std::rt::Files;
use std::{fs, io, str};

// The most bytes of a piece of a file.
const MAX_PIECE: usize = 65_536;

// The bit of a mode by which the owner may execute a file.
pub(crate) const OWNER_EXECUTES: u32 = 0o100;

// The bits of a mode by which its group, and others, may write a file or a folder.
const OTHERS_WRITE: u32 = 0o022;

// How many bytes of a folder's names are read at once; there is room for any name.
const NAMES_AT_ONCE: usize = 4_096;

/// What lies at the path of each output of a job, in the job's order, `None` where nothing does; or
/// the first fault. A folder's entries are read in the byte order of their names. Whether others
/// than its owner may write an output is told by the mode that the builder left it, before that is
/// changed. Under the profile `nix` outputs may have symbolic links, none of which is followed,
/// files that their owner may execute are told from others, nothing is limited, and files and
/// folders get their canonical modes and time before they are read. Under `plain` a link is a
/// `ReadFault`, and what passes the limits of an output is `TooLarge`.
pub fn read_outputs<R: Files + AllocGlobal>(
    rt: &R,
    job: &Job,
) -> Result<Vec<Option<LeftOutput>>, Reason>
    ensures count { IfOk result (λ left. length left.items ≡ length job.now.outputs.items) }
    ensures plain { IfOk result (λ left. All (λ output. IfSome output
        (λ (o : LeftOutput). IsAllowed job.now.profile o.tree)) left.items) }
    ensures bad { IfErr result IsReadingFault }
{
    let mut left = Vec::new(rt.alloc());
    for output in &job.outputs {
        left.push(read_output(rt, output.path.as_str(), job.profile)?)?;
    }
    Ok(left)
}

// What lies at a path, if anything does.
fn read_output<R: Files + AllocGlobal>(
    rt: &R,
    path: &str,
    profile: Profile,
) -> Result<Option<LeftOutput>, Reason>
    ensures plain { IfOk result (λ left. IfSome left
        (λ (o : LeftOutput). IsAllowed profile o.tree)) }
    ensures bad { IfErr result IsReadingFault }
{
    let found = fs::symlink_metadata(rt, path);
    let others_may_write = others_may_write_at(&found);
    make_canonical(rt, path, &found, profile).map_err(read_fault)?;
    match kind_of(found, profile)? {
        Some(kind) => {
            let mut reader = Reader::new(rt, profile);
            let tree = reader.tree(kind, path, most_below(profile), profile)?;
            Ok(Some(LeftOutput {
                tree,
                others_may_write,
            }))
        }
        None => Ok(None),
    }
}

// Whether something was found at a path, by the system's answer, and others than its owner may
// write it.
pub(crate) fn others_may_write_at(asked: &io::Result<Metadata>) -> bool
    ensures { IfOk asked.now (λ found. IsTrue result ↔ OthersMayWrite (metadata_mode found)) }
{
    match asked {
        Ok(found) => others_may_write(found),
        Err(_) => false,
    }
}

// Whether the group of what was found, or others, may write it. Of a link, whose mode says nothing,
// that is false.
fn others_may_write(found: &Metadata) -> bool
    ensures { IsTrue result ↔ OthersMayWrite (metadata_mode found.now) }
{
    found.permissions().mode() & OTHERS_WRITE != 0 && !found.is_symlink()
}

/// What an output may have.
#[derive(Clone, Copy)]
pub enum FileKind {
    /// A regular file.
    File,
    /// A regular file that its owner may execute, where that is told.
    Executable,
    /// A folder.
    Folder,
    /// A symbolic link.
    Link,
}

// What lies at a path, by the system's answer. A fault if outputs may not have it.
fn kind_of(asked: io::Result<Metadata>, profile: Profile) -> Result<Option<FileKind>, Reason>
    ensures found { IfOk asked (λ found. IsKindOf profile (metadata_mode found) result) }
    ensures fault { IfErr asked (λ error. IsNoKind error result) }
    ensures bad { IfErr result IsReadingFault }
{
    match asked {
        Ok(found) => Ok(Some(kind_at(&found, profile)?)),
        Err(error) if error.kind() == ErrorKind::NotFound => Ok(None),
        Err(error) => Err(read_fault(error)),
    }
}

// What was found as a part of an output, under a profile.
fn kind_at(found: &Metadata, profile: Profile) -> Result<FileKind, Reason>
    ensures { IsKindAt profile (metadata_mode found.now) result }
{
    match (found.is_file(), found.is_dir(), found.is_symlink(), profile) {
        (true, _, _, Profile::Nix) if is_executable(found) => Ok(FileKind::Executable),
        (true, _, _, _) => Ok(FileKind::File),
        (_, true, _, _) => Ok(FileKind::Folder),
        (_, _, true, Profile::Nix) => Ok(FileKind::Link),
        _ => Err(Reason::ReadFault),
    }
}

// Whether the owner of what was found may execute it.
pub(crate) fn is_executable(found: &Metadata) -> bool
    ensures { IsTrue result ↔ IsExecutable (metadata_mode found.now) }
{
    found.permissions().mode() & OWNER_EXECUTES != 0
}

// The most levels below the top of an output.
fn most_below(profile: Profile) -> usize
    ensures { profile ≡ Plain → result ≡ 31 }
{
    match profile {
        Profile::Plain => MAX_DEPTH - 1,
        Profile::Nix => usize::MAX,
    }
}

// Reads one output, and knows how many entries and bytes of files and targets it may still have.
// Each file is read through the buffer.
#[derive(Drop)]
struct Reader<'a, R> {
    rt: &'a R,
    entries: usize,
    bytes: usize,
    buffer: [u8; MAX_PIECE],
}

impl<'a, R: Files + AllocGlobal> Reader<'a, R> {
    // Nothing is read yet.
    fn new(rt: &'a R, profile: Profile) -> Reader<'a, R> {
        let (entries, bytes) = match profile {
            Profile::Plain => (MAX_ENTRIES, MAX_FILE_BYTES),
            Profile::Nix => (usize::MAX, usize::MAX),
        };
        Reader {
            rt,
            entries,
            bytes,
            buffer: [0; MAX_PIECE],
        }
    }

    // What lies at a path, by what was found there under a profile, with at most `below` levels
    // below its own.
    #[cycle(tree)]
    fn tree(
        &mut self,
        kind: FileKind,
        path: &str,
        below: usize,
        profile: Profile,
    ) -> Result<Tree, Reason>
        requires { kind ≡ FileKind.Link → profile ≡ Nix }
        ensures tree { IfOk result (IsReadAs kind) }
        ensures plain { IfOk result (IsAllowed profile) }
        ensures bad { IfErr result IsReadingFault }
    {
        match kind {
            FileKind::File => Ok(Tree::Pieces(self.pieces(path)?)),
            FileKind::Executable => Ok(Tree::Executable(self.pieces(path)?)),
            FileKind::Folder => Ok(Tree::Dir(self.members(path, below, profile)?)),
            FileKind::Link => Ok(Tree::Link(self.target(path)?)),
        }
    }

    // The members of a folder, in the byte order of their names.
    #[cycle(tree)]
    fn members(&mut self, path: &str, below: usize, profile: Profile) -> Result<Vec<Member>, Reason>
        ensures plain { IfOk result (λ members.
            All (λ (m : Member). IsAllowed profile m.tree) members.items) }
        ensures bad { IfErr result IsReadingFault }
    {
        let alloc = self.rt.alloc();
        let mut members = Vec::new(alloc);
        for name in self.names(path)? {
            members.push(self.member(path, name, below, profile)?)?;
        }
        Ok(members)
    }

    // The member of a folder with this name, if a level is left for it.
    #[cycle(tree)]
    fn member(
        &mut self,
        path: &str,
        name: Vec<u8>,
        below: usize,
        profile: Profile,
    ) -> Result<Member, Reason>
        ensures plain { IfOk result (λ (m : Member). IsAllowed profile m.tree) }
        ensures bad { IfErr result IsReadingFault }
    {
        let Some(below) = below.checked_sub(1) else {
            return Err(Reason::TooLarge);
        };
        let path = child_path(self.rt.alloc(), path, &name)?;
        let found = fs::symlink_metadata(self.rt, path.as_str());
        make_canonical(self.rt, path.as_str(), &found, profile).map_err(read_fault)?;
        let Some(kind) = kind_of(found, profile)? else {
            return Err(Reason::ReadFault);
        };
        let tree = self.tree(kind, path.as_str(), below, profile)?;
        Ok(Member { name, tree })
    }

    // The target of a link, which is not followed.
    fn target(&mut self, path: &str) -> Result<Vec<u8>, Reason>
        ensures left { IfOk result (λ target.
            self.new.bytes + length target.items ≡ self.old.bytes) }
        ensures bad { IfErr result IsReadingFault }
    {
        let target = fs::read_link(self.rt, path).map_err(read_fault)?;
        let target = target.into_string().into_bytes();
        let Some(left) = self.bytes.checked_sub(target.len()) else {
            return Err(Reason::TooLarge);
        };
        self.bytes = left;
        Ok(target)
    }

    // The names in a folder, in byte order. A link in its place is not followed.
    fn names(&mut self, path: &str) -> Result<Vec<Vec<u8>>, Reason>
        ensures { IfErr result IsReadingFault }
    {
        let mut folder = self.rt.open_dir(path).map_err(read_fault)?;
        let mut read = [0; NAMES_AT_ONCE];
        let mut names = Vec::new(self.rt.alloc());
        for _ in 0..u64::MAX {
            let count = read_once(&mut folder, &mut read).map_err(read_fault)?;
            if count == 0 {
                break;
            }
            self.push_names(&read[..count], &mut names)?;
        }
        names.sort_unstable();
        Ok(names)
    }

    // Adds names, each of which is ended by a zero byte, to a list, and counts them.
    fn push_names(&mut self, read: &[u8], names: &mut Vec<Vec<u8>>) -> Result<(), Reason>
        ensures { IfErr result (λ reason. (reason ≡ OutOfMemory) ⊎ (reason ≡ TooLarge)) }
    {
        for name in read.split(|byte| *byte == 0) {
            if is_member(name) {
                let Some(left) = self.entries.checked_sub(1) else {
                    return Err(Reason::TooLarge);
                };
                self.entries = left;
                names.push(Vec::from_slice(self.rt.alloc(), name)?)?;
            }
        }
        Ok(())
    }

    // The bytes of a file, in pieces.
    fn pieces(&mut self, path: &str) -> Result<Vec<Vec<u8>>, Reason>
        ensures { IfErr result IsReadingFault }
    {
        let mut file = fs::open(self.rt, path).map_err(read_fault)?;
        self.pieces_of(&mut file)
    }

    // All bytes of a file, in pieces.
    fn pieces_of<F: Read>(&mut self, file: &mut F) -> Result<Vec<Vec<u8>>, Reason>
        ensures all { IfOk result (λ pieces.
            IsWhole (F.remaining file.old) (F.remaining file.new) pieces.items) }
        ensures left { IfOk result (λ pieces.
            self.new.bytes + length (joined pieces.items) ≡ self.old.bytes) }
        ensures bad { IfErr result IsReadingFault }
    {
        let mut pieces = Vec::new(self.rt.alloc());
        for _ in 0..u64::MAX {
            let piece = self.piece(file)?;
            if piece.as_slice().is_empty() {
                return Ok(pieces);
            }
            pieces.push(piece)?;
        }
        // Each piece has a byte.
        Err(Reason::TooLarge)
    }

    // The next piece of a file: exactly what one reading gave, and no bytes at its end.
    fn piece<F: Read>(&mut self, file: &mut F) -> Result<Vec<u8>, Reason>
        ensures size { IfOk result (λ piece. length piece.items ≤ 65536) }
        ensures bytes { IfOk result (λ piece.
            Consumes (F.remaining file.old) (F.remaining file.new) piece.items) }
        ensures end { IfOk result (λ piece.
            piece.items ≡ [] → IsAtEnd (F.remaining file.new)) }
        ensures left { IfOk result (λ piece.
            self.new.bytes + length piece.items ≡ self.old.bytes) }
        ensures too_large { (result ≡ Err TooLarge)
            → IsMoreThan self.old.bytes (F.remaining file.old) }
        ensures bad { IfErr result IsReadingFault }
    {
        let most = self.bytes.saturating_add(1).min(MAX_PIECE);
        let count = read_once(file, &mut self.buffer[..most]).map_err(read_fault)?;
        let Some(left) = self.bytes.checked_sub(count) else {
            return Err(Reason::TooLarge);
        };
        self.bytes = left;
        Ok(Vec::from_slice(self.rt.alloc(), &self.buffer[..count])?)
    }
}

// Reads once, and again if a signal interrupted it.
pub(crate) fn read_once<F: Read>(file: &mut F, buffer: &mut [u8]) -> io::Result<usize>
    ensures same { length buffer.new ≡ length buffer.old }
    ensures count { IfOk result (λ count. count ≤ length buffer.old) }
    ensures bytes { ReadConsumes (F.remaining file.old) (F.remaining file.new) result buffer.new }
{
    for _ in 0..u64::MAX {
        match file.read(buffer) {
            Err(error) if is_made_again(&error) => {}
            answer => return answer,
        }
    }
    Err(io::Error::from(ErrorKind::Interrupted))
}

// Whether a name that was read in a folder is that of a member: it is not empty, and neither the
// folder itself nor the one above.
pub(crate) fn is_member(name: &[u8]) -> bool
    ensures { result ≡ is_member name.now }
{
    if name.is_empty() {
        return false;
    }
    name != b".".as_slice() && name != b"..".as_slice()
}

// The path of a member of a folder; a fault where its name isn't UTF-8.
fn child_path(alloc: Global, path: &str, name: &[u8]) -> Result<String, Reason>
    ensures path { IfOk result (λ child. string_bytes child ≡ child_of path.now name.now) }
    ensures bad { IfErr result (λ reason.
        (reason ≡ OutOfMemory) ⊎ ((reason ≡ ReadFault) × ¬ (IsUtf8 name.now))) }
{
    match str::from_utf8(name) {
        Ok(name) => Ok(join_path(alloc, path, name)?),
        Err(_) => Err(Reason::ReadFault),
    }
}

// The path of a name in a folder.
pub(crate) fn join_path(alloc: Global, path: &str, name: &str) -> Result<String, AllocError>
    ensures { IfOk result (λ child. string_bytes child ≡ child_of path.now name.now) }
{
    format!(in alloc; "{path}/{name}")
}
