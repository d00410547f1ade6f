//! Entries of a journal: paths that were added, and outputs that were built.
ghost use Rattle.std.specs.Prelude.{◌≡◌, ◌≢◌, ◌<◌, ◌↔◌, [], List, IfOk, IfErr, IsOk, IsTrue, MatchOption, None, Some, length, slice_get, vec_capacity};
ghost use Rattle.nix_names.specs.Rising.{IsRising};
ghost use Rattle.valid_table.specs.Entries.{IsSortedOf, paths_registered, registered_by};
ghost use Rattle.valid_table.specs.private.RecordContents.{digest_known, nar_known, references_known, some_stored};
ghost use Rattle.valid_table.specs.Written.{needs_three};
ghost use Rattle.valid_table.specs.Valid.{IsOnce};

use crate::journal_text::stored_digest::StoredMethodDigest;
use crate::nar::Nar;
use nix_names::{Method, MethodDigest, StorePath};
use std::alloc::{AllocError, Global};
use std::marker::Model;
use std::slice;
use std::sync::{Arc, ArcSlice};

/// What is known of a valid path. A contract sees its references, its digest and its archive. All
/// copies of a record share its memory, also across threads. A record that has none of the three
/// takes no memory.
#[derive(Debug, Drop)]
pub struct Record {
    known: RecordContent,
}

// What is known of a path. Copies of a record share it.
#[derive(Debug, Drop)]
enum RecordContent {
    Nothing,
    References(ArcSlice<StorePath>),
    Digest(Arc<StoredMethodDigest>),
    Details(Arc<Details>),
}

// References, a digest and an archive, in one block.
#[derive(Debug, Drop)]
struct Details {
    references: ArcSlice<StorePath>,
    digest: Option<StoredMethodDigest>,
    nar: Option<Nar>,
}

impl Model for Record {
    ghost use Rattle.nix_names.specs.Rising.{IsRising};
    ghost use Rattle.valid_table.specs.private.RecordContents.{digest_known, nar_known, references_known};
    ghost use Rattle.valid_table.specs.PathInfos.{PathInfo};

    ghost Value = { PathInfo };

    ghost view = { λ r. record {
      references = references_known r.known;
      digest = digest_known r.known;
      nar = nar_known r.known;
    } };

    ghost invariant = { λ r. IsRising (references_known r.known) };
}

impl Record {
    /// The record of a path with these references, with the digest of its bytes where it is a file
    /// or of its archive, and with its archive. Takes memory only where one of the three is there.
    pub fn new(
        references: Vec<StorePath>,
        digest: Option<MethodDigest>,
        nar: Option<Nar>,
    ) -> Result<Record, AllocError>
        requires rising { IsRising references.items }
        ensures references { IfOk result (λ r. r.references ≡ references.items) }
        ensures digest { IfOk result (λ r. r.digest ≡ digest) }
        ensures nar { IfOk result (λ r. r.nar ≡ nar) }
        ensures none { references.items ≡ [] → digest ≡ None → nar ≡ None → IsOk result }
    {
        let known = match (digest, nar) {
            (None, None) => RecordContent::of_references(references)?,
            (Some(digest), None) => RecordContent::of_digest(references, digest)?,
            (digest, nar) => RecordContent::of_all(references, digest, nar)?,
        };
        Ok(Record { known })
    }

    /// The paths that the path refers to, strictly rising.
    pub fn references(&self) -> &[StorePath]
        ensures value { result.now ≡ self.now.references }
        ensures rising { IsRising result.now }
    {
        match &self.known {
            RecordContent::Nothing | RecordContent::Digest(_) => &[],
            RecordContent::References(shared) => shared.as_slice(),
            RecordContent::Details(shared) => shared.references.as_slice(),
        }
    }

    /// The digest of the path's bytes where it is a file, or of its archive, where it is known.
    pub fn digest(&self) -> Option<MethodDigest>
        ensures { result ≡ self.now.digest }
    {
        match &self.known {
            RecordContent::Nothing | RecordContent::References(_) => None,
            RecordContent::Digest(shared) => Some(shared.found()),
            RecordContent::Details(shared) => stored(&shared.digest),
        }
    }

    /// The SHA-256 and the length of the path's archive, where they are known.
    pub fn nar(&self) -> Option<Nar>
        ensures { result ≡ self.now.nar }
    {
        match &self.known {
            RecordContent::Nothing | RecordContent::References(_) | RecordContent::Digest(_) =>
                None,
            RecordContent::Details(shared) => shared.nar,
        }
    }

    // Whether only version 3 of a journal's text can tell what is known of the path.
    pub(crate) fn needs_three(&self) -> bool
        ensures { result ≡ needs_three self.now }
    {
        if self.nar().is_some() {
            return true;
        }
        match self.digest() {
            None => false,
            Some(found) => match found.method {
                Method::Flat => false,
                Method::Recursive => true,
            },
        }
    }

    /// A copy of the record, which shares what is known. Fails only where the shared memory can
    /// have no more owners.
    pub fn copy(&self, _alloc: Global) -> Result<Record, AllocError>
        ensures ok { IfOk result (λ r. r ≡ self.now) }
    {
        let known = match &self.known {
            RecordContent::Nothing => RecordContent::Nothing,
            RecordContent::References(shared) => RecordContent::References(shared.clone()?),
            RecordContent::Digest(shared) => RecordContent::Digest(shared.clone()?),
            RecordContent::Details(shared) => RecordContent::Details(shared.clone()?),
        };
        Ok(Record { known })
    }
}

// A digest that is stored, where there is one.
fn stored(digest: &Option<StoredMethodDigest>) -> Option<MethodDigest>
    ensures { result ≡ some_stored digest.now }
{
    match digest {
        None => None,
        Some(digest) => Some(digest.found()),
    }
}

impl RecordContent {
    // What is known of a path with these references alone.
    fn of_references(references: Vec<StorePath>) -> Result<RecordContent, AllocError>
        ensures references { IfOk result (λ k. references_known k ≡ references.items) }
        ensures digest { IfOk result (λ k. digest_known k ≡ None) }
        ensures nar { IfOk result (λ k. nar_known k ≡ None) }
        ensures none { references.items ≡ [] → IsOk result }
    {
        if references.is_empty() {
            return Ok(RecordContent::Nothing);
        }
        let shared = ArcSlice::from_vec(references)?;
        Ok(RecordContent::References(shared))
    }

    // What is known of a path with these references and a digest.
    fn of_digest(
        references: Vec<StorePath>,
        digest: MethodDigest,
    ) -> Result<RecordContent, AllocError>
        ensures references { IfOk result (λ k. references_known k ≡ references.items) }
        ensures digest { IfOk result (λ k. digest_known k ≡ Some digest) }
        ensures nar { IfOk result (λ k. nar_known k ≡ None) }
    {
        if !references.is_empty() {
            return RecordContent::of_all(references, Some(digest), None);
        }
        let alloc = *references.allocator();
        let digest = StoredMethodDigest::new(alloc, digest)?;
        Ok(RecordContent::Digest(Arc::new(alloc, digest)?))
    }

    // What is known of a path with these references, a digest and an archive.
    fn of_all(
        references: Vec<StorePath>,
        digest: Option<MethodDigest>,
        nar: Option<Nar>,
    ) -> Result<RecordContent, AllocError>
        ensures references { IfOk result (λ k. references_known k ≡ references.items) }
        ensures digest { IfOk result (λ k. digest_known k ≡ digest) }
        ensures nar { IfOk result (λ k. nar_known k ≡ nar) }
    {
        let alloc = *references.allocator();
        let digest = match digest {
            None => None,
            Some(digest) => Some(StoredMethodDigest::new(alloc, digest)?),
        };
        let references = ArcSlice::from_vec(references)?;
        let details = Details {
            references,
            digest,
            nar,
        };
        Ok(RecordContent::Details(Arc::new(alloc, details)?))
    }
}

/// A path that an entry registers, with its record.
#[derive(Debug, Drop)]
pub struct Registration {
    /// The path, which becomes valid.
    pub path: StorePath,
    /// What is known of it.
    pub info: Record,
}

impl Registration {
    /// A copy of the registration. Want of memory is its only fault.
    pub fn copy(&self, alloc: Global) -> Result<Registration, AllocError>
        ensures ok { IfOk result (λ r. r ≡ self.now) }
    {
        Ok(Registration {
            path: self.path.copy(alloc)?,
            info: self.info.copy(alloc)?,
        })
    }
}

/// The outputs of one derivation: at least one, strictly rising by path. A contract sees their
/// list.
#[derive(Debug, Drop)]
pub struct Outputs {
    registrations: Vec<Registration>,
}

impl Model for Outputs {
    ghost use Rattle.std.specs.Prelude.{List, [], ◌≢◌, map};
    ghost use Rattle.nix_names.specs.Rising.{IsRising};
    ghost use Rattle.valid_table.specs.declared.entry.Registration.{Registration};

    ghost Value = { List Registration };

    ghost view = { λ o. o.registrations.items };

    ghost invariant = { λ o. (o.registrations.items ≢ [])
        × IsRising (map (λ (r : Registration). r.path) o.registrations.items) };
}

impl Outputs {
    /// The outputs with these paths and records.
    pub fn new(registrations: Vec<Registration>) -> Outputs
        requires some { registrations.items ≢ [] }
        requires rising { IsRising (paths_registered registrations.items) }
        ensures { result ≡ registrations.items }
    {
        Outputs { registrations }
    }

    /// The outputs with these paths and records, which may come in any order. None where there are
    /// no registrations, or where a path comes twice. Sorts them in place, and takes no memory.
    pub fn sorted(mut registrations: Vec<Registration>) -> Option<Outputs>
        ensures { MatchOption result ((registrations.items ≢ []) × IsOnce registrations.items → ⊥)
            (IsSortedOf registrations.items) }
    {
        if registrations.is_empty() {
            return None;
        }
        registrations.sort_unstable_by(|a, b| a.path.cmp(&b.path));
        if !is_rising(registrations.as_slice()) {
            return None;
        }
        Some(Outputs { registrations })
    }

    /// The outputs, by path.
    pub fn as_slice(&self) -> &[Registration]
        ensures value { result.now ≡ self.now }
        ensures some { result.now ≢ [] }
        ensures rising { IsRising (paths_registered result.now) }
    {
        &self.registrations
    }

    // The outputs, by path, taken out.
    pub(crate) fn into_registrations(self) -> Vec<Registration>
        ensures { result.items ≡ self }
    {
        self.registrations
    }

    /// A copy of the outputs. Want of memory is its only fault.
    pub fn copy(&self, alloc: Global) -> Result<Outputs, AllocError>
        ensures ok { IfOk result (λ o. o ≡ self.now) }
    {
        let registrations = copy_registrations(alloc, &self.registrations)?;
        Ok(Outputs { registrations })
    }
}

/// One entry of a journal.
#[derive(Debug, Drop)]
pub enum Entry {
    /// A path that was added to the store.
    Add(Registration),
    /// The outputs of the derivation with this path, which was built.
    Done(StorePath, Outputs),
}

impl Entry {
    /// What the entry registers, strictly rising by path.
    pub fn registrations(&self) -> &[Registration]
        ensures value { result.now ≡ registered_by self.now }
        ensures some { result.now ≢ [] }
        ensures rising { IsRising (paths_registered result.now) }
    {
        match self {
            Entry::Add(registration) => slice::from_ref(registration),
            Entry::Done(_, outputs) => outputs.as_slice(),
        }
    }

    // Shows the prover that an entry registers at least one path, and that the paths rise.
    pub(crate) fn show_registered(&self)
        ensures some { registered_by self.now ≢ [] }
        ensures rising { IsRising (paths_registered (registered_by self.now)) }
    {
        let _ = self.registrations();
    }

    // The registration at an index, taken out.
    pub(crate) fn into_registration(self, index: usize) -> Registration
        requires { index < length (registered_by self) }
        ensures { slice_get (registered_by self) index ≡ Some result }
    {
        match self {
            Entry::Add(registration) => registration,
            Entry::Done(_, outputs) => outputs.into_registrations().swap_remove(index),
        }
    }

    /// A copy of the entry. Want of memory is its only fault.
    pub fn copy(&self, alloc: Global) -> Result<Entry, AllocError>
        ensures ok { IfOk result (λ e. e ≡ self.now) }
    {
        match self {
            Entry::Add(registration) => Ok(Entry::Add(registration.copy(alloc)?)),
            Entry::Done(deriver, outputs) => Ok(Entry::Done(
                deriver.copy(alloc)?,
                outputs.copy(alloc)?,
            )),
        }
    }
}

// Whether registrations rise strictly by path.
fn is_rising(registrations: &[Registration]) -> bool
    ensures { IsTrue result ↔ IsRising (paths_registered registrations.now) }
{
    for i in 1..registrations.len() {
        let order = registrations[i - 1].path.cmp(&registrations[i].path);
        if !order.is_lt() {
            return false;
        }
    }
    true
}

// Copies of the registrations, with room for these alone.
fn copy_registrations(
    alloc: Global,
    registrations: &[Registration],
) -> Result<Vec<Registration>, AllocError>
    ensures items { IfOk result (λ copied. copied.items ≡ registrations.now) }
    ensures room { IfOk result (λ copied. vec_capacity copied ≡ length registrations.now) }
{
    let mut copied = Vec::with_capacity(alloc, registrations.len())?;
    for registration in registrations {
        copied.push_reserved(registration.copy(alloc)?);
    }
    Ok(copied)
}

// Copies of the entries, with room for these alone.
pub(crate) fn copy_entries(alloc: Global, entries: &[Entry]) -> Result<Vec<Entry>, AllocError>
    ensures items { IfOk result (λ copied. copied.items ≡ entries.now) }
    ensures room { IfOk result (λ copied. vec_capacity copied ≡ length entries.now) }
{
    let mut copied = Vec::with_capacity(alloc, entries.len())?;
    for entry in entries {
        copied.push_reserved(entry.copy(alloc)?);
    }
    Ok(copied)
}
