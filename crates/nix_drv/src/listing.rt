//! A source that is a list of files in memory.
ghost use Rattle.std.specs.Prelude.{◌≡◌, ◌≤◌, ℕ, List, IfOk, IfErr};
ghost use Rattle.std.specs.Option.{option_copied};
ghost use Rattle.nix_drv.specs.ListedFiles.{entries_of, pairs_of};
ghost use Rattle.nix_drv.specs.Sources.{IsFetched, GivesSame, IsCounted, IsGiven, IsListingOf, after_fetch, bytes_at, listing_gives, next_answer};

use crate::source::{DrvSource, SourceFault};
use indexmap::IndexMap;
use nix_names::StorePath;
use std::alloc::{AllocError, Global};
use std::marker::Model;

/// A file of a list.
#[derive(Debug, Drop)]
pub struct ListedFile {
    /// The text of its path.
    pub path: Vec<u8>,
    /// Its content.
    pub bytes: Vec<u8>,
}

/// A list of files in memory. Chosen fetches fail as those of a broken device do. Of several files
/// at one path the first is fetched.
#[derive(Debug, Drop)]
pub struct ListSource {
    files: IndexMap<Vec<u8>, Vec<u8>>,
    failing: Vec<u64>,
    fetches: u64,
    failures: u64,
}

impl Model for ListSource {
    ghost use Rattle.nix_drv.specs.ListedFiles.{entries_of};
    ghost use Rattle.nix_drv.specs.Sources.{Listing};

    ghost Value = { Listing };

    ghost view = { λ source. record {
      files = entries_of source.files.entries;
      failing = source.failing.items;
      fetches = source.fetches;
      failures = source.failures;
    } };
}

impl ListSource {
    /// The source with these files. The fetches with these numbers, counted from 0, fail. Fails
    /// with `NoMemory` where memory is refused, and with no other fault. Costs one entry of a hash
    /// table for each file.
    pub fn new(
        alloc: Global,
        files: Vec<ListedFile>,
        failing: Vec<u64>,
    ) -> Result<ListSource, SourceFault>
        ensures ok { IfOk result (IsListingOf (pairs_of files.items) failing.items) }
        ensures err { IfErr result (λ fault. fault ≡ SourceFault.NoMemory) }
    {
        Ok(ListSource {
            files: by_path(alloc, files)?,
            failing,
            fetches: 0,
            failures: 0,
        })
    }

    /// The number of fetches that failed, at most `u64::MAX`.
    pub fn failures(&self) -> u64
        ensures { result ≡ self.now.failures }
    {
        self.failures
    }

    // The next fetch of the path.
    fn next(&mut self, alloc: Global, path: &[u8]) -> Result<Vec<u8>, SourceFault>
        ensures after { self.new ≡ after_fetch self.old }
        ensures answer { IsFetched (next_answer self.old path.now) result }
    {
        let is_failing = self.failing.contains(&self.fetches);
        self.fetches = self.fetches.saturating_add(1);
        if is_failing {
            self.failures = self.failures.saturating_add(1);
            return Err(SourceFault::Device);
        }
        match bytes_at(&self.files, path) {
            Some(bytes) => Ok(Vec::from_slice(alloc, bytes)?),
            None => Err(SourceFault::Missing),
        }
    }
}

impl DrvSource for ListSource {
    ghost gives = { listing_gives };

    ghost failures = { λ listing. listing.failures };

    /// The bytes of the first file at the path, unless this fetch is one of those that fail.
    /// Costs one look-up by hash and one copy of the bytes.
    #[tactic(auto, using(crate::proofs::CheckedListings::keeps_gives, crate::proofs::CheckedListings::answer_is_given, crate::proofs::CheckedListings::device_is_counted, crate::proofs::CheckedListings::failures_rise))]
    fn fetch(&mut self, alloc: Global, path: &StorePath) -> Result<Vec<u8>, SourceFault>
        ensures keeps { GivesSame (listing_gives self.old) (listing_gives self.new) }
        ensures given { IsGiven (listing_gives self.old path.now) result }
        ensures device { IsCounted self.old.failures self.new.failures result }
        ensures counts { self.old.failures ≤ self.new.failures }

        ensures after { self.new ≡ after_fetch self.old }
        ensures answer { IsFetched (next_answer self.old path.now) result }
    {
        self.next(alloc, path.text())
    }
}

// The bytes of the first file at each path. The files go in from the last to the first, since the
// map keeps the bytes that went in last for a path.
fn by_path(
    alloc: Global,
    mut files: Vec<ListedFile>,
) -> Result<IndexMap<Vec<u8>, Vec<u8>>, AllocError>
    ensures { IfOk result
        (λ map. (path : List ℕ)
        → bytes_at (entries_of map.entries) path ≡ bytes_at (pairs_of files.items) path) }
{
    let mut by_path = IndexMap::new(alloc);
    'files: while let Some(file) = files.pop() {
        by_path.insert(file.path, file.bytes)?;
    }
    Ok(by_path)
}

// The bytes at the path, if there are any.
fn bytes_at<'a>(files: &'a IndexMap<Vec<u8>, Vec<u8>>, path: &[u8]) -> Option<&'a [u8]>
    ensures { option_copied result ≡ bytes_at (entries_of files.now.entries) path.now }
{
    let bytes = files.get(path)?;
    Some(bytes)
}
