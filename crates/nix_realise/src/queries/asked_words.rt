//! The words of `check`, and what is found of them before the digests of their files are taken.
ghost use Rattle.std.specs.Prelude.{◌≡◌, All, IfOk, IfErr, map};
ghost use Rattle.nix_drv.specs.Sources.{GivesSame};
ghost use Rattle.nix_realise.specs.private.CheckGroups.{IsFound, file_bytes};

use crate::queries::check_verdict::Verdict;
use nix_drv::{DrvFault, DrvSource, SourceFault};
use nix_names::{NameFault, StoreDir, StorePath, parse_path};
use std::alloc::Global;
use std::convert::AsSlice;

/// A word of `check`, and what is found of it.
#[derive(Drop)]
pub struct AskedWord<'a> {
    pub(crate) word: &'a [u8],
    pub(crate) found: Found,
}

/// What is found of a word before a digest is taken.
#[derive(Drop)]
pub enum Found {
    /// The verdict on it.
    Known(Verdict),
    /// It is the path of a file that has these bytes.
    File(StorePath, Vec<u8>),
}

// The bytes of its file; none where the verdict is known.
impl<'a> AsSlice<u8> for AskedWord<'a> {
    ghost items = { λ asked. file_bytes asked.found };

    fn as_slice(&self) -> &[u8] {
        match &self.found {
            Found::Known(_) => &[],
            Found::File(_, bytes) => bytes,
        }
    }
}

/// Parses each word as a path of the store folder and fetches its file, in order. `NoMemory` is the
/// only error.
pub fn ask<'a, S: DrvSource>(
    alloc: Global,
    source: &mut S,
    dir: &StoreDir,
    words: &[&'a str],
) -> Result<Vec<AskedWord<'a>>, DrvFault>
    ensures keeps { GivesSame (S.gives source.old) (S.gives source.new) }
    ensures words_are { IfOk result
        (λ asked. map (λ a. a.word.now) asked.items ≡ map (λ w. w.now) words.now) }
    ensures each { IfOk result (λ asked.
        All (λ a. IsFound (S.gives source.old) dir.now a.word.now a.found) asked.items) }
    ensures only { IfErr result (λ e. e ≡ DrvFault.NoMemory) }
{
    let mut asked = Vec::new(alloc);
    for word in words {
        let word = word.as_bytes();
        let found = find(alloc, source, dir, word)?;
        asked.push(AskedWord { word, found })?;
    }
    Ok(asked)
}

// Parses a word as a path of the store folder and fetches its file. `NoMemory` is the only error.
fn find<S: DrvSource>(
    alloc: Global,
    source: &mut S,
    dir: &StoreDir,
    word: &[u8],
) -> Result<Found, DrvFault>
    ensures keeps { GivesSame (S.gives source.old) (S.gives source.new) }
    ensures found { IfOk result (IsFound (S.gives source.old) dir.now word.now) }
    ensures only { IfErr result (λ e. e ≡ DrvFault.NoMemory) }
{
    let path = match parse_path(alloc, dir, word) {
        Ok(path) => path,
        Err(NameFault::NoMemory) => return Err(DrvFault::NoMemory),
        Err(fault) => return Ok(Found::Known(Verdict::NoPath(fault))),
    };
    match source.fetch(alloc, &path) {
        Ok(bytes) => Ok(Found::File(path, bytes)),
        Err(SourceFault::NoMemory) => Err(DrvFault::NoMemory),
        Err(_) => Ok(Found::Known(Verdict::Unreadable)),
    }
}
