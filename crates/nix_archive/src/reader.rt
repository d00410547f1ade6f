//! What a reader of an archive keeps.
ghost use Rattle.nix_archive.specs.Parts.{names_of};
ghost use Rattle.nix_archive.specs.private.Ready.{IsReady, ready_one};

use crate::mode::Mode;
use std::alloc::Global;

/// A reader of an archive that comes in pieces. It keeps the names of the entries that it is in.
#[derive(Drop)]
pub struct ArchiveReader {
    pub(crate) alloc: Global,
    // how many zeros come first
    pub(crate) zeros: usize,
    // the fixed bytes that come then
    pub(crate) text: &'static [u8],
    // what comes then
    pub(crate) mode: Mode,
    // the bytes of a length, a name or a target so far
    pub(crate) seen: Vec<u8>,
    // for each open folder the name of its last entry, or no bytes
    pub(crate) folders: Vec<Vec<u8>>,
    ghost ready: { IsReady mode seen.items (names_of folders.items) } by { ready_one mode seen.items (names_of folders.items) },
}
