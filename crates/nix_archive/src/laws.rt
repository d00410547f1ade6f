//! Laws of archives, proved from the definitions that contracts use.
ghost use Rattle.nix_archive.specs.Laws.{ArchivesTellTrees, FaultsComeFirst, NoArchiveBeginsAnother, ReadingsBegin, ReadingsJoin, ReadingsTellTrees, SumsAreOfArchives, TokensWriteArchives};

use crate::event::Hear;
use sha2::Digest;

/// Trees with one archive are one tree, and no archive begins another.
pub fn archives_tell_trees()
    ensures one_tree { ArchivesTellTrees }
    ensures none_within { NoArchiveBeginsAnother }
{}

/// What a writer writes at the events of a tree is the tree's archive.
pub fn events_write_archives()
    ensures { TokensWriteArchives }
{}

/// What readings in a row have read, from the first byte on until nothing is left, is the archive
/// of the tree that the hearer heard of, and what is written at its events.
pub fn readings_are_written_again<H: Hear>()
    ensures join { ReadingsJoin H.heard }
    ensures whole { ReadingsTellTrees H.heard }
{}

/// What readings in a row have read begins some archive. A fault after them names the first byte
/// with which none goes on, by its offset in the piece.
pub fn faults_come_first<H: Hear>()
    ensures begun { ReadingsBegin H.heard }
    ensures first { FaultsComeFirst H.heard }
{}

/// What a writer into a `DigestSink` keeps at the events of a tree is the length and the digest of
/// the tree's archive.
pub fn sums_are_of_archives<D: Digest>()
    ensures { SumsAreOfArchives D.holds }
{}
