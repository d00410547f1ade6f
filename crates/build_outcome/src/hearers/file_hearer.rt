//! Whether a tree that is heard is a file, and the digest of its bytes.
ghost use Rattle.std.specs.Prelude.{◌≡◌, ◌↔◌, IsTrue, OnOk, map};
ghost use Rattle.nix_archive.specs.Trees.{Tree as Archived};
ghost use Rattle.nix_archive.specs.Tokens.{FileByte, tokens_of};
ghost use Rattle.build_outcome.specs.Hearing.{IsFileBegun, IsFileHeard, IsHashedIn, archived_digest};
ghost use Rattle.build_outcome.specs.private.Hearing.{IsFlatArchived, is_flat_heard};

use super::algorithm_sink::AlgorithmSink;
use drv_graph::Profile;
use nix_archive::{Event, Hear, Sink};
use nix_names::{Algorithm, Digest};
use std::alloc::AllocError;

/// A hearer that hashes the bytes of the file that it hears, where a digest is asked for, and tells
/// whether it heard of a folder or a link. It takes no memory.
#[derive(Drop)]
pub struct FileHearer {
    // What hashes the bytes.
    sink: Option<AlgorithmSink>,
    // Whether a folder or a link was heard.
    others: bool,
    // Whether its owner may execute the file that was heard last.
    executable: bool,
}

impl FileHearer {
    /// A hearer that hashes by this algorithm, if one is asked for, and has heard nothing.
    pub fn new(asked: Option<Algorithm>) -> FileHearer
        ensures { IsFileBegun asked result }
    {
        let sink = match asked {
            Some(algorithm) => Some(AlgorithmSink::new(algorithm)),
            None => None,
        };
        FileHearer {
            sink,
            others: false,
            executable: false,
        }
    }

    // Whether the tree that was heard is a file whose bytes may be those of a fixed output.
    pub(crate) fn is_flat_file(&self, profile: Profile) -> bool
        ensures { (asked : _) (start : _) (tree : Archived) → IsFileBegun asked start
            → IsFileHeard start (tokens_of tree) self.now
            → IsTrue result ↔ IsFlatArchived profile tree }
    {
        is_flat(profile, self.others, self.executable)
    }

    /// The digest of the bytes of the file that was heard, where one is asked for; a link and a
    /// folder have none.
    pub fn finish(self) -> Option<Digest>
        ensures { (asked : _) (start : _) (tree : Archived) → IsFileBegun asked start
            → IsFileHeard start (tokens_of tree) self → result ≡ archived_digest asked tree }
    {
        let Some(sink) = self.sink else {
            return None;
        };
        if self.others {
            return None;
        }
        Some(sink.finish())
    }

    // Hears bytes of a file. They are hashed where a digest is asked for, and no folder and no link
    // was heard.
    fn hash(&mut self, bytes: &[u8]) -> Result<(), AllocError>
        ensures { OnOk result (IsFileHeard self.old (map FileByte bytes.now) self.new) }
    {
        if self.others {
            return Ok(());
        }
        hash_in(&mut self.sink, bytes)
    }
}

// Whether a tree is a file whose bytes may be those of a fixed output.
fn is_flat(profile: Profile, others: bool, executable: bool) -> bool
    ensures { result ≡ is_flat_heard profile others executable }
{
    match profile {
        Profile::Plain => !others,
        Profile::Nix => !others && !executable,
    }
}

// Hashes bytes, where they are hashed.
fn hash_in(sink: &mut Option<AlgorithmSink>, bytes: &[u8]) -> Result<(), AllocError>
    ensures { OnOk result (IsHashedIn sink.old bytes.now sink.new) }
{
    match sink {
        Some(sink) => sink.put(bytes),
        None => Ok(()),
    }
}

impl Hear for FileHearer {
    ghost use Rattle.build_outcome.specs.private.HearingLaws.{file_both, file_none};

    ghost heard = { IsFileHeard };

    ghost silence = { λ s. file_none s };

    ghost joins = { λ s m t before after h g. file_both s m t before after h g };

    fn hear(&mut self, event: Event<'_>) -> Result<(), AllocError> {
        match event {
            Event::Piece(bytes) => self.hash(bytes),
            Event::BeginFile(executable, _) => {
                self.executable = executable;
                Ok(())
            }
            Event::BeginFolder | Event::Link(_) => {
                self.others = true;
                Ok(())
            }
            Event::BeginEntry(_) | Event::EndEntry | Event::EndFolder | Event::EndFile(_) => Ok(()),
        }
    }
}
