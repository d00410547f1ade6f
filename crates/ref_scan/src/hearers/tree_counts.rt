//! What the limits of an output bound, counted of a tree that is heard.
ghost use Rattle.std.specs.Prelude.{◌↔◌, IsTrue};
ghost use Rattle.ref_scan.specs.Counting.{IsNewCounts, IsWithin};

use crate::tree::{MAX_DEPTH, MAX_ENTRIES, MAX_FILE_BYTES};
use nix_archive::{Event, Hear};
use std::alloc::AllocError;

/// Counts the entries, the bytes and the levels of the tree that it hears. It takes no memory.
#[derive(Drop)]
pub struct TreeCounts {
    // how many entries began
    entries: usize,
    // how many bytes files and links' targets have
    bytes: usize,
    // in how many entries the next token is
    level: usize,
    // in how many the deepest one was
    deepest: usize,
}

impl TreeCounts {
    /// Counts of a tree of which nothing was heard.
    pub fn new() -> TreeCounts
        ensures { IsNewCounts result }
    {
        TreeCounts {
            entries: 0,
            bytes: 0,
            level: 0,
            deepest: 0,
        }
    }

    /// Whether what was heard keeps the limits of an output, as `Tree::fits` bounds them. Once it
    /// doesn't, nothing that is heard later changes this.
    pub fn fit(&self) -> bool
        ensures { IsTrue result ↔ IsWithin self.now }
    {
        self.entries <= MAX_ENTRIES && self.bytes <= MAX_FILE_BYTES && self.deepest < MAX_DEPTH
    }
}

impl Hear for TreeCounts {
    ghost use Rattle.ref_scan.specs.Counting.{IsCountHeard};
    ghost use Rattle.ref_scan.specs.private.HearingLaws.{count_both, count_none};

    ghost heard = { IsCountHeard };

    ghost silence = { λ s. count_none s };

    ghost joins = { λ s m t before after h g. count_both s m t before after h g };

    fn hear(&mut self, event: Event<'_>) -> Result<(), AllocError> {
        match event {
            Event::BeginEntry(_) => {
                self.entries = self.entries.saturating_add(1);
                self.level = self.level.saturating_add(1);
                self.deepest = self.deepest.max(self.level);
            }
            Event::EndEntry => self.level = self.level.saturating_sub(1),
            Event::Piece(bytes) => self.bytes = self.bytes.saturating_add(bytes.len()),
            Event::Link(target) => self.bytes = self.bytes.saturating_add(target.len()),
            Event::BeginFolder | Event::EndFolder | Event::BeginFile(_, _) | Event::EndFile(_) => {}
        }
        Ok(())
    }
}
