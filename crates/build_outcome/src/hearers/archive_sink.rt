//! The sum of an archive that is written.
ghost use Rattle.std.specs.Prelude.{[], List, ℕ};
ghost use Rattle.build_outcome.specs.Sinks.{SumsArchive};
ghost use Rattle.build_outcome.specs.private.Sinks.{TellsSumFor};

use super::algorithm_sink::AlgorithmSink;
use crate::sums::{OutputSum, archive_algorithm};
use drv_graph::Kind;
use nix_archive::{DigestSink, Sink};
use nix_names::{Algorithm, Digest};
use sha2::{Digest as _, Sha256};
use std::alloc::AllocError;
use valid_table::Nar;

// A sink that keeps the length and the digests of what it took. It takes no memory.
#[derive(Drop)]
pub(crate) struct ArchiveSink {
    // The length, and what hashes by SHA-256.
    sum: DigestSink<Sha256>,
    // What hashes by the declared algorithm, where that is another one.
    declared: Option<AlgorithmSink>,
}

impl ArchiveSink {
    // A sink for the archive of an output of this kind, which took nothing.
    pub(crate) fn new(kind: &Kind) -> ArchiveSink
        ensures { SumsArchive kind.now [] result }
    {
        let declared = match archive_algorithm(kind) {
            Algorithm::Sha256 => None,
            algorithm => Some(AlgorithmSink::new(algorithm)),
        };
        ArchiveSink {
            sum: DigestSink::new(),
            declared,
        }
    }

    // The sum of what it took; none where that is 2^63 bytes or more.
    pub(crate) fn finish(self) -> Option<OutputSum>
        ensures { (kind : _) (bytes : List ℕ) → SumsArchive kind bytes self
            → TellsSumFor kind bytes result }
    {
        let hash = self.sum.hasher.finalize();
        let nar = Nar::new(hash, self.sum.length)?;
        let digest = match self.declared {
            None => Digest::Sha256(hash),
            Some(sink) => sink.finish(),
        };
        Some(OutputSum { nar, digest })
    }
}

impl Sink for ArchiveSink {
    ghost use Rattle.build_outcome.specs.Sinks.{IsSummedBy};
    ghost use Rattle.build_outcome.specs.private.Sinks.{summed_more, summed_nothing};

    ghost took = { λ s bytes t. IsSummedBy s bytes t };

    ghost silence = { λ s. summed_nothing s };

    ghost joins = { λ s m t before after h g. summed_more s m t before after h g };

    fn put(&mut self, bytes: &[u8]) -> Result<(), AllocError> {
        self.sum.put(bytes)?;
        match &mut self.declared {
            None => Ok(()),
            Some(sink) => sink.put(bytes),
        }
    }
}
