//! The length and the digest of what is written.
ghost use Rattle.std.specs.Prelude.{[]};
ghost use Rattle.nix_archive.specs.Sums.{IsSum, IsSummed};
ghost use Rattle.nix_archive.specs.private.SumLaws.{summed_both, summed_none};

use crate::sink::Sink;
use sha2::Digest;
use std::alloc::AllocError;

/// A sink that keeps the length and the digest of what it took, and not the bytes. It takes no
/// memory.
#[derive(Drop)]
pub struct DigestSink<D> {
    /// How many bytes it took, or 2^64 - 1 if they were more.
    pub length: u64,
    /// What hashes them.
    pub hasher: D,
}

impl<D: Digest> DigestSink<D> {
    /// A sink that took nothing.
    pub fn new() -> DigestSink<D>
        ensures { IsSum D.holds [] result.length result.hasher }
    {
        DigestSink {
            length: 0,
            hasher: D::new(),
        }
    }
}

impl<D: Digest> Sink for DigestSink<D> {
    ghost took = { λ s bytes t. IsSummed D.holds bytes s.length s.hasher t.length t.hasher };

    ghost silence = { λ s. summed_none D.holds s.length s.hasher };

    ghost joins = { λ s m t before after h g.
        summed_both D.holds before after s.length m.length t.length s.hasher m.hasher t.hasher h g };

    fn put(&mut self, bytes: &[u8]) -> Result<(), AllocError> {
        self.length = self.length.saturating_add(bytes.len() as u64);
        self.hasher.update(bytes);
        Ok(())
    }
}
