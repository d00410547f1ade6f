//! A sink that hashes by any algorithm.
ghost use Rattle.std.specs.Prelude.{◌≡◌, [], List, ℕ};
ghost use Rattle.build_outcome.specs.Verdicts.{digest_by};
ghost use Rattle.build_outcome.specs.Sinks.{Hashes};

use md5::{Digest as _, Md5};
use nix_archive::Sink;
use nix_names::{Algorithm, Digest};
use sha1::Sha1;
use sha2::{Digest as _, Sha256, Sha512};
use std::alloc::AllocError;

/// A sink that hashes what it takes by one of the algorithms. It takes no memory.
#[derive(Drop)]
pub enum AlgorithmSink {
    /// By MD5.
    Md5(Md5),
    /// By SHA-1.
    Sha1(Sha1),
    /// By SHA-256.
    Sha256(Sha256),
    /// By SHA-512.
    Sha512(Sha512),
}

impl AlgorithmSink {
    /// A sink that hashes by this algorithm, and took nothing.
    pub fn new(algorithm: Algorithm) -> AlgorithmSink
        ensures { Hashes result algorithm [] }
    {
        match algorithm {
            Algorithm::Md5 => AlgorithmSink::Md5(Md5::new()),
            Algorithm::Sha1 => AlgorithmSink::Sha1(Sha1::new()),
            Algorithm::Sha256 => AlgorithmSink::Sha256(Sha256::new()),
            Algorithm::Sha512 => AlgorithmSink::Sha512(Sha512::new()),
        }
    }

    /// The digest of what it took.
    pub fn finish(self) -> Digest
        ensures { (algorithm : _) (bytes : List ℕ) → Hashes self algorithm bytes
            → result ≡ digest_by algorithm bytes }
    {
        match self {
            AlgorithmSink::Md5(hasher) => Digest::Md5(hasher.finalize()),
            AlgorithmSink::Sha1(hasher) => Digest::Sha1(hasher.finalize()),
            AlgorithmSink::Sha256(hasher) => Digest::Sha256(hasher.finalize()),
            AlgorithmSink::Sha512(hasher) => Digest::Sha512(hasher.finalize()),
        }
    }
}

impl Sink for AlgorithmSink {
    ghost use Rattle.build_outcome.specs.Sinks.{IsHashedBy};
    ghost use Rattle.build_outcome.specs.private.Sinks.{hashed_both, hashed_none};

    ghost took = { λ s bytes t. IsHashedBy s bytes t };

    ghost silence = { λ s. hashed_none s };

    ghost joins = { λ s m t before after h g. hashed_both s m t before after h g };

    fn put(&mut self, bytes: &[u8]) -> Result<(), AllocError> {
        match self {
            AlgorithmSink::Md5(hasher) => hasher.update(bytes),
            AlgorithmSink::Sha1(hasher) => hasher.update(bytes),
            AlgorithmSink::Sha256(hasher) => hasher.update(bytes),
            AlgorithmSink::Sha512(hasher) => hasher.update(bytes),
        }
        Ok(())
    }
}
