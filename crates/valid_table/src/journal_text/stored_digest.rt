//! How a record keeps a digest and its method.
ghost use Rattle.std.specs.Prelude.{◌≡◌, IfOk};
ghost use Rattle.valid_table.specs.private.RecordContents.{digest_stored, found_stored};

use nix_names::{Digest, Method, MethodDigest};
use std::alloc::{AllocError, Global};

// A digest. A SHA-512 has a block of its own, so that the others take no room for its 64 bytes.
#[derive(Debug, Drop)]
pub(crate) enum StoredDigest {
    Md5([u8; 16]),
    Sha1([u8; 20]),
    Sha256([u8; 32]),
    Sha512(Box<[u8; 64]>),
}

impl StoredDigest {
    // A digest as it is stored. Takes memory for a SHA-512 alone.
    pub(crate) fn new(alloc: Global, digest: Digest) -> Result<StoredDigest, AllocError>
        ensures { IfOk result (λ kept. digest_stored kept ≡ digest) }
    {
        match digest {
            Digest::Md5(bytes) => Ok(StoredDigest::Md5(bytes)),
            Digest::Sha1(bytes) => Ok(StoredDigest::Sha1(bytes)),
            Digest::Sha256(bytes) => Ok(StoredDigest::Sha256(bytes)),
            Digest::Sha512(bytes) => Ok(StoredDigest::Sha512(Box::new(alloc, bytes)?)),
        }
    }

    // The digest itself.
    pub(crate) fn digest(&self) -> Digest
        ensures { result ≡ digest_stored self.now }
    {
        match self {
            StoredDigest::Md5(bytes) => Digest::Md5(*bytes),
            StoredDigest::Sha1(bytes) => Digest::Sha1(*bytes),
            StoredDigest::Sha256(bytes) => Digest::Sha256(*bytes),
            StoredDigest::Sha512(bytes) => Digest::Sha512(**bytes),
        }
    }
}

// A digest with its method.
#[derive(Debug, Drop)]
pub(crate) struct StoredMethodDigest {
    method: Method,
    digest: StoredDigest,
}

impl StoredMethodDigest {
    // A digest with its method, as it is stored. Takes memory for a SHA-512 alone.
    pub(crate) fn new(alloc: Global, found: MethodDigest) -> Result<StoredMethodDigest, AllocError>
        ensures { IfOk result (λ kept. found_stored kept ≡ found) }
    {
        Ok(StoredMethodDigest {
            method: found.method,
            digest: StoredDigest::new(alloc, found.digest)?,
        })
    }

    // The digest and its method.
    pub(crate) fn found(&self) -> MethodDigest
        ensures { result ≡ found_stored self.now }
    {
        MethodDigest {
            method: self.method,
            digest: self.digest.digest(),
        }
    }
}
