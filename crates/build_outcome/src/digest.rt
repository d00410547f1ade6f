//! The digests of outputs by each algorithm: of a file's bytes, and of a tree's archive.
ghost use Rattle.std.specs.Prelude.{◌≡◌};
ghost use Rattle.md5.specs.Md5.{md5};
ghost use Rattle.sha1.specs.Sha1.{sha1};
ghost use Rattle.ref_scan.specs.Trees.{joined};
ghost use Rattle.build_outcome.specs.Verdicts.{digest_by, file_digest_of};

use md5::{Digest as _, Md5};
use nix_names::{Algorithm, Digest};
use ref_scan::Tree;
use sha1::Sha1;
use sha2::{Digest as Sha2, Sha256, Sha512};

// The digest of a file's bytes by an algorithm; a link and a folder have none.
pub(crate) fn file_digest_of(algorithm: Algorithm, tree: &Tree) -> Option<Digest>
    ensures { result ≡ file_digest_of algorithm tree.now }
{
    match tree {
        Tree::File(bytes) => Some(digest_of_bytes(algorithm, bytes)),
        Tree::Pieces(parts) | Tree::Executable(parts) => Some(digest_of_pieces(algorithm, parts)),
        Tree::Link(_) | Tree::Dir(_) => None,
    }
}

// The digest of some bytes by an algorithm.
fn digest_of_bytes(algorithm: Algorithm, bytes: &[u8]) -> Digest
    ensures { result ≡ digest_by algorithm bytes.now }
{
    match algorithm {
        Algorithm::Md5 => Digest::Md5(Md5::digest(bytes)),
        Algorithm::Sha1 => Digest::Sha1(Sha1::digest(bytes)),
        Algorithm::Sha256 => Digest::Sha256(Sha256::digest(bytes)),
        Algorithm::Sha512 => Digest::Sha512(Sha512::digest(bytes)),
    }
}

// The digest, by an algorithm, of the file that some pieces make together.
fn digest_of_pieces(algorithm: Algorithm, parts: &[Vec<u8>]) -> Digest
    ensures { result ≡ digest_by algorithm (joined parts.now) }
{
    match algorithm {
        Algorithm::Md5 => Digest::Md5(md5_of_pieces(parts)),
        Algorithm::Sha1 => Digest::Sha1(sha1_of_pieces(parts)),
        Algorithm::Sha256 => Digest::Sha256(sha2_of_pieces::<Sha256>(parts)),
        Algorithm::Sha512 => Digest::Sha512(sha2_of_pieces::<Sha512>(parts)),
    }
}

// MD5 of the file that some pieces make together.
fn md5_of_pieces(parts: &[Vec<u8>]) -> [u8; 16]
    ensures { result ≡ md5 (joined parts.now) }
{
    let mut hasher = Md5::new();
    'parts: for part in parts {
        hasher.update(part.as_slice());
    }
    hasher.finalize()
}

// SHA-1 of the file that some pieces make together.
fn sha1_of_pieces(parts: &[Vec<u8>]) -> [u8; 20]
    ensures { result ≡ sha1 (joined parts.now) }
{
    let mut hasher = Sha1::new();
    'parts: for part in parts {
        hasher.update(part.as_slice());
    }
    hasher.finalize()
}

// The digest, by a hasher of SHA-2, of the file that some pieces make together.
fn sha2_of_pieces<H: Sha2>(parts: &[Vec<u8>]) -> H::Output
    ensures { H.digest_of (joined parts.now) result }
{
    let mut hasher = H::new();
    'parts: for part in parts {
        hasher.update(part.as_slice());
    }
    hasher.finalize()
}
