//! One line of a journal's text.
ghost use Rattle.std.specs.Prelude.{◌≡◌, ◌≢◌, ◌↔◌, ◌+◌, ◌-◌, ◌≤◌, ◌++◌, ◌∷◌, [], All, IfOk, IsTrue, List, MatchOption, None, Option, Some, ℕ, codes, length, take};
ghost use Rattle.std.specs.Char.{is_ascii_digit};
ghost use Rattle.memchr.specs.Find.{is_byte, places};
ghost use Rattle.nix_names.specs.StorePaths.{IsPathOf};
ghost use Rattle.nix_names.specs.Names.{IsStoreDir};
ghost use Rattle.nix_names.specs.declared.digest.Digest.{Digest as ADigest};
ghost use Rattle.nix_names.specs.declared.method.Method.TheVariants.{Flat};
ghost use Rattle.nix_names.specs.declared.method.MethodDigest.{MethodDigest as AMethodDigest};
ghost use Rattle.valid_table.specs.BadLines.{IsOtherVersion};
ghost use Rattle.valid_table.specs.PathInfos.{NarInfo};
ghost use Rattle.valid_table.specs.private.Readers.{IsDeriverLine, IsFieldsLine, IsNoLine, IsPathLine};
ghost use Rattle.valid_table.specs.Texts.{IsDigestOf, digest_text};

use crate::journal_text::known::{Known, known_of};
use crate::path_table::version::Version;
use memchr::{memchr, memchr_iter};
use nix_names::{
    Algorithm, Digest, Method, MethodDigest, NameFault, StoreDir, StorePath, is_drv_name,
    parse_path,
};
use std::alloc::{AllocError, Global};

// The bytes with which the first line of each version begins.
const JOURNAL: &[u8] = b"realiser-journal ";

// The bytes before the first one that equals `byte`, and those after it.
pub(crate) fn split_at_byte(byte: u8, bytes: &[u8]) -> Option<(&[u8], &[u8])>
    ensures { MatchOption result (All (λ b. b ≢ byte) bytes.now)
        (λ x. All (λ b. b ≢ byte) x.0.now × (bytes.now ≡ x.0.now ++ byte ∷ x.1.now)) }
{
    let at = memchr(byte, bytes)?;
    Some((&bytes[..at], &bytes[at + 1..]))
}

// The bytes after a letter and a space, where the bytes begin with them.
pub(crate) fn after_letter(letter: u8, bytes: &[u8]) -> Option<&[u8]>
    ensures { MatchOption result (IsNoLine letter bytes.now)
        (λ rest. bytes.now ≡ letter ∷ 32 ∷ rest.now) }
{
    match bytes {
        [first, b' ', rest @ ..] if *first == letter => Some(rest),
        _ => None,
    }
}

// Shows the prover that a folder's text is one: it has neither spaces nor newlines.
pub(crate) fn show_store_dir(dir: &StoreDir)
    ensures { IsStoreDir dir.now }
{
    let _ = dir.text();
}

// The path that is spelled by these bytes, if they are one of the store folder.
pub(crate) fn path_of(
    alloc: Global,
    dir: &StoreDir,
    text: &[u8],
) -> Result<Option<StorePath>, AllocError>
    ensures is_dir { IsStoreDir dir.now }
    ensures path { IfOk result
        (λ found. MatchOption found (IsPathOf dir.now text.now → ⊥)
        (λ path. (path ≡ text.now) × IsPathOf dir.now text.now)) }
{
    show_store_dir(dir);
    match parse_path(alloc, dir, text) {
        Ok(path) => Ok(Some(path)),
        Err(fault) => match fault {
            NameFault::NoMemory => Err(AllocError),
            _ => Ok(None),
        },
    }
}

// The digest of a line, where the bytes are its text in a version: none for a dash, or the digest
// whose text they are.
pub(crate) fn digest_of(version: Version, text: &[u8]) -> Option<Option<MethodDigest>>
    ensures { MatchOption result
        ((digest : Option AMethodDigest) → IsDigestOf version digest
        → text.now ≢ digest_text version digest)
        (λ digest. IsDigestOf version digest × (text.now ≡ digest_text version digest)) }
{
    if text == b"-".as_slice() {
        return Some(None);
    }
    match some_digest_of(version, text) {
        Some(digest) => Some(Some(digest)),
        None => None,
    }
}

// The digest whose text in a version the bytes are: the 64 lower-case hexadecimal digits of
// SHA-256 in version 1, an algorithm's name, a colon and its digits in version 2, and the same with
// or without `r:` before it in version 3.
#[tactic(auto, using(crate::proofs::DigestTexts::in_one, crate::proofs::DigestTexts::in_two))]
fn some_digest_of(version: Version, text: &[u8]) -> Option<MethodDigest>
    ensures { MatchOption result
        ((digest : AMethodDigest) → IsDigestOf version (Some digest)
        → text.now ≢ digest_text version (Some digest))
        (λ digest. IsDigestOf version (Some digest)
        × (text.now ≡ digest_text version (Some digest))) }
{
    match version {
        Version::One => flat(Digest::of_digits(Algorithm::Sha256, text)),
        Version::Two => flat(Digest::of_text(text)),
        Version::Three => MethodDigest::of_text(text),
    }
}

// A digest as that of a file's bytes.
fn flat(digest: Option<Digest>) -> Option<MethodDigest>
    ensures { MatchOption result (digest ≡ None)
        (λ found. (digest ≡ Some found.digest) × (found.method ≡ Flat)) }
{
    match digest {
        None => None,
        Some(digest) => Some(MethodDigest {
            method: Method::Flat,
            digest,
        }),
    }
}

// The path and the newline at the head of the bytes, and what is after them.
pub(crate) fn path_line<'a>(
    alloc: Global,
    dir: &StoreDir,
    bytes: &'a [u8],
) -> Result<Option<(StorePath, &'a [u8])>, AllocError>
    ensures { IfOk result
        (λ found. MatchOption found
        ((path rest : List ℕ) → IsPathLine dir.now bytes.now path rest → ⊥)
        (λ x. IsPathLine dir.now bytes.now x.0 x.1.now)) }
{
    let Some((line, rest)) = split_at_byte(b'\n', bytes) else {
        return Ok(None);
    };
    match path_of(alloc, dir, line)? {
        Some(path) => Ok(Some((path, rest))),
        None => Ok(None),
    }
}

// The path of a derivation's file and the newline at the head of the bytes, and what is after them,
// where that begins an output's line.
pub(crate) fn deriver_line<'a>(
    alloc: Global,
    dir: &StoreDir,
    bytes: &'a [u8],
) -> Result<Option<(StorePath, &'a [u8])>, AllocError>
    ensures { IfOk result
        (λ found. MatchOption found
        ((path rest : List ℕ) → IsDeriverLine dir.now bytes.now path rest → ⊥)
        (λ x. IsDeriverLine dir.now bytes.now x.0 x.1.now)) }
{
    let Some((path, rest)) = path_line(alloc, dir, bytes)? else {
        return Ok(None);
    };
    if !is_drv_name(path.name()) {
        return Ok(None);
    }
    match after_letter(b'O', rest) {
        Some(_) => Ok(Some((path, rest))),
        None => Ok(None),
    }
}

// The fields of a line: its path, what it tells of the path, and the bytes after the line.
#[derive(Debug, Drop)]
pub(crate) struct Fields<'a> {
    pub path: StorePath,
    pub known: Known,
    pub rest: &'a [u8],
}

// The path, the space, what is known of the path in a version and the newline at the head of the
// bytes, and what is after them.
pub(crate) fn fields_line<'a>(
    alloc: Global,
    dir: &StoreDir,
    version: Version,
    bytes: &'a [u8],
) -> Result<Option<Fields<'a>>, AllocError>
    ensures { IfOk result
        (λ found. MatchOption found
        ((path : List ℕ) (digest : Option AMethodDigest) (nar : Option NarInfo) (rest : List ℕ)
        → IsFieldsLine version dir.now bytes.now path digest nar rest → ⊥)
        (λ x. IsFieldsLine version dir.now bytes.now x.path x.known.digest x.known.nar
        x.rest.now)) }
{
    let Some((text, fields)) = split_at_byte(b' ', bytes) else {
        return Ok(None);
    };
    let Some(path) = path_of(alloc, dir, text)? else {
        return Ok(None);
    };
    let Some((known, rest)) = split_at_byte(b'\n', fields) else {
        return Ok(None);
    };
    match known_of(version, known) {
        Some(known) => Ok(Some(Fields { path, known, rest })),
        None => Ok(None),
    }
}

// The number of the line that begins where `left` bytes are left: one more than there are newlines
// before it.
pub(crate) fn line_number(bytes: &[u8], left: usize) -> usize
    requires { left ≤ length bytes.now }
    ensures { result ≡ 1 + length (places (is_byte 10) (take (length bytes.now - left) bytes.now)) }
{
    1 + memchr_iter(b'\n', &bytes[..bytes.len() - left]).count()
}

// Whether the bytes begin with the first line of a journal of another version.
pub(crate) fn is_other_version(bytes: &[u8]) -> bool
    ensures { IsTrue result ↔ IsOtherVersion bytes.now }
{
    let Some(version) = bytes.strip_prefix(JOURNAL) else {
        return false;
    };
    let Some((number, _)) = split_at_byte(b'\n', version) else {
        return false;
    };
    is_other_number(number)
}

// Whether the bytes are decimal digits, and none of `1`, `2` and `3` alone.
fn is_other_number(bytes: &[u8]) -> bool
    ensures { IsTrue result
        ↔ ((bytes.now ≢ []) × All (λ b. IsTrue (is_ascii_digit b)) bytes.now
        × (bytes.now ≢ codes "1") × (bytes.now ≢ codes "2") × (bytes.now ≢ codes "3")) }
{
    !bytes.is_empty()
        && bytes != b"1".as_slice()
        && bytes != b"2".as_slice()
        && bytes != b"3".as_slice()
        && bytes.iter().all(|b| b.is_ascii_digit())
}
