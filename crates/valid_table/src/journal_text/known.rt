//! What a line tells of a path, after the path and a space.
ghost use Rattle.std.specs.Prelude.{◌≡◌, ◌≢◌, ◌<◌, ◌^◌, ◌↔◌, IsTrue, List, MatchOption, Option, Some, ℕ, decimal};
ghost use Rattle.hex.specs.Hex.{encode_lower};
ghost use Rattle.nix_names.specs.Digests.{IsOfSize};
ghost use Rattle.nix_names.specs.declared.digest.Algorithm.TheVariants.{Sha256};
ghost use Rattle.nix_names.specs.declared.method.MethodDigest.{MethodDigest as AMethodDigest};
ghost use Rattle.valid_table.specs.PathInfos.{IsNarInfo, NarInfo};
ghost use Rattle.valid_table.specs.Texts.{IsKnownOf, IsNarOf, known_text, nar_text};
ghost use Rattle.valid_table.specs.declared.path_table.version.Version.TheVariants.{Three};

use crate::journal_text::lines::{digest_of, split_at_byte};
use crate::nar::Nar;
use crate::path_table::version::Version;
use itoa::Buffer;
use nix_names::{Algorithm, Digest, MethodDigest};

// What a line tells of a path.
#[derive(Clone, Copy, Debug)]
pub(crate) struct Known {
    // The digest, if any.
    pub digest: Option<MethodDigest>,
    // The archive, if any.
    pub nar: Option<Nar>,
}

// What is known of a path, where the bytes are its text in a version.
pub(crate) fn known_of(version: Version, text: &[u8]) -> Option<Known>
    ensures { MatchOption result
        ((digest : Option AMethodDigest) (nar : Option NarInfo) → IsKnownOf version digest nar
        → text.now ≢ known_text version digest nar)
        (λ known. IsKnownOf version known.digest known.nar
        × (text.now ≡ known_text version known.digest known.nar)) }
{
    match version {
        Version::One | Version::Two => match digest_of(version, text) {
            Some(digest) => Some(Known { digest, nar: None }),
            None => None,
        },
        Version::Three => known_of_three(text),
    }
}

// What is known of a path, where the bytes are its text in version 3.
#[tactic(auto, using(crate::proofs::NarTexts::no_space))]
fn known_of_three(text: &[u8]) -> Option<Known>
    ensures { MatchOption result
        ((digest : Option AMethodDigest) (nar : Option NarInfo) → IsKnownOf Three digest nar
        → text.now ≢ known_text Three digest nar)
        (λ known. IsKnownOf Three known.digest known.nar
        × (text.now ≡ known_text Three known.digest known.nar)) }
{
    let Some((digest, nar)) = split_at_byte(b' ', text) else {
        return None;
    };
    let Some(digest) = digest_of(Version::Three, digest) else {
        return None;
    };
    match nar_of(nar) {
        Some(nar) => Some(Known { digest, nar }),
        None => None,
    }
}

// The archive of a line, where the bytes are its text: none for a dash.
#[tactic(auto, using(crate::proofs::NarTexts::no_nar))]
fn nar_of(text: &[u8]) -> Option<Option<Nar>>
    ensures { MatchOption result
        ((nar : Option NarInfo) → IsNarOf Three nar → text.now ≢ nar_text nar)
        (λ nar. IsNarOf Three nar × (text.now ≡ nar_text nar)) }
{
    if text == b"-".as_slice() {
        return Some(None);
    }
    match some_nar_of(text) {
        Some(nar) => Some(Some(nar)),
        None => None,
    }
}

// The archive whose text the bytes are: 64 digits, a colon and a length.
#[tactic(auto, using(crate::proofs::NarTexts::no_colon))]
fn some_nar_of(text: &[u8]) -> Option<Nar>
    ensures { MatchOption result
        ((nar : NarInfo) → IsNarInfo nar → text.now ≢ nar_text (Some nar))
        (λ nar. IsNarInfo nar × (text.now ≡ nar_text (Some nar))) }
{
    let Some((digits, length)) = split_at_byte(b':', text) else {
        return None;
    };
    let Some(hash) = hash_of(digits) else {
        return None;
    };
    let Some(size) = decimal_of(length) else {
        return None;
    };
    Nar::new(hash, size)
}

// The 32 bytes of which these are the lower-case hexadecimal digits.
fn hash_of(digits: &[u8]) -> Option<[u8; 32]>
    ensures { MatchOption result
        ((hash : List ℕ) → IsOfSize Sha256 hash → digits.now ≢ encode_lower hash)
        (λ hash. IsOfSize Sha256 hash × (digits.now ≡ encode_lower hash)) }
{
    match Digest::of_digits(Algorithm::Sha256, digits) {
        None => None,
        Some(Digest::Sha256(hash)) => Some(hash),
        Some(Digest::Md5(_)) => None,
        Some(Digest::Sha1(_)) => None,
        Some(Digest::Sha512(_)) => None,
    }
}

// The number that these bytes are in decimal, without leading zeros.
#[tactic(auto, using(crate::proofs::NarTexts::not_text, crate::proofs::NarTexts::not_parsed, crate::proofs::NarTexts::read_back))]
fn decimal_of(text: &[u8]) -> Option<u64>
    ensures { MatchOption result ((n : ℕ) → n < 2 ^ 64 → text.now ≢ decimal n)
        (λ n. (n < 2 ^ 64) × (text.now ≡ decimal n)) }
{
    let Ok(digits) = str::from_utf8(text) else {
        return None;
    };
    let Ok(number) = digits.parse::<u64>() else {
        return None;
    };
    if is_decimal(number, text) {
        Some(number)
    } else {
        None
    }
}

// Whether these bytes are the number in decimal.
fn is_decimal(number: u64, text: &[u8]) -> bool
    ensures { IsTrue result ↔ (text.now ≡ decimal number) }
{
    text == Buffer::new().format(number).as_bytes()
}
