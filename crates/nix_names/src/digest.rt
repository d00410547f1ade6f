//! Digests of a file's bytes: an algorithm and the bytes that it gives, and how they are written.
ghost use Rattle.std.specs.Prelude.{◌≡◌, ◌≢◌, ◌≤◌, ◌<◌, ◌++◌, ◌∷◌, ◌*◌, ℕ, List, All, MatchOption, OnOk, length, slice_index};
ghost use Rattle.hex.specs.Hex.{encode_lower, lower_digits};
ghost use Rattle.nix_names.specs.Digests.{IsDigest, algorithm_of, bytes_of, digits_of, name_of, text_of};
ghost use Rattle.nix_names.specs.declared.digest.Algorithm.{Algorithm as AnAlgorithm};
ghost use Rattle.nix_names.specs.declared.digest.Digest.{Digest as ADigest};

use memchr::memchr;
use std::alloc::AllocError;

/// The algorithms by which the bytes of files are hashed.
#[derive(Clone, Copy, Debug, PartialEq, Eq)]
pub enum Algorithm {
    /// MD5 (RFC 1321), of 16 bytes.
    Md5,
    /// SHA-1 (FIPS 180-4), of 20 bytes.
    Sha1,
    /// SHA-256 (FIPS 180-4), of 32 bytes.
    Sha256,
    /// SHA-512 (FIPS 180-4), of 64 bytes.
    Sha512,
}

impl Algorithm {
    /// The algorithm's name: `md5`, `sha1`, `sha256` or `sha512`.
    pub fn name(self) -> &'static [u8]
        ensures { result.now ≡ name_of self }
    {
        match self {
            Algorithm::Md5 => b"md5",
            Algorithm::Sha1 => b"sha1",
            Algorithm::Sha256 => b"sha256",
            Algorithm::Sha512 => b"sha512",
        }
    }

    /// The algorithm with this name, if there is one.
    pub fn of_name(name: &[u8]) -> Option<Algorithm>
        ensures { MatchOption result ((algorithm : AnAlgorithm) → name.now ≢ name_of algorithm)
            (λ algorithm. name.now ≡ name_of algorithm) }
    {
        match name {
            b"md5" => Some(Algorithm::Md5),
            b"sha1" => Some(Algorithm::Sha1),
            b"sha256" => Some(Algorithm::Sha256),
            b"sha512" => Some(Algorithm::Sha512),
            _ => None,
        }
    }
}

/// What an algorithm gives for the bytes of a file.
#[derive(Clone, Copy, Debug, PartialEq, Eq)]
pub enum Digest {
    /// By MD5.
    Md5([u8; 16]),
    /// By SHA-1.
    Sha1([u8; 20]),
    /// By SHA-256.
    Sha256([u8; 32]),
    /// By SHA-512.
    Sha512([u8; 64]),
}

impl Digest {
    /// The algorithm.
    pub fn algorithm(&self) -> Algorithm
        ensures { result ≡ algorithm_of self.now }
    {
        match self {
            Digest::Md5(_) => Algorithm::Md5,
            Digest::Sha1(_) => Algorithm::Sha1,
            Digest::Sha256(_) => Algorithm::Sha256,
            Digest::Sha512(_) => Algorithm::Sha512,
        }
    }

    /// The bytes: 16, 20, 32 or 64.
    pub fn bytes(&self) -> &[u8]
        ensures value { result.now ≡ bytes_of self.now }
        ensures size { IsDigest self.now }
    {
        match self {
            Digest::Md5(bytes) => array_bytes(bytes),
            Digest::Sha1(bytes) => array_bytes(bytes),
            Digest::Sha256(bytes) => array_bytes(bytes),
            Digest::Sha512(bytes) => array_bytes(bytes),
        }
    }

    /// The digest of an algorithm with these lower-case hexadecimal digits; `None` if the text has
    /// another length or another character.
    pub fn of_digits(algorithm: Algorithm, digits: &[u8]) -> Option<Digest>
        ensures { MatchOption result
            ((digest : ADigest) → IsDigest digest → algorithm_of digest ≡ algorithm
            → digits.now ≢ digits_of digest)
            (λ digest. IsDigest digest × (algorithm_of digest ≡ algorithm)
            × (digits.now ≡ digits_of digest)) }
    {
        match algorithm {
            Algorithm::Md5 => decode_hex(digits).map(Digest::Md5),
            Algorithm::Sha1 => decode_hex(digits).map(Digest::Sha1),
            Algorithm::Sha256 => decode_hex(digits).map(Digest::Sha256),
            Algorithm::Sha512 => decode_hex(digits).map(Digest::Sha512),
        }
    }

    /// The digest whose text this is: an algorithm's name, a colon and its digits, as `md5:` before
    /// 32 digits.
    pub fn of_text(text: &[u8]) -> Option<Digest>
        ensures { MatchOption result
            ((digest : ADigest) → IsDigest digest → text.now ≢ text_of digest)
            (λ digest. IsDigest digest × (text.now ≡ text_of digest)) }
    {
        let (name, digits) = halves(text)?;
        let algorithm = Algorithm::of_name(name)?;
        Digest::of_digits(algorithm, digits)
    }

    /// Adds the lower-case hexadecimal digits. Want of memory is its only fault.
    pub fn push_digits(&self, out: &mut Vec<u8>) -> Result<(), AllocError>
        ensures { OnOk result (out.new.items ≡ out.old.items ++ digits_of self.now) }
    {
        let bytes = self.bytes();
        let mut room = [0; 128];
        out.extend_from_slice(encode_hex(bytes, &mut room))
    }

    /// Adds the text: the algorithm's name, a colon and the digits. Want of memory is its only
    /// fault.
    pub fn push_text(&self, out: &mut Vec<u8>) -> Result<(), AllocError>
        ensures { OnOk result (out.new.items ≡ out.old.items ++ text_of self.now) }
    {
        out.extend_from_slice(self.algorithm().name())?;
        out.extend_from_slice(b":")?;
        self.push_digits(out)
    }
}

// An array's bytes.
fn array_bytes<const N: usize>(bytes: &[u8; N]) -> &[u8]
    ensures value { result.now ≡ bytes.now }
    ensures size { (length bytes.now ≡ N) × All (λ b. b < 256) bytes.now }
{
    same_bytes(bytes)
}

// The bytes themselves, each below 256.
fn same_bytes(bytes: &[u8]) -> &[u8]
    ensures value { result.now ≡ bytes.now }
    ensures each { All (λ b. b < 256) bytes.now }
{
    bytes
}

// The bytes before the first colon, and those after it.
fn halves(text: &[u8]) -> Option<(&[u8], &[u8])>
    ensures { MatchOption result (All (λ b. b ≢ 58) text.now)
        (λ x. All (λ b. b ≢ 58) x.0.now × (text.now ≡ x.0.now ++ 58 ∷ x.1.now)) }
{
    let colon = memchr(b':', text)?;
    Some((&text[..colon], &text[colon + 1..]))
}

// The bytes with these lower-case hexadecimal digits; `None` if the text is something else.
fn decode_hex<const N: usize>(digits: &[u8]) -> Option<[u8; N]>
    requires { N ≤ 64 }
    ensures { MatchOption result
        ((bytes : List ℕ) → length bytes ≡ N → All (λ b. b < 256) bytes
        → digits.now ≢ encode_lower bytes)
        (λ bytes. (length bytes ≡ N) × All (λ b. b < 256) bytes
        × (digits.now ≡ encode_lower bytes)) }
{
    if digits.len() != 2 * N {
        return None;
    }
    let bytes = read_pairs(digits);
    let mut room = [0; 128];
    if digits == encode_hex(array_bytes(&bytes), &mut room) {
        Some(bytes)
    } else {
        None
    }
}

// The bytes with these lower-case hexadecimal digits. For another text the bytes mean nothing. The
// code has no branch on a digit.
fn read_pairs<const N: usize>(digits: &[u8]) -> [u8; N]
    requires { length digits.now ≡ 2 * N }
    ensures { (bytes : List ℕ) → All (λ b. b < 256) bytes → digits.now ≡ encode_lower bytes
        → result ≡ bytes }
{
    let mut bytes = [0; N];
    for at in 0..N {
        bytes[at] = 16 * nibble(digits[2 * at]) + nibble(digits[2 * at + 1]);
    }
    bytes
}

// The value of a lower-case hexadecimal digit. For another byte it means nothing.
fn nibble(digit: u8) -> u8
    ensures below { result < 16 }
    ensures value { (value : ℕ) → value < 16 → digit ≡ slice_index lower_digits value
        → result ≡ value }
{
    (digit % 16 + 9 * (digit / 64)) % 16
}

// The lower-case hexadecimal digits of at most 64 bytes, in this room.
fn encode_hex<'a>(bytes: &[u8], room: &'a mut [u8; 128]) -> &'a [u8]
    requires { length bytes.now ≤ 64 }
    ensures { result.now ≡ encode_lower bytes.now }
{
    let digits = &mut room[..2 * bytes.len()];
    let _ = hex::encode_to_slice(bytes, digits);
    digits
}
