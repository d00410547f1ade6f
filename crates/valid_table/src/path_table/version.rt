//! The versions of a journal's text.
ghost use Rattle.std.specs.Prelude.{◌≡◌, ◌≢◌, ◌++◌, ◌↔◌, IsTrue, List, MatchOption, ℕ};
ghost use Rattle.valid_table.specs.private.Readers.{BeginsNoVersion};
ghost use Rattle.valid_table.specs.Reading.{IsTooLong, max_len};
ghost use Rattle.valid_table.specs.Texts.{version_line};

/// The most bytes that a journal's text may have, in any version.
pub const MAX_JOURNAL: usize = 134_217_728;

/// A version of a journal's text.
#[derive(Clone, Copy, Debug, PartialEq, Eq)]
pub enum Version {
    /// Version 1, in which a digest is its digits, and SHA-256 is the only algorithm.
    One,
    /// Version 2, in which a digest is its algorithm's name, a colon and its digits.
    Two,
    /// Version 3, in which a digest may be that of an archive, with `r:` before it, and in which
    /// the SHA-256 and the length of a path's archive follow the digest.
    Three,
}

impl Version {
    // The first line of a text, with its newline.
    pub(crate) fn line(self) -> &'static [u8]
        ensures { result.now ≡ version_line self }
    {
        match self {
            Version::One => b"realiser-journal 1\n",
            Version::Two => b"realiser-journal 2\n",
            Version::Three => b"realiser-journal 3\n",
        }
    }

    // The greatest number of bytes that a text may have.
    pub(crate) fn max_len(self) -> usize
        ensures { result ≡ max_len self }
    {
        match self {
            Version::One => 67_108_864,
            Version::Two | Version::Three => MAX_JOURNAL,
        }
    }

    // The bytes after the version's line, where they begin with it.
    fn after_line(self, bytes: &[u8]) -> Option<&[u8]>
        ensures { MatchOption result ((rest : List ℕ) → bytes.now ≢ version_line self ++ rest)
            (λ rest. bytes.now ≡ version_line self ++ rest.now) }
    {
        bytes.strip_prefix(self.line())
    }
}

// The version with whose line the bytes begin, and the bytes after that line.
pub(crate) fn version_of(bytes: &[u8]) -> Option<(Version, &[u8])>
    ensures { MatchOption result (BeginsNoVersion bytes.now)
        (λ x. bytes.now ≡ version_line x.0 ++ x.1.now) }
{
    if let Some(rest) = Version::One.after_line(bytes) {
        return Some((Version::One, rest));
    }
    if let Some(rest) = Version::Two.after_line(bytes) {
        return Some((Version::Two, rest));
    }
    if let Some(rest) = Version::Three.after_line(bytes) {
        return Some((Version::Three, rest));
    }
    None
}

// Whether the bytes are more than a text may have of the version with whose line they begin, or of
// any version.
#[tactic(auto, using(crate::proofs::Versions::too_long_in, crate::proofs::Versions::too_long_without))]
pub(crate) fn is_too_long(bytes: &[u8]) -> bool
    ensures { IsTrue result ↔ IsTooLong bytes.now }
{
    match version_of(bytes) {
        Some((version, _)) => bytes.len() > version.max_len(),
        None => bytes.len() > Version::Three.max_len(),
    }
}
