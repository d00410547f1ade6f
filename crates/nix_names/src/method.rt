//! Digests of whole outputs: what of an output is hashed, by which algorithm, and how that is
//! written.
ghost use Rattle.std.specs.Prelude.{◌≡◌, ◌≢◌, ◌++◌, MatchOption, OnOk, false};
ghost use Rattle.nix_names.specs.Digests.{IsDigest};
ghost use Rattle.nix_names.specs.Methods.{is_marked, mark_of, method_text_of};
ghost use Rattle.nix_names.specs.declared.method.MethodDigest.{MethodDigest as AMethodDigest};

use crate::digest::Digest;
use std::alloc::AllocError;

// What stands before an algorithm's name where a tree is hashed.
const MARK: &[u8] = b"r:";

/// What is hashed of an output.
#[derive(Clone, Copy, Debug, PartialEq, Eq)]
pub enum Method {
    /// The bytes of one file.
    Flat,
    /// The archive of a whole tree, called NAR.
    Recursive,
}

impl Method {
    /// The method by the mark at the head of a text, and what follows the mark: `r:` is that of
    /// `Recursive`, and no mark that of `Flat`.
    pub fn of_marked(text: &[u8]) -> (Method, &[u8])
        ensures value { text.now ≡ mark_of result.0 ++ result.1.now }
        ensures flat { result.0 ≡ Method.Flat → is_marked text.now ≡ false }
    {
        match text.strip_prefix(MARK) {
            Some(rest) => (Method::Recursive, rest),
            None => (Method::Flat, text),
        }
    }
}

/// The digest of an output, and what of it was hashed.
#[derive(Clone, Copy, Debug, PartialEq, Eq)]
pub struct MethodDigest {
    /// What was hashed.
    pub method: Method,
    /// The digest.
    pub digest: Digest,
}

impl MethodDigest {
    /// The digest whose text this is: a digest's text, with `r:` before it where a tree is hashed.
    pub fn of_text(text: &[u8]) -> Option<MethodDigest>
        ensures { MatchOption result
            ((found : AMethodDigest) → IsDigest found.digest → text.now ≢ method_text_of found)
            (λ found. IsDigest found.digest × (text.now ≡ method_text_of found)) }
    {
        let (method, rest) = Method::of_marked(text);
        let digest = Digest::of_text(rest)?;
        Some(MethodDigest { method, digest })
    }

    /// Adds the text. Want of memory is its only fault.
    pub fn push_text(&self, out: &mut Vec<u8>) -> Result<(), AllocError>
        ensures { OnOk result (out.new.items ≡ out.old.items ++ method_text_of self.now) }
    {
        if self.method == Method::Recursive {
            out.extend_from_slice(MARK)?;
        }
        self.digest.push_text(out)
    }
}
