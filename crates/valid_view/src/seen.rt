//! What a reader finds about one path.

use nix_names::MethodDigest;

/// What a reader finds of one path.
#[derive(Clone, Copy, Debug, PartialEq, Eq)]
pub enum Seen {
    /// The path is not valid.
    Absent,
    /// The path is valid. This is its digest, where the journal has one: of the bytes of a file, or
    /// of the archive of a tree.
    Valid(Option<MethodDigest>),
}
