//! What came of telling a tree.

/// What came of telling a tree's archive.
#[derive(Clone, Copy, Debug, PartialEq, Eq)]
pub enum Told {
    /// All of it was heard.
    Whole,
    /// The tree has none: a member of a folder has a name that no entry may have, or that of
    /// another member; or a file has 2^64 bytes or more.
    NoArchive,
}
