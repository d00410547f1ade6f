//! What comes next in an archive.

/// What comes next, after the zeros and the fixed bytes.
#[derive(Clone, Copy)]
pub(crate) enum Mode {
    /// The type of a tree.
    Kind,
    /// The type of a file or a link, after its length.
    Letter,
    /// The mark of a file, or its contents.
    Mark,
    /// An entry, or the end of the folder.
    More,
    /// The length of a string.
    Size(What),
    /// The bytes of a file: its length, and how many are left after the next one.
    Contents(u64, u64),
    /// The bytes of a name of this length, and what is known of it.
    Name(u64, Tie),
    /// The bytes of a target of this length.
    Target(u64),
    /// Nothing.
    End,
}

/// Of what a length is.
#[derive(Clone, Copy)]
pub(crate) enum What {
    /// A file, which its owner may execute or not.
    File(bool),
    /// A link's target.
    Target,
    /// An entry's name.
    Name,
}

/// What the first bytes of a name tell of it.
#[derive(Clone, Copy)]
pub(crate) enum Tie {
    /// It comes after the name before it, whatever follows.
    Free,
    /// It begins as the name before it does, and may share so many bytes with that at most.
    Tied(usize),
}
