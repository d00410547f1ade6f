//! Trees of files, symbolic links and folders, and the limits of an output.
ghost use Rattle.std.specs.Prelude.{◌≡◌, ◌<◌, ◌+◌, ◌↔◌, length, IsTrue, MatchOption};
ghost use Rattle.ref_scan.specs.private.Room.{FitsIn, Fills};
ghost use Rattle.ref_scan.specs.Trees.{Fits, joined};

/// The most levels of an output's tree: a file, a link and an empty folder have one.
pub const MAX_DEPTH: usize = 32;

/// The most entries of an output's folders, at all depths, without the root.
pub const MAX_ENTRIES: usize = 65_536;

/// The most bytes of an output's files and of its links' targets together.
pub const MAX_FILE_BYTES: usize = 67_108_864;

/// A file, a symbolic link, or a folder with all that is in it. Only an archive (NAR) and the rules
/// on fixed outputs tell a file that its owner may execute from another file: to scans and limits it
/// is a file. Dropping a tree recurses, once for each level, and so does `{:?}`.
#[derive(Debug, Drop)]
#[cycle(tree)]
pub enum Tree {
    /// A file's bytes.
    File(Vec<u8>),
    /// A file's bytes, in the pieces in which it was read. No pieces are the empty file.
    Pieces(Vec<Vec<u8>>),
    /// A file that its owner may execute, in the pieces in which it was read. No pieces are the empty
    /// file.
    Executable(Vec<Vec<u8>>),
    /// A symbolic link's target, as it was read: it is not followed.
    Link(Vec<u8>),
    /// A folder's members, in any order.
    Dir(Vec<Member>),
}

/// A named member of a folder.
#[derive(Debug, Drop)]
#[cycle(tree)]
pub struct Member {
    /// The name, without the folder's path.
    pub name: Vec<u8>,
    /// What stands under it.
    pub tree: Tree,
}

// What a tree may still take up.
#[derive(Clone, Copy)]
struct Room {
    entries: usize,
    bytes: usize,
}

impl Tree {
    /// Whether the tree is within the limits of an output: at most 32 levels (a file, a link and an
    /// empty folder have one), 65,536 entries (the named members of folders at any depth, without
    /// the root) and 67,108,864 bytes of files and of links' targets. Takes no memory. Looks at no
    /// level past the limit, so it recurses 32 levels at most and returns for a tree of any depth.
    pub fn fits(&self) -> bool
        ensures { IsTrue result ↔ Fits self.now }
    {
        let room = Room {
            entries: MAX_ENTRIES,
            bytes: MAX_FILE_BYTES,
        };
        self.room_beside(MAX_DEPTH - 1, room).is_some()
    }

    // What is left of the room beside the tree, if it fits in with `below` levels below its root.
    fn room_beside(&self, below: usize, room: Room) -> Option<Room>
        ensures { MatchOption result (¬ FitsIn below room self.now)
            (λ left. Fills below room self.now left) }
    {
        match self {
            Tree::File(bytes) | Tree::Link(bytes) => room_beside_bytes(bytes, room),
            Tree::Pieces(pieces) | Tree::Executable(pieces) => room_beside_pieces(pieces, room),
            Tree::Dir(entries) => {
                let mut left = Room {
                    entries: room.entries.checked_sub(entries.len())?,
                    ..room
                };
                for entry in entries {
                    left = entry.tree.room_beside(below.checked_sub(1)?, left)?;
                }
                Some(left)
            }
        }
    }
}

// What is left of the room beside a file in one piece, or beside a link's target.
fn room_beside_bytes(bytes: &[u8], room: Room) -> Option<Room>
    ensures { MatchOption result (room.bytes < length bytes.now)
        (λ left. (left.entries ≡ room.entries)
        × (left.bytes + length bytes.now ≡ room.bytes)) }
{
    Some(Room {
        bytes: room.bytes.checked_sub(bytes.len())?,
        ..room
    })
}

// What is left of the room beside a file in pieces.
fn room_beside_pieces(pieces: &[Vec<u8>], room: Room) -> Option<Room>
    ensures { MatchOption result (room.bytes < length (joined pieces.now))
        (λ left. (left.entries ≡ room.entries)
        × (left.bytes + length (joined pieces.now) ≡ room.bytes)) }
{
    Some(Room {
        bytes: bytes_beside(pieces, room.bytes)?,
        ..room
    })
}

// What is left of `bytes` bytes beside a file in pieces.
fn bytes_beside(pieces: &[Vec<u8>], bytes: usize) -> Option<usize>
    ensures { MatchOption result (bytes < length (joined pieces.now))
        (λ left. left + length (joined pieces.now) ≡ bytes) }
{
    let mut left = bytes;
    for piece in pieces {
        left = left.checked_sub(piece.len())?;
    }
    Some(left)
}
