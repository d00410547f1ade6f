//! The permitted store paths that a tree refers to.
ghost use Rattle.std.specs.Prelude.{◌≡◌, ◌++◌, ◌∷◌, [], IfOk, OnOk};
ghost use Rattle.nix_names.specs.Rising.{IsRising};
ghost use Rattle.ref_scan.specs.Scan.{IsFound};
ghost use Rattle.ref_scan.specs.Trees.{joined, pieces};
ghost use Rattle.ref_scan.specs.private.Walk.{IsFirstVisited, IsVisited};

use crate::fault::ScanFault;
use crate::marks::Marks;
use crate::tree::{Member, Tree};
use nix_names::StorePath;
use std::alloc::{AllocError, Global};

/// The permitted paths whose hash part occurs in the tree, in their order: within the bytes of one
/// file, the target of one link or the name of one entry, at any depth, each apart. No link is
/// followed. Two permitted paths with the same hash part are both found. `NoMemory`, the only
/// fault, where memory was refused.
///
/// The tree is walked once, whatever the number of paths; no file is copied. The walk keeps a list
/// of the folders that it is in, so a tree of any depth is scanned; it does not recurse. Takes
/// memory for that list, for the table of the hash parts of the permitted paths and for what is
/// found. Dropping the tree afterwards does recurse.
pub fn scan(
    alloc: Global,
    tree: &Tree,
    permitted: &[StorePath],
) -> Result<Vec<StorePath>, ScanFault>
    requires { IsRising permitted.now }
    ensures { IfOk result (λ found. IsFound tree.now permitted.now found.items) }
{
    let mut marks = Marks::new(alloc, permitted)?;
    feed_tree(alloc, &mut marks, tree)?;
    Ok(marks.found()?)
}

// Feeds each file, each link's target and each entry's name as a list of its own.
fn feed_tree(alloc: Global, marks: &mut Marks, tree: &Tree) -> Result<(), AllocError>
    requires { marks.old.present ≡ [] }
    ensures { OnOk result (marks.new
        ≡ record marks.old { ended = marks.old.ended ++ pieces tree.now; present = [] }) }
{
    let mut folders = Vec::new(alloc);
    visit(marks, tree, &mut folders)?;
    while let Some(members) = folders.pop() {
        visit_first(marks, members, &mut folders)?;
    }
    Ok(())
}

// Visits the first of a folder's members, and puts the others off.
fn visit_first<'a>(
    marks: &mut Marks,
    members: &'a [Member],
    folders: &mut Vec<&'a [Member]>,
) -> Result<(), AllocError>
    requires { marks.old.present ≡ [] }
    ensures marks { OnOk result
        (marks.new ≡ record marks.old { ended = marks.new.ended; present = [] }) }
    ensures folders { OnOk result (IsFirstVisited members.entry.now marks.old.ended marks.new.ended
        folders.old.items folders.new.items) }
{
    if let Some((member, rest)) = members.split_first() {
        folders.push(rest)?;
        feed_list(marks, &member.name);
        visit(marks, &member.tree, folders)?;
    }
    Ok(())
}

// Feeds a file or a link's target as a list of its own, or puts a folder's members off.
fn visit<'a>(
    marks: &mut Marks,
    tree: &'a Tree,
    folders: &mut Vec<&'a [Member]>,
) -> Result<(), AllocError>
    requires { marks.old.present ≡ [] }
    ensures marks { OnOk result
        (marks.new ≡ record marks.old { ended = marks.new.ended; present = [] }) }
    ensures folders { OnOk result (IsVisited tree.entry.now marks.old.ended marks.new.ended
        folders.old.items folders.new.items) }
{
    match tree {
        Tree::File(bytes) | Tree::Link(bytes) => feed_list(marks, bytes),
        Tree::Pieces(pieces) | Tree::Executable(pieces) => {
            feed_pieces(marks, pieces);
            marks.cut();
        }
        Tree::Dir(members) => folders.push(members.as_slice())?,
    }
    Ok(())
}

// Feeds a list of its own.
fn feed_list(marks: &mut Marks, bytes: &[u8])
    ensures { marks.new
        ≡ record marks.old {
          ended = marks.old.ended ++ (marks.old.present ++ bytes.now) ∷ [];
          present = [];
        } }
{
    marks.feed(bytes);
    marks.cut();
}

// Feeds the pieces of one file.
fn feed_pieces(marks: &mut Marks, pieces: &[Vec<u8>])
    ensures { marks.new
        ≡ record marks.old { present = marks.old.present ++ joined pieces.now } }
{
    for piece in pieces {
        marks.feed(piece);
    }
}
