//! What is heard of a tree by itself: a file, a link, or the begin of a folder.
ghost use Rattle.std.specs.Prelude.{◌≡◌, ◌≤◌, ◌^◌, ◌<◌, ◌∷◌, [], IfOk, OnOk, MatchOption, false, length, map};
ghost use Rattle.nix_archive.specs.Trees.{AreBytes, IsString};
ghost use Rattle.nix_archive.specs.Tokens.{FileByte, LinkTo, file_tokens};
ghost use Rattle.ref_scan.specs.Trees.{joined};
ghost use Rattle.ref_scan.specs.private.Telling.{IsBegun, IsFileTold, IsNode};

use super::order::put_in_order;
use crate::tree::{Member, Tree};
use nix_archive::{Event, Hear};
use std::alloc::{AllocError, Global};

// What was heard of a tree.
#[derive(Drop)]
pub(crate) enum Node<'a> {
    // All of it: it is a file or a link.
    Heard,
    // The begin of a folder; its members in the order of their names, the first one last.
    Begun(Vec<&'a Member>),
    // Nothing can be heard: it has no archive.
    Refused,
}

// Tells a file or a link, or the begin of a folder.
pub(crate) fn tell_node<'a, H: Hear>(
    alloc: Global,
    tree: &'a Tree,
    hearer: &mut H,
) -> Result<Node<'a>, AllocError>
    ensures { IfOk result (λ node. IsNode H.heard hearer.old hearer.new tree.now node) }
{
    match tree {
        Tree::File(bytes) => {
            tell_bytes(bytes, hearer)?;
            Ok(Node::Heard)
        }
        Tree::Pieces(pieces) => {
            let told = tell_pieces(false, pieces, hearer)?;
            Ok(told)
        }
        Tree::Executable(pieces) => {
            let told = tell_pieces(true, pieces, hearer)?;
            Ok(told)
        }
        Tree::Link(target) => {
            tell_link(target, hearer)?;
            Ok(Node::Heard)
        }
        Tree::Dir(members) => {
            let begun = begin_folder(alloc, members, hearer)?;
            Ok(begun)
        }
    }
}

// Tells the begin of a folder, for whose members memory is taken before.
fn begin_folder<'a, H: Hear>(
    alloc: Global,
    members: &'a [Member],
    hearer: &mut H,
) -> Result<Node<'a>, AllocError>
    ensures { IfOk result (λ node. IsBegun H.heard hearer.old hearer.new members.now node) }
{
    let Some(order) = put_in_order(alloc, members)? else {
        return Ok(Node::Refused);
    };
    hearer.hear(Event::BeginFolder)?;
    Ok(Node::Begun(order))
}

// Tells a link.
fn tell_link<H: Hear>(target: &[u8], hearer: &mut H) -> Result<(), AllocError>
    ensures heard { OnOk result (H.heard hearer.old (LinkTo target.now ∷ []) hearer.new) }
    ensures is_string { IsString target.now }
{
    hearer.hear(Event::Link(target))
}

// Tells a file in one piece.
fn tell_bytes<H: Hear>(bytes: &[u8], hearer: &mut H) -> Result<(), AllocError>
    ensures heard { OnOk result (H.heard hearer.old (file_tokens false bytes.now) hearer.new) }
    ensures is_string { IsString bytes.now }
{
    let size = bytes.len() as u64;
    hearer.hear(Event::BeginFile(false, size))?;
    hearer.hear(Event::Piece(bytes))?;
    hearer.hear(Event::EndFile(size))
}

// Tells a file in pieces.
fn tell_pieces<'a, H: Hear>(
    executable: bool,
    pieces: &[Vec<u8>],
    hearer: &mut H,
) -> Result<Node<'a>, AllocError>
    ensures { IfOk result
        (λ node. IsFileTold H.heard hearer.old hearer.new executable (joined pieces.now) node) }
{
    let Some(size) = size_of(pieces) else {
        return Ok(Node::Refused);
    };
    hearer.hear(Event::BeginFile(executable, size))?;
    hear_pieces(pieces, hearer)?;
    hearer.hear(Event::EndFile(size))?;
    Ok(Node::Heard)
}

// How many bytes the pieces make together, if that is a number of 64 bits.
fn size_of(pieces: &[Vec<u8>]) -> Option<u64>
    ensures { MatchOption result (2 ^ 64 ≤ length (joined pieces.now))
        (λ size. (size ≡ length (joined pieces.now)) × (size < 2 ^ 64)) }
{
    let mut size = 0u64;
    for piece in pieces {
        size = size.checked_add(piece.len() as u64)?;
    }
    Some(size)
}

// Tells the bytes that the pieces make together.
fn hear_pieces<H: Hear>(pieces: &[Vec<u8>], hearer: &mut H) -> Result<(), AllocError>
    ensures heard { OnOk result
        (H.heard hearer.old (map FileByte (joined pieces.now)) hearer.new) }
    ensures are_bytes { OnOk result (AreBytes (joined pieces.now)) }
{
    'pieces: for piece in pieces {
        hear_piece(piece, hearer)?;
    }
    Ok(())
}

// Tells some bytes of a file.
fn hear_piece<H: Hear>(piece: &[u8], hearer: &mut H) -> Result<(), AllocError>
    ensures heard { OnOk result (H.heard hearer.old (map FileByte piece.now) hearer.new) }
    ensures are_bytes { AreBytes piece.now }
{
    hearer.hear(Event::Piece(piece))
}
