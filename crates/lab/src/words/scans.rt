//! Trees, scans and scanners, and the texts of which large ones are made.
//!
//! `numbered TEMPLATE FIRST END HEAD` is a text; `file_tree`, `pieces`, `program`, `link`, `folder`,
//! `wide` and `nested` are trees. A folder takes its trees: they are not kept any more.
//! `Scanner PATH .. : PIECE .. / PIECE ..` feeds a scanner for the paths, with cuts between pieces.

use crate::give::Give;
use crate::line::Line;
use crate::rising::rising;
use crate::stop::{Found, Stop, Taken, call, tried};
use crate::teller::Teller;
use crate::world::World;
use ref_scan::{Member, Scanner, Tree, scan};
use std::alloc::{AllocError, Global};
use std::slice;

/// Takes a line, if its call is one of these.
pub(crate) fn take(teller: &mut Teller<'_>, world: &mut World, line: &Line<'_>) -> Found {
    words! { teller, world, line;
        "Tree::fits" (tree = trees 0) => (tree.fits(),);
        "scan" (permitted = rising 1, tree = trees 0) => scan(world.alloc, tree, &permitted);
        put "numbered" => numbered(world, line)?;
        put "file_tree" (text = copy 0) => Tree::File(text);
        put "program" (texts = copies 0) => Tree::Executable(texts);
        put "link" (text = copy 0) => Tree::Link(text);
        put "pieces" (texts = copies 0) => Tree::Pieces(texts);
        put "wide" (count = number 0, name = text 1) => wide(world.alloc, count, name)?;
        put "nested" => nested(world, line)?;
        put "folder" => folder(world, line.arguments(0))?;
        do "Scanner" => scanner(teller, world, line);
        do "take_apart" => take_apart(world, line);
    }
}

// A head, and a template once for each number, in which `%` stands for the number in eight digits,
// and `^` for the number before it.
fn numbered(world: &World, line: &Line<'_>) -> Result<Vec<u8>, AllocError> {
    let (first, end) = (line.number(1).unwrap_or(0), line.number(2).unwrap_or(0));
    let mut text = world.text(line.argument(3)).to_vec(world.alloc)?;
    for number in first..end {
        push_numbered(&mut text, world.text(line.argument(0)), number)?;
    }
    Ok(text)
}

fn push_numbered(text: &mut Vec<u8>, template: &[u8], number: usize) -> Result<(), AllocError> {
    let alloc = *text.allocator();
    let before = format!(in alloc; "{:08}", number.saturating_sub(1))?;
    let this = format!(in alloc; "{number:08}")?;
    for byte in template {
        text.extend_from_slice(match byte {
            b'%' => this.as_bytes(),
            b'^' => before.as_bytes(),
            byte => slice::from_ref(byte),
        })?;
    }
    Ok(())
}

/// A folder of so many empty files that have one name.
pub(crate) fn wide(alloc: Global, count: usize, name: &[u8]) -> Result<Tree, AllocError> {
    let mut members = Vec::new(alloc);
    for _ in 0..count {
        let (name, tree) = (name.to_vec(alloc)?, Tree::File(Vec::new(alloc)));
        members.push(Member { name, tree })?;
    }
    Ok(Tree::Dir(members))
}

// A tree below so many folders.
fn nested(world: &mut World, line: &Line<'_>) -> Result<Tree, Stop> {
    let mut tree = world.trees.take(line.argument(2))?;
    for _ in 0..line.number(0).unwrap_or(0) {
        let name = line.argument(1).to_vec(world.alloc)?;
        tree = Tree::Dir(vec![in world.alloc; Member { name, tree }]?);
    }
    Ok(tree)
}

fn folder(world: &mut World, words: &[&[u8]]) -> Result<Tree, Stop> {
    let mut members = Vec::new(world.alloc);
    for pair in words.chunks(2) {
        let [name, tree] = pair else {
            return Err(Stop::Lost("a name without a tree"));
        };
        let name = world.text(name).to_vec(world.alloc)?;
        let tree = world.trees.take(tree)?;
        members.push(Member { name, tree })?;
    }
    Ok(Tree::Dir(members))
}

// Takes a tree apart from above: dropping it whole recurses once for each level.
fn take_apart(world: &mut World, line: &Line<'_>) -> Taken {
    let mut tree = world.trees.take(line.argument(0))?;
    while let Tree::Dir(mut members) = tree {
        match members.pop() {
            Some(member) => tree = member.tree,
            None => return Ok(()),
        }
    }
    Ok(())
}

fn scanner(teller: &mut Teller<'_>, world: &mut World, line: &Line<'_>) -> Taken {
    let (permitted, pieces) = line.divided(b":");
    let permitted = rising(world, permitted)?;
    let mut scanner = tried!(teller, "Scanner::new" => Scanner::new(world.alloc, &permitted))?;
    for piece in pieces {
        match *piece {
            b"/" => call!(teller, "Scanner::cut" => scanner.cut()),
            piece => call!(teller, "Scanner::feed" => scanner.feed(world.text(piece))),
        }
    }
    let found = call!(teller, "Scanner::finish" => scanner.finish());
    found.give(teller, world, line)
}
