//! The walk that tells a tree's archive.
ghost use Rattle.std.specs.Prelude.{◌≡◌, ◌∷◌, IfOk, OnOk};
ghost use Rattle.ref_scan.specs.Archives.{IsTold};
ghost use Rattle.ref_scan.specs.private.Telling.{IsStep, IsVisit, entry_end, folders_of, order_of};

use super::node::{Node, tell_node};
use super::outcome::Told;
use crate::tree::{Member, Tree};
use nix_archive::{Event, Hear};
use std::alloc::{AllocError, Global};

/// Tells the hearer the tree's archive (NAR), each folder's members in the order of their names, or
/// says that the tree has none. After that, and after an error, which comes only where memory was
/// refused, nothing is known of the hearer.
///
/// The tree is walked once, and no name and no file is copied. The walk keeps a list of the folders
/// that it is in, so it tells a tree of any depth; it does not recurse. It takes memory for that
/// list, and for a reference to each member of a folder before this is heard. Costs one sort of
/// each folder's members.
pub fn tell<H: Hear>(alloc: Global, tree: &Tree, hearer: &mut H) -> Result<Told, AllocError>
    ensures { IfOk result (λ told. IsTold H.heard hearer.old hearer.new tree.now told) }
{
    let mut folders = Vec::new(alloc);
    match visit(alloc, tree, &mut folders, hearer)? {
        Told::Whole => {}
        Told::NoArchive => return Ok(Told::NoArchive),
    }
    'steps: while let Some(order) = folders.pop() {
        match step(alloc, order, &mut folders, hearer)? {
            Told::Whole => {}
            Told::NoArchive => return Ok(Told::NoArchive),
        }
    }
    Ok(Told::Whole)
}

// Tells the next member of a folder, or its end. `order` has the members that lie ahead, and
// `folders` those of the folders around it.
fn step<'a, H: Hear>(
    alloc: Global,
    mut order: Vec<&'a Member>,
    folders: &mut Vec<Vec<&'a Member>>,
    hearer: &mut H,
) -> Result<Told, AllocError>
    ensures { IfOk result (λ told. IsStep H.heard hearer.old hearer.new
        (order_of order.entry.items ∷ folders_of folders.old.items)
        (folders_of folders.new.items) told) }
{
    let Some(member) = order.pop() else {
        hearer.hear(Event::EndFolder)?;
        end_entry(folders, hearer)?;
        return Ok(Told::Whole);
    };
    folders.push(order)?;
    hearer.hear(Event::BeginEntry(&member.name))?;
    let told = visit(alloc, &member.tree, folders, hearer)?;
    Ok(told)
}

// Tells a tree that lies in some folders, or the begin of a folder, whose members are put off.
fn visit<'a, H: Hear>(
    alloc: Global,
    tree: &'a Tree,
    folders: &mut Vec<Vec<&'a Member>>,
    hearer: &mut H,
) -> Result<Told, AllocError>
    ensures { IfOk result (λ told. IsVisit H.heard hearer.old hearer.new tree.now
        (folders_of folders.old.items) (folders_of folders.new.items) told) }
{
    match tell_node(alloc, tree, hearer)? {
        Node::Heard => end_entry(folders, hearer)?,
        Node::Begun(order) => folders.push(order)?,
        Node::Refused => return Ok(Told::NoArchive),
    }
    Ok(Told::Whole)
}

// Tells the end of the entry in which a tree lies, if it lies in a folder.
fn end_entry<H: Hear>(folders: &[Vec<&Member>], hearer: &mut H) -> Result<(), AllocError>
    ensures { OnOk result (H.heard hearer.old (entry_end (folders_of folders.now)) hearer.new) }
{
    if folders.is_empty() {
        return Ok(());
    }
    hearer.hear(Event::EndEntry)
}
