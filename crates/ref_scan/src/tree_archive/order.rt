//! A folder's members in the order of their names.
ghost use Rattle.std.specs.Prelude.{◌≡◌, IfOk, map};
ghost use Rattle.std.specs.Borrow.{Bor};
ghost use Rattle.ref_scan.specs.private.Telling.{IsOrdered};
ghost use Rattle.ref_scan.specs.declared.tree.Member.{Member};

use super::names::are_names;
use crate::tree::Member;
use std::alloc::{AllocError, Global};

// The members of a folder in the order of their names, the first one last; none where the folder
// has no archive. Takes memory for a reference to each. Costs one sort.
pub(crate) fn put_in_order<'a>(
    alloc: Global,
    members: &'a [Member],
) -> Result<Option<Vec<&'a Member>>, AllocError>
    ensures { IfOk result (λ order. IsOrdered members.now order) }
{
    let mut order = references_to(alloc, members)?;
    order.sort_unstable_by(|a, b| a.name.cmp(&b.name));
    if !are_names(&order) {
        return Ok(None);
    }
    order.reverse();
    Ok(Some(order))
}

// A reference to each of the members.
fn references_to<'a>(alloc: Global, members: &'a [Member]) -> Result<Vec<&'a Member>, AllocError>
    ensures { IfOk result
        (λ refs. map (λ (ref : Bor Member). ref.now) refs.items ≡ members.now) }
{
    let mut refs = Vec::with_capacity(alloc, members.len())?;
    for member in members {
        refs.push_reserved(member);
    }
    Ok(refs)
}
