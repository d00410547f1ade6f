//! The names of a folder's members.
ghost use Rattle.std.specs.Prelude.{◌≡◌, ◌↔◌, [], IsTrue, map};
ghost use Rattle.std.specs.Borrow.{Bor};
ghost use Rattle.ref_scan.specs.private.Telling.{AreNames};
ghost use Rattle.ref_scan.specs.declared.tree.Member.{Member};

use crate::tree::Member;
use nix_archive::comes_next;

// Whether the members may stand in this order in a folder of an archive.
pub(crate) fn are_names(order: &[&Member]) -> bool
    ensures { IsTrue result ↔ AreNames [] (map (λ (ref : Bor Member). ref.now) order.now) }
{
    let mut before = b"".as_slice();
    for member in order {
        if !comes_next(before, &member.name) {
            return false;
        }
        before = &member.name;
    }
    true
}
