//! The search of some bytes for all hash parts at once.
ghost use Rattle.std.specs.Prelude.{◌≡◌, ◌≤◌, length};
ghost use Rattle.ref_scan.specs.private.Parts.{AreHashParts};
ghost use Rattle.ref_scan.specs.private.Marks.{Marked, Searched};

use crate::alphabet::last_foreign;
use crate::index::Index;

// Marks each part that stands somewhere within the bytes. Looks at each window of 32 bytes from its
// end, goes on after a byte outside the alphabet, and looks at no byte twice.
pub(crate) fn search(index: &Index, met: &mut [bool], bytes: &[u8])
    requires are_parts { AreHashParts index.now.parts }
    requires count { length met.old ≡ length index.now.parts }
    ensures { Searched index.now.parts met.old met.new bytes.now }
{
    let mut start = 0;
    let mut known = 0;
    while let Some(window) = bytes[start..].first_chunk::<32>() {
        if let Some(offset) = last_foreign(window, known) {
            start += offset + 1;
            known = 31 - offset;
        } else {
            mark(index, met, window);
            start += 1;
            known = 31;
        }
    }
}

// Marks a window that is a part.
#[inline(always)]
fn mark(index: &Index, met: &mut [bool], window: &[u8; 32])
    requires are_parts { AreHashParts index.now.parts }
    requires count { length met.old ≡ length index.now.parts }
    ensures { Marked index.now.parts met.old met.new window.now }
{
    if let Some(number) = index.part_number(window) {
        met[number] = true;
    }
}
