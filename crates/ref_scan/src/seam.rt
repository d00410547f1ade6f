//! The bytes that a scanner keeps between pieces, and the seam of two pieces.
ghost use Rattle.std.specs.Prelude.{◌≡◌, ◌≤◌, ◌++◌, List, ℕ, length, take};
ghost use Rattle.ref_scan.specs.private.Kept.{last_bytes};

use arrayvec::ArrayVec;

// The most bytes that a hash part across the end of a piece has on one side of it.
pub(crate) const KEPT: usize = 31;

const SEAM: usize = 62;

// The last 31 of some bytes, or all of fewer.
fn tail_of(bytes: &[u8]) -> ArrayVec<u8, KEPT>
    ensures { result.items ≡ last_bytes bytes.now }
{
    let mut tail = ArrayVec::new();
    let _ = tail.try_extend_from_slice(&bytes[bytes.len().saturating_sub(KEPT)..]);
    tail
}

// The tail after a piece, of which the seam has the tail before it and the first 31 bytes.
pub(crate) fn tail_after(seam: &[u8], piece: &[u8]) -> ArrayVec<u8, KEPT>
    ensures { (bytes : List ℕ) → seam.now ≡ last_bytes bytes ++ take 31 piece.now
        → result.items ≡ last_bytes (bytes ++ piece.now) }
{
    if piece.len() < KEPT {
        tail_of(seam)
    } else {
        tail_of(piece)
    }
}

// A tail and the first 31 bytes of the piece after it.
pub(crate) fn seam(tail: &[u8], piece: &[u8]) -> ArrayVec<u8, SEAM>
    requires { length tail.now ≤ 31 }
    ensures { result.items ≡ tail.now ++ take 31 piece.now }
{
    let mut seam = ArrayVec::new();
    let _ = seam.try_extend_from_slice(tail);
    let _ = seam.try_extend_from_slice(&piece[..piece.len().min(KEPT)]);
    seam
}
