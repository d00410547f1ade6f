// Four texts side by side, and lists of texts.

ghost use Rattle.std.specs.Prelude.{◌≡◌, ◌≢◌, ◌↔◌, ℕ, ◌*◌, ◌/◌, ◌<◌, ◌≤◌, IsTrue, List, [], ◌∷◌, ◌++◌, drop, length, map, slice_index_or, take};
ghost use Rattle.std.specs.Result.{IfOk};
ghost use Rattle.sha2.specs.Sha256.{digest_bytes, initial_hash_256, sha256};
ghost use Rattle.digest_lanes.specs.private.Lanes.{NoneExceedsHalf, blocks, lane};

use crate::blocks::{block, block_count};
use crate::consts::H256;
use crate::rounds::compress;
use sha2::{Digest, Sha256};
use std::alloc::{AllocError, Global};
use std::convert::AsSlice;
use std::simd::u32x4;

/// The 32 bytes of a SHA-256 digest.
pub type DigestBytes = [u8; 32];

// The initial hash value in each lane.
fn initial() -> [u32x4; 8]
    ensures { (j : ℕ) → j < 4 → lane j result ≡ initial_hash_256 }
{
    [
        u32x4::splat(H256[0]),
        u32x4::splat(H256[1]),
        u32x4::splat(H256[2]),
        u32x4::splat(H256[3]),
        u32x4::splat(H256[4]),
        u32x4::splat(H256[5]),
        u32x4::splat(H256[6]),
        u32x4::splat(H256[7]),
    ]
}

// The hash value in lane `j` as bytes.
fn lane_bytes(state: &[u32x4; 8], j: usize) -> [u8; 32]
    requires { j < 4 }
    ensures { result ≡ digest_bytes (lane j state.now) 8 }
{
    let mut out = [0u8; 32];
    'words: for i in 0..8 {
        let word = state[i].to_array()[j];
        out[4 * i..4 * i + 4].copy_from_slice(&word.to_be_bytes());
    }
    out
}

// The hash value in lane `j` as bytes where its text ends, after `end` blocks, and else `old`.
fn digest_at_end(old: [u8; 32], state: &[u32x4; 8], j: usize, done: usize, end: usize) -> [u8; 32]
    requires { j < 4 }
    ensures ends { done ≡ end → result ≡ digest_bytes (lane j state.now) 8 }
    ensures goes_on { done ≢ end → result ≡ old }
{
    if done == end {
        lane_bytes(state, j)
    } else {
        old
    }
}

/// The SHA-256 digests of four texts.
///
/// The cost is some 1.9 times that of the longest text's digest alone, whatever the others' lengths:
/// so texts of about one length are to go together. Nothing is allocated.
pub fn four_digests(a: &[u8], b: &[u8], c: &[u8], d: &[u8]) -> [DigestBytes; 4]
    ensures { result ≡ sha256 a.now ∷ sha256 b.now ∷ sha256 c.now ∷ sha256 d.now ∷ [] }
{
    let ends = [
        block_count(a),
        block_count(b),
        block_count(c),
        block_count(d),
    ];
    let most = ends[0].max(ends[1]).max(ends[2]).max(ends[3]);
    let mut state = initial();
    let mut out = [[0u8; 32]; 4];
    'turns: for i in 0..most {
        let mut rooms = ([0u8; 64], [0u8; 64], [0u8; 64], [0u8; 64]);
        let block_a = block(a, i, &mut rooms.0);
        let block_b = block(b, i, &mut rooms.1);
        let block_c = block(c, i, &mut rooms.2);
        let block_d = block(d, i, &mut rooms.3);
        compress(&mut state, block_a, block_b, block_c, block_d);
        let first = digest_at_end(out[0], &state, 0, i + 1, ends[0]);
        let second = digest_at_end(out[1], &state, 1, i + 1, ends[1]);
        let third = digest_at_end(out[2], &state, 2, i + 1, ends[2]);
        let fourth = digest_at_end(out[3], &state, 3, i + 1, ends[3]);
        out = [first, second, third, fourth];
    }
    out
}

// Whether four texts cost no more side by side than one by one: none has more than half of their
// blocks.
fn go_together(a: &[u8], b: &[u8], c: &[u8], d: &[u8]) -> bool
    ensures { IsTrue result ↔ NoneExceedsHalf
        (blocks a.now) (blocks b.now) (blocks c.now) (blocks d.now) }
{
    let counts = [
        block_count(a),
        block_count(b),
        block_count(c),
        block_count(d),
    ];
    let most = counts[0].max(counts[1]).max(counts[2]).max(counts[3]);
    2 * most <= counts[0] + counts[1] + counts[2] + counts[3]
}

// Adds the digest of each text, one by one.
fn push_each<T: AsSlice<u8>>(out: &mut Vec<DigestBytes>, texts: &[T]) -> Result<(), AllocError>
    ensures { IfOk result (λ _. out.new.items
        ≡ out.old.items ++ map (λ text. sha256 (T.items text)) texts.now) }
{
    for text in texts {
        out.push(Sha256::digest(text.as_slice()))?;
    }
    Ok(())
}

// Adds the digest of each text: four texts side by side where that costs no more, else one by one.
fn push_group<T: AsSlice<u8>>(out: &mut Vec<DigestBytes>, texts: &[T]) -> Result<(), AllocError>
    ensures { IfOk result (λ _. out.new.items
        ≡ out.old.items ++ map (λ text. sha256 (T.items text)) texts.now) }
{
    if let [a, b, c, d] = texts {
        let (a, b, c, d) = (a.as_slice(), b.as_slice(), c.as_slice(), d.as_slice());
        if go_together(a, b, c, d) {
            return out.extend_from_slice(&four_digests(a, b, c, d));
        }
    }
    push_each(out, texts)
}

/// The SHA-256 digest of each text, in order.
///
/// Takes the texts in fours. Costs at most what the digests one by one cost, and half of that
/// where the four texts of each group are of about one length.
///
/// # Errors
///
/// Want of memory for the list of the digests.
pub fn digests<T: AsSlice<u8>>(alloc: Global, texts: &[T]) -> Result<Vec<DigestBytes>, AllocError>
    ensures { IfOk result (λ found. found.items ≡ map (λ text. sha256 (T.items text)) texts.now) }
{
    let mut out = Vec::with_capacity(alloc, texts.len())?;
    for group in texts.chunks(4) {
        push_group(&mut out, group)?;
    }
    Ok(out)
}
