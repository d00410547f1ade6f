//! Which hash part a window of 32 bytes is, told at once for any window.
ghost use Rattle.std.specs.Prelude.{◌≡◌, ◌≢◌, ◌↔◌, ◌⊎◌, ◌<◌, [], ℕ, All, IfOk, IsTrue, false, length, map, take, vec_capacity};
ghost use Rattle.nix_names.specs.Keys.{key_of};
ghost use Rattle.nix_names.specs.StorePaths.{IsStorePath, hash_part_of, is_hash_part};
ghost use Rattle.ref_scan.specs.private.Parts.{ArePartsOf, IsPartNumber, IsSieve, IsSlotCount, LetsThrough, NumbersRise, key_of_part, mix_bits, slot_of, tag_of, word_of};

use nix_names::StorePath;
use std::alloc::{AllocError, Global};
use std::marker::Model;

// The slots of a sieve for each part, and the most slots.
const SLOTS_A_PART: usize = 16;

const MAX_SLOTS: usize = 1 << 20;

// What stands in a slot of no part, and in one that lets each window through.
const NONE: u8 = 0;

const ALL: u8 = 255;

// The hash parts of some paths. A table of bytes, the sieve, is asked first: few windows pass it
// that are no hash part. Where the keys of the paths rise strictly, as those of one folder's paths
// nearly always do, a part is found by its key, and a path's text is looked at only where a window
// has its key. Else the parts are kept in a sorted list of their own.
#[derive(Drop)]
pub(crate) struct Index {
    paths: Vec<StorePath>,
    keys: Vec<u64>,
    apart: Vec<[u8; 32]>,
    in_order: bool,
    sieve: Vec<u8>,
}

impl Model for Index {
    ghost use Rattle.ref_scan.specs.private.Parts.{Indexed, IsIndex, parts_told};

    ghost Value = { Indexed };

    ghost view = { λ index. record {
      permitted = index.paths.items;
      parts = parts_told index.in_order index.paths.items index.apart.items;
      in_order = index.in_order;
    } };

    ghost invariant = { λ index. IsIndex index.in_order index.paths.items index.keys.items
        index.apart.items index.sieve.items };
}

impl Index {
    // The parts of these paths.
    pub(crate) fn new(alloc: Global, paths: &[StorePath]) -> Result<Index, AllocError>
        ensures permitted { IfOk result (λ index. index.permitted ≡ paths.now) }
        ensures parts { IfOk result
            (λ index. ArePartsOf paths.now index.parts index.in_order) }
    {
        let keys = keys_of(alloc, paths)?;
        if are_rising(&keys) {
            Index::by_key(alloc, paths, keys)
        } else {
            Index::by_part(alloc, paths)
        }
    }

    // The parts of paths whose keys rise strictly.
    fn by_key(alloc: Global, paths: &[StorePath], keys: Vec<u64>) -> Result<Index, AllocError>
        requires are_paths { All IsStorePath paths.now }
        requires keys { keys.items ≡ map key_of paths.now }
        requires rising { NumbersRise keys.items }
        ensures permitted { IfOk result (λ index. index.permitted ≡ paths.now) }
        ensures parts { IfOk result
            (λ index. ArePartsOf paths.now index.parts index.in_order) }
    {
        let sieve = sieve_of(alloc, &keys)?;
        Ok(Index {
            paths: copies(alloc, paths)?,
            keys,
            apart: Vec::new(alloc),
            in_order: true,
            sieve,
        })
    }

    // The parts of any paths.
    fn by_part(alloc: Global, paths: &[StorePath]) -> Result<Index, AllocError>
        ensures permitted { IfOk result (λ index. index.permitted ≡ paths.now) }
        ensures parts { IfOk result
            (λ index. ArePartsOf paths.now index.parts index.in_order) }
    {
        let apart = sorted_parts(alloc, paths)?;
        let keys = keys_of_parts(alloc, &apart)?;
        let sieve = sieve_of(alloc, &keys)?;
        Ok(Index {
            paths: copies(alloc, paths)?,
            keys,
            apart,
            in_order: false,
            sieve,
        })
    }

    // The paths, as they were given.
    pub(crate) fn paths(&self) -> &[StorePath]
        ensures { result.now ≡ self.now.permitted }
    {
        &self.paths
    }

    // Whether each part has the number of its path.
    pub(crate) fn is_in_order(&self) -> bool
        ensures { result ≡ self.now.in_order }
    {
        self.in_order
    }

    // How many parts are sought.
    pub(crate) fn len(&self) -> usize
        ensures { result ≡ length self.now.parts }
    {
        self.keys.len()
    }

    // The number of a window that is one of the parts.
    #[inline(always)]
    pub(crate) fn part_number(&self, window: &[u8; 32]) -> Option<usize>
        ensures { IsPartNumber self.now.parts window.now result }
    {
        let first = first_of(window);
        let held = self.sieve[slot_of(self.sieve.len(), first)];
        if held != tag_of(first) && held != ALL {
            return None;
        }
        self.part_past_sieve(window)
    }

    // Which path's hash part a window is that passed the sieve, as few do.
    #[cold]
    #[inline(never)]
    fn part_past_sieve(&self, window: &[u8; 32]) -> Option<usize>
        ensures { IsPartNumber self.now.parts window.now result }
    {
        if self.in_order {
            self.part_by_key(window)
        } else {
            self.apart.binary_search(window).ok()
        }
    }

    // Which path's hash part a window is, where the parts stand as the paths do.
    fn part_by_key(&self, window: &[u8; 32]) -> Option<usize>
        requires { IsTrue self.now.in_order }
        ensures { IsPartNumber self.now.parts window.now result }
    {
        let key = key_of(window);
        let number = self.keys.binary_search(&key).ok()?;
        if self.paths[number].hash_part() == window.as_slice() {
            Some(number)
        } else {
            None
        }
    }
}

// Copies of the paths, with room for these alone.
fn copies(alloc: Global, paths: &[StorePath]) -> Result<Vec<StorePath>, AllocError>
    ensures items { IfOk result (λ copies. copies.items ≡ paths.now) }
    ensures room { IfOk result (λ copies. vec_capacity copies ≡ length paths.now) }
{
    let mut copies = Vec::with_capacity(alloc, paths.len())?;
    for path in paths {
        copies.push_reserved(path.copy(alloc)?);
    }
    Ok(copies)
}

// The key of each path.
fn keys_of(alloc: Global, paths: &[StorePath]) -> Result<Vec<u64>, AllocError>
    ensures keys { IfOk result (λ keys. keys.items ≡ map key_of paths.now) }
    ensures are_paths { IfOk result (λ _. All IsStorePath paths.now) }
    ensures room { IfOk result (λ keys. vec_capacity keys ≡ length paths.now) }
{
    let mut keys = Vec::with_capacity(alloc, paths.len())?;
    for path in paths {
        keys.push_reserved(path.key());
    }
    Ok(keys)
}

// Whether each key is below the next one.
fn are_rising(keys: &[u64]) -> bool
    ensures { IsTrue result ↔ NumbersRise keys.now }
{
    for number in 1..keys.len() {
        if keys[number] <= keys[number - 1] {
            return false;
        }
    }
    true
}

// The hash parts of the paths, strictly rising. Where some are equal, room is left over.
fn sorted_parts(alloc: Global, paths: &[StorePath]) -> Result<Vec<[u8; 32]>, AllocError>
    ensures parts { IfOk result (λ parts. ArePartsOf paths.now parts.items false) }
    ensures room { IfOk result (λ parts. vec_capacity parts ≡ length paths.now) }
{
    let mut parts = parts_of(alloc, paths)?;
    parts.sort_unstable();
    parts.dedup();
    Ok(parts)
}

// The hash part of each path.
fn parts_of(alloc: Global, paths: &[StorePath]) -> Result<Vec<[u8; 32]>, AllocError>
    ensures value { IfOk result (λ parts. parts.items ≡ map hash_part_of paths.now) }
    ensures are_parts { IfOk result
        (λ parts. All (λ part. IsTrue (is_hash_part part)) parts.items) }
    ensures room { IfOk result (λ parts. vec_capacity parts ≡ length paths.now) }
{
    let mut parts = Vec::with_capacity(alloc, paths.len())?;
    for path in paths {
        parts.push_reserved(part_of(path));
    }
    Ok(parts)
}

// The key of each part.
fn keys_of_parts(alloc: Global, parts: &[[u8; 32]]) -> Result<Vec<u64>, AllocError>
    ensures items { IfOk result (λ keys. keys.items ≡ map key_of_part parts.now) }
    ensures room { IfOk result (λ keys. vec_capacity keys ≡ length parts.now) }
{
    let mut keys = Vec::with_capacity(alloc, parts.len())?;
    for part in parts {
        keys.push_reserved(key_of(part));
    }
    Ok(keys)
}

// A sieve for these keys.
fn sieve_of(alloc: Global, keys: &[u64]) -> Result<Vec<u8>, AllocError>
    ensures { IfOk result (λ sieve. IsSieve keys.now sieve.items) }
{
    let slots = slot_count(keys.len());
    let mut sieve = vec![in alloc; NONE; slots]?;
    for key in keys {
        let first = key.to_be_bytes();
        let slot = slot_of(slots, &first);
        sieve[slot] = both(sieve[slot], tag_of(&first));
    }
    Ok(sieve)
}

// What a slot holds that lets two tags through.
fn both(held: u8, tag: u8) -> u8
    ensures new { LetsThrough result tag }
    ensures old { (other : ℕ) → LetsThrough held other → LetsThrough result other }
    ensures alone { tag ≢ 0 → ((held ≡ 0) ⊎ (held ≡ tag)) → result ≡ tag }
    ensures several { ((tag ≡ 0) ⊎ ((held ≢ 0) × (held ≢ tag))) → result ≡ 255 }
{
    if tag != NONE && (held == NONE || held == tag) {
        tag
    } else {
        ALL
    }
}

// How many slots a sieve for this many parts has.
fn slot_count(parts: usize) -> usize
    ensures { IsSlotCount parts result }
{
    parts
        .saturating_mul(SLOTS_A_PART)
        .clamp(SLOTS_A_PART, MAX_SLOTS)
        .next_power_of_two()
}

// The last four of eight characters as one number.
#[inline(always)]
#[tactic(auto, unfolding(crate::specs::private::Parts::word_of))]
fn word_of(first: &[u8; 8]) -> u32
    ensures { result ≡ word_of first.now }
{
    match first.last_chunk::<4>() {
        Some(last) => u32::from_le_bytes(*last),
        None => unreachable!(),
    }
}

// A word, mixed so that each of its bits counts in the high ones.
#[inline(always)]
fn mix_bits(word: u32) -> u64
    ensures { result ≡ mix_bits word }
{
    u64::from(word).wrapping_mul(0x9e37_79b9_7f4a_7c15)
}

// The slot of a part that begins with these characters, in a sieve of `slots` slots.
#[inline(always)]
fn slot_of(slots: usize, first: &[u8; 8]) -> usize
    requires { 0 < slots }
    ensures value { result ≡ slot_of slots first.now }
    ensures within { result < slots }
{
    (mix_bits(word_of(first)) >> 44) as usize & (slots - 1)
}

// What tells parts of one slot apart, mostly.
#[inline(always)]
fn tag_of(first: &[u8; 8]) -> u8
    ensures { result ≡ tag_of first.now }
{
    first[3]
}

// The first eight characters of a window.
#[inline(always)]
fn first_of(window: &[u8; 32]) -> &[u8; 8]
    ensures { result.now ≡ take 8 window.now }
{
    match window.first_chunk::<8>() {
        Some(first) => first,
        None => unreachable!(),
    }
}

// The key of a window.
fn key_of(window: &[u8; 32]) -> u64
    ensures { result ≡ key_of_part window.now }
{
    u64::from_be_bytes(*first_of(window))
}

// The hash part of a path.
pub(crate) fn part_of(path: &StorePath) -> [u8; 32]
    ensures value { result ≡ hash_part_of path.now }
    ensures is_part { IsTrue (is_hash_part result) }
{
    let mut part = [0; 32];
    part.copy_from_slice(path.hash_part());
    part
}
