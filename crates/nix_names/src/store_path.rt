//! Store paths: parsed, lent, copied, compared.
ghost use Rattle.std.specs.Prelude.{◌≡◌, ◌⊎◌, ◌↔◌, IfOk, IfErr, OnOk, IsTrue, nat_eq, ◌&&◌, ◌+◌, ◌^◌, ◌<◌, ◌≤◌, ◌++◌, ◌∷◌, [], codes, drop, length, take, vec_len, vec_capacity, MatchResult, Some, None};
ghost use Rattle.std.specs.List.{list_all, starts_with};
ghost use Rattle.nix_names.specs.Base32.{is_digit};
ghost use Rattle.std.specs.Cmp.{partial_equiv_from_equiv, partial_order_from_own_ties};
ghost use Rattle.std.specs.Cmp.Lexicographic.{pointwise, nat_list_eq_equiv, slice_cmp};
ghost use Rattle.std.specs.Cmp.Rules.{comparing, hashing};
ghost use Rattle.std.specs.Hash as fed;
ghost use Rattle.std.specs.Ordering.{nat_cmp, as_partial_cmp};
ghost use Rattle.std.proofs.Common.{refl, rules};
ghost use Rattle.nix_names.specs.Answers.{Answers};
ghost use Rattle.nix_names.specs.Keys.{key_of};
ghost use Rattle.nix_names.specs.Names.{is_name};
ghost use Rattle.nix_names.specs.StorePaths.{IsPathOf, IsStorePath, base_fault, base_of, hash_part_of, is_hash_part, name_of, path_fault, path_text};

use crate::base32::is_digit;
use crate::fault::NameFault;
use crate::name::is_name;
use crate::store_dir::StoreDir;
use memchr::memrchr;
use std::alloc::{AllocError, Global};
use std::cmp::Ordering;
use std::hash::{Hash, Hasher};
use std::marker::Model;
use std::str;
use std::sync::Arc;

// The length of a hash part, in bytes.
const HASH_PART_LEN: usize = 32;

/// A store path, as `/nix/store/<32 base-32 characters>-<name>`. A contract sees its text, which
/// all copies of the path share, in any threads: a path takes 8 bytes beside it.
#[derive(Debug, Drop)]
pub struct StorePath {
    shared: Arc<PathText>,
}

impl Model for StorePath {
    ghost use Rattle.std.specs.Prelude.{◌≡◌, List, ℕ};
    ghost use Rattle.nix_names.specs.Keys.{key_of};
    ghost use Rattle.nix_names.specs.StorePaths.{IsStorePath};

    ghost Value = { List ℕ };

    ghost view = { λ path. path.shared.value.text.items };

    ghost invariant = { λ path. IsStorePath path.shared.value.text.items
        × (path.shared.value.key ≡ key_of path.shared.value.text.items) };
}

// The text of a path and its key, which stands where the copies are counted.
#[derive(Debug, Drop)]
struct PathText {
    text: Vec<u8>,
    key: u64,
}

impl StorePath {
    /// The whole path, folder and all.
    pub fn text(&self) -> &[u8]
        ensures value { result.now ≡ self.now }
        ensures is_path { IsStorePath self.now }
    {
        &self.shared.text
    }

    /// The whole path as a string, since its bytes are ASCII. Costs one pass.
    #[tactic(auto, using(crate::proofs::AsciiPaths::path_is_text))]
    pub fn as_str(&self) -> &str
        ensures { result.now ≡ self.now }
    {
        match str::from_utf8(self.text()) {
            Ok(text) => text,
            Err(_) => unreachable!(),
        }
    }

    /// The 32 base-32 characters that begin the base name. Costs a search for the last slash.
    #[tactic(auto, using(crate::proofs::PathTexts::base_long, crate::proofs::PathTexts::hash_part_of_is))]
    pub fn hash_part(&self) -> &[u8]
        ensures value { result.now ≡ hash_part_of self.now }
        ensures is_hash { IsTrue (is_hash_part result.now) }
    {
        &self.base()[..HASH_PART_LEN]
    }

    /// The name, after the hash part and a dash. Costs a search for the last slash.
    #[tactic(auto, using(crate::proofs::PathTexts::base_long, crate::proofs::PathTexts::name_of_is))]
    pub fn name(&self) -> &[u8]
        ensures value { result.now ≡ name_of self.now }
        ensures named { IsTrue (is_name result.now) }
    {
        &self.base()[HASH_PART_LEN + 1..]
    }

    /// The first eight characters of the hash part as one number, of which the first counts most.
    /// Of two paths of one folder, the one with the lesser key is the lesser. Costs no look at the
    /// text.
    pub fn key(&self) -> u64
        ensures value { result ≡ key_of self.now }
        ensures is_path { IsStorePath self.now }
    {
        self.shared.key
    }

    // The base name: the bytes after the last slash.
    fn base(&self) -> &[u8]
        ensures value { result.now ≡ base_of self.now }
        ensures is_path { IsStorePath self.now }
    {
        let text = self.text();
        &text[base_offset(text)..]
    }

    /// A copy of the path, which shares its text. Costs no allocation and no pass: it counts one
    /// more owner, so `AllocError` comes only where the count is full, at 2^63.
    pub fn copy(&self, _alloc: Global) -> Result<StorePath, AllocError>
        ensures same { IfOk result (λ path. path ≡ self.now) }
    {
        Ok(StorePath {
            shared: self.shared.clone()?,
        })
    }
}

impl PartialEq for StorePath {
    ghost eq = { pointwise nat_eq };

    ghost laws = { partial_equiv_from_equiv nat_list_eq_equiv };

    fn eq(&self, other: &StorePath) -> bool {
        self.text() == other.text()
    }
}

impl Eq for StorePath {
    ghost laws = { nat_list_eq_equiv };
}

impl PartialOrd for StorePath {
    ghost partial_cmp = { as_partial_cmp (slice_cmp nat_cmp) };

    ghost laws = { partial_order_from_own_ties
        (Prim.search (comparing, rules))
        (Prim.search (comparing, rules)) };

    fn partial_cmp(&self, other: &StorePath) -> Option<Ordering> {
        Some(self.cmp(other))
    }
}

impl Ord for StorePath {
    ghost cmp = { slice_cmp nat_cmp };

    ghost total = { Prim.search (comparing, rules) };

    ghost matches_partial_cmp = { λ x y. refl };

    ghost matches_eq = { Prim.search (comparing, rules) };

    fn cmp(&self, other: &StorePath) -> Ordering {
        self.text().cmp(other.text())
    }
}

impl Hash for StorePath {
    ghost hash_input = { fed.slice fed.u8 };

    ghost respects_eq = { Prim.search (hashing, rules) };

    fn hash<H: Hasher>(&self, state: &mut H) {
        self.text().hash(state);
    }
}

/// The path of the store folder that is spelled by these bytes. In this order: `NotInStore` where
/// they do not begin with the folder and a slash, `BadHashPart` where the next 33 are not 32
/// base-32 digits and a dash, `BadName` where the rest is no name. Costs one pass, and one copy of
/// the text in two allocations.
pub fn parse_path(alloc: Global, dir: &StoreDir, text: &[u8]) -> Result<StorePath, NameFault>
    ensures { Answers (path_fault dir.now text.now) result (λ path.
        (path ≡ text.now) × IsPathOf dir.now text.now) }
{
    check_path(dir.text(), text)?;
    Ok(known_path(alloc, text)?)
}

/// The store path that is spelled by these bytes, which are known to be one. Costs one copy of the
/// text in two allocations, and no pass to check it.
pub fn known_path(alloc: Global, text: &[u8]) -> Result<StorePath, AllocError>
    requires { IsStorePath text.now }
    ensures { IfOk result (λ path. path ≡ text.now) }
{
    keyed_path(alloc, Vec::from_slice(alloc, text)?)
}

// The path of a text, with its key.
fn keyed_path(alloc: Global, text: Vec<u8>) -> Result<StorePath, AllocError>
    requires { IsStorePath text.items }
    ensures { IfOk result (λ path. path ≡ text.items) }
{
    let key = key_of(&text);
    Ok(StorePath {
        shared: Arc::new(alloc, PathText { text, key })?,
    })
}

// The key of a path's text.
fn key_of(text: &[u8]) -> u64
    requires { IsStorePath text.now }
    ensures { result ≡ key_of text.now }
{
    match text[base_offset(text)..].first_chunk::<8>() {
        Some(first) => u64::from_be_bytes(*first),
        None => unreachable!(),
    }
}

// The path of the folder with this hash part and name.
pub(crate) fn join_path(
    alloc: Global,
    dir: &StoreDir,
    hash: &[u8],
    name: &[u8],
) -> Result<StorePath, AllocError>
    requires is_hash { IsTrue (is_hash_part hash.now) }
    requires named { IsTrue (is_name name.now) }
    ensures { IfOk result (λ path. path ≡ path_text dir.now hash.now name.now) }
{
    let text = join_text(alloc, dir.text(), hash, name)?;
    keyed_path(alloc, text)
}

// The text of the path of a folder with this hash part and name.
fn join_text(alloc: Global, dir: &[u8], hash: &[u8], name: &[u8]) -> Result<Vec<u8>, AllocError>
    requires { length dir.now + length hash.now + length name.now < 2 ^ 63 }
    ensures value { IfOk result (λ text. text.items ≡ path_text dir.now hash.now name.now) }
    ensures room { IfOk result (λ text. vec_capacity text ≡ length text.items) }
{
    let mut text = Vec::with_capacity(alloc, dir.len() + 1 + hash.len() + 1 + name.len())?;
    add_reserved(dir, &mut text);
    text.push_reserved(b'/');
    add_reserved(hash, &mut text);
    text.push_reserved(b'-');
    add_reserved(name, &mut text);
    Ok(text)
}

// Adds bytes for which there is room. `extend_from_slice` does not say that the room stays as it
// was.
fn add_reserved(bytes: &[u8], text: &mut Vec<u8>)
    requires { vec_len text.old + length bytes.now ≤ vec_capacity text.old }
    ensures items { text.new.items ≡ text.old.items ++ bytes.now }
    ensures len { vec_len text.new ≡ vec_len text.old + length bytes.now }
    ensures room { vec_capacity text.new ≡ vec_capacity text.old }
{
    for byte in bytes {
        text.push_reserved(*byte);
    }
}

// Where the base name begins, after the last slash.
fn base_offset(text: &[u8]) -> usize
    ensures within { result ≤ length text.now }
    ensures offset { drop result text.now ≡ base_of text.now }
{
    match memrchr(b'/', text) {
        Some(slash) => slash + 1,
        None => 0,
    }
}

// Err with what is wrong first with a text as a path of the folder.
fn check_path(dir: &[u8], text: &[u8]) -> Result<(), NameFault>
    ensures { MatchResult result
        (λ _. path_fault dir.now text.now ≡ None)
        (λ e. path_fault dir.now text.now ≡ Some e) }
{
    if !is_under(dir, text) {
        return Err(NameFault::NotInStore);
    }
    check_base(&text[dir.len() + 1..])
}

// Whether a text begins with a folder and a slash.
#[tactic(auto, using(crate::proofs::PathFaults::starts_with_slash))]
fn is_under(dir: &[u8], text: &[u8]) -> bool
    ensures value { result ≡ starts_with nat_eq text.now (dir.now ++ 47 ∷ []) }
    ensures long { IsTrue result → length dir.now + 1 ≤ length text.now }
{
    text.starts_with(dir) && text[dir.len()..].starts_with(b"/")
}

// Err with what is wrong with a path's base name, the hash part before the name.
#[tactic(auto, unfolding(crate::specs::StorePaths::base_fault))]
fn check_base(base: &[u8]) -> Result<(), NameFault>
    ensures { MatchResult result
        (λ _. base_fault base.now ≡ None)
        (λ e. base_fault base.now ≡ Some e) }
{
    if !begins_with_hash_part(base) {
        return Err(NameFault::BadHashPart);
    }
    if !is_name(&base[HASH_PART_LEN + 1..]) {
        return Err(NameFault::BadName);
    }
    Ok(())
}

// Whether a base name begins with a hash part and a dash.
#[tactic(auto, using(crate::proofs::PathFaults::short_is_no_hash))]
fn begins_with_hash_part(base: &[u8]) -> bool
    ensures value { result ≡ (is_hash_part (take 32 base.now)
        && starts_with nat_eq (drop 32 base.now) (codes "-")) }
    ensures long { IsTrue result → 33 ≤ length base.now }
{
    base.len() > HASH_PART_LEN
        && is_hash_part(&base[..HASH_PART_LEN])
        && base[HASH_PART_LEN..].starts_with(b"-")
}

// Whether some bytes are a hash part.
#[tactic(auto, unfolding(crate::specs::StorePaths::is_hash_part))]
fn is_hash_part(hash: &[u8]) -> bool
    ensures { result ≡ is_hash_part hash.now }
{
    hash.len() == HASH_PART_LEN && are_digits(hash)
}

// Whether each byte is a base-32 digit.
fn are_digits(bytes: &[u8]) -> bool
    ensures { result ≡ list_all is_digit bytes.now }
{
    bytes.iter().all(|byte| is_digit(*byte))
}
