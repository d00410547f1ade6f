//! The content addresses of paths.
ghost use Rattle.std.specs.Prelude.{◌≡◌, ◌∷◌, ◌++◌, IfOk, None, Some, codes, flat_map, if◌then◌else◌, option_and_then, option_map, string_bytes};
ghost use Rattle.sha2.specs.Sha256.{sha256};
ghost use Rattle.nix_names.specs.Digests.{name_of as algorithm_name};
ghost use Rattle.nix_names.specs.Methods.{mark_of};
ghost use Rattle.nix_names.specs.Names.{same_bytes};
ghost use Rattle.nix_names.specs.StorePaths.{IsPathOf, name_of};
ghost use Rattle.drv_graph.specs.Expected.{fixed_inner_text, fixed_path};
ghost use Rattle.builder_start.specs.Addresses.{content_address, digest_text, fixed_address, folder_of, path_beside, source_address, text_address};

use build_outcome::folder_of;
use nix_names::{
    Algorithm, Digest, Method, MethodDigest, StoreDir, StorePath, make_named_path, to_base32,
};
use sha2::{Digest as _, Sha256};
use std::alloc::{AllocError, Global};
use valid_table::Registration;

// The content address of a path by its record, where it has one. Costs at most three SHA-256 of
// types with the folder and the name, of which two hold the references.
pub(crate) fn content_address(
    alloc: Global,
    row: &Registration,
) -> Result<Option<String>, AllocError>
    ensures { IfOk result
        (λ found. option_map (λ text. string_bytes text) found ≡ content_address row.now) }
{
    let dir = folder_of(alloc, &row.path)?;
    if let Some(text) = text_address(alloc, &dir, row)? {
        return Ok(Some(text));
    }
    if let Some(text) = source_address(alloc, &dir, row)? {
        return Ok(Some(text));
    }
    fixed_address(alloc, &dir, row)
}

// The address of a path as a text.
fn text_address(
    alloc: Global,
    dir: &StoreDir,
    row: &Registration,
) -> Result<Option<String>, AllocError>
    requires { IsPathOf dir.now row.now.path }
    ensures { IfOk result (λ found. option_map (λ text. string_bytes text) found
        ≡ option_and_then (λ d. text_address row.now.info.references row.now.path d.method d.digest)
        row.now.info.digest) }
{
    let Some(digest) = row.info.digest() else {
        return Ok(None);
    };
    match (digest.method, digest.digest) {
        (Method::Flat, Digest::Sha256(hash)) => {
            let kind = kind_with(alloc, b"text", row.info.references())?;
            let same = is_made(alloc, dir, &row.path, &kind, &hash)?;
            address_where(alloc, same, "text:", &Digest::Sha256(hash))
        }
        _ => Ok(None),
    }
}

// The address of a path as a source.
fn source_address(
    alloc: Global,
    dir: &StoreDir,
    row: &Registration,
) -> Result<Option<String>, AllocError>
    requires { IsPathOf dir.now row.now.path }
    ensures { IfOk result (λ found. option_map (λ text. string_bytes text) found
        ≡ option_and_then (source_address row.now.info.references row.now.path) row.now.info.nar) }
{
    let Some(nar) = row.info.nar() else {
        return Ok(None);
    };
    let references = row.info.references();
    if references.contains(&row.path) {
        return Ok(None);
    }
    let hash = nar.hash();
    let kind = kind_with(alloc, b"source", references)?;
    let same = is_made(alloc, dir, &row.path, &kind, &hash)?;
    address_where(alloc, same, "fixed:r:", &Digest::Sha256(hash))
}

// The address of a path as a fixed output.
fn fixed_address(
    alloc: Global,
    dir: &StoreDir,
    row: &Registration,
) -> Result<Option<String>, AllocError>
    requires { IsPathOf dir.now row.now.path }
    ensures { IfOk result (λ found. option_map (λ text. string_bytes text) found
        ≡ option_and_then (fixed_address row.now.info.references row.now.path)
        row.now.info.digest) }
{
    let Some(found) = row.info.digest() else {
        return Ok(None);
    };
    if !row.info.references().is_empty() {
        return Ok(None);
    }
    let same = is_fixed(alloc, dir, &row.path, &found)?;
    address_where(alloc, same, fixed_scheme(found.method), &found.digest)
}

// Whether a path is that of a fixed output with this digest.
fn is_fixed(
    alloc: Global,
    dir: &StoreDir,
    path: &StorePath,
    found: &MethodDigest,
) -> Result<bool, AllocError>
    requires { IsPathOf dir.now path.now }
    ensures { IfOk result (λ same. same ≡ same_bytes
        (fixed_path (folder_of path.now) (name_of path.now) found.now.method found.now.digest)
        path.now) }
{
    match (found.method, found.digest) {
        (Method::Recursive, Digest::Sha256(hash)) => is_made(alloc, dir, path, b"source", &hash),
        _ => {
            let inner = fixed_inner(alloc, found)?;
            is_made(alloc, dir, path, b"output:out", &inner)
        }
    }
}

// The inner digest of the path of a fixed output that isn't that of a source.
fn fixed_inner(alloc: Global, found: &MethodDigest) -> Result<[u8; 32], AllocError>
    ensures { IfOk result
        (λ inner. inner ≡ sha256 (fixed_inner_text found.now.method found.now.digest)) }
{
    let mut text = Vec::from_slice(alloc, b"fixed:out:")?;
    found.push_text(&mut text)?;
    text.extend_from_slice(b":")?;
    Ok(Sha256::digest(&text))
}

// Whether a path in this folder is that of a type and an inner digest.
fn is_made(
    alloc: Global,
    dir: &StoreDir,
    path: &StorePath,
    kind: &[u8],
    inner: &[u8; 32],
) -> Result<bool, AllocError>
    requires { IsPathOf dir.now path.now }
    ensures { IfOk result
        (λ same. same ≡ same_bytes (path_beside path.now kind.now inner.now) path.now) }
{
    let made = make_named_path(alloc, kind, inner, dir, path.name())?;
    Ok(made == *path)
}

// A type with references: each after a colon.
fn kind_with(alloc: Global, kind: &[u8], references: &[StorePath]) -> Result<Vec<u8>, AllocError>
    ensures { IfOk result
        (λ text. text.items ≡ kind.now ++ flat_map (λ path. 58 ∷ path) references.now) }
{
    let mut text = Vec::from_slice(alloc, kind)?;
    'references: for path in references {
        text.extend_from_slice(b":")?;
        text.extend_from_slice(path.text())?;
    }
    Ok(text)
}

// An address with this beginning and digest, where the path is the one that was made.
fn address_where(
    alloc: Global,
    same: bool,
    scheme: &str,
    digest: &Digest,
) -> Result<Option<String>, AllocError>
    ensures { IfOk result (λ found. option_map (λ text. string_bytes text) found
        ≡ (if same then Some (scheme.now ++ digest_text digest.now) else None)) }
{
    if same {
        Ok(Some(address_text(alloc, scheme, digest)?))
    } else {
        Ok(None)
    }
}

// The text of an address.
fn address_text(alloc: Global, scheme: &str, digest: &Digest) -> Result<String, AllocError>
    ensures { IfOk result (λ text. string_bytes text ≡ scheme.now ++ digest_text digest.now) }
{
    let Ok(digits) = to_base32(alloc, digest.bytes()) else {
        return Err(AllocError);
    };
    let mut text = String::from_str(alloc, scheme)?;
    text.push_str(algorithm_name(digest.algorithm()))?;
    text.push_str(":")?;
    text.push_str(digits.as_str())?;
    Ok(text)
}

// What the address of a fixed output with this method begins with.
fn fixed_scheme(method: Method) -> &'static str
    ensures { result.now ≡ codes "fixed:" ++ mark_of method }
{
    match method {
        Method::Flat => "fixed:",
        Method::Recursive => "fixed:r:",
    }
}

// An algorithm's name.
fn algorithm_name(algorithm: Algorithm) -> &'static str
    ensures { result.now ≡ algorithm_name algorithm }
{
    match algorithm {
        Algorithm::Md5 => "md5",
        Algorithm::Sha1 => "sha1",
        Algorithm::Sha256 => "sha256",
        Algorithm::Sha512 => "sha512",
    }
}
