//! The paths that a derivation's outputs must have.
ghost use Rattle.std.specs.Prelude.{◌≡◌, ◌++◌, All, IsTrue, length, map, codes, vec_capacity, IfOk};
ghost use Rattle.sha2.specs.Sha256.{sha256};
ghost use Rattle.nix_names.specs.Names.{is_name};
ghost use Rattle.nix_names.specs.StorePaths.{store_path};
ghost use Rattle.nix_drv.specs.Parts.{output_of};
ghost use Rattle.drv_graph.specs.private.Checking.{AreExpected};
ghost use Rattle.drv_graph.specs.Expected.{fixed_inner_text, fixed_path, path_name};
ghost use Rattle.drv_graph.specs.Kinds.{HasKind};
ghost use Rattle.drv_graph.specs.private.ExpectedPaths.{IsMaskedDigest, output_path};
ghost use Rattle.drv_graph.specs.Outputs.{IsWellNamed};

use crate::kinds::Kind;
use crate::outputs::modulo::text_by_hashes;
use nix_drv::{Derivation, Output};
use nix_names::{Digest, Method, MethodDigest, StoreDir, StorePath, make_named_path};
use sha2::{Digest as _, Sha256};
use std::alloc::{AllocError, Global};

// The expected paths of the outputs of a derivation with this name and kind, by the hashes of its
// inputs.
pub(crate) fn expected_paths(
    alloc: Global,
    dir: &StoreDir,
    name: &[u8],
    drv: &Derivation,
    kind: Kind,
    hashes: &[[u8; 32]],
) -> Result<Vec<StorePath>, AllocError>
    requires kind { HasKind drv.now kind }
    requires hashes { length hashes.now ≡ length drv.now.inputs }
    requires named { All (IsWellNamed name.now) drv.now.outputs }
    ensures { IfOk result
        (λ paths. AreExpected dir.now name.now kind drv.now hashes.now paths.items) }
{
    match kind {
        Kind::Addressed => {
            let inner = masked_digest(alloc, drv, hashes)?;
            output_paths(alloc, dir, name, drv.outputs(), &inner)
        }
        Kind::Fixed(method, digest) => {
            let path = fixed_path(alloc, dir, name, method, &digest)?;
            Ok(vec![in alloc; path]?)
        }
    }
}

// The SHA-256 of a derivation's masked modulo text.
fn masked_digest(
    alloc: Global,
    drv: &Derivation,
    hashes: &[[u8; 32]],
) -> Result<[u8; 32], AllocError>
    requires { length hashes.now ≡ length drv.now.inputs }
    ensures { IfOk result (IsMaskedDigest drv.now hashes.now) }
{
    let text = text_by_hashes(alloc, drv, hashes, true)?;
    Ok(Sha256::digest(&text))
}

// The paths of input-addressed outputs with this inner digest, with room for these alone.
fn output_paths(
    alloc: Global,
    dir: &StoreDir,
    name: &[u8],
    outputs: &[Output],
    inner: &[u8; 32],
) -> Result<Vec<StorePath>, AllocError>
    requires { All (IsWellNamed name.now) (map output_of outputs.now) }
    ensures value { IfOk result (λ paths. paths.items
        ≡ map (output_path dir.now name.now inner.now) (map output_of outputs.now)) }
    ensures room { IfOk result (λ paths. vec_capacity paths ≡ length outputs.now) }
{
    let mut paths = Vec::with_capacity(alloc, outputs.len())?;
    for output in outputs {
        paths.push_reserved(addressed_path(alloc, dir, name, &output.name, inner)?);
    }
    Ok(paths)
}

// The path of the input-addressed output with this name and inner digest.
fn addressed_path(
    alloc: Global,
    dir: &StoreDir,
    name: &[u8],
    output: &[u8],
    inner: &[u8; 32],
) -> Result<StorePath, AllocError>
    requires { IsTrue (is_name (path_name name.now output.now)) }
    ensures { IfOk result
        (λ path. path ≡ store_path (codes "output:" ++ output.now) inner.now dir.now
        (path_name name.now output.now)) }
{
    let mut kind = Vec::from_slice(alloc, b"output:")?;
    kind.extend_from_slice(output)?;
    let name = path_name(alloc, name, output)?;
    make_named_path(alloc, &kind, inner, dir, &name)
}

// The path of a fixed output with this method and digest.
fn fixed_path(
    alloc: Global,
    dir: &StoreDir,
    name: &[u8],
    method: Method,
    digest: &Digest,
) -> Result<StorePath, AllocError>
    requires { IsTrue (is_name name.now) }
    ensures { IfOk result (λ path. path ≡ fixed_path dir.now name.now method digest.now) }
{
    match method {
        Method::Flat => path_by_text(alloc, dir, name, method, digest),
        Method::Recursive => match digest {
            Digest::Sha256(inner) => make_named_path(alloc, b"source", inner, dir, name),
            _ => path_by_text(alloc, dir, name, method, digest),
        },
    }
}

// The path of a fixed output that isn't the path of a source.
fn path_by_text(
    alloc: Global,
    dir: &StoreDir,
    name: &[u8],
    method: Method,
    digest: &Digest,
) -> Result<StorePath, AllocError>
    requires { IsTrue (is_name name.now) }
    ensures { IfOk result (λ path. path
        ≡ store_path (codes "output:out") (sha256 (fixed_inner_text method digest.now)) dir.now
        name.now) }
{
    let inner = fixed_inner_digest(alloc, method, digest)?;
    make_named_path(alloc, b"output:out", &inner, dir, name)
}

// The inner digest of a fixed output's path, where that isn't the path of a source.
fn fixed_inner_digest(
    alloc: Global,
    method: Method,
    digest: &Digest,
) -> Result<[u8; 32], AllocError>
    ensures { IfOk result (λ inner. inner ≡ sha256 (fixed_inner_text method digest.now)) }
{
    let found = MethodDigest {
        method,
        digest: *digest,
    };
    let mut text = Vec::from_slice(alloc, b"fixed:out:")?;
    found.push_text(&mut text)?;
    text.extend_from_slice(b":")?;
    Ok(Sha256::digest(&text))
}

// The name of the path of an output of a derivation with this name.
pub(crate) fn path_name(alloc: Global, name: &[u8], output: &[u8]) -> Result<Vec<u8>, AllocError>
    ensures { IfOk result (λ text. text.items ≡ path_name name.now output.now) }
{
    let mut text = Vec::from_slice(alloc, name)?;
    if output != b"out".as_slice() {
        text.extend_from_slice(b"-")?;
        text.extend_from_slice(output)?;
    }
    Ok(text)
}
