//! Whether a derivation stands at its own path.
ghost use Rattle.std.specs.Prelude.{◌≡◌, ◌≢◌, ◌++◌, [], ◌∷◌, map, All, Err, IfOk, IfErr, OnOk};
ghost use Rattle.sha2.specs.Sha256.{sha256};
ghost use Rattle.nix_names.specs.StorePaths.{IsPathOf};
ghost use Rattle.nix_drv.specs.Checked.{IsCheck, IsReadAt};
ghost use Rattle.nix_drv.specs.Order.{key as key_of};
ghost use Rattle.nix_drv.specs.OwnPath.{referenced_paths};
ghost use Rattle.nix_drv.specs.References.{IsReferencesOf, IsStrayFault};

use crate::derivation::Derivation;
use crate::element::Element;
use crate::fault::DrvFault;
use crate::reading::read;
use crate::text_paths::{digested_text_path, named_text_path};
use nix_names::{NameFault, StoreDir, StorePath, is_drv_name, parse_path};
use std::alloc::Global;

// A derivation that was read, and the references of its text.
#[derive(Drop)]
struct ReadText {
    drv: Derivation,
    refs: Vec<StorePath>,
}

/// The derivation whose text the bytes at this path are. Tests these in order, and answers the
/// first fault: `NotADrvName` where the path's name does not end in `.drv` after at least one
/// byte; `TooLong`, `Syntax` and `Order` as `read` does; `BadReference` with the first input
/// derivation or source that is no path of the folder; `TextPathMismatch` with the text's own path
/// where that is another path. Costs one reading, one SHA-256 over the bytes and one sort of the
/// references.
pub fn check_text(
    alloc: Global,
    dir: &StoreDir,
    path: &StorePath,
    bytes: &[u8],
) -> Result<Derivation, DrvFault>
    ensures { IsCheck dir.now path.now bytes.now result }
{
    let text = read_text(alloc, dir, path, bytes)?;
    let own = named_text_path(alloc, dir, path.name(), bytes, &text.refs)?;
    at_own_path(text.drv, own, path)
}

/// What `check_text` answers, for bytes whose SHA-256 is known. Costs one reading and one sort of
/// the references.
pub fn check_digested_text(
    alloc: Global,
    dir: &StoreDir,
    path: &StorePath,
    bytes: &[u8],
    digest: &[u8; 32],
) -> Result<Derivation, DrvFault>
    requires { digest.now ≡ sha256 bytes.now }
    ensures { IsCheck dir.now path.now bytes.now result }
{
    let text = read_text(alloc, dir, path, bytes)?;
    let own = digested_text_path(alloc, dir, path.name(), digest, &text.refs)?;
    at_own_path(text.drv, own, path)
}

// Reads the derivation whose text the bytes at this path are, and its references. Answers the
// faults of `check_text` but for `TextPathMismatch`.
fn read_text(
    alloc: Global,
    dir: &StoreDir,
    path: &StorePath,
    bytes: &[u8],
) -> Result<ReadText, DrvFault>
    ensures ok { IfOk result (λ text. IsReadAt path.now bytes.now text.drv
        × All (IsPathOf dir.now) (referenced_paths text.drv)
        × IsReferencesOf (referenced_paths text.drv) text.refs.items) }
    ensures err { IfErr result (λ fault. IsCheck dir.now path.now bytes.now (Err fault)) }
{
    if !is_drv_name(path.name()) {
        return Err(DrvFault::NotADrvName);
    }
    let drv = read(alloc, bytes)?;
    let refs = references(alloc, dir, &drv)?;
    Ok(ReadText { drv, refs })
}

// The derivation, where its own path is the path at which its text was found.
fn at_own_path(drv: Derivation, own: StorePath, path: &StorePath) -> Result<Derivation, DrvFault>
    ensures ok { IfOk result (λ kept. (kept ≡ drv) × (own ≡ path.now)) }
    ensures err { IfErr result
        (λ fault. (fault ≡ DrvFault.TextPathMismatch own) × (own ≢ path.now)) }
{
    if own != *path {
        return Err(DrvFault::TextPathMismatch(own));
    }
    Ok(drv)
}

/// The references of a derivation's text: the paths of its input derivations and its sources, in
/// rising order, each once. Answers `BadReference` with the first that is no path of the folder.
/// Costs one copy of the paths and one sort.
pub fn references(
    alloc: Global,
    dir: &StoreDir,
    drv: &Derivation,
) -> Result<Vec<StorePath>, DrvFault>
    ensures ok { IfOk result
        (λ refs. All (IsPathOf dir.now) (referenced_paths drv.now)
        × IsReferencesOf (referenced_paths drv.now) refs.items) }
    ensures err { IfErr result (IsStrayFault dir.now (referenced_paths drv.now)) }
{
    let mut refs = Vec::new(alloc);
    add_paths(alloc, dir, drv.inputs(), &mut refs)?;
    add_paths(alloc, dir, drv.sources(), &mut refs)?;
    refs.sort_unstable();
    refs.dedup();
    Ok(refs)
}

// Adds the paths that are the keys of these elements.
fn add_paths<T: Element>(
    alloc: Global,
    dir: &StoreDir,
    items: &[T],
    refs: &mut Vec<StorePath>,
) -> Result<(), DrvFault>
    ensures added { OnOk result
        (refs.new.items ≡ refs.old.items ++ map (λ item. key_of T.form (T.value item)) items.now) }
    ensures good { OnOk result
        (All (IsPathOf dir.now) (map (λ item. key_of T.form (T.value item)) items.now)) }
    ensures err { IfErr result
        (IsStrayFault dir.now (map (λ item. key_of T.form (T.value item)) items.now)) }
{
    for item in items {
        refs.push(parse_reference(alloc, dir, item.key())?)?;
    }
    Ok(())
}

// The text as a path of the folder.
fn parse_reference(alloc: Global, dir: &StoreDir, text: &[u8]) -> Result<StorePath, DrvFault>
    ensures ok { IfOk result (λ path. (path ≡ text.now) × IsPathOf dir.now text.now) }
    ensures err { IfErr result (IsStrayFault dir.now (text.now ∷ [])) }
{
    match parse_path(alloc, dir, text) {
        Ok(path) => Ok(path),
        Err(fault) => match fault {
            NameFault::NoMemory => Err(DrvFault::NoMemory),
            _ => Err(DrvFault::BadReference(Vec::from_slice(alloc, text)?)),
        },
    }
}
