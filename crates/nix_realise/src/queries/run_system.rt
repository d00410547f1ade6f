//! What a run builds for, by its words.
ghost use Rattle.std.specs.Prelude.{◌≡◌, ◌⊎◌, ◌++◌, ◌∷◌, [], IfOk, codes, map};
ghost use Rattle.nix_drv.specs.Parts.{bytes_of};
ghost use Rattle.nix_realise.specs.RunSystems.{IsSystemOf, IsSystemUnder};
ghost use Rattle.nix_realise.specs.RunSystems.{features_in, is_comma, own_features};
ghost use Rattle.drv_graph.specs.declared.profile.Profile.TheVariants.{Nix};
ghost use Rattle.command_line.specs.declared.options.Builtin.{Builtin};

use command_line::{Builtin, RunRequest};
use drv_graph::Profile;
use run_states::System;
use std::alloc::{AllocError, Global};
use std::fs::OpenOptions;
use std::rt::Files;

// The device by which virtual machines run.
const KVM: &str = "/dev/kvm";

/// What a run builds for, by its words: under `nix` with the features that they name, or with those
/// of each system, and with `kvm` where its device may be opened for reading and writing; and with
/// the builtin builders that have a program. Want of memory is the only error.
pub fn system_of<R: Files + AllocGlobal>(
    rt: &R,
    request: &RunRequest<'_>,
) -> Result<System, AllocError>
    ensures { IfOk result (IsSystemOf request.now) }
{
    match request.profile {
        Profile::Plain => System::named(rt.alloc(), request.system.as_bytes()),
        Profile::Nix => nix_system(rt, request),
    }
}

// What a run under `nix` builds for, by its words.
fn nix_system<R: Files + AllocGlobal>(
    rt: &R,
    request: &RunRequest<'_>,
) -> Result<System, AllocError>
    ensures { IfOk result (IsSystemUnder Nix request.now) }
{
    let name = Vec::from_slice(rt.alloc(), request.system.as_bytes())?;
    let features = match request.features {
        Some(text) => named_features(rt.alloc(), text.as_bytes())?,
        None => own_features(rt)?,
    };
    let builtins = names_of(rt.alloc(), &request.builtins)?;
    Ok(System::new(name, features, builtins))
}

// The features that a text names.
fn named_features(alloc: Global, text: &[u8]) -> Result<Vec<Vec<u8>>, AllocError>
    ensures { IfOk result (λ features. map bytes_of features.items ≡ features_in text.now) }
{
    let mut features = Vec::new(alloc);
    for word in text
        .split(|byte| is_comma(*byte))
        .filter(|word| !word.is_empty())
    {
        features.push(Vec::from_slice(alloc, word)?)?;
    }
    Ok(features)
}

// Whether a byte is a comma.
fn is_comma(byte: u8) -> bool
    ensures { result ≡ is_comma byte }
{
    byte == b','
}

// The features of this system.
fn own_features<R: Files + AllocGlobal>(rt: &R) -> Result<Vec<Vec<u8>>, AllocError>
    ensures { IfOk result (λ features. (map bytes_of features.items ≡ own_features)
        ⊎ (map bytes_of features.items ≡ own_features ++ codes "kvm" ∷ [])) }
{
    let mut features = Vec::new(rt.alloc());
    features.push(Vec::from_slice(rt.alloc(), b"benchmark")?)?;
    features.push(Vec::from_slice(rt.alloc(), b"big-parallel")?)?;
    features.push(Vec::from_slice(rt.alloc(), b"nixos-test")?)?;
    if may_open(rt, KVM) {
        features.push(Vec::from_slice(rt.alloc(), b"kvm")?)?;
    }
    Ok(features)
}

// Whether a file may be opened for reading and writing.
fn may_open<R: Files>(rt: &R, path: &str) -> bool {
    let mut options = OpenOptions::new();
    options.read(true);
    options.write(true);
    options.open(rt, path).is_ok()
}

// The names of some builtin builders.
fn names_of(alloc: Global, builtins: &[Builtin<'_>]) -> Result<Vec<Vec<u8>>, AllocError>
    ensures { IfOk result (λ names.
        map bytes_of names.items ≡ map (λ (b : Builtin). b.name.now) builtins.now) }
{
    let mut names = Vec::new(alloc);
    for builtin in builtins {
        names.push(Vec::from_slice(alloc, builtin.name.as_bytes())?)?;
    }
    Ok(names)
}
