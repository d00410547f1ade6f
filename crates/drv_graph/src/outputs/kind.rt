//! The kind of a derivation's outputs, as its text has them.
ghost use Rattle.std.specs.Prelude.{◌≡◌, ◌∷◌, [], IfOk, IfErr, MatchOption, All, codes, map};
ghost use Rattle.std.specs.Bool.{MatchBool};
ghost use Rattle.nix_drv.specs.Derivation.{Output as DrvOutput};
ghost use Rattle.nix_drv.specs.Parts.{output_of};
ghost use Rattle.drv_graph.specs.private.Checking.{IsFixedKind, IsKindFault, IsNotFixed, IsNotTaken, NamesUnknown, SaysSome};
ghost use Rattle.drv_graph.specs.Kinds.{HasKind, IsAddressed, IsFixed, Takes};

use crate::fault::OutputFault;
use crate::kinds::Kind;
use crate::profile::Profile;
use nix_drv::{Derivation, Output};
use nix_names::{Algorithm, Digest, Method};
use std::alloc::{AllocError, Global};

// The kind of a derivation's outputs. `MixedOutputs` where they are of none, and else
// `UnknownMethod` where the only output has a method or a hash that isn't known, or that the
// profile doesn't take.
pub(crate) fn kind_of(
    alloc: Global,
    profile: Profile,
    drv: &Derivation,
) -> Result<Kind, OutputFault>
    ensures ok { IfOk result (λ kind. HasKind drv.now kind × Takes profile kind) }
    ensures err { IfErr result (IsKindFault profile drv.now) }
{
    let outputs = drv.outputs();
    if outputs.is_empty() {
        return Err(OutputFault::MixedOutputs);
    }
    if are_addressed(outputs) {
        return Ok(Kind::Addressed);
    }
    match only_out(outputs) {
        Some(output) => fixed_kind(alloc, profile, output),
        None => Err(OutputFault::MixedOutputs),
    }
}

// Whether all outputs are input-addressed.
fn are_addressed(outputs: &[Output]) -> bool
    ensures { MatchBool result (All IsAddressed (map output_of outputs.now))
        (SaysSome (map output_of outputs.now)) }
{
    for output in outputs {
        if !is_addressed(output) {
            return false;
        }
    }
    true
}

// Whether an output is input-addressed: its algorithm and its hash are empty.
fn is_addressed(output: &Output) -> bool
    ensures { MatchBool result (IsAddressed (output_of output.now))
        (IsAddressed (output_of output.now) → ⊥) }
{
    output.algo.is_empty() && output.hash.is_empty()
}

// The output that is the only one and named `out`, if there is one.
fn only_out(outputs: &[Output]) -> Option<&Output>
    ensures { MatchOption result ((o : DrvOutput) → map output_of outputs.now ≡ o ∷ [] → o.name
        ≡ codes "out" → ⊥) (λ only. (map output_of outputs.now ≡ output_of only.now ∷ [])
        × (only.now.name.items ≡ codes "out")) }
{
    let [output] = outputs else {
        return None;
    };
    if output.name.as_slice() == b"out".as_slice() {
        Some(output)
    } else {
        None
    }
}

// The kind that a fixed output has. `UnknownMethod` where its method or its hash isn't known, or
// the profile doesn't take it.
fn fixed_kind(alloc: Global, profile: Profile, output: &Output) -> Result<Kind, OutputFault>
    ensures { IsFixedKind profile (output_of output.now) result }
{
    match taken_digest(profile, output) {
        Some((method, digest)) => Ok(Kind::Fixed(method, digest)),
        None => Err(unknown_method(alloc, output)?),
    }
}

// The fault that an output's content is fixed by no known method.
fn unknown_method(alloc: Global, output: &Output) -> Result<OutputFault, AllocError>
    ensures { IfOk result (NamesUnknown (output_of output.now)) }
{
    Ok(OutputFault::UnknownMethod(Vec::from_slice(alloc, &output.name)?))
}

// The method and the digest of a fixed output, where both are known and the profile takes them.
fn taken_digest(profile: Profile, output: &Output) -> Option<(Method, Digest)>
    ensures { MatchOption result (IsNotTaken profile (output_of output.now))
        (λ found. IsFixed (output_of output.now) found.0 found.1
        × Takes profile (Kind.Fixed found.0 found.1)) }
{
    let (method, digest) = method_and_digest(output)?;
    if profile.takes(method, &digest) {
        Some((method, digest))
    } else {
        None
    }
}

// The method and the digest of a fixed output, where both are known.
fn method_and_digest(output: &Output) -> Option<(Method, Digest)>
    ensures { MatchOption result (IsNotFixed (output_of output.now))
        (λ found. IsFixed (output_of output.now) found.0 found.1) }
{
    let (method, name) = Method::of_marked(&output.algo);
    let algorithm = Algorithm::of_name(name)?;
    let digest = Digest::of_digits(algorithm, &output.hash)?;
    Some((method, digest))
}
