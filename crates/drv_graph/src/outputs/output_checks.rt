//! The first fault of a derivation's outputs, and its modulo hash.
ghost use Rattle.std.specs.Prelude.{◌≡◌, ◌↔◌, length, map, vec_capacity, All, IsTrue, IfOk, IfErr, OnOk};
ghost use Rattle.sha2.specs.Sha256.{sha256};
ghost use Rattle.nix_names.specs.Names.{is_name};
ghost use Rattle.nix_drv.specs.Parts.{bytes_of, input_of, output_of, path_of};
ghost use Rattle.drv_graph.specs.private.Checking.{IsExpecting, IsNameFault, IsSoundCheck, IsUnknownOutput, IsUseFault};
ghost use Rattle.drv_graph.specs.Expected.{path_name};
ghost use Rattle.drv_graph.specs.Kinds.{HasKind};
ghost use Rattle.drv_graph.specs.Nodes.{IsHashBy, fixed_text, inputs_of};
ghost use Rattle.drv_graph.specs.Outputs.{IsKnownUse, IsOutputsCheck, IsThePath, IsWellNamed, uses};
ghost use Rattle.drv_graph.specs.private.UsedInputs.{drvs_of_uses, hashes_of, paths_of_uses, uses_of};

use crate::fault::OutputFault;
use crate::kinds::Kind;
use crate::outputs::expected_paths::{expected_paths, path_name};
use crate::outputs::kind::kind_of;
use crate::outputs::modulo::text_by_hashes;
use crate::outputs::values::check_values;
use crate::profile::{Profile, Rules};
use nix_drv::{Derivation, Input, Output};
use nix_names::{StorePath, is_name};
use sha2::{Digest, Sha256};
use std::alloc::{AllocError, Global};

// An input of a derivation: the path of its text, itself, and its modulo hash.
#[derive(Drop)]
pub(crate) struct UsedInput<'a> {
    pub(crate) path: &'a StorePath,
    pub(crate) drv: &'a Derivation,
    pub(crate) hash: [u8; 32],
}

// The kind of a derivation's outputs, or the first fault of them. The derivation has this name, and
// `used` has its inputs in its text's order.
pub(crate) fn check_outputs(
    alloc: Global,
    rules: &Rules,
    name: &[u8],
    drv: &Derivation,
    used: &[UsedInput],
) -> Result<Kind, OutputFault>
    requires { paths_of_uses used.now ≡ inputs_of drv.now }
    ensures { IsOutputsCheck IsThePath rules.now.profile rules.now.dir.now name.now drv.now
        (drvs_of_uses used.now) (hashes_of used.now) result }
{
    let (kind, _) = expected_outputs(alloc, rules, name, drv, used, false)?;
    Ok(kind)
}

// The kind and the expected paths of a derivation's outputs, or the first fault of them. In a draft
// a value may be empty where the expected path belongs.
pub(crate) fn expected_outputs(
    alloc: Global,
    rules: &Rules,
    name: &[u8],
    drv: &Derivation,
    used: &[UsedInput],
    in_draft: bool,
) -> Result<(Kind, Vec<StorePath>), OutputFault>
    requires { paths_of_uses used.now ≡ inputs_of drv.now }
    ensures { IsExpecting in_draft rules.now.profile rules.now.dir.now name.now drv.now
        (drvs_of_uses used.now) (hashes_of used.now) result }
{
    let kind = check_sound(alloc, rules.profile, name, drv, used)?;
    let hashes = hashes(alloc, used)?;
    let paths = expected_paths(alloc, rules.dir, name, drv, kind, &hashes)?;
    check_values(alloc, drv, paths.as_slice(), in_draft)?;
    Ok((kind, paths))
}

// The modulo hashes of inputs, with room for these alone.
fn hashes(alloc: Global, used: &[UsedInput]) -> Result<Vec<[u8; 32]>, AllocError>
    ensures value { IfOk result (λ hashes. hashes.items ≡ hashes_of used.now) }
    ensures room { IfOk result (λ hashes. vec_capacity hashes ≡ length used.now) }
{
    let mut hashes = Vec::with_capacity(alloc, used.len())?;
    for input in used {
        let hash = input.hash;
        hashes.push_reserved(hash);
    }
    Ok(hashes)
}

// The kind of a derivation's outputs, or the first fault: of the kind, of the outputs' names, or of
// the outputs that are used of inputs.
fn check_sound(
    alloc: Global,
    profile: Profile,
    name: &[u8],
    drv: &Derivation,
    used: &[UsedInput],
) -> Result<Kind, OutputFault>
    requires { paths_of_uses used.now ≡ inputs_of drv.now }
    ensures { IsSoundCheck profile name.now drv.now (drvs_of_uses used.now) result }
{
    let kind = kind_of(alloc, profile, drv)?;
    check_names(alloc, name, drv.outputs())?;
    check_uses(alloc, drv.inputs(), used)?;
    Ok(kind)
}

// Tests that outputs' names, and the names of their paths, are names of store paths.
fn check_names(alloc: Global, name: &[u8], outputs: &[Output]) -> Result<(), OutputFault>
    ensures ok { OnOk result (All (IsWellNamed name.now) (map output_of outputs.now)) }
    ensures err { IfErr result (IsNameFault name.now (map output_of outputs.now)) }
{
    for output in outputs {
        let named = is_well_named(alloc, name, &output.name)?;
        if !named {
            return Err(OutputFault::BadName);
        }
    }
    Ok(())
}

// Whether an output's name, and the name of its path, are names of store paths.
fn is_well_named(alloc: Global, name: &[u8], output: &[u8]) -> Result<bool, AllocError>
    ensures { IfOk result (λ named. IsTrue named
        ↔ (IsTrue (is_name output.now) × IsTrue (is_name (path_name name.now output.now)))) }
{
    let path = path_name(alloc, name, output)?;
    Ok(is_name(output) && is_name(&path))
}

// Tests that the inputs have all outputs that are used of them.
fn check_uses(alloc: Global, inputs: &[Input], used: &[UsedInput]) -> Result<(), OutputFault>
    requires { paths_of_uses used.now ≡ map path_of inputs.now }
    ensures ok { OnOk result
        (All IsKnownUse (uses (map input_of inputs.now) (drvs_of_uses used.now))) }
    ensures err { IfErr result
        (IsUseFault (uses (map input_of inputs.now) (drvs_of_uses used.now))) }
{
    for (index, input) in inputs.iter().enumerate() {
        let by = &used[index];
        check_used(alloc, by, &input.names)?;
    }
    Ok(())
}

// Tests that an input has the outputs with these names.
fn check_used(alloc: Global, used: &UsedInput, names: &[Vec<u8>]) -> Result<(), OutputFault>
    ensures ok { OnOk result
        (All IsKnownUse (uses_of used.now.path.now used.now.drv.now (map bytes_of names.now))) }
    ensures err { IfErr result
        (IsUseFault (uses_of used.now.path.now used.now.drv.now (map bytes_of names.now))) }
{
    for name in names {
        let name = name.as_slice();
        let Some(_) = used.drv.output_index(name) else {
            return Err(unknown_output(alloc, used.path, name)?);
        };
    }
    Ok(())
}

// The fault that an input has no output with this name.
fn unknown_output(alloc: Global, path: &StorePath, name: &[u8]) -> Result<OutputFault, AllocError>
    ensures { IfOk result (IsUnknownOutput path.now name.now) }
{
    let name = Vec::from_slice(alloc, name)?;
    Ok(OutputFault::UnknownOutput(path.copy(alloc)?, name))
}

// The modulo hash of a derivation of this kind.
pub(crate) fn modulo_hash(
    alloc: Global,
    drv: &Derivation,
    kind: Kind,
    used: &[UsedInput],
) -> Result<[u8; 32], AllocError>
    requires kind { HasKind drv.now kind }
    requires paths { paths_of_uses used.now ≡ inputs_of drv.now }
    ensures { IfOk result (IsHashBy kind drv.now (hashes_of used.now)) }
{
    match kind {
        Kind::Addressed => {
            let hashes = hashes(alloc, used)?;
            let text = text_by_hashes(alloc, drv, &hashes, false)?;
            Ok(Sha256::digest(&text))
        }
        Kind::Fixed(..) => {
            let [output] = drv.outputs() else {
                unreachable!()
            };
            Ok(fixed_digest(output))
        }
    }
}

// The SHA-256 of a fixed output's own text, `fixed:out:<algorithm>:<hash>:<path>`.
fn fixed_digest(output: &Output) -> [u8; 32]
    ensures { result ≡ sha256 (fixed_text (output_of output.now)) }
{
    let mut hasher = Sha256::new();
    hasher.update(b"fixed:out:");
    hasher.update(&output.algo);
    hasher.update(b":");
    hasher.update(&output.hash);
    hasher.update(b":");
    hasher.update(&output.path);
    hasher.finalize()
}
