//! Whether the paths in a derivation's text are those that are expected.
ghost use Rattle.std.specs.Prelude.{◌≡◌, ◌↔◌, length, map, IsTrue, IfOk, IfErr, OnOk};
ghost use Rattle.std.specs.Bool.{MatchBool};
ghost use Rattle.nix_drv.specs.Parts.{output_of};
ghost use Rattle.drv_graph.specs.private.Checking.{EntriesFit, FitBefore, FitsExpected, HasMisfit, IsEnvFault, IsEnvMismatch, IsMismatch, IsPathFault, IsValueFault, PathFits};

use crate::fault::OutputFault;
use nix_drv::{Derivation, Output};
use nix_names::StorePath;
use std::alloc::{AllocError, Global};

// Tests that outputs' paths, and the values under their names in the environment, are these paths.
// In a draft they may also be empty. All outputs come first, then all entries.
pub(crate) fn check_values(
    alloc: Global,
    drv: &Derivation,
    paths: &[StorePath],
    in_draft: bool,
) -> Result<(), OutputFault>
    requires { length paths.now ≡ length drv.now.outputs }
    ensures paths { OnOk result
        (FitBefore (PathFits in_draft) drv.now.outputs paths.now (length drv.now.outputs)) }
    ensures env { OnOk result
        (FitBefore (EntriesFit in_draft drv.now.env) drv.now.outputs paths.now
        (length drv.now.outputs)) }
    ensures err { IfErr result (IsValueFault in_draft drv.now paths.now) }
{
    check_paths(alloc, drv.outputs(), paths, in_draft)?;
    check_env(alloc, drv, paths, in_draft)
}

// Tests that each output's path is the one at its index, or empty in a draft.
fn check_paths(
    alloc: Global,
    outputs: &[Output],
    paths: &[StorePath],
    in_draft: bool,
) -> Result<(), OutputFault>
    requires { length paths.now ≡ length outputs.now }
    ensures ok { OnOk result
        (FitBefore (PathFits in_draft) (map output_of outputs.now) paths.now (length outputs.now)) }
    ensures err { IfErr result (IsPathFault in_draft (map output_of outputs.now) paths.now) }
{
    for (index, output) in outputs.iter().enumerate() {
        let path = &paths[index];
        if !fits(&output.path, path, in_draft) {
            return Err(output_mismatch(alloc, output, path)?);
        }
    }
    Ok(())
}

// The fault that an output has another path than this one.
fn output_mismatch(
    alloc: Global,
    output: &Output,
    path: &StorePath,
) -> Result<OutputFault, AllocError>
    ensures { IfOk result (IsMismatch output.now.name.items path.now) }
{
    let name = Vec::from_slice(alloc, &output.name)?;
    Ok(OutputFault::OutputMismatch(name, path.copy(alloc)?))
}

// Tests that the entry under each output's name has the path at the output's index as its value, or
// an empty value in a draft.
fn check_env(
    alloc: Global,
    drv: &Derivation,
    paths: &[StorePath],
    in_draft: bool,
) -> Result<(), OutputFault>
    requires { length paths.now ≡ length drv.now.outputs }
    ensures ok { OnOk result
        (FitBefore (EntriesFit in_draft drv.now.env) drv.now.outputs paths.now
        (length drv.now.outputs)) }
    ensures err { IfErr result (IsEnvFault in_draft drv.now.env drv.now.outputs paths.now) }
{
    for (index, output) in drv.outputs().iter().enumerate() {
        let path = &paths[index];
        if !entry_fits(drv, output, path, in_draft) {
            return Err(env_mismatch(alloc, output)?);
        }
    }
    Ok(())
}

// The fault that the entry under an output's name has another value than its path.
fn env_mismatch(alloc: Global, output: &Output) -> Result<OutputFault, AllocError>
    ensures { IfOk result (IsEnvMismatch output.now.name.items) }
{
    Ok(OutputFault::EnvMismatch(Vec::from_slice(alloc, &output.name)?))
}

// Whether the entry under an output's name has this path as its value, or an empty value in a
// draft; true where there is no such entry.
fn entry_fits(drv: &Derivation, output: &Output, path: &StorePath, in_draft: bool) -> bool
    ensures { MatchBool result (HasMisfit in_draft drv.now.env output.now.name.items path.now → ⊥)
        (HasMisfit in_draft drv.now.env output.now.name.items path.now) }
{
    let name = output.name.as_slice();
    match drv.env_index(name) {
        Some(index) => {
            let env = drv.env();
            let entry = &env[index];
            fits(&entry.value, path, in_draft)
        }
        None => true,
    }
}

// Whether a value is this path, or empty in a draft.
fn fits(value: &[u8], path: &StorePath, in_draft: bool) -> bool
    ensures { MatchBool result (FitsExpected in_draft value.now path.now)
        (FitsExpected in_draft value.now path.now → ⊥) }
{
    (in_draft && value.is_empty()) || value == path.text()
}
