//! Paths put into a draft where it has none.
ghost use Rattle.std.specs.Prelude.{◌≡◌, IfOk, OnOk, length, map};
ghost use Rattle.std.specs.List.{AllZip};
ghost use Rattle.nix_drv.specs.Parts.{entry_of, output_of};
ghost use Rattle.drv_graph.specs.Modulo.{names_of};
ghost use Rattle.drv_graph.specs.private.Insertion.{IsInserted, IsInsertedEntry, inserted, inserted_outputs};

use nix_drv::{Derivation, EnvEntry, Output};
use nix_names::StorePath;
use std::alloc::{AllocError, Global};

// The draft with these paths, one for each output, where it has none.
pub(crate) fn insert_paths(
    alloc: Global,
    draft: &Derivation,
    paths: &[StorePath],
) -> Result<Derivation, AllocError>
    requires { length paths.now ≡ length draft.now.outputs }
    ensures { IfOk result (IsInserted paths.now draft.now) }
{
    let mut parts = draft.parts().copy(alloc)?;
    insert_into_outputs(&mut parts.outputs, paths)?;
    insert_into_env(draft, &mut parts.env, paths)?;
    match Derivation::new(parts) {
        Ok(filled) => Ok(filled),
        // Names and keys are the draft's, so they rise.
        Err(_) => unreachable!(),
    }
}

// Puts these paths into the outputs that have none.
fn insert_into_outputs(outputs: &mut [Output], paths: &[StorePath]) -> Result<(), AllocError>
    requires { length paths.now ≡ length outputs.old }
    ensures { OnOk result (map output_of outputs.new
        ≡ inserted_outputs (map output_of outputs.old) paths.now) }
{
    for (index, path) in paths.iter().enumerate() {
        insert_value(&mut outputs[index].path, path)?;
    }
    Ok(())
}

// Puts the path of each output into the entry under its name, where the entry's value is empty.
fn insert_into_env(
    draft: &Derivation,
    env: &mut [EnvEntry],
    paths: &[StorePath],
) -> Result<(), AllocError>
    requires { length paths.now ≡ length draft.now.outputs }
    ensures { OnOk result
        (AllZip (IsInsertedEntry (names_of draft.now.outputs) paths.now) (map entry_of env.old)
        (map entry_of env.new)) }
{
    for entry in env.iter_mut() {
        if let Some(index) = draft.output_index(&entry.key) {
            insert_value(&mut entry.value, &paths[index])?;
        }
    }
    Ok(())
}

// Replaces an empty value by the path.
fn insert_value(value: &mut Vec<u8>, path: &StorePath) -> Result<(), AllocError>
    ensures { OnOk result (value.new.items ≡ inserted value.old.items path.now) }
{
    if value.is_empty() {
        value.extend_from_slice(path.text())?;
    }
    Ok(())
}
