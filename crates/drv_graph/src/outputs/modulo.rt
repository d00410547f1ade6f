//! The texts of which modulo hashes are taken: a derivation's text in which each input's path is
//! replaced by its modulo hash, with or without the paths of the outputs.
ghost use Rattle.std.specs.Prelude.{◌≡◌, ◌++◌, ◌∷◌, [], ◌+◌, ◌<◌, ◌≤◌, length, map, vec_capacity, vec_len, IfOk, IfErr, OnOk};
ghost use Rattle.std.specs.Cmp.Lexicographic.{slice_cmp};
ghost use Rattle.std.specs.List.{AllZip};
ghost use Rattle.std.specs.List.Sorted.{IsSorted};
ghost use Rattle.std.specs.Ordering.{nat_cmp};
ghost use Rattle.hex.specs.Hex.{encode_lower};
ghost use Rattle.nix_drv.specs.Derivation.{IsLooseText};
ghost use Rattle.nix_drv.specs.Parts.{bytes_of, drv_of, entry_of, input_of, output_of, path_of};
ghost use Rattle.drv_graph.specs.Modulo.{IsModuloText, IsUnited, masked, masked_entry, names_of, replaced, with_inputs};
ghost use Rattle.drv_graph.specs.private.Uniting.{IsAdded, IsGathered, IsNameSorted, masked_output};

use crate::fault::GraphFault;
use nix_drv::{Derivation, EnvEntry, Input, Output, Parts};
use std::alloc::{AllocError, Global};

/// The derivation's modulo text, by the hashes of its input derivations in the text's order: the
/// text in which the path of each is replaced by its hash in hex digits. Inputs of one hash become
/// one entry with the names of all. Where it is masked, the paths of the outputs are left out, at
/// the outputs and in the environment. Answers `GraphFault::NoMemory` where memory is refused, and
/// no other fault. Costs one copy of the derivation, and one sort of its inputs and of their names
/// (Nix manual, "Derivation paths: hash modulo").
pub fn modulo_text(
    alloc: Global,
    drv: &Derivation,
    hashes: &[[u8; 32]],
    mask: bool,
) -> Result<Vec<u8>, GraphFault>
    requires { length hashes.now ≡ length drv.now.inputs }
    ensures ok { IfOk result (λ text. IsModuloText drv.now hashes.now mask text.items) }
    ensures err { IfErr result (λ fault. fault ≡ GraphFault.NoMemory) }
{
    Ok(text_by_hashes(alloc, drv, hashes, mask)?)
}

// The modulo text, as `modulo_text` gives it, for callers in the crate.
pub(crate) fn text_by_hashes(
    alloc: Global,
    drv: &Derivation,
    hashes: &[[u8; 32]],
    mask: bool,
) -> Result<Vec<u8>, AllocError>
    requires { length hashes.now ≡ length drv.now.inputs }
    ensures { IfOk result (λ text. IsModuloText drv.now hashes.now mask text.items) }
{
    let replaced = inputs_by_hash(alloc, drv.inputs(), hashes)?;
    let united = unite_inputs(alloc, replaced)?;
    let inputs = united.as_slice();
    if mask {
        masked_text(alloc, drv, inputs)
    } else {
        drv.parts().text_with_inputs(alloc, inputs)
    }
}

// The text of a derivation without the paths of its outputs, and with these inputs.
fn masked_text(alloc: Global, drv: &Derivation, inputs: &[Input]) -> Result<Vec<u8>, AllocError>
    ensures { IfOk result
        (λ text. IsLooseText (with_inputs (masked drv.now) (map input_of inputs.now)) text.items) }
{
    masked_parts(alloc, drv)?.text_with_inputs(alloc, inputs)
}

// Input derivations whose paths are replaced by their hashes, in hex digits, with room for these
// alone.
fn inputs_by_hash(
    alloc: Global,
    inputs: &[Input],
    hashes: &[[u8; 32]],
) -> Result<Vec<Input>, AllocError>
    requires { length hashes.now ≡ length inputs.now }
    ensures value { IfOk result (λ changed. map input_of changed.items
        ≡ replaced (map input_of inputs.now) hashes.now) }
    ensures room { IfOk result (λ changed. vec_capacity changed ≡ length inputs.now) }
{
    let mut changed = Vec::with_capacity(alloc, inputs.len())?;
    for (index, input) in inputs.iter().enumerate() {
        let hash = hashes[index];
        changed.push_reserved(with_hash(alloc, input, &hash)?);
    }
    Ok(changed)
}

// An input derivation whose path is replaced by a hash, in hex digits.
fn with_hash(alloc: Global, input: &Input, hash: &[u8; 32]) -> Result<Input, AllocError>
    ensures path { IfOk result (λ changed. changed.path.items ≡ encode_lower hash.now) }
    ensures names { IfOk result (λ changed. map bytes_of changed.names.items
        ≡ map bytes_of input.now.names.items) }
{
    let path = Vec::from_slice(alloc, &digits_of(hash))?;
    let names = copy_names(alloc, &input.names)?;
    Ok(Input { path, names })
}

// A hash's 64 lower-case hex digits.
fn digits_of(hash: &[u8; 32]) -> [u8; 64]
    ensures { result ≡ encode_lower hash.now }
{
    let mut digits = [0; 64];
    let _ = hex::encode_to_slice(hash, &mut digits);
    digits
}

// A copy of the names, with room for these alone.
fn copy_names(alloc: Global, names: &[Vec<u8>]) -> Result<Vec<Vec<u8>>, AllocError>
    ensures value { IfOk result (λ copy. map bytes_of copy.items ≡ map bytes_of names.now) }
    ensures room { IfOk result (λ copy. vec_capacity copy ≡ length names.now) }
{
    let mut copy = Vec::with_capacity(alloc, names.len())?;
    for name in names {
        copy.push_reserved(Vec::from_slice(alloc, name)?);
    }
    Ok(copy)
}

// Inputs in rising order of their paths, those of one path as one, with their names in rising
// order, each once.
fn unite_inputs(alloc: Global, mut inputs: Vec<Input>) -> Result<Vec<Input>, AllocError>
    ensures { IfOk result
        (λ united. IsUnited (map input_of inputs.items) (map input_of united.items)) }
{
    inputs.sort_unstable_by(|a, b| a.path.cmp(&b.path));
    let mut gathered = gather(alloc, inputs)?;
    sort_names(&mut gathered);
    Ok(gathered)
}

// Inputs that are sorted by path, those of one path as one, with the names of all. There is room
// for as many as there were.
fn gather(alloc: Global, inputs: Vec<Input>) -> Result<Vec<Input>, AllocError>
    requires { IsSorted (slice_cmp nat_cmp) (map path_of inputs.items) }
    ensures value { IfOk result
        (λ gathered. IsGathered (map input_of inputs.items) (map input_of gathered.items)) }
    ensures room { IfOk result (λ gathered. vec_capacity gathered ≡ length inputs.items) }
{
    let mut gathered = Vec::with_capacity(alloc, inputs.len())?;
    for input in inputs {
        add_input(&mut gathered, input)?;
    }
    Ok(gathered)
}

// Adds an input after others, for which there is room; its names go to the last of them where that
// has its path.
fn add_input(gathered: &mut Vec<Input>, mut input: Input) -> Result<(), AllocError>
    requires { vec_len gathered.old < vec_capacity gathered.old }
    ensures value { OnOk result
        (IsAdded (map input_of gathered.old.items) (input_of input)
        (map input_of gathered.new.items)) }
    ensures len { vec_len gathered.new ≤ vec_len gathered.old + 1 }
    ensures room { vec_capacity gathered.new ≡ vec_capacity gathered.old }
{
    let Some(last) = gathered.last_mut() else {
        gathered.push_reserved(input);
        return Ok(());
    };
    if last.path == input.path {
        return last.names.append(&mut input.names);
    }
    gathered.push_reserved(input);
    Ok(())
}

// Sorts the names of each input, and leaves each name once.
fn sort_names(inputs: &mut [Input])
    ensures { AllZip IsNameSorted (map input_of inputs.old) (map input_of inputs.new) }
{
    for input in inputs.iter_mut() {
        input.names.sort_unstable();
        input.names.dedup();
    }
}

// A derivation's parts, in which the paths of its outputs are empty.
fn masked_parts(alloc: Global, drv: &Derivation) -> Result<Parts, AllocError>
    ensures { IfOk result (λ parts. drv_of parts ≡ masked drv.now) }
{
    let mut parts = drv.parts().copy(alloc)?;
    mask_outputs(&mut parts.outputs);
    mask_env(drv, &mut parts.env);
    Ok(parts)
}

// Makes the paths of outputs empty.
fn mask_outputs(outputs: &mut [Output])
    ensures { map output_of outputs.new ≡ map masked_output (map output_of outputs.old) }
{
    for output in outputs.iter_mut() {
        output.path.clear();
    }
}

// Makes the values empty that stand under names of a derivation's outputs.
fn mask_env(drv: &Derivation, env: &mut [EnvEntry])
    ensures { map entry_of env.new ≡ map (masked_entry (names_of drv.now.outputs))
        (map entry_of env.old) }
{
    for entry in env.iter_mut() {
        if drv.output_index(&entry.key).is_some() {
            entry.value.clear();
        }
    }
}
