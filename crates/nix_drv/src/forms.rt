//! How the parts of a derivation are read, written, copied and tested for their order.

ghost use Rattle.std.specs.Prelude.{◌≡◌, ◌++◌, ◌∷◌, IfOk, OnOk, map};
ghost use Rattle.std.proofs.Common.{rules};
ghost use Rattle.nix_drv.specs.Grammar.{Str, Then, text};
ghost use Rattle.nix_drv.specs.Derivation.{drv_value, output_form, output_value, input_form, input_value, entry_form, entry_value, build_form, derivation_form, comma};
ghost use Rattle.nix_drv.specs.private.Reading.{read as read_of};
ghost use Rattle.nix_drv.specs.private.Passing.{pass as pass_of};
ghost use Rattle.nix_drv.specs.private.AfterBytes.{string_after, strings_after, list_after};
ghost use Rattle.nix_drv.specs.private.Listings.{list_text};
ghost use Rattle.nix_drv.specs.private.ParseFaults.{Gives};
ghost use Rattle.nix_drv.specs.Strings.{string_text};
ghost use Rattle.nix_drv.specs.Parts.{drv_of, bytes_of, output_of, input_of, entry_of, build_of, parts_build, parts_value};

use crate::derivation::{EnvEntry, Input, Output, Parts};
use crate::element::{Element, KeyOrder, copy_list, pass_list, read_list, write_list};
use crate::fault::ParseFault;
use crate::reading::{fixed_of, str_of};
use crate::writing::{pass_str, write_string};
use std::alloc::{AllocError, Global};

// The string after the wanted bytes, and the bytes after it.
#[tactic(auto, unfolding(crate::specs::private::AfterBytes::string_after))]
fn read_str<'a>(
    alloc: Global,
    wanted: &[u8],
    bytes: &'a [u8],
) -> Result<(Vec<u8>, &'a [u8]), ParseFault>
    ensures { Gives (λ x. (x.0.items, x.1.now)) result (string_after wanted.now bytes.now) }
{
    let rest = fixed_of(bytes, wanted)?;
    str_of(alloc, rest)
}

// Two strings, with a comma between them, after the wanted bytes, and the bytes after them.
#[tactic(auto, unfolding(crate::specs::private::AfterBytes::strings_after))]
fn read_strs<'a>(
    alloc: Global,
    wanted: &[u8],
    bytes: &'a [u8],
) -> Result<((Vec<u8>, Vec<u8>), &'a [u8]), ParseFault>
    ensures { Gives
        (λ x. ((x.0.0.items, x.0.1.items), x.1.now)) result (strings_after wanted.now bytes.now) }
{
    let (first, rest) = read_str(alloc, wanted, bytes)?;
    let (second, rest) = read_str(alloc, b",", rest)?;
    Ok(((first, second), rest))
}

// The list after the wanted bytes, and the bytes after it.
#[tactic(auto, unfolding(crate::specs::private::AfterBytes::list_after))]
fn read_items<'a, T: Element + Drop>(
    alloc: Global,
    wanted: &[u8],
    bytes: &'a [u8],
) -> Result<(Vec<T>, &'a [u8]), ParseFault>
    ensures { Gives
        (λ x. (map T.value x.0.items, x.1.now)) result
        (list_after wanted.now (read_of T.form) bytes.now) }
{
    let rest = fixed_of(bytes, wanted)?;
    read_list(alloc, rest)
}

// Adds the mark and the string's text.
fn write_str_after(mark: &[u8], bytes: &[u8], out: &mut Vec<u8>) -> Result<(), AllocError>
    ensures { OnOk result
        (out.new.items ≡ out.old.items ++ (mark.now ++ string_text bytes.now)) }
{
    out.extend_from_slice(mark)?;
    write_string(out, bytes)
}

// Adds the mark and the texts of both strings, with a comma between them.
fn write_strs_after(
    mark: &[u8],
    first: &[u8],
    second: &[u8],
    out: &mut Vec<u8>,
) -> Result<(), AllocError>
    ensures { OnOk result
        (out.new.items
        ≡ out.old.items ++ (mark.now ++ string_text first.now ++ 44 ∷ string_text second.now)) }
{
    write_str_after(mark, first, out)?;
    write_str_after(b",", second, out)
}

// Adds the mark and the list's text.
fn write_list_after<T: Element>(
    mark: &[u8],
    items: &[T],
    out: &mut Vec<u8>,
) -> Result<(), AllocError>
    ensures { OnOk result
        (out.new.items
        ≡ out.old.items ++ (mark.now ++ list_text (text T.form) (map T.value items.now))) }
{
    out.extend_from_slice(mark)?;
    write_list(items, out)
}

impl Element for Vec<u8> {
    ghost form = { Str };

    ghost value = { bytes_of };

    fn key(&self) -> &[u8] {
        self
    }

    fn read(alloc: Global, bytes: &[u8]) -> Result<(Self, &[u8]), ParseFault> {
        str_of(alloc, bytes)
    }

    #[tactic(auto, unfolding(crate::specs::private::Passing::pass))]
    fn pass(&self, offset: usize) -> Result<usize, usize> {
        Ok(pass_str(self, offset))
    }

    #[tactic(auto, unfolding(crate::specs::Grammar::text))]
    fn write(&self, out: &mut Vec<u8>) -> Result<(), AllocError> {
        write_string(out, self)
    }

    fn copy(&self, alloc: Global) -> Result<Self, AllocError> {
        Vec::from_slice(alloc, self)
    }

    ghost clear = { Prim.search rules };
}

impl Element for EnvEntry {
    ghost form = { entry_form };

    ghost value = { λ e. entry_value (entry_of e) };

    fn key(&self) -> &[u8] {
        &self.key
    }

    fn read(alloc: Global, bytes: &[u8]) -> Result<(Self, &[u8]), ParseFault> {
        let ((key, value), rest) = read_strs(alloc, b"(", bytes)?;
        let rest = fixed_of(rest, b")")?;
        Ok((EnvEntry { key, value }, rest))
    }

    #[tactic(auto, unfolding(crate::specs::private::Passing::pass))]
    fn pass(&self, offset: usize) -> Result<usize, usize> {
        let at = pass_str(&self.key, offset.saturating_add(1));
        let at = pass_str(&self.value, at.saturating_add(1));
        Ok(at.saturating_add(1))
    }

    #[tactic(auto, unfolding(crate::specs::Grammar::text))]
    fn write(&self, out: &mut Vec<u8>) -> Result<(), AllocError> {
        write_strs_after(b"(", &self.key, &self.value, out)?;
        out.extend_from_slice(b")")
    }

    fn copy(&self, alloc: Global) -> Result<Self, AllocError> {
        Ok(EnvEntry {
            key: self.key.copy(alloc)?,
            value: self.value.copy(alloc)?,
        })
    }

    ghost clear = { Prim.search rules };
}

impl Element for Input {
    ghost form = { input_form };

    ghost value = { λ i. input_value (input_of i) };

    fn key(&self) -> &[u8] {
        &self.path
    }

    fn read(alloc: Global, bytes: &[u8]) -> Result<(Self, &[u8]), ParseFault> {
        let (path, rest) = read_str(alloc, b"(", bytes)?;
        let (names, rest) = read_items(alloc, b",", rest)?;
        let rest = fixed_of(rest, b")")?;
        Ok((Input { path, names }, rest))
    }

    #[tactic(auto, unfolding(crate::specs::private::Passing::pass))]
    fn pass(&self, offset: usize) -> Result<usize, usize> {
        let at = pass_str(&self.path, offset.saturating_add(1));
        let at = pass_list(KeyOrder::Rising, &self.names, at.saturating_add(1))?;
        Ok(at.saturating_add(1))
    }

    #[tactic(auto, unfolding(crate::specs::Grammar::text))]
    fn write(&self, out: &mut Vec<u8>) -> Result<(), AllocError> {
        write_str_after(b"(", &self.path, out)?;
        write_list_after(b",", &self.names, out)?;
        out.extend_from_slice(b")")
    }

    fn copy(&self, alloc: Global) -> Result<Self, AllocError> {
        Ok(Input {
            path: self.path.copy(alloc)?,
            names: copy_list(alloc, &self.names)?,
        })
    }

    ghost clear = { Prim.search rules };
}

impl Element for Output {
    ghost form = { output_form };

    ghost value = { λ o. output_value (output_of o) };

    fn key(&self) -> &[u8] {
        &self.name
    }

    fn read(alloc: Global, bytes: &[u8]) -> Result<(Self, &[u8]), ParseFault> {
        let ((name, path), rest) = read_strs(alloc, b"(", bytes)?;
        let ((algo, hash), rest) = read_strs(alloc, b",", rest)?;
        let rest = fixed_of(rest, b")")?;
        Ok((
            Output {
                name,
                path,
                algo,
                hash,
            },
            rest,
        ))
    }

    #[tactic(auto, unfolding(crate::specs::private::Passing::pass))]
    fn pass(&self, offset: usize) -> Result<usize, usize> {
        let at = pass_str(&self.name, offset.saturating_add(1));
        let at = pass_str(&self.path, at.saturating_add(1));
        let at = pass_str(&self.algo, at.saturating_add(1));
        let at = pass_str(&self.hash, at.saturating_add(1));
        Ok(at.saturating_add(1))
    }

    #[tactic(auto, unfolding(crate::specs::Grammar::text))]
    fn write(&self, out: &mut Vec<u8>) -> Result<(), AllocError> {
        write_strs_after(b"(", &self.name, &self.path, out)?;
        write_strs_after(b",", &self.algo, &self.hash, out)?;
        out.extend_from_slice(b")")
    }

    fn copy(&self, alloc: Global) -> Result<Self, AllocError> {
        Ok(Output {
            name: self.name.copy(alloc)?,
            path: self.path.copy(alloc)?,
            algo: self.algo.copy(alloc)?,
            hash: self.hash.copy(alloc)?,
        })
    }

    ghost clear = { Prim.search rules };
}

// The system, builder, arguments and environment of a derivation.
#[derive(Drop)]
struct BuildParts {
    system: Vec<u8>,
    builder: Vec<u8>,
    args: Vec<Vec<u8>>,
    env: Vec<EnvEntry>,
}

// The system, builder, arguments and environment after a comma, and the bytes after them.
fn read_build(alloc: Global, bytes: &[u8]) -> Result<(BuildParts, &[u8]), ParseFault>
    ensures { Gives
        (λ x. ((tt, build_of x.0), x.1.now)) result (read_of (Then comma build_form) bytes.now) }
{
    let ((system, builder), rest) = read_strs(alloc, b",", bytes)?;
    let (args, rest) = read_items(alloc, b",", rest)?;
    let (env, rest) = read_items(alloc, b",", rest)?;
    let rest = fixed_of(rest, b")")?;
    let build = BuildParts {
        system,
        builder,
        args,
        env,
    };
    Ok((build, rest))
}

// The parts at the head of the bytes, and the bytes after them.
pub(crate) fn read_parts(alloc: Global, bytes: &[u8]) -> Result<(Parts, &[u8]), ParseFault>
    ensures { Gives (λ x. (parts_value x.0, x.1.now)) result (read_of derivation_form bytes.now) }
{
    let (outputs, rest) = read_items(alloc, b"Derive(", bytes)?;
    let (inputs, rest) = read_items(alloc, b",", rest)?;
    let (sources, rest) = read_items(alloc, b",", rest)?;
    let (build, rest) = read_build(alloc, rest)?;
    let parts = Parts {
        outputs,
        inputs,
        sources,
        system: build.system,
        builder: build.builder,
        args: build.args,
        env: build.env,
    };
    Ok((parts, rest))
}

// The offset after the text of the system, builder, arguments and environment, which begins at this
// offset, or the offset in it of the first element that breaks the order of its list.
#[tactic(auto, unfolding(crate::specs::private::Passing::pass))]
fn pass_build(parts: &Parts, offset: usize) -> Result<usize, usize>
    ensures { result ≡ pass_of build_form offset (parts_build parts.now) }
{
    let at = pass_str(&parts.system, offset);
    let at = pass_str(&parts.builder, at.saturating_add(1));
    let at = pass_list(KeyOrder::Free, &parts.args, at.saturating_add(1))?;
    let at = pass_list(KeyOrder::Rising, &parts.env, at.saturating_add(1))?;
    Ok(at.saturating_add(1))
}

// The offset after the parts' text, or the offset in it of the first element that breaks the order
// of its list.
#[tactic(auto, unfolding(crate::specs::private::Passing::pass))]
pub(crate) fn pass_parts(parts: &Parts) -> Result<usize, usize>
    ensures { result ≡ pass_of derivation_form 0 (parts_value parts.now) }
{
    let at = pass_list(KeyOrder::Rising, &parts.outputs, 7)?;
    let at = pass_list(KeyOrder::Rising, &parts.inputs, at.saturating_add(1))?;
    let at = pass_list(KeyOrder::Rising, &parts.sources, at.saturating_add(1))?;
    pass_build(parts, at.saturating_add(1))
}

// Adds a comma and the text of the system, builder, arguments and environment.
fn write_build(parts: &Parts, out: &mut Vec<u8>) -> Result<(), AllocError>
    ensures { OnOk result
        (out.new.items ≡ out.old.items ++ 44 ∷ text build_form (parts_build parts.now)) }
{
    write_strs_after(b",", &parts.system, &parts.builder, out)?;
    write_list_after(b",", &parts.args, out)?;
    write_list_after(b",", &parts.env, out)?;
    out.extend_from_slice(b")")
}

// Adds the parts' text, with these input derivations in place of their own.
pub(crate) fn write_parts(
    parts: &Parts,
    inputs: &[Input],
    out: &mut Vec<u8>,
) -> Result<(), AllocError>
    ensures { OnOk result
        (out.new.items
        ≡ out.old.items
        ++ text derivation_form
        (drv_value (record (drv_of parts.now) { inputs = map input_of inputs.now }))) }
{
    write_list_after(b"Derive(", &parts.outputs, out)?;
    write_list_after(b",", inputs, out)?;
    write_list_after(b",", &parts.sources, out)?;
    write_build(parts, out)
}

// A copy of the system, builder, arguments and environment of the parts.
fn copy_build(alloc: Global, parts: &Parts) -> Result<BuildParts, AllocError>
    ensures { IfOk result (λ copy. build_of copy ≡ parts_build parts.now) }
{
    Ok(BuildParts {
        system: parts.system.copy(alloc)?,
        builder: parts.builder.copy(alloc)?,
        args: copy_list(alloc, &parts.args)?,
        env: copy_list(alloc, &parts.env)?,
    })
}

// A copy of the parts.
pub(crate) fn copy_parts(alloc: Global, parts: &Parts) -> Result<Parts, AllocError>
    ensures { IfOk result (λ copy. parts_value copy ≡ parts_value parts.now) }
{
    let build = copy_build(alloc, parts)?;
    Ok(Parts {
        outputs: copy_list(alloc, &parts.outputs)?,
        inputs: copy_list(alloc, &parts.inputs)?,
        sources: copy_list(alloc, &parts.sources)?,
        system: build.system,
        builder: build.builder,
        args: build.args,
        env: build.env,
    })
}
