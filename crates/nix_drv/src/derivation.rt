//! A store derivation.

ghost use Rattle.std.specs.Prelude.{◌≡◌, ◌<◌, ◌↔◌, ◌++◌, Contains, IfOk, IfSome, IsTrue, OnOk, length, map, slice_get};
ghost use Rattle.std.specs.Cmp.Lexicographic.{slice_cmp};
ghost use Rattle.std.specs.Ordering.{nat_cmp};
ghost use Rattle.nix_names.specs.Rising.{IsRising};
ghost use Rattle.nix_drv.specs.Grammar.{text};
ghost use Rattle.nix_drv.specs.Order.{InOrder};
ghost use Rattle.nix_drv.specs.Derivation.{IsLooseText, derivation_form, drv_value};
ghost use Rattle.nix_drv.specs.Parts.{bytes_of, output_of, input_of, entry_of, drv_of};
ghost use Rattle.nix_drv.specs.private.Ordering.{IsOrdering};
ghost use Rattle.nix_drv.specs.Outcome.{IsCopying, IsMaking};
ghost use Rattle.nix_drv.specs.Indices.{IsIndexOfKey, env_keys, output_names};

use crate::fault::DrvFault;
use crate::forms::{copy_parts, pass_parts, write_parts};
use std::alloc::{AllocError, Global};
use std::cmp::Ordering;
use std::marker::Model;

/// An output of a derivation.
#[derive(Debug, Drop)]
pub struct Output {
    /// Its name, as `out`.
    pub name: Vec<u8>,
    /// Its store path; empty in a draft.
    pub path: Vec<u8>,
    /// How its content is hashed, as `sha256` or `r:sha256`, where it is fixed; else empty.
    pub algo: Vec<u8>,
    /// The hash of its content, in hexadecimal digits, where it is fixed; else empty.
    pub hash: Vec<u8>,
}

/// A derivation of which another one uses outputs.
#[derive(Debug, Drop)]
pub struct Input {
    /// The store path of the file that holds its text.
    pub path: Vec<u8>,
    /// The names of the outputs that are used.
    pub names: Vec<Vec<u8>>,
}

/// An entry of the builder's environment.
#[derive(Debug, Drop)]
pub struct EnvEntry {
    /// The variable's name.
    pub key: Vec<u8>,
    /// The variable's value.
    pub value: Vec<u8>,
}

/// What a derivation is made of (Nix manual, "Store Derivation"), in any order.
#[derive(Debug, Drop)]
pub struct Parts {
    /// The outputs.
    pub outputs: Vec<Output>,
    /// The input derivations: those of which it uses outputs.
    pub inputs: Vec<Input>,
    /// The store paths of the sources.
    pub sources: Vec<Vec<u8>>,
    /// The kind of machine that builds it, as `x86_64-linux`.
    pub system: Vec<u8>,
    /// The program that builds it.
    pub builder: Vec<u8>,
    /// The builder's arguments.
    pub args: Vec<Vec<u8>>,
    /// The builder's environment.
    pub env: Vec<EnvEntry>,
}

impl Parts {
    /// A copy of the parts. Want of memory is its only fault. Takes time in proportion to the
    /// bytes.
    pub fn copy(&self, alloc: Global) -> Result<Parts, AllocError>
        ensures { IfOk result (λ copy. drv_of copy ≡ drv_of self.now) }
    {
        copy_parts(alloc, self)
    }

    /// The text of the parts, whether or not they are in order, with these input derivations in
    /// place of their own. Want of memory is its only fault. Takes time in proportion to the text.
    pub fn text_with_inputs(&self, alloc: Global, inputs: &[Input]) -> Result<Vec<u8>, AllocError>
        ensures { IfOk result
            (λ bytes. IsLooseText (record (drv_of self.now) { inputs = map input_of inputs.now })
            bytes.items) }
    {
        let mut text = Vec::new(alloc);
        write_parts(self, inputs, &mut text)?;
        Ok(text)
    }
}

/// A derivation. It keeps the order rules: outputs rise strictly by name, input derivations by
/// path, the environment by key, and the sources and the names of each input by their bytes.
/// Contracts see it as its lists of bytes.
#[derive(Debug, Drop)]
pub struct Derivation {
    parts: Parts,
}

impl Model for Derivation {
    ghost use Rattle.nix_drv.specs.Derivation.{Drv};

    ghost Value = { Drv };

    ghost use Rattle.nix_drv.specs.Derivation.{derivation_form, drv_value};
    ghost use Rattle.nix_drv.specs.Order.{InOrder};
    ghost use Rattle.nix_drv.specs.Parts.{drv_of};

    ghost view = { λ d. drv_of d.parts };

    ghost invariant = { λ d. InOrder derivation_form (drv_value (drv_of d.parts)) };
}

impl Derivation {
    // The derivation of the parts, or the offset in their text of the first element that breaks the
    // order of its list.
    pub(crate) fn in_order(parts: Parts) -> Result<Derivation, usize>
        ensures { IsOrdering (drv_of parts) result }
    {
        match pass_parts(&parts) {
            Ok(_) => Ok(Derivation { parts }),
            Err(offset) => Err(offset),
        }
    }

    /// The derivation of the parts. Answers `DrvFault::NotSorted` exactly where they break an
    /// order rule, and drops them then. Takes no memory, and time in proportion to the bytes.
    pub fn new(parts: Parts) -> Result<Derivation, DrvFault>
        ensures { IsMaking (drv_of parts) result }
    {
        match Derivation::in_order(parts) {
            Ok(derivation) => Ok(derivation),
            Err(_) => Err(DrvFault::NotSorted),
        }
    }

    /// A copy of the derivation. Answers `DrvFault::NoMemory` where memory is refused, and no
    /// other fault.
    pub fn copy(&self, alloc: Global) -> Result<Derivation, DrvFault>
        ensures { IsCopying self.now result }
    {
        let parts = copy_parts(alloc, &self.parts)?;
        Ok(Derivation { parts })
    }

    // Adds the derivation's text.
    pub(crate) fn write_to(&self, out: &mut Vec<u8>) -> Result<(), AllocError>
        ensures ok { OnOk result
            (out.new.items ≡ out.old.items ++ text derivation_form (drv_value self.now)) }
        ensures in_order { InOrder derivation_form (drv_value self.now) }
    {
        write_parts(&self.parts, &self.parts.inputs, out)
    }

    /// The parts, in order.
    pub fn parts(&self) -> &Parts
        ensures parts { drv_of result.now ≡ self.now }
        ensures in_order { InOrder derivation_form (drv_value self.now) }
    {
        &self.parts
    }

    /// The parts, in order, from which `new` makes the same derivation.
    pub fn into_parts(self) -> Parts
        ensures parts { drv_of result ≡ self }
        ensures in_order { InOrder derivation_form (drv_value self) }
    {
        let Derivation { parts } = self;
        parts
    }

    /// The outputs, by name.
    pub fn outputs(&self) -> &[Output]
        ensures { map output_of result.now ≡ self.now.outputs }
    {
        &self.parts.outputs
    }

    /// The input derivations, by path.
    pub fn inputs(&self) -> &[Input]
        ensures { map input_of result.now ≡ self.now.inputs }
    {
        &self.parts.inputs
    }

    /// The paths of the sources.
    pub fn sources(&self) -> &[Vec<u8>]
        ensures { map bytes_of result.now ≡ self.now.sources }
    {
        &self.parts.sources
    }

    /// The kind of machine that builds it.
    pub fn system(&self) -> &[u8]
        ensures { result.now ≡ self.now.system }
    {
        &self.parts.system
    }

    /// The program that builds it.
    pub fn builder(&self) -> &[u8]
        ensures { result.now ≡ self.now.builder }
    {
        &self.parts.builder
    }

    /// The builder's arguments, in their order.
    pub fn args(&self) -> &[Vec<u8>]
        ensures { map bytes_of result.now ≡ self.now.args }
    {
        &self.parts.args
    }

    /// The builder's environment, by key.
    pub fn env(&self) -> &[EnvEntry]
        ensures { map entry_of result.now ≡ self.now.env }
    {
        &self.parts.env
    }

    /// The index of the output with this name among the outputs, if there is one. Takes no memory,
    /// and compares some log2(n) names, where n is the number of outputs.
    pub fn output_index(&self, name: &[u8]) -> Option<usize>
        ensures found { IsIndexOfKey (output_names self.now) name.now result }
        ensures rising { IsRising (output_names self.now) }
    {
        let by_name = |output: &Output| -> Ordering
            ensures { result ≡ slice_cmp nat_cmp output.now.name.items name.entry.now }
        { output.name.as_slice().cmp(&name) };
        match self.parts.outputs.binary_search_by(by_name) {
            Ok(index) => Some(index),
            Err(_) => None,
        }
    }

    /// Whether this derivation uses the output with this name of the input derivation with this
    /// number. Takes no memory, and compares some log2(n) names, where n is the number of that
    /// input's names.
    pub fn uses(&self, input: usize, name: &[u8]) -> bool
        requires { input < length self.now.inputs }
        ensures { IfSome (slice_get self.now.inputs input)
            (λ used. IsTrue result ↔ Contains used.names name.now) }
    {
        let by_text = |used: &Vec<u8>| -> Ordering
            ensures { result ≡ slice_cmp nat_cmp used.now.items name.entry.now }
        { used.as_slice().cmp(&name) };
        match self.parts.inputs[input].names.binary_search_by(by_text) {
            Ok(_) => true,
            Err(_) => false,
        }
    }

    /// The index of the entry with this key in the environment, if there is one. Takes no memory,
    /// and compares some log2(n) keys, where n is the number of entries.
    pub fn env_index(&self, key: &[u8]) -> Option<usize>
        ensures found { IsIndexOfKey (env_keys self.now) key.now result }
        ensures rising { IsRising (env_keys self.now) }
    {
        let by_key = |entry: &EnvEntry| -> Ordering
            ensures { result ≡ slice_cmp nat_cmp entry.now.key.items key.entry.now }
        { entry.key.as_slice().cmp(&key) };
        match self.parts.env.binary_search_by(by_key) {
            Ok(index) => Some(index),
            Err(_) => None,
        }
    }
}
