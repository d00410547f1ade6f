//! The placeholders of a job's outputs, each of which stands in a derivation for an output's path.
ghost use Rattle.std.specs.Prelude.{◌≡◌, ◌⊎◌, All, IfErr, IfOk, MatchOption, false, string_bytes};
ghost use Rattle.nix_names.specs.Base32.{base32};
ghost use Rattle.nix_names.specs.Bytes.{Bytes};
ghost use Rattle.process_build.specs.Setups.{IsFilled, IsProcessText, begins, placeholder_of, raw_bytes};
ghost use Rattle.process_build.specs.Setups.{text_bytes};
ghost use Rattle.process_build.specs.private.Placeholders.{AreMade, IsFoundIn};
ghost use Rattle.build_outcome.specs.declared.reason.Reason.TheVariants.{NoStart, OutOfMemory};

use crate::process::texts::{RawText, Text};
use build_outcome::{JobOutput, Reason};
use nix_names::{NameFault, to_base32};
use sha2::{Digest, Sha256};
use std::alloc::{AllocError, Global};

/// The placeholder of an output, and the path that takes its place.
#[derive(Drop)]
pub struct Placeholder<'a> {
    /// The placeholder: a slash and 52 base-32 characters.
    pub text: Vec<u8>,
    /// The path of the output.
    pub path: &'a [u8],
}

/// The placeholders of some outputs, in their order.
#[derive(Drop)]
pub struct Placeholders<'a> {
    outputs: &'a [JobOutput],
    all: Vec<Placeholder<'a>>,
}

impl<'a> Placeholders<'a> {
    /// The placeholders of these outputs. `OutOfMemory` is the only error. Costs one SHA-256 for
    /// each output.
    pub fn of(alloc: Global, outputs: &'a [JobOutput]) -> Result<Placeholders<'a>, Reason>
        ensures outputs { IfOk result (λ made. made.outputs.now ≡ outputs.now) }
        ensures made { IfOk result AreMade }
        ensures refused { IfErr result (λ reason. reason ≡ OutOfMemory) }
    {
        let mut all = Vec::new(alloc);
        for output in outputs {
            all.push(Placeholder {
                text: placeholder_text(alloc, &output.name)?,
                path: output.path.text(),
            })?;
        }
        Ok(Placeholders { outputs, all })
    }

    /// A text in which the outputs' paths stand in the places of their placeholders. Costs one pass
    /// where it is lent and has none, and else a second one with a copy.
    pub fn fill<'t>(&self, alloc: Global, text: &RawText<'t>) -> Result<RawText<'t>, AllocError>
        requires { AreMade self.now }
        ensures { IfOk result (λ filled.
            IsFilled self.now.outputs.now (raw_bytes text.now) (raw_bytes filled)) }
    {
        match text {
            RawText::Lent(lent) if !self.are_in(lent) => Ok(RawText::Lent(lent)),
            _ => Ok(RawText::Made(self.replace(alloc, text.as_slice())?)),
        }
    }

    /// A text that is filled so, and can be given to a process. Else `NoStart`.
    pub fn text<'t>(&self, alloc: Global, text: &RawText<'t>) -> Result<Text<'t>, Reason>
        requires { AreMade self.now }
        ensures text { IfOk result (λ filled.
            IsFilled self.now.outputs.now (raw_bytes text.now) (text_bytes filled)
            × IsProcessText (text_bytes filled)) }
        ensures refused { IfErr result (λ reason. (reason ≡ OutOfMemory) ⊎ ((reason ≡ NoStart)
            × (filled : Bytes) × IsFilled self.now.outputs.now (raw_bytes text.now) filled
            × ¬ (IsProcessText filled))) }
    {
        Text::of(self.fill(alloc, text)?)
    }

    // Whether a placeholder stands in a text. Where none does, the text stays as it is.
    fn are_in(&self, text: &[u8]) -> bool
        requires { AreMade self.now }
        ensures { result ≡ false → IsFilled self.now.outputs.now text.now text.now }
    {
        for at in 0..text.len() {
            match self.at(&text[at..]) {
                Some(_) => return true,
                None => {}
            }
        }
        false
    }

    // The text with the paths in the places of the placeholders.
    fn replace(&self, alloc: Global, text: &[u8]) -> Result<Vec<u8>, AllocError>
        requires { AreMade self.now }
        ensures { IfOk result (λ filled.
            IsFilled self.now.outputs.now text.now filled.items) }
    {
        let mut filled = Vec::new(alloc);
        let mut at = 0;
        while at < text.len() {
            match self.at(&text[at..]) {
                Some(found) => {
                    let holder = found.text.as_slice();
                    filled.extend_from_slice(found.path)?;
                    at += holder.len();
                }
                None => {
                    filled.push(text[at])?;
                    at += 1;
                }
            }
        }
        Ok(filled)
    }

    // The placeholder that begins a text, if one does. Only a slash begins any.
    fn at(&self, text: &[u8]) -> Option<&Placeholder<'a>>
        requires { AreMade self.now }
        ensures { MatchOption result
            (All (λ output. begins text.now output ≡ false) self.now.outputs.now)
            (λ found. IsFoundIn self.now.outputs.now text.now found.now) }
    {
        if text.first() != Some(&b'/') {
            return None;
        }
        for placeholder in &self.all {
            if text.starts_with(&placeholder.text) {
                return Some(placeholder);
            }
        }
        None
    }
}

// The placeholder of the output with this name.
fn placeholder_text(alloc: Global, name: &[u8]) -> Result<Vec<u8>, Reason>
    ensures text { IfOk result (λ text. text.items ≡ placeholder_of name.now) }
    ensures refused { IfErr result (λ reason. reason ≡ OutOfMemory) }
{
    let mut hasher = Sha256::new();
    hasher.update(b"nix-output:");
    hasher.update(name);
    let digits = digits_of(alloc, &hasher.finalize())?;
    let mut text = Vec::with_capacity(alloc, 1 + digits.len())?;
    text.push(b'/')?;
    text.extend_from_slice(digits.as_bytes())?;
    Ok(text)
}

/// The base-32 text of a digest. `OutOfMemory` is the only error.
pub fn digits_of(alloc: Global, digest: &[u8; 32]) -> Result<String, Reason>
    ensures text { IfOk result (λ text. string_bytes text ≡ base32 digest.now) }
    ensures refused { IfErr result (λ reason. reason ≡ OutOfMemory) }
{
    match to_base32(alloc, digest) {
        Ok(text) => Ok(text),
        Err(NameFault::NoMemory) => Err(Reason::OutOfMemory),
        Err(_) => unreachable!(),
    }
}
