//! Texts that a builder is given: lent by its job, or made for it.
ghost use Rattle.std.specs.Prelude.{◌≡◌, ◌⊎◌, IfErr, IfOk, string_bytes};
ghost use Rattle.process_build.specs.Setups.{IsProcessText, raw_bytes, text_bytes};
ghost use Rattle.build_outcome.specs.declared.reason.Reason.TheVariants.{NoStart};

use build_outcome::Reason;
use std::str;

/// Bytes for a builder.
#[derive(Drop)]
pub enum RawText<'a> {
    /// They stand elsewhere.
    Lent(&'a [u8]),
    /// They were made for the builder.
    Made(Vec<u8>),
}

/// A text for a builder.
#[derive(Drop)]
pub enum Text<'a> {
    /// It stands elsewhere.
    Lent(&'a str),
    /// It was made for the builder.
    Made(String),
}

impl RawText<'_> {
    /// The bytes.
    pub fn as_slice(&self) -> &[u8]
        ensures { result.now ≡ raw_bytes self.now }
    {
        match self {
            RawText::Lent(lent) => lent,
            RawText::Made(made) => made.as_slice(),
        }
    }
}

impl<'a> Text<'a> {
    /// Bytes as a text that a process can be given: UTF-8 without a zero byte. Else `NoStart`.
    pub fn of(bytes: RawText<'a>) -> Result<Text<'a>, Reason>
        ensures text { IfOk result (λ text. text_bytes text ≡ raw_bytes bytes.entry) }
        ensures good { IfOk result (λ _. IsProcessText (raw_bytes bytes.entry)) }
        ensures refused { IfErr result (λ reason.
            (reason ≡ NoStart) × (¬ (IsProcessText (raw_bytes bytes.entry)))) }
    {
        match bytes {
            RawText::Lent(lent) => Ok(Text::Lent(text_of(lent)?)),
            RawText::Made(made) => Ok(Text::Made(own_text_of(made)?)),
        }
    }

    /// The text.
    pub fn as_str(&self) -> &str
        ensures { result.now ≡ text_bytes self.now }
    {
        match self {
            Text::Lent(lent) => lent,
            Text::Made(made) => made.as_str(),
        }
    }
}

/// Bytes as a text that a process can be given. Else `NoStart`.
pub fn text_of(bytes: &[u8]) -> Result<&str, Reason>
    ensures text { IfOk result (λ text. (text.now ≡ bytes.now) × IsProcessText bytes.now) }
    ensures refused { IfErr result (λ reason.
        (reason ≡ NoStart) × (¬ (IsProcessText bytes.now))) }
{
    match str::from_utf8(bytes) {
        Ok(text) if !bytes.contains(&0) => Ok(text),
        _ => Err(Reason::NoStart),
    }
}

// Bytes that were made as a text that a process can be given. Else `NoStart`.
fn own_text_of(bytes: Vec<u8>) -> Result<String, Reason>
    ensures text { IfOk result (λ text.
        (string_bytes text ≡ bytes.items) × IsProcessText bytes.items) }
    ensures refused { IfErr result (λ reason.
        (reason ≡ NoStart) × (¬ (IsProcessText bytes.items))) }
{
    let _ = text_of(&bytes)?;
    match String::from_utf8(bytes) {
        Ok(text) => Ok(text),
        Err(_) => unreachable!(),
    }
}
