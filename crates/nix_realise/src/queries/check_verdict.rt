//! The verdict of `check` on one word.
ghost use Rattle.std.specs.Prelude.{◌≡◌, ◌++◌, IfOk, IfErr, OnOk};
ghost use Rattle.sha2.specs.Sha256.{sha256};
ghost use Rattle.nix_realise.specs.CheckLines.{bad_line, is_good, line_of, verdict_words};
ghost use Rattle.nix_realise.specs.private.CheckGroups.{IsFileVerdict};

use crate::words::fault_words::{write_drv_fault, write_name_fault};
use nix_drv::{DrvFault, check_digested_text};
use nix_names::{NameFault, StoreDir, StorePath};
use std::alloc::{AllocError, Global};

/// A verdict on a word that should be the path of a store derivation.
#[derive(Drop)]
pub enum Verdict {
    /// Its file is a derivation's text, at its own path.
    Good,
    /// It is no path of the store folder.
    NoPath(NameFault),
    /// Its file cannot be read.
    Unreadable,
    /// Its file is no derivation's text, or lies at a path that is not its own.
    Refused(DrvFault),
}

impl Verdict {
    /// Whether nothing is wrong.
    pub fn is_good(&self) -> bool
        ensures { result ≡ is_good self.now }
    {
        matches!(self, Verdict::Good)
    }
}

/// The verdict on the file at a path, by the SHA-256 of its bytes: are they a derivation's text at
/// its own path? `NoMemory` is the only error.
pub fn judge(
    alloc: Global,
    dir: &StoreDir,
    path: &StorePath,
    bytes: &[u8],
    digest: &[u8; 32],
) -> Result<Verdict, DrvFault>
    requires { digest.now ≡ sha256 bytes.now }
    ensures verdict { IfOk result (IsFileVerdict dir.now path.now bytes.now) }
    ensures only { IfErr result (λ e. e ≡ DrvFault.NoMemory) }
{
    match check_digested_text(alloc, dir, path, bytes, digest) {
        Ok(_) => Ok(Verdict::Good),
        Err(DrvFault::NoMemory) => Err(DrvFault::NoMemory),
        Err(fault) => Ok(Verdict::Refused(fault)),
    }
}

/// Adds the line of a word, with a newline.
pub fn write_line(word: &[u8], verdict: &Verdict, out: &mut Vec<u8>) -> Result<(), AllocError>
    ensures { OnOk result (out.new.items ≡ out.old.items ++ line_of word.now verdict.now) }
{
    match verdict {
        Verdict::Good => write_good_line(word, out),
        verdict => write_bad_line(word, verdict, out),
    }
}

// Adds the line of a good word.
fn write_good_line(word: &[u8], out: &mut Vec<u8>) -> Result<(), AllocError>
    ensures { OnOk result (out.new.items ≡ out.old.items ++ line_of word.now Verdict.Good) }
{
    out.extend_from_slice(b"ok ")?;
    out.extend_from_slice(word)?;
    out.extend_from_slice(b"\n")
}

// Adds the line of a bad word.
fn write_bad_line(word: &[u8], verdict: &Verdict, out: &mut Vec<u8>) -> Result<(), AllocError>
    ensures { OnOk result
        (out.new.items ≡ out.old.items ++ bad_line word.now (verdict_words verdict.now)) }
{
    out.extend_from_slice(b"bad ")?;
    out.extend_from_slice(word)?;
    out.extend_from_slice(b": ")?;
    write_verdict_fault(verdict, out)?;
    out.extend_from_slice(b"\n")
}

// Adds the words of a verdict's fault; none where the word is good.
fn write_verdict_fault(verdict: &Verdict, out: &mut Vec<u8>) -> Result<(), AllocError>
    ensures { OnOk result (out.new.items ≡ out.old.items ++ verdict_words verdict.now) }
{
    match verdict {
        Verdict::Good => Ok(()),
        Verdict::NoPath(fault) => write_name_fault(*fault, out),
        Verdict::Unreadable => out.extend_from_slice(b"Unreadable"),
        Verdict::Refused(fault) => write_drv_fault(fault, out),
    }
}
