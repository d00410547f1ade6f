//! Writing a derivation's text.

ghost use Rattle.std.specs.Prelude.{◌≡◌, ◌++◌, OnOk, is_some, length, count_by};
ghost use Rattle.nix_drv.specs.Strings.{spelling, string_text, letter};
ghost use Rattle.nix_drv.specs.private.Passing.{offset_after};
ghost use Rattle.nix_drv.specs.Outcome.{IsWriting};

use crate::derivation::Derivation;
use crate::escapes::{letter_of, plain_len};
use crate::fault::DrvFault;
use std::alloc::{AllocError, Global};

// Adds the text that the byte has within a string.
fn write_byte(out: &mut Vec<u8>, byte: u8) -> Result<(), AllocError>
    ensures { OnOk result (out.new.items ≡ out.old.items ++ spelling byte) }
{
    match letter_of(byte) {
        Some(letter) => out.extend_from_slice(&[b'\\', letter]),
        None => out.extend_from_slice(&[byte]),
    }
}

/// Adds the text that a string has in a derivation's text, with its quotes. Takes time in
/// proportion to the bytes. Want of memory is its only fault.
pub fn write_string(out: &mut Vec<u8>, bytes: &[u8]) -> Result<(), AllocError>
    ensures { OnOk result (out.new.items ≡ out.old.items ++ string_text bytes.now) }
{
    out.extend_from_slice(b"\"")?;
    let mut rest = bytes;
    'runs: loop {
        let (run, special) = rest.split_at(plain_len(rest));
        out.extend_from_slice(run)?;
        let [byte, after @ ..] = special else {
            break;
        };
        write_byte(out, *byte)?;
        rest = after;
    }
    out.extend_from_slice(b"\"")
}

// The number of the bytes that have an escape.
fn escapes_in(bytes: &[u8]) -> usize
    ensures { result ≡ count_by (λ b. is_some (letter b)) bytes.now }
{
    bytes
        .iter()
        .filter(|byte| letter_of(**byte).is_some())
        .count()
}

// The offset after the string's text, which begins at this offset. An offset above `usize::MAX`
// counts as `usize::MAX`.
pub(crate) fn pass_str(bytes: &[u8], offset: usize) -> usize
    ensures { result ≡ offset_after offset (length (string_text bytes.now)) }
{
    offset
        .saturating_add(bytes.len())
        .saturating_add(escapes_in(bytes))
        .saturating_add(2)
}

/// The derivation's text. Answers `DrvFault::NoMemory` where memory is refused, and no other
/// fault. Takes time in proportion to the bytes.
pub fn write(alloc: Global, derivation: &Derivation) -> Result<Vec<u8>, DrvFault>
    ensures { IsWriting derivation.now result }
{
    let mut text = Vec::new(alloc);
    derivation.write_to(&mut text)?;
    Ok(text)
}
