//! Reading a derivation from its text.

ghost use Rattle.std.specs.Prelude.{◌≡◌, false};
ghost use Rattle.nix_drv.specs.Grammar.{Str};
ghost use Rattle.nix_drv.specs.private.Reading.{bytes_at, escape_at, byte_at, fixed_at, read};
ghost use Rattle.nix_drv.specs.private.ParseFaults.{Gives};
ghost use Rattle.nix_drv.specs.Outcome.{IsReading};

use crate::derivation::Derivation;
use crate::escapes::{letter_of, plain_len, unescape};
use crate::fault::{DrvFault, ParseFault};
use crate::forms::read_parts;
use std::alloc::Global;

/// The greatest number of bytes that a derivation's text may have.
pub const MAX_LEN: usize = 4_194_304;

// The bytes after the wanted ones, with which the bytes must begin.
pub(crate) fn fixed_of<'a>(bytes: &'a [u8], wanted: &[u8]) -> Result<&'a [u8], ParseFault>
    ensures { Gives (λ rest. (tt, rest.now)) result (fixed_at wanted.now bytes.now) }
{
    let mut rest = bytes;
    'wanted: for byte in wanted {
        let [first, after @ ..] = rest else {
            return Err(ParseFault::Left(0));
        };
        if first != byte {
            return Err(ParseFault::Left(rest.len()));
        }
        rest = after;
    }
    Ok(rest)
}

// The byte whose escape has the letter at the head of the bytes, and the bytes after the letter.
fn escape_of(bytes: &[u8]) -> Result<(Option<u8>, &[u8]), ParseFault>
    ensures { Gives (λ x. (x.0, x.1.now)) result (escape_at bytes.now) }
{
    match bytes {
        [] => Err(ParseFault::Left(0)),
        [letter, rest @ ..] => match unescape(*letter) {
            None => Err(ParseFault::Left(bytes.len())),
            escaped => Ok((escaped, rest)),
        },
    }
}

// The first byte of the rest of a string, or none at its last quote, and the bytes after it.
fn byte_of(bytes: &[u8]) -> Result<(Option<u8>, &[u8]), ParseFault>
    ensures { Gives (λ x. (x.0, x.1.now)) result (byte_at bytes.now) }
{
    match bytes {
        [] => Err(ParseFault::Left(0)),
        [b'"', rest @ ..] => Ok((None, rest)),
        [b'\\', rest @ ..] => escape_of(rest),
        [byte, rest @ ..] => match letter_of(*byte) {
            Some(_) => Err(ParseFault::Left(bytes.len())),
            None => Ok((Some(*byte), rest)),
        },
    }
}

// The string at the head of the bytes, and the bytes after it.
#[tactic(auto, unfolding(crate::specs::private::Reading::read))]
pub(crate) fn str_of(alloc: Global, bytes: &[u8]) -> Result<(Vec<u8>, &[u8]), ParseFault>
    ensures { Gives (λ x. (x.0.items, x.1.now)) result (read Str bytes.now) }
{
    let rest = fixed_of(bytes, b"\"")?;
    spelled_of(alloc, rest)
}

// The string whose first quote is just before the bytes, and the bytes after its last quote.
fn spelled_of(alloc: Global, bytes: &[u8]) -> Result<(Vec<u8>, &[u8]), ParseFault>
    ensures { Gives (λ x. (x.0.items, x.1.now)) result (bytes_at false bytes.now) }
{
    let mut rest = bytes;
    let mut value = Vec::new(alloc);
    'bytes: loop {
        let (run, special) = rest.split_at(plain_len(rest));
        value.extend_from_slice(run)?;
        match byte_of(special)? {
            (Some(byte), after) => {
                value.push(byte)?;
                rest = after;
            }
            (None, after) => return Ok((value, after)),
        }
    }
}

/// The derivation whose text the bytes are.
///
/// Answers `DrvFault::TooLong` for more than `MAX_LEN` bytes, else `DrvFault::Syntax` where the
/// bytes aren't in the language, even without its order rules, else `DrvFault::Order` where they
/// break an order rule. Passes over the bytes once and over the value once.
pub fn read(alloc: Global, input: &[u8]) -> Result<Derivation, DrvFault>
    ensures { IsReading input.now result }
{
    if input.len() > MAX_LEN {
        return Err(DrvFault::TooLong);
    }
    match read_parts(alloc, input) {
        Ok((parts, rest)) => {
            if rest.is_empty() {
                match Derivation::in_order(parts) {
                    Ok(derivation) => Ok(derivation),
                    Err(offset) => Err(DrvFault::Order(offset)),
                }
            } else {
                Err(DrvFault::Syntax(input.len() - rest.len()))
            }
        }
        Err(ParseFault::Left(left)) => Err(DrvFault::Syntax(input.len() - left)),
        Err(ParseFault::NoMemory) => Err(DrvFault::NoMemory),
    }
}
