//! Bytes as base-32 text and back, in the notation of a store path's hash part (Nix manual,
//! "Store Path").
//!
//! n bytes are one number, in which byte i weighs 256 to the power i. Its text has `ceil(8n / 5)`
//! digits of `0123456789abcdfghijklmnpqrsvwxyz`, the most significant first. The code reads each
//! digit's five bits, and each byte's eight, where they lie.
ghost use Rattle.std.specs.Prelude.{◌≡◌, ◌==◌, ◌/◌, ◌%◌, ◌^◌, ◌<◌, ◌≤◌, length, map, reverse, slice_index, string_bytes, string_capacity, vec_capacity, IfOk, IfErr, not};
ghost use Rattle.nix_names.specs.Base32.{alphabet, base32, base32_fault, StandsFor, number, digits_of, text_len, text_number, digit_char, digit_of, is_digit};
ghost use Rattle.nix_names.specs.Answers.{Answers};
ghost use Rattle.std.specs.List.{AllPass, position};

use crate::fault::NameFault;
use std::alloc::{AllocError, Global};

// The characters of the digits 0 to 31: no e, o, t or u.
const ALPHABET: &[u8; 32] = b"0123456789abcdfghijklmnpqrsvwxyz";

// The characters of the digits as bits: bit c mod 32 of word c / 32 is set where c is one of them.
const DIGIT_BITS: &[u32; 8] = &[0, 0x03ff_0000, 0, 0x07cf_7fde, 0, 0, 0, 0];

/// The base-32 text of bytes: `ceil(8n / 5)` characters for n bytes.
///
/// Fails with `NoMemory` alone. Costs one allocation of the text's length, and two passes over it.
#[tactic(auto, using(crate::proofs::AsciiPaths::stands_is_text))]
pub fn to_base32(alloc: Global, bytes: &[u8]) -> Result<String, NameFault>
    ensures text { IfOk result (λ t. string_bytes t ≡ base32 bytes.now) }
    ensures stands { IfOk result (λ t. StandsFor (string_bytes t) bytes.now) }
    ensures room { IfOk result (λ t. string_capacity t ≡ length (string_bytes t)) }
    ensures only { IfErr result (λ e. e ≡ NameFault.NoMemory) }
{
    match String::from_utf8(base32_text(alloc, bytes)?) {
        Ok(text) => Ok(text),
        // Each digit is an ASCII character.
        Err(_) => unreachable!(),
    }
}

// The bytes of the base-32 text of bytes, in one allocation of their number.
pub(crate) fn base32_text(alloc: Global, bytes: &[u8]) -> Result<Vec<u8>, AllocError>
    ensures text { IfOk result (λ t. t.items ≡ base32 bytes.now) }
    ensures stands { IfOk result (λ t. StandsFor t.items bytes.now) }
    ensures room { IfOk result (λ t. vec_capacity t ≡ length t.items) }
{
    let len = text_len(bytes.len());
    let mut text = Vec::with_capacity(alloc, len)?;
    for i in 0..len {
        text.push_reserved(digit_char(digit_at(bytes, len - 1 - i)));
    }
    Ok(text)
}

/// The `n` bytes that a base-32 text stands for.
///
/// Fails with the first of these that holds: `BadLength` where the text has not `ceil(8n / 5)`
/// bytes, `BadChar` with the offset of the first byte that is no digit, counted from 0, and
/// `Overflow` where a bit that the `n` bytes leave spare is set. So each list of bytes has one
/// text. `NoMemory` comes only where no other fault does. Costs one allocation of `n` bytes, and a
/// few steps for each character.
pub fn from_base32(alloc: Global, text: &[u8], n: usize) -> Result<Vec<u8>, NameFault>
    ensures value { Answers (base32_fault text.now n) result (λ bytes.
        (length bytes.items ≡ n) × StandsFor text.now bytes.items) }
    ensures room { IfOk result (λ bytes. vec_capacity bytes ≡ n) }
{
    if let Some(fault) = fault_of(text, n) {
        return Err(fault);
    }
    Ok(bytes_of(alloc, text, n)?)
}

// What is wrong first with a text as that of `n` bytes.
fn fault_of(text: &[u8], n: usize) -> Option<NameFault>
    ensures { result ≡ base32_fault text.now n }
{
    if n > text.len() || text_len(n) != text.len() {
        return Some(NameFault::BadLength);
    }
    if let Some(offset) = first_bad(text) {
        return Some(NameFault::BadChar(offset));
    }
    // The spare bits are the low ones of one byte more.
    let spare = byte_of(text, n);
    if spare != 0 {
        return Some(NameFault::Overflow);
    }
    None
}

// The offset of the first character that is no digit.
fn first_bad(text: &[u8]) -> Option<usize>
    ensures { result ≡ position (λ c. not (is_digit c)) text.now }
{
    text.iter().position(|c| !is_digit(*c))
}

// The first `n` bytes of the number that a text of digits writes.
fn bytes_of(alloc: Global, text: &[u8], n: usize) -> Result<Vec<u8>, AllocError>
    requires digits { AllPass is_digit text.now }
    requires within { n ≤ length text.now }
    ensures value { IfOk result (λ bytes. bytes.items ≡ digits_of 256 n (text_number text.now)) }
    ensures room { IfOk result (λ bytes. vec_capacity bytes ≡ n) }
{
    let mut bytes = Vec::with_capacity(alloc, n)?;
    for at in 0..n {
        bytes.push_reserved(byte_of(text, at));
    }
    Ok(bytes)
}

// How many characters the text of `n` bytes has.
fn text_len(n: usize) -> usize
    requires { n < 2 ^ 63 }
    ensures { result ≡ text_len n }
{
    n / 5 * 8 + (n % 5 * 8).div_ceil(5)
}

// The character of a digit below 32.
fn digit_char(digit: u8) -> u8
    requires { digit < 32 }
    ensures { result ≡ digit_char digit }
{
    ALPHABET[digit as usize]
}

// The digit at `index`, counted from the least significant; eight digits are five bytes.
fn digit_at(bytes: &[u8], index: usize) -> u8
    ensures { result ≡ number 256 bytes.now / 32 ^ index % 32 }
{
    let bit = index % 8 * 5;
    let at = index / 8 * 5 + bit / 8;
    let pair = u16::from(byte_at(bytes, at + 1)) * 256 + u16::from(byte_at(bytes, at));
    ((pair >> (bit % 8)) % 32) as u8
}

// The byte at `at`, or 0 past the last.
fn byte_at(bytes: &[u8], at: usize) -> u8
    ensures { result ≡ slice_index bytes.now at }
{
    bytes.get(at).copied().unwrap_or(0)
}

// The byte at `at` of the number that a text of digits writes; five bytes are eight digits.
fn byte_of(text: &[u8], at: usize) -> u8
    requires digits { AllPass is_digit text.now }
    requires within { at ≤ length text.now }
    ensures { result ≡ text_number text.now / 256 ^ at % 256 }
{
    let bit = at % 5 * 8;
    let index = at / 5 * 8 + bit / 5;
    let low = u32::from(digit_from_end(text, index));
    let middle = u32::from(digit_from_end(text, index + 1));
    let high = u32::from(digit_from_end(text, index + 2));
    (((high * 1024 + middle * 32 + low) >> (bit % 5)) % 256) as u8
}

// The digit at `index`, counted from a text's end, or 0 before its first.
fn digit_from_end(text: &[u8], index: usize) -> u8
    ensures { result ≡ slice_index (reverse (map digit_of text.now)) index }
{
    if index < text.len() {
        digit_of(text[text.len() - 1 - index])
    } else {
        0
    }
}

// The digit of a character, or 32 if it is not in the alphabet. Costs a few comparisons.
#[tactic(auto, using(crate::proofs::Base32Runs::digits))]
fn digit_of(character: u8) -> u8
    ensures { result ≡ digit_of character }
{
    match character {
        b'0'..=b'9' => character - b'0',
        b'a'..=b'd' => character - b'a' + 10,
        b'f'..=b'n' => character - b'f' + 14,
        b'p'..=b's' => character - b'p' + 23,
        b'v'..=b'z' => character - b'v' + 27,
        _ => 32,
    }
}

// Whether a character is one of the alphabet. Costs the look-up of one bit, with no branch on the
// character.
pub(crate) fn is_digit(character: u8) -> bool
    ensures { result ≡ is_digit character }
{
    (DIGIT_BITS[character as usize / 32] >> (character % 32)) % 2 == 1
}
