//! The digits of a double, and their layout in JSON.
ghost use Rattle.std.specs.Prelude.{◌≡◌, ◌<◌, ◌++◌, ◌∷◌, [], IfOk, OnOk, IsTrue, Some, decimal, length, replicate};
ghost use Rattle.std.specs.Char.{is_ascii_digit};
ghost use Rattle.std.specs.Fmt.{sign_text};
ghost use Rattle.std.specs.List.{list_all};
ghost use Rattle.serde_json.specs.Data.{float};
ghost use Rattle.structured_attrs.specs.FloatTexts.{IsFloatText, IsTrimmed, exponent_digits, fraction_text, plain_text, scientific_text, size_text};
ghost use Rattle.structured_attrs.specs.Numerals.{number_of};

use crate::grisu::digits_of;
use crate::number::parse_number;
use std::alloc::{AllocError, Global};
use std::num::f64_to_bits_with_nan;
use std::str;

/// Where the point stands among the digits of a decimal number.
#[derive(Clone, Copy, Debug, PartialEq, Eq)]
pub enum Point {
    /// After so many digits, with zeros where there are fewer.
    After(u32),
    /// Before so many zeros and then the digits.
    Before(u32),
}

// The digits of a finite double, the point among them, and whether a minus stands before them.
#[derive(Debug, Drop)]
struct Decimal {
    negative: bool,
    digits: Vec<u8>,
    point: Point,
}

/// A text of a finite double, as `.attrs.json` has it. Takes memory for the text and for its
/// digits. Each text is read again before it is given: one that is not read as the double would be
/// told as want of memory, and none is known.
pub(crate) fn float_text(alloc: Global, x: f64) -> Result<Vec<u8>, AllocError>
    ensures { IfOk result (λ text. IsFloatText x text.items) }
{
    if !x.is_finite() {
        return Err(AllocError);
    }
    let decimal = decimal_of(alloc, x)?;
    if !are_trimmed(&decimal.digits) {
        return Err(AllocError);
    }
    let mut text = Vec::new(alloc);
    push_signed(&decimal, &mut text)?;
    if !is_text_of(&text, x) {
        return Err(AllocError);
    }
    Ok(text)
}

// The digits that Nix writes of a finite double.
fn decimal_of(alloc: Global, x: f64) -> Result<Decimal, AllocError> {
    let bits = f64_to_bits_with_nan(x);
    let (digits, point) = if x == 0.0 {
        (Vec::from_slice(alloc, b"0")?, Point::After(1))
    } else {
        digits_of(alloc, bits)?
    };
    Ok(Decimal {
        negative: bits >> 63 == 1,
        digits,
        point,
    })
}

// Whether the bytes are digits, none of which says nothing.
fn are_trimmed(digits: &[u8]) -> bool
    ensures digits { IsTrue result → IsTrue (list_all is_ascii_digit digits.now) }
    ensures trimmed { IsTrue result → IsTrimmed digits.now }
    ensures some { IsTrue result → 0 < length digits.now }
{
    if !are_digits(digits) {
        return false;
    }
    match digits {
        [] => false,
        [_] => true,
        [first, .., last] => *first != b'0' && *last != b'0',
    }
}

// Whether the bytes are digits.
fn are_digits(digits: &[u8]) -> bool
    ensures { result ≡ list_all is_ascii_digit digits.now }
{
    'digits: for digit in digits {
        if !digit.is_ascii_digit() {
            return false;
        }
    }
    true
}

// Whether the bytes are read as a double.
fn is_text_of(text: &[u8], x: f64) -> bool
    ensures { IsTrue result → number_of text.now ≡ Some (float x) }
{
    let Ok(numeral) = str::from_utf8(text) else {
        return false;
    };
    let Some(number) = parse_number(numeral) else {
        return false;
    };
    match number.as_f64() {
        Some(y) => number.is_f64() && is_same_float(x, y),
        None => false,
    }
}

// Whether two doubles are one, which 0 and -0 are not.
fn is_same_float(x: f64, y: f64) -> bool
    ensures { IsTrue result → x ≡ y }
{
    f64_to_bits_with_nan(x) == f64_to_bits_with_nan(y)
}

// Adds the text of a decimal number.
fn push_signed(decimal: &Decimal, out: &mut Vec<u8>) -> Result<(), AllocError>
    requires { 0 < length decimal.now.digits.items }
    ensures { OnOk result (out.new.items ≡ out.old.items
        ++ (sign_text decimal.now.negative
        ++ size_text decimal.now.digits.items decimal.now.point)) }
{
    if decimal.negative {
        out.push(b'-')?;
    }
    push_size(&decimal.digits, decimal.point, out)
}

// Adds the text of digits and a point.
fn push_size(digits: &[u8], point: Point, out: &mut Vec<u8>) -> Result<(), AllocError>
    requires { 0 < length digits.now }
    ensures { OnOk result (out.new.items ≡ out.old.items ++ size_text digits.now point) }
{
    match point {
        Point::After(n) => {
            if n <= 15 {
                push_plain(digits, n as usize, out)
            } else {
                push_scientific(digits, b'+', n as u64 - 1, out)
            }
        }
        Point::Before(zeros) => {
            if zeros < 4 {
                push_small(digits, zeros as usize, out)
            } else {
                push_scientific(digits, b'-', zeros as u64 + 1, out)
            }
        }
    }
}

// Adds digits with the point after some of them.
fn push_plain(digits: &[u8], n: usize, out: &mut Vec<u8>) -> Result<(), AllocError>
    ensures { OnOk result (out.new.items ≡ out.old.items ++ plain_text digits.now n) }
{
    if digits.len() <= n {
        out.extend_from_slice(digits)?;
        push_zeros(n - digits.len(), out)?;
        out.extend_from_slice(b".0")
    } else {
        out.extend_from_slice(&digits[..n])?;
        out.push(b'.')?;
        out.extend_from_slice(&digits[n..])
    }
}

// Adds a point, zeros and digits after a 0.
fn push_small(digits: &[u8], zeros: usize, out: &mut Vec<u8>) -> Result<(), AllocError>
    ensures { OnOk result (out.new.items ≡ out.old.items
        ++ (48 ∷ 46 ∷ (replicate zeros 48 ++ digits.now))) }
{
    out.extend_from_slice(b"0.")?;
    push_zeros(zeros, out)?;
    out.extend_from_slice(digits)
}

// Adds zeros.
fn push_zeros(n: usize, out: &mut Vec<u8>) -> Result<(), AllocError>
    ensures { OnOk result (out.new.items ≡ out.old.items ++ replicate n 48) }
{
    let zeros = vec![in *out.allocator(); b'0'; n]?;
    out.extend_from_slice(&zeros)
}

// Adds the first digit, the others after a point, and an exponent with its sign.
fn push_scientific(
    digits: &[u8],
    sign: u8,
    exponent: u64,
    out: &mut Vec<u8>,
) -> Result<(), AllocError>
    requires { 0 < length digits.now }
    ensures { OnOk result (out.new.items ≡ out.old.items
        ++ scientific_text digits.now sign exponent) }
{
    out.extend_from_slice(&digits[..1])?;
    push_fraction(&digits[1..], out)?;
    out.push(b'e')?;
    out.push(sign)?;
    push_exponent(exponent, out)
}

// Adds a point and the digits after it, where there are any.
fn push_fraction(digits: &[u8], out: &mut Vec<u8>) -> Result<(), AllocError>
    ensures { OnOk result (out.new.items ≡ out.old.items
        ++ fraction_text digits.now) }
{
    if digits.is_empty() {
        return Ok(());
    }
    out.push(b'.')?;
    out.extend_from_slice(digits)
}

// Adds the digits of an exponent.
fn push_exponent(exponent: u64, out: &mut Vec<u8>) -> Result<(), AllocError>
    ensures { OnOk result (out.new.items ≡ out.old.items
        ++ exponent_digits exponent) }
{
    if exponent < 10 {
        out.push(b'0')?;
    }
    push_decimal(exponent, out)
}

/// Adds a number in decimal.
pub(crate) fn push_decimal(n: u64, out: &mut Vec<u8>) -> Result<(), AllocError>
    ensures { OnOk result (out.new.items ≡ out.old.items ++ decimal n) }
{
    let mut buffer = itoa::Buffer::new();
    out.extend_from_slice(buffer.format(n).as_bytes())
}
