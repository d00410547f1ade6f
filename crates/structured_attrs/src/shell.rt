//! The text of `.attrs.sh`.
ghost use Rattle.std.specs.Prelude.{◌≡◌, ◌<◌, ◌^◌, ◌++◌, IfOk, OnOk, MatchOption, false, option_map, true};
ghost use Rattle.std.specs.List.{list_all};
ghost use Rattle.serde_json.specs.View.{view, number_view, items_view, members_view};
ghost use Rattle.structured_attrs.specs.ShellTexts as texts;
ghost use Rattle.structured_attrs.specs.ShellTexts.{fitted_text, int32_text, is_name_byte, is_name_start, line_of, number_word, pair_text, pairs_of, quoted_byte, shell_quoted, value_line, variable_line, word_of, words_of};

use crate::decimal::push_decimal;
use serde_json::{Map, Number, Value};
use std::alloc::{AllocError, Global};
use std::num::{nearest_f64_to_f32_with_nan, saturating_f64_to_i64};

/// How the shell declares a variable.
#[derive(Clone, Copy, Debug, PartialEq, Eq)]
pub enum Variable {
    /// A variable with one value.
    Plain,
    /// An array whose items have indices.
    Indexed,
    /// An array whose items have keys.
    Associative,
}

impl Variable {
    // What stands before the name.
    fn head(self) -> &'static [u8]
        ensures { result.now ≡ texts.head_of self }
    {
        match self {
            Variable::Plain => b"declare ",
            Variable::Indexed => b"declare -a ",
            Variable::Associative => b"declare -A ",
        }
    }

    // What stands between the name and the value.
    fn before(self) -> &'static [u8]
        ensures { result.now ≡ texts.before_of self }
    {
        match self {
            Variable::Plain => b"=",
            Variable::Indexed | Variable::Associative => b"=(",
        }
    }

    // What stands after the value.
    fn after(self) -> &'static [u8]
        ensures { result.now ≡ texts.after_of self }
    {
        match self {
            Variable::Plain => b"\n",
            Variable::Indexed | Variable::Associative => b")\n",
        }
    }
}

// Adds the line of a member.
pub(crate) fn push_line(
    alloc: Global,
    key: &str,
    value: &Value,
    out: &mut Vec<u8>,
) -> Result<(), AllocError>
    ensures { OnOk result (out.new.items ≡ out.old.items ++ line_of key.now (view value.now)) }
{
    let key = key.as_bytes();
    if !is_shell_name(key) {
        return Ok(());
    }
    match value {
        Value::Array(items) => {
            let words = array_words(alloc, items)?;
            push_value_line(Variable::Indexed, key, &words, out)
        }
        Value::Object(members) => {
            let pairs = object_pairs(alloc, members)?;
            push_value_line(Variable::Associative, key, &pairs, out)
        }
        Value::Null | Value::Bool(_) | Value::Number(_) | Value::String(_) => {
            let word = simple_word(alloc, value)?;
            push_value_line(Variable::Plain, key, &word, out)
        }
    }
}

// Adds the line that declares a variable, where there is a value.
fn push_value_line(
    kind: Variable,
    key: &[u8],
    value: &Option<Vec<u8>>,
    out: &mut Vec<u8>,
) -> Result<(), AllocError>
    ensures { OnOk result (out.new.items ≡ out.old.items
        ++ value_line kind key.now (option_map (λ v. v.items) value.now)) }
{
    match value {
        Some(value) => push_variable(kind, key, value, out),
        None => Ok(()),
    }
}

// Adds the line that declares a variable.
fn push_variable(
    kind: Variable,
    key: &[u8],
    value: &[u8],
    out: &mut Vec<u8>,
) -> Result<(), AllocError>
    ensures { OnOk result (out.new.items ≡ out.old.items ++ variable_line kind key.now value.now) }
{
    out.extend_from_slice(kind.head())?;
    out.extend_from_slice(key)?;
    out.extend_from_slice(kind.before())?;
    out.extend_from_slice(value)?;
    out.extend_from_slice(kind.after())
}

// Whether a key is a name that the shell takes.
fn is_shell_name(key: &[u8]) -> bool
    ensures { result ≡ texts.is_shell_name key.now }
{
    match key.split_first() {
        Some((first, rest)) => is_name_start(*first) && are_name_bytes(rest),
        None => false,
    }
}

// Whether the bytes are letters, underscores and digits.
fn are_name_bytes(bytes: &[u8]) -> bool
    ensures { result ≡ list_all is_name_byte bytes.now }
{
    'bytes: for byte in bytes {
        if !is_name_byte(*byte) {
            return false;
        }
    }
    true
}

// Whether a name may begin with a byte.
fn is_name_start(byte: u8) -> bool
    ensures { result ≡ is_name_start byte }
{
    (b'A' <= byte && byte <= b'Z') || (b'a' <= byte && byte <= b'z') || byte == b'_'
}

// Whether a name may have a byte after the first.
fn is_name_byte(byte: u8) -> bool
    ensures { result ≡ is_name_byte byte }
{
    is_name_start(byte) || (b'0' <= byte && byte <= b'9')
}

// The words of an array, where all items are simple.
fn array_words(alloc: Global, items: &Vec<Value>) -> Result<Option<Vec<u8>>, AllocError>
    ensures { IfOk result (λ words. option_map (λ v. v.items) words
        ≡ words_of (items_view items.now.items)) }
{
    let mut words = Vec::new(alloc);
    'items: for item in items {
        if !push_word(item, &mut words)? {
            return Ok(None);
        }
        words.push(b' ')?;
    }
    Ok(Some(words))
}

// The keys and words of an object, where all members are simple.
fn object_pairs(alloc: Global, members: &Map<String, Value>) -> Result<Option<Vec<u8>>, AllocError>
    ensures { IfOk result (λ pairs. option_map (λ v. v.items) pairs
        ≡ pairs_of (members_view members.now.entries)) }
{
    let mut pairs = Vec::new(alloc);
    'members: for (key, member) in members.iter() {
        if !push_pair(key.as_str(), member, &mut pairs)? {
            return Ok(None);
        }
    }
    Ok(Some(pairs))
}

// Adds a key and its word, where its value is simple, and answers whether it is.
fn push_pair(key: &str, value: &Value, out: &mut Vec<u8>) -> Result<bool, AllocError>
    ensures { IfOk result (λ simple. MatchOption (word_of (view value.now)) (simple ≡ false)
        (λ word. (simple ≡ true) × (out.new.items ≡ out.old.items ++ pair_text key.now word))) }
{
    out.push(b'[')?;
    push_quoted(key.as_bytes(), out)?;
    out.extend_from_slice(b"]=")?;
    let simple = push_word(value, out)?;
    out.push(b' ')?;
    Ok(simple)
}

// The word of a value, where it is simple.
fn simple_word(alloc: Global, value: &Value) -> Result<Option<Vec<u8>>, AllocError>
    ensures { IfOk result (λ word. option_map (λ v. v.items) word ≡ word_of (view value.now)) }
{
    let mut word = Vec::new(alloc);
    if push_word(value, &mut word)? {
        Ok(Some(word))
    } else {
        Ok(None)
    }
}

// Adds the word of a value, where it is simple, and answers whether it is.
fn push_word(value: &Value, out: &mut Vec<u8>) -> Result<bool, AllocError>
    ensures { IfOk result (λ simple. MatchOption (word_of (view value.now)) (simple ≡ false)
        (λ word. (simple ≡ true) × (out.new.items ≡ out.old.items ++ word))) }
{
    match value {
        Value::Null => out.extend_from_slice(b"''")?,
        Value::Bool(true) => out.push(b'1')?,
        Value::Bool(false) => {}
        Value::Number(number) => return push_number(number, out),
        Value::String(text) => push_quoted(text.as_bytes(), out)?,
        Value::Array(_) | Value::Object(_) => return Ok(false),
    }
    Ok(true)
}

// Adds a string between quotes.
fn push_quoted(text: &[u8], out: &mut Vec<u8>) -> Result<(), AllocError>
    ensures { OnOk result (out.new.items ≡ out.old.items ++ shell_quoted text.now) }
{
    out.push(b'\'')?;
    'bytes: for byte in text {
        push_quoted_byte(*byte, out)?;
    }
    out.push(b'\'')?;
    Ok(())
}

// Adds what stands for a byte between quotes.
fn push_quoted_byte(byte: u8, out: &mut Vec<u8>) -> Result<(), AllocError>
    ensures { OnOk result (out.new.items ≡ out.old.items ++ quoted_byte byte) }
{
    if byte == b'\'' {
        return out.extend_from_slice(b"'\\''");
    }
    out.push(byte)?;
    Ok(())
}

// Adds the word of a number, where it is simple, and answers whether it is.
fn push_number(number: &Number, out: &mut Vec<u8>) -> Result<bool, AllocError>
    ensures { IfOk result (λ simple. MatchOption (number_word (number_view number.now))
        (simple ≡ false)
        (λ word. (simple ≡ true) × (out.new.items ≡ out.old.items ++ word))) }
{
    if let Some(n) = number.as_u64() {
        push_int32(n % 0x1_0000_0000, out)?;
        return Ok(true);
    }
    if let Some(n) = number.as_i64() {
        let low = n.unsigned_abs() % 0x1_0000_0000;
        push_int32((0x1_0000_0000 - low) % 0x1_0000_0000, out)?;
        return Ok(true);
    }
    match number.as_f64() {
        Some(x) if is_whole_float(x) => {
            push_fitted(saturating_f64_to_i64(x), out)?;
            Ok(true)
        }
        _ => Ok(false),
    }
}

// Whether a double, rounded to 32 bits, has no fraction.
fn is_whole_float(x: f64) -> bool
    ensures { result ≡ texts.is_whole_float x }
{
    let rounded = nearest_f64_to_f32_with_nan(x);
    rounded.ceil() == rounded
}

// Adds the integer of 32 bits with a sign that has these bits.
fn push_int32(bits: u64, out: &mut Vec<u8>) -> Result<(), AllocError>
    requires { bits < 2 ^ 32 }
    ensures { OnOk result (out.new.items ≡ out.old.items ++ int32_text bits) }
{
    if bits < 0x8000_0000 {
        return push_decimal(bits, out);
    }
    out.push(b'-')?;
    push_decimal(0x1_0000_0000 - bits, out)
}

// Adds an integer that fits 32 bits with a sign, or the least such one.
fn push_fitted(n: i64, out: &mut Vec<u8>) -> Result<(), AllocError>
    ensures { OnOk result (out.new.items ≡ out.old.items ++ fitted_text n) }
{
    if n < -0x8000_0000 || 0x7fff_ffff < n {
        return out.extend_from_slice(b"-2147483648");
    }
    if n < 0 {
        out.push(b'-')?;
    }
    push_decimal(n.unsigned_abs(), out)
}
