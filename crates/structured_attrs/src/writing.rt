//! From a value to a text of JSON.
ghost use Rattle.std.specs.Prelude.{◌≡◌, ◌++◌, ◌∷◌, [], List, ℕ, Some, OnOk, int_lt, pos, true};
ghost use Rattle.std.specs.Fmt.{signed_decimal};
ghost use Rattle.json.specs.Token.{number as number_token};
ghost use Rattle.serde_json.specs.Data.{negative};
ghost use Rattle.serde_json.specs.View.{view, number_view, items_view, members_view};
ghost use Rattle.structured_attrs.specs.FloatTexts.{IsFloatText};
ghost use Rattle.structured_attrs.specs.JsonTexts.{IsNumeralOf};
ghost use Rattle.structured_attrs.specs.Numerals.{number_of};
ghost use Rattle.structured_attrs.specs.private.Written.{WritesValue, WritesItems, WritesMembers};

use crate::decimal::float_text;
use json::{Writer, is_number};
use serde_json::{Map, Number, Value};
use std::alloc::{AllocError, Global};
use std::str;

// Writes a value.
#[cycle(write)]
fn write(alloc: Global, value: &Value, out: &mut Writer) -> Result<(), AllocError>
    ensures ok { OnOk result (WritesValue (view value.now) out.old.tokens out.new.tokens) }
    ensures before { out.new.before ≡ out.old.before }
{
    match value {
        Value::Null => out.null(),
        Value::Bool(b) => out.boolean(*b),
        Value::Number(number) => write_number(alloc, number, out),
        Value::String(text) => out.string(text.as_str()),
        Value::Array(items) => {
            out.begin_array()?;
            write_items(alloc, items, out)
        }
        Value::Object(members) => {
            out.begin_object()?;
            write_members(alloc, members, out)
        }
    }
}

// Writes the items of an array, and the bracket that closes it.
#[cycle(write)]
fn write_items(alloc: Global, items: &Vec<Value>, out: &mut Writer) -> Result<(), AllocError>
    ensures ok { OnOk result
        (WritesItems (items_view items.now.items) out.old.tokens out.new.tokens) }
    ensures before { out.new.before ≡ out.old.before }
{
    for item in items {
        write(alloc, item, out)?;
    }
    out.end_array()
}

// Writes the members of an object, and the brace that closes it.
#[cycle(write)]
pub(crate) fn write_members(
    alloc: Global,
    members: &Map<String, Value>,
    out: &mut Writer,
) -> Result<(), AllocError>
    ensures ok { OnOk result
        (WritesMembers (members_view members.now.entries) out.old.tokens out.new.tokens) }
    ensures before { out.new.before ≡ out.old.before }
{
    for (key, member) in members.iter() {
        out.key(key.as_str())?;
        write(alloc, member, out)?;
    }
    out.end_object()
}

// Writes a number.
fn write_number(alloc: Global, number: &Number, out: &mut Writer) -> Result<(), AllocError>
    ensures ok { OnOk result ((numeral : List ℕ)
        × (out.new.tokens ≡ out.old.tokens ++ number_token numeral ∷ [])
        × (number_of numeral ≡ Some (number_view number.now))
        × IsNumeralOf (number_view number.now) numeral) }
    ensures before { out.new.before ≡ out.old.before }
{
    if let Some(n) = number.as_u64() {
        return out.u64(n);
    }
    match (number.as_i64(), number.as_f64()) {
        (Some(n), _) if n < 0 => write_negative(n, out),
        (None, Some(x)) => write_float(alloc, x, out),
        _ => Err(AllocError),
    }
}

// Writes an integer below 0.
fn write_negative(n: i64, out: &mut Writer) -> Result<(), AllocError>
    requires { int_lt n (pos 0) ≡ true }
    ensures ok { OnOk result
        ((out.new.tokens ≡ out.old.tokens ++ number_token (signed_decimal n) ∷ [])
        × (number_of (signed_decimal n) ≡ Some (negative n))) }
    ensures before { out.new.before ≡ out.old.before }
{
    out.i64(n)
}

// Writes a double.
fn write_float(alloc: Global, x: f64, out: &mut Writer) -> Result<(), AllocError>
    ensures ok { OnOk result ((numeral : List ℕ)
        × (out.new.tokens ≡ out.old.tokens ++ number_token numeral ∷ [])
        × IsFloatText x numeral) }
    ensures before { out.new.before ≡ out.old.before }
{
    let text = float_text(alloc, x)?;
    match str::from_utf8(&text) {
        Ok(numeral) if is_number(numeral) => out.number(numeral),
        _ => Err(AllocError),
    }
}
