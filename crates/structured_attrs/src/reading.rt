//! From a text of JSON to a value, in one pass over its tokens.
ghost use Rattle.std.specs.Prelude.{◌≡◌, ◌<◌, ◌≤◌, length, Some, None, Err, IfOk, OnOk};
ghost use Rattle.json.specs.Json.{value, items, members};
ghost use Rattle.serde_json.specs.Data.{no_members, depth as nesting};
ghost use Rattle.serde_json.specs.Read.{converted};
ghost use Rattle.serde_json.specs.View.{view, items_view, members_view};
ghost use Rattle.structured_attrs.specs.Reading.{data_of, items_of, members_of, max_depth, read as read_text};

use crate::fault::AttributesFault;
use crate::number::parse_number;
use json::{Reader, Scratch, Token};
use serde_json::{Map, Value};
use std::alloc::Global;

// How deep the arrays and objects of a text may nest.
const MAX_DEPTH: usize = 127;

// The value of a text of JSON. Takes memory for a buffer as long as the text, and for the value.
pub(crate) fn read_value(alloc: Global, text: &str) -> Result<Value, AttributesFault>
    ensures ok { IfOk result (λ v. read_text text.now ≡ Some (view v)) }
    ensures nests { IfOk result (λ v. nesting (view v) ≤ max_depth) }
    ensures err { result ≡ Err AttributesFault.BadAttributes → read_text text.now ≡ None }
{
    let mut scratch = Scratch::new(alloc);
    let mut reader = Reader::new(text, &mut scratch)?;
    let value = read(alloc, &mut reader, MAX_DEPTH)?;
    if reader.next().is_some() {
        return Err(AttributesFault::BadAttributes);
    }
    Ok(value)
}

// The next value of the reader, of which the arrays and objects may nest so deep.
#[cycle(read)]
fn read(alloc: Global, reader: &mut Reader<'_>, depth: usize) -> Result<Value, AttributesFault>
    ensures ok { IfOk result
        (λ v. converted data_of (value depth reader.old) ≡ Some (view v, reader.new)) }
    ensures shorter { OnOk result (length reader.new < length reader.old) }
    ensures err { result ≡ Err AttributesFault.BadAttributes
        → converted data_of (value depth reader.old) ≡ None }
{
    let token = reader.next().ok_or(AttributesFault::BadAttributes)?;
    match token {
        Token::String(text) => Ok(Value::String(String::from_str(alloc, text)?)),
        Token::Number(text) => match parse_number(text) {
            Some(number) => Ok(Value::Number(number)),
            None => Err(AttributesFault::BadAttributes),
        },
        Token::Bool(b) => Ok(Value::Bool(b)),
        Token::Null => Ok(Value::Null),
        Token::EndObject | Token::EndArray | Token::Key(_) | Token::Bad => {
            Err(AttributesFault::BadAttributes)
        }
        Token::BeginArray => {
            if depth == 0 {
                return Err(AttributesFault::BadAttributes);
            }
            Ok(Value::Array(read_items(alloc, reader, depth - 1)?))
        }
        Token::BeginObject => {
            if depth == 0 {
                return Err(AttributesFault::BadAttributes);
            }
            Ok(Value::Object(read_members(alloc, reader, depth - 1)?))
        }
    }
}

// The items up to the bracket that closes the array.
#[cycle(read)]
fn read_items(
    alloc: Global,
    reader: &mut Reader<'_>,
    depth: usize,
) -> Result<Vec<Value>, AttributesFault>
    ensures ok { IfOk result
        (λ v. converted items_of (items (value depth) (length reader.old) reader.old)
        ≡ Some (items_view v.items, reader.new)) }
    ensures shorter { OnOk result (length reader.new < length reader.old) }
    ensures err { result ≡ Err AttributesFault.BadAttributes
        → converted items_of (items (value depth) (length reader.old) reader.old) ≡ None }
{
    let mut found = Vec::new(alloc);
    'items: while !reader.take_end_array() {
        let item = read(alloc, reader, depth)?;
        found.push(item)?;
    }
    Ok(found)
}

// The members up to the brace that closes the object.
#[cycle(read)]
fn read_members(
    alloc: Global,
    reader: &mut Reader<'_>,
    depth: usize,
) -> Result<Map<String, Value>, AttributesFault>
    ensures ok { IfOk result
        (λ m. converted (λ ms. members_of ms no_members)
        (members (value depth) (length reader.old) reader.old)
        ≡ Some (members_view m.entries, reader.new)) }
    ensures shorter { OnOk result (length reader.new < length reader.old) }
    ensures err { result ≡ Err AttributesFault.BadAttributes
        → converted (λ ms. members_of ms no_members)
        (members (value depth) (length reader.old) reader.old) ≡ None }
{
    let mut found = Map::new(alloc);
    'members: while let Some(name) = reader.next_key()? {
        let key = String::from_str(alloc, name)?;
        let member = read(alloc, reader, depth)?;
        drop(found.insert(key, member)?);
    }
    Ok(found)
}
