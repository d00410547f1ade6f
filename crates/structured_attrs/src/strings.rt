//! Lists of strings among structured attributes.
ghost use Rattle.std.specs.Prelude.{◌≡◌, None, Some, Err, IfOk, MatchOption, map, option_and_then, option_map, string_bytes};
ghost use Rattle.serde_json.specs.Data.{Data};
ghost use Rattle.serde_json.specs.Find.{as_object, get_member};
ghost use Rattle.serde_json.specs.View.{view, items_view, members_view};
ghost use Rattle.structured_attrs.specs.Strings.{array_texts, item_texts, text_of, texts_of, value_texts};

use crate::attributes::Attributes;
use crate::fault::AttributesFault;
use serde_json::{Map, Value};
use std::alloc::Global;

impl Attributes {
    ghost use Rattle.structured_attrs.specs.Attributes.{attributes};

    /// The strings of the array at a key, as `requiredSystemFeatures` and `impureEnvVars` have
    /// them. None where there is no such key.
    ///
    /// Answers `BadAttributes` exactly where the value is no array or has something else than
    /// strings in it; else `NoMemory` where memory is refused. Costs a search for the key, one
    /// pass over the array and memory for the strings.
    pub fn strings(&self, alloc: Global, key: &str) -> Result<Option<Vec<String>>, AttributesFault>
        ensures ok { IfOk result (λ found. MatchOption found
            (get_member key.now (attributes self.now) ≡ None)
            (λ strings. option_and_then array_texts (get_member key.now (attributes self.now))
            ≡ Some (map (λ s. string_bytes s) strings.items))) }
        ensures bad { result ≡ Err AttributesFault.BadAttributes
            → (d : Data) × (get_member key.now (attributes self.now) ≡ Some d)
            × (array_texts d ≡ None) }
    {
        let Some(value) = member(&self.members, key) else {
            return Ok(None);
        };
        match value.as_array() {
            Some(items) => Ok(Some(item_strings(alloc, items)?)),
            None => Err(AttributesFault::BadAttributes),
        }
    }
}

// The value at a key of an object.
pub(crate) fn member<'a>(members: &'a Map<String, Value>, key: &str) -> Option<&'a Value>
    ensures { option_map (λ v. view v.now) result
        ≡ get_member key.now (members_view members.now.entries) }
{
    members.get(key)
}

// The object at a key of an object, where there is one.
pub(crate) fn object_at<'a>(
    members: &'a Map<String, Value>,
    key: &str,
) -> Option<&'a Map<String, Value>>
    ensures { option_map (λ m. members_view m.now.entries) result
        ≡ option_and_then as_object (get_member key.now (members_view members.now.entries)) }
{
    match member(members, key) {
        Some(value) => value.as_object(),
        None => None,
    }
}

// The texts of a value that is gone over as a list.
pub(crate) fn texts(alloc: Global, value: &Value) -> Result<Vec<String>, AttributesFault>
    ensures ok { IfOk result (λ strings. texts_of (view value.now)
        ≡ Some (map (λ s. string_bytes s) strings.items)) }
    ensures bad { result ≡ Err AttributesFault.BadAttributes → texts_of (view value.now) ≡ None }
{
    match value {
        Value::Null => Ok(Vec::new(alloc)),
        Value::String(_) => {
            let mut strings = Vec::new(alloc);
            strings.push(string_of(alloc, value)?)?;
            Ok(strings)
        }
        Value::Array(items) => item_strings(alloc, items),
        Value::Object(members) => value_strings(alloc, members),
        Value::Bool(_) | Value::Number(_) => Err(AttributesFault::BadAttributes),
    }
}

// The texts of an array's items.
fn item_strings(alloc: Global, items: &Vec<Value>) -> Result<Vec<String>, AttributesFault>
    ensures ok { IfOk result (λ strings. item_texts (items_view items.now.items)
        ≡ Some (map (λ s. string_bytes s) strings.items)) }
    ensures bad { result ≡ Err AttributesFault.BadAttributes
        → item_texts (items_view items.now.items) ≡ None }
{
    let mut strings = Vec::new(alloc);
    'items: for item in items {
        strings.push(string_of(alloc, item)?)?;
    }
    Ok(strings)
}

// The texts of an object's values.
fn value_strings(
    alloc: Global,
    members: &Map<String, Value>,
) -> Result<Vec<String>, AttributesFault>
    ensures ok { IfOk result (λ strings. value_texts (members_view members.now.entries)
        ≡ Some (map (λ s. string_bytes s) strings.items)) }
    ensures bad { result ≡ Err AttributesFault.BadAttributes
        → value_texts (members_view members.now.entries) ≡ None }
{
    let mut strings = Vec::new(alloc);
    'members: for (_, member) in members.iter() {
        strings.push(string_of(alloc, member)?)?;
    }
    Ok(strings)
}

// A copy of the text of a string.
fn string_of(alloc: Global, value: &Value) -> Result<String, AttributesFault>
    ensures ok { IfOk result (λ text. text_of (view value.now) ≡ Some (string_bytes text)) }
    ensures bad { result ≡ Err AttributesFault.BadAttributes → text_of (view value.now) ≡ None }
{
    match value.as_str() {
        Some(text) => Ok(String::from_str(alloc, text)?),
        None => Err(AttributesFault::BadAttributes),
    }
}
