//! Structured attributes: read, and written as JSON and for the shell.
ghost use Rattle.std.specs.Prelude.{◌≡◌, ◌≤◌, Some, None, Err, IfOk, IsUtf8};
ghost use Rattle.serde_json.specs.Data.{members_depth, object};
ghost use Rattle.serde_json.specs.View.{members_view};
ghost use Rattle.structured_attrs.specs.JsonTexts.{IsJsonText};
ghost use Rattle.structured_attrs.specs.Reading.{attributes_of};
ghost use Rattle.structured_attrs.specs.ShellTexts.{shell_text};

use crate::fault::AttributesFault;
use crate::reading::read_value;
use crate::shell::push_line;
use crate::writing::write_members;
use json::Writer;
use serde_json::{Map, Value};
use std::alloc::{AllocError, Global};

/// The structured attributes of a derivation: the members of an object of JSON, by the bytes of
/// their keys. Arrays and objects nest at most 127 deep, the object itself counted.
#[derive(Drop)]
pub struct Attributes {
    pub(crate) members: Map<String, Value>,
    ghost nests: { members_depth (members_view members.entries) ≤ 126 },
}

impl Attributes {
    ghost use Rattle.structured_attrs.specs.Attributes.{attributes};

    /// The attributes that a text of JSON (RFC 8259), the value of the env entry `__json`, is. Of
    /// keys that come twice in one object the last one stays. An integer from -2^63 to 2^64 - 1 is
    /// itself, and `-0` is 0; any other number is the nearest double.
    ///
    /// Answers `BadAttributes` exactly where the bytes are not UTF-8, or are not one object of
    /// JSON, or where a number is too large for a double, or where arrays and objects nest more
    /// than 127 deep (which Nix takes, and no evaluator writes); else `NoMemory` where memory is
    /// refused. Costs one pass, memory for a buffer as long as the text, and memory for the
    /// attributes.
    pub fn read(alloc: Global, text: &[u8]) -> Result<Attributes, AttributesFault>
        ensures ok { IfOk result
            (λ a. IsUtf8 text.now × (attributes_of text.now ≡ Some (attributes a))) }
        ensures bad { result ≡ Err AttributesFault.BadAttributes → IsUtf8 text.now
            → attributes_of text.now ≡ None }
    {
        let Ok(text) = simdutf8::compat::from_utf8(text) else {
            return Err(AttributesFault::BadAttributes);
        };
        match read_value(alloc, text)? {
            Value::Object(members) => Ok(Attributes { members }),
            _ => Err(AttributesFault::BadAttributes),
        }
    }

    /// The text of `.attrs.json`: JSON without spaces, the members of each object by the bytes of
    /// their keys. It is read as the attributes. Want of memory is its only fault. Costs one pass
    /// and memory for the text.
    pub fn json_text(&self, alloc: Global) -> Result<Vec<u8>, AllocError>
        ensures text { IfOk result (λ text. IsJsonText (object (attributes self.now)) text.items) }
        ensures read_back { IfOk result
            (λ text. attributes_of text.items ≡ Some (attributes self.now)) }
        ensures utf8 { IfOk result (λ text. IsUtf8 text.items) }
    {
        let mut out = Writer::new(Vec::with_capacity(alloc, 128)?);
        out.begin_object()?;
        write_members(alloc, &self.members, &mut out)?;
        Ok(out.into_inner())
    }

    /// The text of `.attrs.sh`: a line for each member whose key is a name of the shell's and whose
    /// value is simple, or an array or an object of simple values. Want of memory is its only
    /// fault. Costs one pass and memory for the text.
    pub fn shell_text(&self, alloc: Global) -> Result<Vec<u8>, AllocError>
        ensures { IfOk result (λ text. text.items ≡ shell_text (attributes self.now)) }
    {
        let mut out = Vec::new(alloc);
        'members: for (key, member) in self.members.iter() {
            push_line(alloc, key.as_str(), member, &mut out)?;
        }
        Ok(out)
    }
}
