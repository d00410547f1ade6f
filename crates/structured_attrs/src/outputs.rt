//! The outputs among structured attributes.
ghost use Rattle.std.specs.Prelude.{◌≡◌, IfOk, OnOk, OnErr, codes};
ghost use Rattle.serde_json.specs.Data.{no_members, put as with_member};
ghost use Rattle.serde_json.specs.View.{members_view};
ghost use Rattle.structured_attrs.specs.Graphs.{outputs_data, with_outputs};

use crate::attributes::Attributes;
use nix_names::StorePath;
use serde_json::{Map, Value, put};
use std::alloc::{AllocError, Global};

/// An output of the derivation and its path.
#[derive(Debug, Drop)]
pub struct OutputPath {
    /// Its name, as `out`.
    pub name: String,
    /// Its path.
    pub path: StorePath,
}

impl Attributes {
    ghost use Rattle.structured_attrs.specs.Attributes.{attributes};

    /// Sets the attribute `outputs` to an object that has each output's path under its name; of a
    /// name that comes twice the last path stays. Want of memory is its only fault, and leaves the
    /// attributes as they were. Costs one pass over the outputs and memory for them.
    pub fn set_outputs(&mut self, alloc: Global, outputs: &[OutputPath]) -> Result<(), AllocError>
        ensures ok { OnOk result (attributes self.new
            ≡ with_member (codes "outputs") (outputs_data outputs.now) (attributes self.old)) }
        ensures err { OnErr result (attributes self.new ≡ attributes self.old) }
    {
        let object = outputs_object(alloc, outputs)?;
        put(&mut self.members, alloc, "outputs", Value::Object(object))
    }
}

// The object that has each output's path under its name.
fn outputs_object(alloc: Global, outputs: &[OutputPath]) -> Result<Map<String, Value>, AllocError>
    ensures members { IfOk result
        (λ m. members_view m.entries ≡ with_outputs outputs.now no_members) }
{
    let mut object = Map::new(alloc);
    'outputs: for output in outputs {
        let path = Value::String(String::from_str(alloc, output.path.as_str())?);
        put(&mut object, alloc, output.name.as_str(), path)?;
    }
    Ok(object)
}
