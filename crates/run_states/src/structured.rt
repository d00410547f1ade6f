//! Structured attributes of a derivation.
ghost use Rattle.std.specs.Prelude.{◌≡◌, IfOk, Some, map, option_map, string_bytes};
ghost use Rattle.structured_attrs.specs.Attributes.{attributes as members_of};
ghost use Rattle.run_states.specs.Structured.{attributes_of_text, listed_features, value_of};

use nix_drv::{Derivation, EnvEntry};
use std::alloc::{AllocError, Global};
use structured_attrs::{Attributes, AttributesFault};

// The key of the environment under which structured attributes stand.
pub(crate) const JSON_KEY: &[u8] = b"__json";

// The value of the first entry of a derivation's environment with this key.
pub(crate) fn value_of<'a>(drv: &'a Derivation, key: &[u8]) -> Option<&'a [u8]>
    ensures { option_map (λ value. value.now) result ≡ value_of key.now drv.now }
{
    let of_key = |entry: &&EnvEntry| entry.key.as_slice() == key;
    match drv.env().iter().find(of_key) {
        Some(entry) => Some(&entry.value),
        None => None,
    }
}

// The attributes that a text is, where they can be read.
pub(crate) fn attributes_of(alloc: Global, text: &[u8]) -> Result<Option<Attributes>, AllocError>
    ensures { IfOk result (λ found. option_map (λ a. members_of a) found
        ≡ attributes_of_text text.now) }
{
    match Attributes::read(alloc, text) {
        Ok(attributes) => Ok(Some(attributes)),
        Err(AttributesFault::BadAttributes) => Ok(None),
        Err(AttributesFault::NoMemory) => Err(AllocError),
    }
}

// The features that attributes ask for.
pub(crate) fn listed_features(
    alloc: Global,
    attributes: &Attributes,
) -> Result<Vec<String>, AllocError>
    ensures { IfOk result (λ features. map (λ s. string_bytes s) features.items
        ≡ listed_features (Some (members_of attributes.now))) }
{
    match attributes.strings(alloc, "requiredSystemFeatures") {
        Ok(Some(features)) => Ok(features),
        Ok(None) | Err(AttributesFault::BadAttributes) => Ok(Vec::new(alloc)),
        Err(AttributesFault::NoMemory) => Err(AllocError),
    }
}
