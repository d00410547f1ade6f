//! The features that a derivation asks for.
ghost use Rattle.std.specs.Prelude.{◌≡◌, IfOk, map, slice_get, string_bytes};
ghost use Rattle.std.specs.Option.{option_map};
ghost use Rattle.nix_drv.specs.Parts.{bytes_of};
ghost use Rattle.build_outcome.specs.Tokens.{tokens};
ghost use Rattle.run_states.specs.Structured.{attributes_of_text, listed_features};
ghost use Rattle.run_states.specs.Systems.{features_text, first_missing, required_features};

use crate::structured::{JSON_KEY, attributes_of, listed_features, value_of};
use crate::system::System;
use build_outcome::is_space;
use nix_drv::Derivation;
use std::alloc::{AllocError, Global};

/// The feature with this number, counted from 0, among those that a derivation asks for: with
/// structured attributes the strings of their array `requiredSystemFeatures`, else the tokens of
/// `requiredSystemFeatures` in its environment. An error where memory is refused, and no other.
/// Takes memory for the feature, and for structured attributes as they are read; time in proportion
/// to the entries and to the text.
pub fn required_feature(
    alloc: Global,
    drv: &Derivation,
    number: usize,
) -> Result<Option<Vec<u8>>, AllocError>
    ensures { IfOk result (λ feature. option_map bytes_of feature
        ≡ slice_get (required_features drv.now) number) }
{
    if let Some(json) = value_of(drv, JSON_KEY) {
        return listed_feature(alloc, json, number);
    }
    match token(drv, number) {
        Some(feature) => Ok(Some(Vec::from_slice(alloc, feature)?)),
        None => Ok(None),
    }
}

// The feature with this number among those that structured attributes, which are this text, list.
fn listed_feature(alloc: Global, json: &[u8], number: usize) -> Result<Option<Vec<u8>>, AllocError>
    ensures { IfOk result (λ feature. option_map bytes_of feature
        ≡ slice_get (listed_features (attributes_of_text json.now)) number) }
{
    let Some(attributes) = attributes_of(alloc, json)? else {
        return Ok(None);
    };
    let features = listed_features(alloc, &attributes)?;
    match features.get(number) {
        Some(feature) => Ok(Some(Vec::from_slice(alloc, feature.as_bytes())?)),
        None => Ok(None),
    }
}

// The token with this number in the text in which a derivation asks for features.
fn token(drv: &Derivation, number: usize) -> Option<&[u8]>
    ensures { option_map (λ feature. feature.now) result
        ≡ slice_get (tokens (features_text drv.now)) number }
{
    features_text(drv)
        .split(|byte| is_space(*byte))
        .filter(|token| !token.is_empty())
        .nth(number)
}

// The number of the first token in that text that the system doesn't offer.
pub(crate) fn missing_token(system: &System, drv: &Derivation) -> Option<usize>
    ensures { result ≡ first_missing system.now (tokens (features_text drv.now)) }
{
    features_text(drv)
        .split(|byte| is_space(*byte))
        .filter(|token| !token.is_empty())
        .position(|token| !system.offers(token))
}

// The number of the first of these features that the system doesn't offer.
pub(crate) fn missing_listed(system: &System, features: &[String]) -> Option<usize>
    ensures { result ≡ first_missing system.now (map (λ s. string_bytes s) features.now) }
{
    features
        .iter()
        .position(|feature| !system.offers(feature.as_bytes()))
}

// The text in which a derivation without structured attributes asks for features.
fn features_text(drv: &Derivation) -> &[u8]
    ensures { result.now ≡ features_text drv.now }
{
    value_of(drv, b"requiredSystemFeatures").unwrap_or(b"")
}
