//! The preconditions of a plan's derivations, before anything is begun.
ghost use Rattle.std.specs.Prelude.{◌≡◌, ◌<◌, ◌&&◌, ◌||◌, IfOk, IfSome, codes, length, not, slice_get, vec_capacity};
ghost use Rattle.std.specs.List.{list_all, list_any, position};
ghost use Rattle.nix_names.specs.Names.{same_bytes};
ghost use Rattle.run_states.specs.StateTables.{ArePreconditions};
ghost use Rattle.run_states.specs.Runs.{demand_cause, has_left_out, has_tree, is_for_under, is_valid, left_out, own_cause, precondition_at, structured_cause};
ghost use Rattle.run_states.specs.Structured.{attributes_of_text};
ghost use Rattle.run_states.specs.Systems.{is_builtin};

use crate::features::{missing_listed, missing_token};
use crate::precondition::Precondition;
use crate::state::Refusal;
use crate::structured::{JSON_KEY, attributes_of, listed_features, value_of};
use crate::system::{System, is_builtin};
use drv_graph::{Plan, Profile};
use nix_drv::{Derivation, EnvEntry, Output};
use nix_names::StorePath;
use std::alloc::{AllocError, Global};
use valid_table::Journal;

/// The precondition of each derivation after the journal's entries, in a run for the system. An
/// error where memory is refused, and no other. Costs a look-up by hash for each output, up to two
/// where not all are valid, and for each source, and a few comparisons for each entry of an
/// environment; under `nix` also one for each pair of a feature that a derivation asks for and one
/// that the system offers, and one pass over structured attributes, with memory for them until it
/// is over.
pub fn preconditions_of(
    alloc: Global,
    plan: &Plan,
    journal: &Journal,
    system: &System,
) -> Result<Vec<Precondition>, AllocError>
    ensures ok { IfOk result
        (λ found. ArePreconditions (record { profile = plan.now.profile; system = system.now })
        journal.now.entries plan.now.nodes found.items) }
    ensures room { IfOk result (λ found. vec_capacity found ≡ length plan.now.nodes) }
{
    let mut preconditions = Vec::with_capacity(alloc, plan.len())?;
    for d in 0..plan.len() {
        preconditions.push_reserved(precondition_of(alloc, plan, d, journal, system)?);
    }
    Ok(preconditions)
}

// The precondition of the derivation with this number.
fn precondition_of(
    alloc: Global,
    plan: &Plan,
    d: usize,
    journal: &Journal,
    system: &System,
) -> Result<Precondition, AllocError>
    requires { d < length plan.now.nodes }
    ensures { IfOk result (λ precondition. precondition
        ≡ precondition_at (record { profile = plan.now.profile; system = system.now })
        journal.now.entries (slice_get plan.now.nodes d)) }
{
    if are_all_valid(journal, plan.output_paths(d)) {
        return Ok(Precondition::AllValid);
    }
    match own_cause(alloc, plan, d, journal, system)? {
        Some(cause) => Ok(Precondition::Hindered(cause)),
        None => Ok(Precondition::Free),
    }
}

// The first cause for which the derivation with this number can't be begun.
fn own_cause(
    alloc: Global,
    plan: &Plan,
    d: usize,
    journal: &Journal,
    system: &System,
) -> Result<Option<Refusal>, AllocError>
    requires { d < length plan.now.nodes }
    ensures { IfOk result (λ cause. IfSome (slice_get plan.now.nodes d) (λ node. cause
        ≡ own_cause (record { profile = plan.now.profile; system = system.now })
        journal.now.entries node.drv)) }
{
    let drv = plan.drv(d);
    if !is_for(plan.profile(), system, drv) {
        return Ok(Some(Refusal::WrongSystem));
    }
    if let Some(cause) = demand_cause(alloc, plan.profile(), system, drv)? {
        return Ok(Some(cause));
    }
    if let Some(output) = first_valid(journal, plan.output_paths(d)) {
        return Ok(Some(Refusal::PartlyValid(output)));
    }
    Ok(first_missing(journal, plan.sources(d)).map(Refusal::MissingSource))
}

// Whether a derivation is for the system; under `nix` one with a builtin builder is for any, and no
// other one for the system `builtin`.
fn is_for(profile: Profile, system: &System, drv: &Derivation) -> bool
    ensures { result ≡ is_for_under profile system.now drv.now }
{
    match profile {
        Profile::Plain => drv.system() == system.name(),
        Profile::Nix => is_builtin(drv) || is_for_named(system, drv.system()),
    }
}

// Whether this is the system's name and isn't `builtin`.
fn is_for_named(system: &System, name: &[u8]) -> bool
    ensures { result ≡ (same_bytes name.now system.now.name
        && not (same_bytes name.now (codes "builtin"))) }
{
    name == system.name() && name != b"builtin".as_slice()
}

// The first cause that lies in what a derivation asks for.
fn demand_cause(
    alloc: Global,
    profile: Profile,
    system: &System,
    drv: &Derivation,
) -> Result<Option<Refusal>, AllocError>
    ensures { IfOk result (λ cause. cause ≡ demand_cause profile system.now drv.now) }
{
    match profile {
        Profile::Plain if is_unsupported(drv) => Ok(Some(Refusal::Unsupported)),
        Profile::Plain => Ok(None),
        Profile::Nix if system.lacks_program(drv) => Ok(Some(Refusal::Unsupported)),
        Profile::Nix => match value_of(drv, JSON_KEY) {
            Some(json) => structured_cause(alloc, system, json),
            None => Ok(missing_token(system, drv).map(Refusal::MissingFeature)),
        },
    }
}

// The first cause that lies in structured attributes, which are this text.
fn structured_cause(
    alloc: Global,
    system: &System,
    json: &[u8],
) -> Result<Option<Refusal>, AllocError>
    ensures { IfOk result (λ cause. cause
        ≡ structured_cause system.now (attributes_of_text json.now)) }
{
    let Some(attributes) = attributes_of(alloc, json)? else {
        return Ok(None);
    };
    let features = listed_features(alloc, &attributes)?;
    Ok(missing_listed(system, &features).map(Refusal::MissingFeature))
}

// Whether a derivation asks for what is left out under `plain`.
#[tactic(auto, using(crate::proofs::LookUps::keys_told, crate::proofs::LookUps::trees_told))]
fn is_unsupported(drv: &Derivation) -> bool
    ensures { result ≡ (is_builtin drv.now || has_left_out drv.now || has_tree drv.now) }
{
    is_builtin(drv) || has_left_out(drv.env()) || has_tree(drv.outputs())
}

// Whether a key of an environment asks for what is left out under `plain`.
fn has_left_out(env: &[EnvEntry]) -> bool
    ensures { result ≡ list_any (λ e. list_any (same_bytes e.key.items) left_out) env.now }
{
    env.iter().any(|entry| is_left_out(&entry.key))
}

// Whether an output is a whole tree with a declared hash.
fn has_tree(outputs: &[Output]) -> bool
    ensures { result ≡ list_any (λ o. same_bytes o.algo.items (codes "r:sha256")) outputs.now }
{
    outputs
        .iter()
        .any(|output| output.algo.as_slice() == b"r:sha256".as_slice())
}

/// Whether a key of an environment asks for what is left out under `plain`. Costs a few
/// comparisons.
pub fn is_left_out(key: &[u8]) -> bool
    ensures { result ≡ list_any (same_bytes key.now) left_out }
{
    key == b"passAsFile".as_slice()
        || key == b"__json".as_slice()
        || key == b"exportReferencesGraph".as_slice()
        || key == b"allowedReferences".as_slice()
        || key == b"allowedRequisites".as_slice()
        || key == b"disallowedReferences".as_slice()
        || key == b"disallowedRequisites".as_slice()
}

// Whether all of the paths are valid.
fn are_all_valid(journal: &Journal, paths: &[StorePath]) -> bool
    ensures { result ≡ list_all (is_valid journal.now.entries) paths.now }
{
    paths.iter().all(|path| is_valid(journal, path))
}

// The index of the first of the paths that is valid.
fn first_valid(journal: &Journal, paths: &[StorePath]) -> Option<usize>
    ensures { result ≡ position (is_valid journal.now.entries) paths.now }
{
    paths.iter().position(|path| is_valid(journal, path))
}

// The index of the first of the paths that isn't valid.
fn first_missing(journal: &Journal, paths: &[StorePath]) -> Option<usize>
    ensures { result ≡ position (λ path. not (is_valid journal.now.entries path)) paths.now }
{
    paths.iter().position(|path| !is_valid(journal, path))
}

// Whether a path is valid.
fn is_valid(journal: &Journal, path: &StorePath) -> bool
    ensures { result ≡ is_valid journal.now.entries path.now }
{
    journal.registers(path)
}
