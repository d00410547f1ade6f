//! What the caller's environment has for the names that a job asks for.
ghost use Rattle.std.specs.Prelude.{◌≡◌, IfErr, IfOk, map, string_bytes};
ghost use Rattle.process_build.specs.Setups.{impure_names};
ghost use Rattle.build_outcome.specs.declared.reason.Reason.TheVariants.{OutOfMemory};

use crate::process::values::value_in;
use build_outcome::{Job, Prepared, Reason, tokens_of};
use drv_graph::{Kind, Profile};
use nix_drv::EnvEntry;
use std::alloc::{AllocError, Global};
use std::env::{Env, VarError};
use std::{env, str};

/// The entries of the caller's environment that a job's builder asks for: none but under `nix` and of
/// a fixed output. One that isn't set, or is no text, isn't among them. `OutOfMemory` is the only
/// error.
pub fn caller_entries<R: Env + AllocGlobal>(
    rt: &R,
    job: &Job,
    prepared: &Prepared,
) -> Result<Vec<EnvEntry>, Reason>
    ensures { IfErr result (λ reason. reason ≡ OutOfMemory) }
{
    match (job.profile, job.kind) {
        (Profile::Nix, Kind::Fixed(_, _)) => {
            let names = impure_names(rt.alloc(), job, prepared)?;
            entries_named(rt, &names)
        }
        _ => Ok(Vec::new(rt.alloc())),
    }
}

/// The names of the caller's variables that the builder of a fixed output gets.
pub fn impure_names<'a>(
    alloc: Global,
    job: &'a Job,
    prepared: &'a Prepared,
) -> Result<Vec<&'a [u8]>, AllocError>
    ensures { IfOk result (λ names. map (λ n. n.now) names.items
        ≡ impure_names job.now prepared.now) }
{
    match prepared {
        Prepared::Entries(_) => tokens_of(alloc, value_in(&job.env, b"impureEnvVars")),
        Prepared::Structured(texts) => bytes_of_all(alloc, &texts.impure),
    }
}

// The bytes of some texts.
fn bytes_of_all(alloc: Global, texts: &[String]) -> Result<Vec<&[u8]>, AllocError>
    ensures { IfOk result (λ all. map (λ t. t.now) all.items ≡ map string_bytes texts.now) }
{
    let mut all = Vec::new(alloc);
    for text in texts {
        all.push(text.as_bytes())?;
    }
    Ok(all)
}

// The entries of the caller's environment with these names.
fn entries_named<R: Env + AllocGlobal>(rt: &R, names: &[&[u8]]) -> Result<Vec<EnvEntry>, Reason>
    ensures { IfErr result (λ reason. reason ≡ OutOfMemory) }
{
    let alloc = rt.alloc();
    let mut entries = Vec::new(alloc);
    for name in names {
        if let Some(value) = caller_value(rt, name)? {
            let key = Vec::from_slice(alloc, name)?;
            entries.push(EnvEntry { key, value })?;
        }
    }
    Ok(entries)
}

// What the caller's environment has under a name, if it has a text there.
fn caller_value<R: Env + AllocGlobal>(rt: &R, name: &[u8]) -> Result<Option<Vec<u8>>, Reason>
    ensures { IfErr result (λ reason. reason ≡ OutOfMemory) }
{
    let Ok(name) = str::from_utf8(name) else {
        return Ok(None);
    };
    match env::var(rt, name) {
        Ok(value) => Ok(Some(value.into_bytes())),
        Err(VarError::OutOfMemory) => Err(Reason::OutOfMemory),
        Err(_) => Ok(None),
    }
}
