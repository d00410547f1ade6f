//! The entries of a builder's environment, before their placeholders are replaced.
ghost use Rattle.std.specs.Prelude.{◌≡◌, ◌++◌, ◌∷◌, [], IfErr, IfOk, OnOk, codes, map, string_bytes};
ghost use Rattle.nix_drv.specs.Parts.{entry_of};
ghost use Rattle.process_build.specs.Setups.{attribute_entries, caller_entry, entries_after};
ghost use Rattle.process_build.specs.Setups.{entries_at_last, entries_before, entries_of_cores};
ghost use Rattle.process_build.specs.Setups.{entries_under, entry, entry_under_nix, file_name_of};
ghost use Rattle.process_build.specs.Setups.{fixed_entries, impure_names, text_entries, tokens_under};
ghost use Rattle.process_build.specs.private.RawVars.{entry_of_raw, entry_of_setting};
ghost use Rattle.build_outcome.specs.declared.reason.Reason.TheVariants.{OutOfMemory};

use crate::process::caller::impure_names;
use crate::process::placeholders::digits_of;
use crate::process::surroundings::Surroundings;
use crate::process::texts::RawText;
use crate::process::values::{is_among, value_in};
use build_outcome::{Job, Prepared, Reason, tokens_of};
use drv_graph::{Kind, Profile};
use nix_drv::EnvEntry;
use sha2::{Digest, Sha256};
use std::alloc::{AllocError, Global};

// A folder of programs that isn't there.
const NO_PATH: &str = "/path-not-set";

// A home that isn't there.
const NO_HOME: &str = "/homeless-shelter";

/// The name of the file with the structured attributes for a shell.
pub const SHELL_NAME: &str = ".attrs.sh";

/// The name of the file with the structured attributes as JSON.
pub const JSON_NAME: &str = ".attrs.json";

/// A variable whose texts are known beforehand.
#[derive(Clone, Copy)]
pub struct EnvVar<'a> {
    /// Its key.
    pub key: &'a str,
    /// Its value.
    pub value: &'a str,
}

impl<'a> EnvVar<'a> {
    /// The variable of a key and its value.
    pub fn new(key: &'a str, value: &'a str) -> EnvVar<'a>
        ensures { entry_of_setting result ≡ entry key.now value.now }
    {
        EnvVar { key, value }
    }
}

/// A variable, before its placeholders are replaced.
#[derive(Drop)]
pub struct RawVar<'a> {
    /// Its key.
    pub key: RawText<'a>,
    /// Its value.
    pub value: RawText<'a>,
}

/// The entries of the environment of a job's builder, in the order in which they are set. A later
/// one replaces an earlier one with the same key. `OutOfMemory` is the only error.
pub fn entries_of<'a>(
    alloc: Global,
    around: &Surroundings<'a>,
    job: &'a Job,
    prepared: &'a Prepared,
) -> Result<Vec<RawVar<'a>>, Reason>
    ensures entries { IfOk result (λ entries. map entry_of_raw entries.items
        ≡ entries_under job.now.profile around.now job.now prepared.now) }
    ensures refused { IfErr result (λ reason. reason ≡ OutOfMemory) }
{
    match job.profile {
        Profile::Plain => plain_entries(alloc, around, job),
        Profile::Nix => nix_entries(alloc, around, job, prepared),
    }
}

/// The tokens of `passAsFile`: the keys whose values go into files.
pub fn names_of_files(alloc: Global, job: &Job) -> Result<Vec<&[u8]>, AllocError>
    ensures { IfOk result (λ names. map (λ n. n.now) names.items
        ≡ tokens_under (codes "passAsFile") job.now) }
{
    tokens_of(alloc, value_in(&job.env, b"passAsFile"))
}

/// The name of the file that gets the value of the entry with this key. `OutOfMemory` is the only
/// error.
pub fn file_name(alloc: Global, key: &[u8]) -> Result<String, Reason>
    ensures name { IfOk result (λ name. string_bytes name ≡ file_name_of key.now) }
    ensures refused { IfErr result (λ reason. reason ≡ OutOfMemory) }
{
    let digits = digits_of(alloc, &Sha256::digest(key))?;
    Ok(format!(in alloc; ".attr-{digits}")?)
}

// The entries under `plain`.
fn plain_entries<'a>(
    alloc: Global,
    around: &Surroundings<'a>,
    job: &'a Job,
) -> Result<Vec<RawVar<'a>>, Reason>
    ensures entries { IfOk result (λ entries. map entry_of_raw entries.items
        ≡ entries_before around.now.store_dir.now ++ map entry_of job.now.env.items
        ++ entries_after around.now.folder.now) }
    ensures refused { IfErr result (λ reason. reason ≡ OutOfMemory) }
{
    let mut entries = Vec::new(alloc);
    push_settings(&mut entries, &settings_before(around.store_dir))?;
    push_own(alloc, &mut entries, around.folder, &[], &job.env)?;
    push_settings(&mut entries, &settings_after(around.folder))?;
    Ok(entries)
}

// The entries under `nix`.
fn nix_entries<'a>(
    alloc: Global,
    around: &Surroundings<'a>,
    job: &'a Job,
    prepared: &'a Prepared,
) -> Result<Vec<RawVar<'a>>, Reason>
    ensures entries { IfOk result (λ entries. map entry_of_raw entries.items
        ≡ entries_before around.now.store_dir.now ++ entries_of_cores around.now.cores
        ++ attribute_entries around.now.folder.now job.now prepared.now
        ++ entries_after around.now.folder.now
        ++ fixed_entries job.now.kind (impure_names job.now prepared.now)
        (map entry_of around.now.caller.now)
        ++ entries_at_last
        ++ text_entries around.now.folder.now prepared.now) }
    ensures refused { IfErr result (λ reason. reason ≡ OutOfMemory) }
{
    let mut entries = Vec::new(alloc);
    push_settings(&mut entries, &settings_before(around.store_dir))?;
    entries.push(cores_var(alloc, around.cores)?)?;
    push_attributes(alloc, &mut entries, around.folder, job, prepared)?;
    push_settings(&mut entries, &settings_after(around.folder))?;
    push_fixed(alloc, &mut entries, around.caller, job, prepared)?;
    push_settings(&mut entries, &settings_at_last())?;
    push_text_paths(alloc, &mut entries, around.folder, prepared)?;
    Ok(entries)
}

// The variables that the derivation's entries replace.
fn settings_before(store_dir: &str) -> [EnvVar<'_>; 3]
    ensures { map entry_of_setting result ≡ entries_before store_dir.now }
{
    [
        EnvVar::new("PATH", NO_PATH),
        EnvVar::new("HOME", NO_HOME),
        EnvVar::new("NIX_STORE", store_dir),
    ]
}

// The variables of the build folder, which replace the derivation's entries.
fn settings_after(folder: &str) -> [EnvVar<'_>; 6]
    ensures { map entry_of_setting result ≡ entries_after folder.now }
{
    [
        EnvVar::new("NIX_BUILD_TOP", folder),
        EnvVar::new("TMPDIR", folder),
        EnvVar::new("TEMPDIR", folder),
        EnvVar::new("TMP", folder),
        EnvVar::new("TEMP", folder),
        EnvVar::new("PWD", folder),
    ]
}

// The variables that replace all others under `nix`.
fn settings_at_last() -> [EnvVar<'static>; 2]
    ensures { map entry_of_setting result ≡ entries_at_last }
{
    [
        EnvVar::new("NIX_LOG_FD", "2"),
        EnvVar::new("TERM", "xterm-256color"),
    ]
}

// The variable that tells the number of processors.
fn cores_var<'a>(alloc: Global, cores: u16) -> Result<RawVar<'a>, AllocError>
    ensures { IfOk result (λ var. entry_of_raw var ∷ [] ≡ entries_of_cores cores) }
{
    let value = format!(in alloc; "{cores}")?;
    Ok(RawVar {
        key: RawText::Lent(b"NIX_BUILD_CORES"),
        value: RawText::Made(value.into_bytes()),
    })
}

// Adds variables whose texts are known beforehand.
fn push_settings<'a>(
    entries: &mut Vec<RawVar<'a>>,
    settings: &[EnvVar<'a>],
) -> Result<(), AllocError>
    ensures { OnOk result (map entry_of_raw entries.new.items
        ≡ map entry_of_raw entries.old.items ++ map entry_of_setting settings.now) }
{
    for setting in settings {
        entries.push(setting_var(setting))?;
    }
    Ok(())
}

// A variable whose texts are known beforehand.
fn setting_var<'a>(setting: &EnvVar<'a>) -> RawVar<'a>
    ensures { entry_of_raw result ≡ entry_of_setting setting.now }
{
    RawVar {
        key: RawText::Lent(setting.key.as_bytes()),
        value: RawText::Lent(setting.value.as_bytes()),
    }
}

// Adds what is set for a derivation's own entries, and nothing where its attributes are structured.
fn push_attributes<'a>(
    alloc: Global,
    entries: &mut Vec<RawVar<'a>>,
    folder: &str,
    job: &'a Job,
    prepared: &Prepared,
) -> Result<(), Reason>
    ensures own { OnOk result (map entry_of_raw entries.new.items ≡ map entry_of_raw entries.old.items
        ++ attribute_entries folder.now job.now prepared.now) }
    ensures refused { IfErr result (λ reason. reason ≡ OutOfMemory) }
{
    match prepared {
        Prepared::Entries(_) => {
            let files = names_of_files(alloc, job)?;
            push_own(alloc, entries, folder, &files, &job.env)
        }
        Prepared::Structured(_) => Ok(()),
    }
}

// Adds what is set for a derivation's own entries, where the values under these names go into files
// of a folder.
fn push_own<'a>(
    alloc: Global,
    entries: &mut Vec<RawVar<'a>>,
    folder: &str,
    files: &[&[u8]],
    own: &'a [EnvEntry],
) -> Result<(), Reason>
    ensures own { OnOk result (map entry_of_raw entries.new.items ≡ map entry_of_raw entries.old.items
        ++ map (entry_under_nix folder.now (map (λ f. f.now) files.now)) (map entry_of own.now)) }
    ensures refused { IfErr result (λ reason. reason ≡ OutOfMemory) }
{
    for entry in own {
        entries.push(own_var(alloc, folder, files, entry)?)?;
    }
    Ok(())
}

// What is set for an entry of a derivation.
fn own_var<'a>(
    alloc: Global,
    folder: &str,
    files: &[&[u8]],
    own: &'a EnvEntry,
) -> Result<RawVar<'a>, Reason>
    ensures var { IfOk result (λ var. entry_of_raw var
        ≡ entry_under_nix folder.now (map (λ f. f.now) files.now) (entry_of own.now)) }
    ensures refused { IfErr result (λ reason. reason ≡ OutOfMemory) }
{
    if is_among(files, &own.key) {
        return file_var(alloc, folder, &own.key);
    }
    Ok(RawVar {
        key: RawText::Lent(&own.key),
        value: RawText::Lent(&own.value),
    })
}

// The variable that tells the path of the file that gets the value of the entry with this key.
fn file_var<'a>(alloc: Global, folder: &str, key: &[u8]) -> Result<RawVar<'a>, Reason>
    ensures var { IfOk result (λ var. entry_of_raw var ≡ entry (key.now ++ codes "Path")
        (folder.now ++ codes "/" ++ file_name_of key.now)) }
    ensures refused { IfErr result (λ reason. reason ≡ OutOfMemory) }
{
    let mut path_key = Vec::from_slice(alloc, key)?;
    path_key.extend_from_slice(b"Path")?;
    let name = file_name(alloc, key)?;
    let path = format!(in alloc; "{folder}/{name}")?;
    Ok(RawVar {
        key: RawText::Made(path_key),
        value: RawText::Made(path.into_bytes()),
    })
}

// Adds the variables of a fixed output, and none of others.
fn push_fixed<'a>(
    alloc: Global,
    entries: &mut Vec<RawVar<'a>>,
    caller: &'a [EnvEntry],
    job: &'a Job,
    prepared: &'a Prepared,
) -> Result<(), AllocError>
    ensures { OnOk result (map entry_of_raw entries.new.items ≡ map entry_of_raw entries.old.items
        ++ fixed_entries job.now.kind (impure_names job.now prepared.now)
        (map entry_of caller.now)) }
{
    match job.kind {
        Kind::Addressed => Ok(()),
        Kind::Fixed(_, _) => {
            push_settings(entries, &[EnvVar::new("NIX_OUTPUT_CHECKED", "1")])?;
            let names = impure_names(alloc, job, prepared)?;
            push_callers(entries, &names, caller)
        }
    }
}

// Adds the variables with these names, each with its value in the caller's environment.
fn push_callers<'a>(
    entries: &mut Vec<RawVar<'a>>,
    names: &[&'a [u8]],
    caller: &'a [EnvEntry],
) -> Result<(), AllocError>
    ensures { OnOk result (map entry_of_raw entries.new.items ≡ map entry_of_raw entries.old.items
        ++ map (caller_entry (map entry_of caller.now)) (map (λ n. n.now) names.now)) }
{
    for name in names {
        entries.push(caller_var(name, caller))?;
    }
    Ok(())
}

// The variable with a name and its value in the caller's environment.
fn caller_var<'a>(name: &'a [u8], caller: &'a [EnvEntry]) -> RawVar<'a>
    ensures { entry_of_raw result ≡ caller_entry (map entry_of caller.now) name.now }
{
    RawVar {
        key: RawText::Lent(name),
        value: RawText::Lent(value_in(caller, name)),
    }
}

// Adds the variables that tell where structured attributes lie, and nothing where they are none.
fn push_text_paths(
    alloc: Global,
    entries: &mut Vec<RawVar<'_>>,
    folder: &str,
    prepared: &Prepared,
) -> Result<(), AllocError>
    ensures { OnOk result (map entry_of_raw entries.new.items ≡ map entry_of_raw entries.old.items
        ++ text_entries folder.now prepared.now) }
{
    match prepared {
        Prepared::Entries(_) => Ok(()),
        Prepared::Structured(_) => {
            entries.push(path_var(alloc, "NIX_ATTRS_SH_FILE", folder, SHELL_NAME)?)?;
            entries.push(path_var(alloc, "NIX_ATTRS_JSON_FILE", folder, JSON_NAME)?)?;
            Ok(())
        }
    }
}

// The variable with this key that tells the path of the file with this name in a folder.
fn path_var<'a>(
    alloc: Global,
    key: &'a str,
    folder: &str,
    name: &str,
) -> Result<RawVar<'a>, AllocError>
    ensures { IfOk result (λ var. entry_of_raw var
        ≡ entry key.now (folder.now ++ codes "/" ++ name.now)) }
{
    let path = format!(in alloc; "{folder}/{name}")?;
    Ok(RawVar {
        key: RawText::Lent(key.as_bytes()),
        value: RawText::Made(path.into_bytes()),
    })
}
