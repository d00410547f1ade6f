//! What a builder is started with.
ghost use Rattle.std.specs.Prelude.{◌≡◌, ◌≢◌, ◌⊎◌, ◌==◌, ◌++◌, ◌∷◌, [], All, IfErr, IfOk, List, OnOk};
ghost use Rattle.std.specs.Prelude.{false, filter, map};
ghost use Rattle.std.specs.List.{AllZip, after_last, list_any};
ghost use Rattle.nix_names.specs.Bytes.{Bytes};
ghost use Rattle.nix_drv.specs.Derivation.{EnvEntry as AnEntry};
ghost use Rattle.nix_drv.specs.Parts.{entry_of};
ghost use Rattle.process_build.specs.Setups.{CanBeGiven, CannotBeGiven, HasNoEntry, HasNoText, IsFileOf};
ghost use Rattle.process_build.specs.Setups.{IsFilled, IsFilledEntry, IsProcessEntry, IsProcessKey};
ghost use Rattle.process_build.specs.Setups.{IsProcessText, IsSetup, entries_in_files, entry};
ghost use Rattle.process_build.specs.Setups.{entry_of_var, file_of_entry, file_of_graph, files_under};
ghost use Rattle.process_build.specs.Setups.{filled_outputs, is_among, json_name, name_under, raw_bytes};
ghost use Rattle.process_build.specs.Setups.{shell_name, text_bytes};
ghost use Rattle.process_build.specs.Setups.{FileText};
ghost use Rattle.process_build.specs.Setups.FileText.{Filled};
ghost use Rattle.build_outcome.specs.declared.job.JobOutput.{JobOutput as AnOutput};
ghost use Rattle.process_build.specs.private.Placeholders.{AreMade};
ghost use Rattle.process_build.specs.private.RawVars.{entry_of_raw};
ghost use Rattle.build_outcome.specs.declared.reason.Reason.TheVariants.{NoStart, OutOfMemory};

use crate::process::builtins::builder_of;
use crate::process::entries::{
    JSON_NAME, RawVar, SHELL_NAME, entries_of, file_name, names_of_files,
};
use crate::process::placeholders::Placeholders;
use crate::process::surroundings::Surroundings;
use crate::process::texts::{RawText, Text, text_of};
use crate::process::values::is_among;
use build_outcome::{AttributeTexts, Job, JobOutput, Prepared, PreparedFile, Reason};
use drv_graph::Profile;
use memchr::memrchr;
use nix_drv::EnvEntry;
use std::alloc::{AllocError, Global};

/// A variable of a builder's environment.
#[derive(Drop)]
pub struct SetupVar<'a> {
    /// Its key.
    pub key: Text<'a>,
    /// Its value.
    pub value: Text<'a>,
}

/// A file that lies in a builder's folder before it is started.
#[derive(Drop)]
pub struct SetupFile<'a> {
    /// Its name in the folder.
    pub name: Text<'a>,
    /// The bytes that are in it.
    pub contents: RawText<'a>,
}

/// What a builder is started with.
#[derive(Drop)]
pub struct Setup<'a> {
    /// The text of the builder, or the path of the program that is started for it.
    pub builder: &'a str,
    /// The name that it is told as its own, where no runner starts it.
    pub name: &'a str,
    /// Its arguments, without its own name.
    pub args: Vec<Text<'a>>,
    /// The entries of its environment, in the order in which they are set.
    pub env: Vec<SetupVar<'a>>,
    /// The files that lie in its folder.
    pub files: Vec<SetupFile<'a>>,
}

impl<'a> Setup<'a> {
    /// What the builder of a job is started with, by what was prepared for it and the rules of the
    /// job's profile. `NoStart` where some of it can't be given to a process. Costs a pass over all
    /// texts, a copy of each that has a placeholder, and a SHA-256 for each output and each file.
    pub fn of(
        alloc: Global,
        around: &Surroundings<'a>,
        job: &'a Job,
        prepared: &'a Prepared,
    ) -> Result<Setup<'a>, Reason>
        ensures setup { IfOk result (IsSetup around.now job.now prepared.now) }
        ensures given { IfOk result CanBeGiven }
        ensures refused { IfErr result (λ reason. (reason ≡ OutOfMemory)
            ⊎ ((reason ≡ NoStart) × CannotBeGiven around.now job.now prepared.now)) }
    {
        let text = builder_of(around.builtins, job);
        let builder = text_of(text)?;
        let name = text_of(name_of(job.profile, text))?;
        let placeholders = Placeholders::of(alloc, filled_outputs(job))?;
        let args = args_of(alloc, &placeholders, &job.args)?;
        let entries = entries_of(alloc, around, job, prepared)?;
        let env = env_of(alloc, &placeholders, &entries)?;
        let files = files_of(alloc, &placeholders, job, prepared)?;
        Ok(Setup {
            builder,
            name,
            args,
            env,
            files,
        })
    }
}

// The outputs whose placeholders are replaced.
fn filled_outputs(job: &Job) -> &[JobOutput]
    ensures { result.now ≡ filled_outputs job.now.profile job.now.outputs.items }
{
    match job.profile {
        Profile::Plain => &[],
        Profile::Nix => &job.outputs,
    }
}

// The name that a builder is told as its own.
fn name_of(profile: Profile, builder: &[u8]) -> &[u8]
    ensures { result.now ≡ name_under profile builder.now }
{
    match profile {
        Profile::Plain => builder,
        Profile::Nix => last_component(builder),
    }
}

// What stands after the last slash of a text.
fn last_component(text: &[u8]) -> &[u8]
    ensures { result.now ≡ after_last (λ byte. byte == 47) text.now }
{
    match memrchr(b'/', text) {
        Some(slash) => &text[slash + 1..],
        None => text,
    }
}

// A builder's arguments.
fn args_of<'a>(
    alloc: Global,
    placeholders: &Placeholders<'_>,
    args: &'a [Vec<u8>],
) -> Result<Vec<Text<'a>>, Reason>
    requires { AreMade placeholders.now }
    ensures filled { IfOk result (λ texts. AllZip (λ arg filled.
        IsFilled placeholders.now.outputs.now arg.items (text_bytes filled)) args.now texts.items) }
    ensures given { IfOk result (λ texts. All (λ t. IsProcessText (text_bytes t)) texts.items) }
    ensures refused { IfErr result (λ reason. (reason ≡ OutOfMemory) ⊎ ((reason ≡ NoStart)
        × HasNoText placeholders.now.outputs.now (map (λ arg. arg.items) args.now))) }
{
    let mut texts = Vec::new(alloc);
    for arg in args {
        texts.push(placeholders.text(alloc, &RawText::Lent(arg))?)?;
    }
    Ok(texts)
}

// The entries of a builder's environment.
fn env_of<'a>(
    alloc: Global,
    placeholders: &Placeholders<'_>,
    entries: &[RawVar<'a>],
) -> Result<Vec<SetupVar<'a>>, Reason>
    requires { AreMade placeholders.now }
    ensures filled { IfOk result (λ env. AllZip (λ e filled.
        IsFilledEntry placeholders.now.outputs.now e (entry_of_var filled))
        (map entry_of_raw entries.now) env.items) }
    ensures given { IfOk result (λ env. All (λ var. IsProcessEntry (entry_of_var var)) env.items) }
    ensures refused { IfErr result (λ reason. (reason ≡ OutOfMemory) ⊎ ((reason ≡ NoStart)
        × HasNoEntry placeholders.now.outputs.now (map entry_of_raw entries.now))) }
{
    let mut env = Vec::new(alloc);
    for entry in entries {
        env.push(filled_var(alloc, placeholders, entry)?)?;
    }
    Ok(env)
}

// An entry of an environment, filled.
fn filled_var<'a>(
    alloc: Global,
    placeholders: &Placeholders<'_>,
    var: &RawVar<'a>,
) -> Result<SetupVar<'a>, Reason>
    requires { AreMade placeholders.now }
    ensures filled { IfOk result (λ filled. IsFilledEntry placeholders.now.outputs.now
        (entry_of_raw var.now) (entry_of_var filled)) }
    ensures given { IfOk result (λ filled. IsProcessEntry (entry_of_var filled)) }
    ensures refused { IfErr result (λ reason. (reason ≡ OutOfMemory) ⊎ ((reason ≡ NoStart)
        × (filled : AnEntry) × IsFilledEntry placeholders.now.outputs.now (entry_of_raw var.now) filled
        × ¬ (IsProcessEntry filled))) }
{
    let key = placeholders.fill(alloc, &var.key)?;
    let value = placeholders.fill(alloc, &var.value)?;
    setup_var(key, value)
}

// A key and a value as an entry that an environment can have.
fn setup_var<'a>(key: RawText<'a>, value: RawText<'a>) -> Result<SetupVar<'a>, Reason>
    ensures var { IfOk result (λ var.
        entry_of_var var ≡ entry (raw_bytes key.entry) (raw_bytes value.entry)) }
    ensures given { IfOk result (λ var.
        IsProcessEntry (entry (raw_bytes key.entry) (raw_bytes value.entry))) }
    ensures refused { IfErr result (λ reason. (reason ≡ NoStart)
        × (¬ (IsProcessEntry (entry (raw_bytes key.entry) (raw_bytes value.entry))))) }
{
    Ok(SetupVar {
        key: key_of(key)?,
        value: Text::of(value)?,
    })
}

// Bytes as the name of a variable.
fn key_of(bytes: RawText<'_>) -> Result<Text<'_>, Reason>
    ensures text { IfOk result (λ text. text_bytes text ≡ raw_bytes bytes.entry) }
    ensures good { IfOk result (λ _. IsProcessKey (raw_bytes bytes.entry)) }
    ensures refused { IfErr result (λ reason.
        (reason ≡ NoStart) × (¬ (IsProcessKey (raw_bytes bytes.entry)))) }
{
    check_key(bytes.as_slice())?;
    Text::of(bytes)
}

// Refuses bytes that are empty or have a `=`.
fn check_key(bytes: &[u8]) -> Result<(), Reason>
    ensures good { IfOk result (λ _. (bytes.now ≢ []) × (list_any (λ b. b == 61) bytes.now ≡ false)) }
    ensures refused { IfErr result (λ reason.
        (reason ≡ NoStart) × (¬ (IsProcessKey bytes.now))) }
{
    if bytes.is_empty() || bytes.contains(&b'=') {
        return Err(Reason::NoStart);
    }
    Ok(())
}

// The files that lie in a builder's folder.
fn files_of<'a>(
    alloc: Global,
    placeholders: &Placeholders<'_>,
    job: &'a Job,
    prepared: &'a Prepared,
) -> Result<Vec<SetupFile<'a>>, Reason>
    requires { AreMade placeholders.now }
    ensures files { IfOk result (λ files. AllZip (IsFileOf placeholders.now.outputs.now)
        (files_under job.now.profile job.now prepared.now) files.items) }
    ensures refused { IfErr result (λ reason. reason ≡ OutOfMemory) }
{
    match (job.profile, prepared) {
        (Profile::Plain, _) => Ok(Vec::new(alloc)),
        (Profile::Nix, Prepared::Entries(graphs)) => {
            let mut files = files_of_entries(alloc, placeholders, job)?;
            push_graphs(&mut files, graphs)?;
            Ok(files)
        }
        (Profile::Nix, Prepared::Structured(texts)) => files_of_texts(alloc, placeholders, texts),
    }
}

// The files of those entries whose keys `passAsFile` names.
fn files_of_entries<'a>(
    alloc: Global,
    placeholders: &Placeholders<'_>,
    job: &'a Job,
) -> Result<Vec<SetupFile<'a>>, Reason>
    requires { AreMade placeholders.now }
    ensures files { IfOk result (λ files. AllZip (IsFileOf placeholders.now.outputs.now)
        (map file_of_entry (entries_in_files job.now)) files.items) }
    ensures refused { IfErr result (λ reason. reason ≡ OutOfMemory) }
{
    let names = names_of_files(alloc, job)?;
    files_named(alloc, placeholders, &names, &job.env)
}

// The files of those entries whose keys are among these names.
fn files_named<'a>(
    alloc: Global,
    placeholders: &Placeholders<'_>,
    names: &[&[u8]],
    entries: &'a [EnvEntry],
) -> Result<Vec<SetupFile<'a>>, Reason>
    requires { AreMade placeholders.now }
    ensures files { IfOk result (λ files. AllZip (IsFileOf placeholders.now.outputs.now)
        (map file_of_entry
        (filter (λ e. is_among (map (λ n. n.now) names.now) e.key) (map entry_of entries.now)))
        files.items) }
    ensures refused { IfErr result (λ reason. reason ≡ OutOfMemory) }
{
    let mut files = Vec::new(alloc);
    for entry in entries {
        if is_among(names, &entry.key) {
            files.push(file_of(alloc, placeholders, entry)?)?;
        }
    }
    Ok(files)
}

// The file that has the value of an entry.
fn file_of<'a>(
    alloc: Global,
    placeholders: &Placeholders<'_>,
    entry: &'a EnvEntry,
) -> Result<SetupFile<'a>, Reason>
    requires { AreMade placeholders.now }
    ensures file { IfOk result
        (IsFileOf placeholders.now.outputs.now (file_of_entry (entry_of entry.now))) }
    ensures refused { IfErr result (λ reason. reason ≡ OutOfMemory) }
{
    let name = file_name(alloc, &entry.key)?;
    let contents = placeholders.fill(alloc, &RawText::Lent(&entry.value))?;
    Ok(SetupFile {
        name: Text::Made(name),
        contents,
    })
}

// Adds the files that were prepared for `exportReferencesGraph`, as they are.
fn push_graphs<'a>(
    files: &mut Vec<SetupFile<'a>>,
    graphs: &'a [PreparedFile],
) -> Result<(), AllocError>
    ensures { OnOk result ((outputs : List AnOutput) (texts : List FileText)
        → AllZip (IsFileOf outputs) texts files.old.items
        → AllZip (IsFileOf outputs) (texts ++ map file_of_graph graphs.now) files.new.items) }
{
    for graph in graphs {
        files.push(file_of_graph(graph))?;
    }
    Ok(())
}

// The file that was prepared, as it is.
fn file_of_graph(graph: &PreparedFile) -> SetupFile<'_>
    ensures { IsFileOf [] (file_of_graph graph.now) result }
{
    SetupFile {
        name: Text::Lent(graph.name.as_str()),
        contents: RawText::Lent(&graph.contents),
    }
}

// The files of structured attributes.
fn files_of_texts<'a>(
    alloc: Global,
    placeholders: &Placeholders<'_>,
    texts: &'a AttributeTexts,
) -> Result<Vec<SetupFile<'a>>, Reason>
    requires { AreMade placeholders.now }
    ensures files { IfOk result (λ files. AllZip (IsFileOf placeholders.now.outputs.now)
        (Filled json_name texts.now.json.items ∷ Filled shell_name texts.now.shell.items ∷ [])
        files.items) }
    ensures refused { IfErr result (λ reason. reason ≡ OutOfMemory) }
{
    let mut files = Vec::new(alloc);
    files.push(filled_file(alloc, placeholders, JSON_NAME, &texts.json)?)?;
    files.push(filled_file(alloc, placeholders, SHELL_NAME, &texts.shell)?)?;
    Ok(files)
}

// The file with this name that has a text, filled.
fn filled_file<'a>(
    alloc: Global,
    placeholders: &Placeholders<'_>,
    name: &'a str,
    text: &'a [u8],
) -> Result<SetupFile<'a>, AllocError>
    requires { AreMade placeholders.now }
    ensures { IfOk result (IsFileOf placeholders.now.outputs.now (Filled name.now text.now)) }
{
    Ok(SetupFile {
        name: Text::Lent(name),
        contents: placeholders.fill(alloc, &RawText::Lent(text))?,
    })
}
