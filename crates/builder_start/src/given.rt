//! Structured attributes that are taken.
ghost use Rattle.std.specs.Prelude.{◌≡◌, All, IfErr, IfOk, IsUtf8, None, Some, map, string_bytes};
ghost use Rattle.serde_json.specs.Find.{get_member};
ghost use Rattle.structured_attrs.specs.Attributes.{attributes};
ghost use Rattle.structured_attrs.specs.Checks.{said_of};
ghost use Rattle.structured_attrs.specs.Graphs.{graph_requests, shown_request};
ghost use Rattle.structured_attrs.specs.Reading.{attributes_of};
ghost use Rattle.build_outcome.specs.declared.reason.Reason.TheVariants.{BadAttributes};
ghost use Rattle.builder_start.specs.Structured.{AreAttributes, SayChecks, strings_of};
ghost use Rattle.builder_start.specs.private.Shown.{IsGiven, IsWhy, output_of, shown_output, texts_of};

use build_outcome::{Job, JobOutput, Reason};
use std::alloc::Global;
use std::str;
use structured_attrs::{Attributes, AttributesFault, GraphRequest, OutputPath};

// Structured attributes, what they ask for, and the outputs that are to stand among them.
#[derive(Drop)]
pub(crate) struct Given {
    pub(crate) attributes: Attributes,
    pub(crate) impure: Vec<String>,
    pub(crate) requests: Vec<GraphRequest>,
    pub(crate) outputs: Vec<OutputPath>,
}

// The structured attributes of a job that a text is.
pub(crate) fn taken(alloc: Global, job: &Job, text: &[u8]) -> Result<Given, Reason>
    ensures ok { IfOk result (IsGiven job.now text.now) }
    ensures bad { IfErr result (IsWhy BadAttributes (AreAttributes job.now text.now → ⊥)) }
{
    let attributes = read(alloc, text)?;
    let impure = strings_at(alloc, &attributes, "impureEnvVars")?;
    let _features = strings_at(alloc, &attributes, "requiredSystemFeatures")?;
    let requests = requests_in(alloc, &attributes)?;
    let outputs = output_paths(alloc, &job.outputs)?;
    check_outputs(alloc, &attributes, &outputs)?;
    Ok(Given {
        attributes,
        impure,
        requests,
        outputs,
    })
}

// The attributes that a text is.
fn read(alloc: Global, text: &[u8]) -> Result<Attributes, Reason>
    ensures ok { IfOk result
        (λ a. IsUtf8 text.now × (attributes_of text.now ≡ Some (attributes a))) }
    ensures bad { IfErr result
        (IsWhy BadAttributes (IsUtf8 text.now → attributes_of text.now ≡ None)) }
{
    match Attributes::read(alloc, text) {
        Ok(attributes) => Ok(attributes),
        Err(AttributesFault::BadAttributes) => Err(Reason::BadAttributes),
        Err(AttributesFault::NoMemory) => Err(Reason::OutOfMemory),
    }
}

// The strings of the array at a key; none at all where there is no such key.
fn strings_at(alloc: Global, given: &Attributes, key: &str) -> Result<Vec<String>, Reason>
    ensures ok { IfOk result (λ found.
        strings_of (get_member key.now (attributes given.now)) ≡ Some (texts_of found.items)) }
    ensures bad { IfErr result (IsWhy BadAttributes
        (strings_of (get_member key.now (attributes given.now)) ≡ None)) }
{
    match given.strings(alloc, key) {
        Ok(Some(strings)) => Ok(strings),
        Ok(None) => Ok(Vec::new(alloc)),
        Err(AttributesFault::BadAttributes) => Err(Reason::BadAttributes),
        Err(AttributesFault::NoMemory) => Err(Reason::OutOfMemory),
    }
}

// The graphs that are asked for.
fn requests_in(alloc: Global, given: &Attributes) -> Result<Vec<GraphRequest>, Reason>
    ensures ok { IfOk result (λ requests. graph_requests (attributes given.now)
        ≡ Some (map shown_request requests.items)) }
    ensures bad { IfErr result
        (IsWhy BadAttributes (graph_requests (attributes given.now) ≡ None)) }
{
    match given.graph_requests(alloc) {
        Ok(requests) => Ok(requests),
        Err(AttributesFault::BadAttributes) => Err(Reason::BadAttributes),
        Err(AttributesFault::NoMemory) => Err(Reason::OutOfMemory),
    }
}

// The outputs with their paths. A name that is not UTF-8 can't stand in JSON.
fn output_paths(alloc: Global, outputs: &[JobOutput]) -> Result<Vec<OutputPath>, Reason>
    ensures utf8 { IfOk result (λ _. All (λ output. IsUtf8 output.name.items) outputs.now) }
    ensures ok { IfOk result
        (λ paths. map shown_output paths.items ≡ map output_of outputs.now) }
    ensures bad { IfErr result (IsWhy BadAttributes
        (All (λ output. IsUtf8 output.name.items) outputs.now → ⊥)) }
{
    let mut paths = Vec::new(alloc);
    'outputs: for output in outputs {
        paths.push(output_path(alloc, output)?)?;
    }
    Ok(paths)
}

// An output with its path.
fn output_path(alloc: Global, output: &JobOutput) -> Result<OutputPath, Reason>
    ensures utf8 { IfOk result (λ _. IsUtf8 output.now.name.items) }
    ensures ok { IfOk result (λ path. shown_output path ≡ output_of output.now) }
    ensures bad { IfErr result (IsWhy BadAttributes (IsUtf8 output.now.name.items → ⊥)) }
{
    let Ok(name) = str::from_utf8(&output.name) else {
        return Err(Reason::BadAttributes);
    };
    Ok(OutputPath {
        name: String::from_str(alloc, name)?,
        path: output.path.copy(alloc)?,
    })
}

// Checks that `outputChecks` says what Nix takes of each output.
fn check_outputs(alloc: Global, given: &Attributes, outputs: &[OutputPath]) -> Result<(), Reason>
    ensures ok { IfOk result (λ _.
        All (λ o. SayChecks (said_of (string_bytes o.name) (attributes given.now))) outputs.now) }
    ensures bad { IfErr result (IsWhy BadAttributes
        (All (λ o. SayChecks (said_of (string_bytes o.name) (attributes given.now))) outputs.now
        → ⊥)) }
{
    'outputs: for output in outputs {
        check_output(alloc, given, output.name.as_str())?;
    }
    Ok(())
}

// Checks the same of the output with this name.
fn check_output(alloc: Global, given: &Attributes, name: &str) -> Result<(), Reason>
    ensures ok { IfOk result (λ _. SayChecks (said_of name.now (attributes given.now))) }
    ensures bad { IfErr result
        (IsWhy BadAttributes (SayChecks (said_of name.now (attributes given.now)) → ⊥)) }
{
    match given.output_checks(alloc, name) {
        Ok(_checks) => Ok(()),
        Err(AttributesFault::BadAttributes) => Err(Reason::BadAttributes),
        Err(AttributesFault::NoMemory) => Err(Reason::OutOfMemory),
    }
}
