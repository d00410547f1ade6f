//! What `outputChecks` says of an output.
ghost use Rattle.std.specs.Prelude.{◌≡◌, None, Some, Err, IfOk, option_map};
ghost use Rattle.serde_json.specs.Data.{no_members};
ghost use Rattle.serde_json.specs.View.{view, number_view, members_view};
ghost use Rattle.structured_attrs.specs.Checks.{AreChecks, SaysNoChecks, float_limit, limit_of, list_of, number_limit, said_of, shown_list, wrapped};

use crate::attributes::Attributes;
use crate::fault::AttributesFault;
use crate::strings::{member, object_at, texts};
use serde_json::{Map, Number, Value};
use std::alloc::Global;
use std::num::{saturating_f64_to_i64, saturating_f64_to_u64};

/// The checks of an output: each that `outputChecks` has for it.
#[derive(Debug, Drop)]
pub struct OutputChecks {
    /// How many bytes the output's archive may have.
    pub max_size: Option<u64>,
    /// How many bytes the archives of the output's closure may have together.
    pub max_closure_size: Option<u64>,
    /// The specifiers of what the output may refer to.
    pub allowed_references: Option<Vec<String>>,
    /// The specifiers of what the output's closure may have.
    pub allowed_requisites: Option<Vec<String>>,
    /// The specifiers of what the output may not refer to.
    pub disallowed_references: Option<Vec<String>>,
    /// The specifiers of what the output's closure may not have.
    pub disallowed_requisites: Option<Vec<String>>,
}

impl Attributes {
    ghost use Rattle.structured_attrs.specs.Attributes.{attributes};

    /// The checks that `outputChecks` has for an output: none where it is no object or has no
    /// object for the output, and no more than those that are named there. A list of strings may
    /// be a string, which counts as one, an object, which counts as the list of its values, or
    /// null, which counts as none. A limit is a number, taken as an integer of 64 bits without a
    /// sign as x86-64 does: without its fraction, below 0 as 2^64 and that number together, and 0
    /// from 2^64 on.
    ///
    /// Answers `BadAttributes` only where one of the six is something else; else `NoMemory` where
    /// memory is refused. Costs a few searches and memory for the strings.
    pub fn output_checks(
        &self,
        alloc: Global,
        output: &str,
    ) -> Result<OutputChecks, AttributesFault>
        ensures ok { IfOk result
            (AreChecks (said_of output.now (attributes self.now))) }
        ensures bad { result ≡ Err AttributesFault.BadAttributes
            → SaysNoChecks (said_of output.now (attributes self.now)) }
    {
        let Some(outputs) = object_at(&self.members, "outputChecks") else {
            return Ok(no_checks());
        };
        let Some(said) = object_at(outputs, output) else {
            return Ok(no_checks());
        };
        checks_of(alloc, said)
    }
}

// No check at all.
fn no_checks() -> OutputChecks
    ensures { AreChecks no_members result }
{
    OutputChecks {
        max_size: None,
        max_closure_size: None,
        allowed_references: None,
        allowed_requisites: None,
        disallowed_references: None,
        disallowed_requisites: None,
    }
}

// The checks that some members say.
fn checks_of(alloc: Global, said: &Map<String, Value>) -> Result<OutputChecks, AttributesFault>
    ensures ok { IfOk result (AreChecks (members_view said.now.entries)) }
    ensures bad { result ≡ Err AttributesFault.BadAttributes
        → SaysNoChecks (members_view said.now.entries) }
{
    let max_size = limit(member(said, "maxSize"))?;
    let max_closure_size = limit(member(said, "maxClosureSize"))?;
    let allowed_references = list(alloc, member(said, "allowedReferences"))?;
    let allowed_requisites = list(alloc, member(said, "allowedRequisites"))?;
    let disallowed_references = list(alloc, member(said, "disallowedReferences"))?;
    let disallowed_requisites = list(alloc, member(said, "disallowedRequisites"))?;
    Ok(OutputChecks {
        max_size,
        max_closure_size,
        allowed_references,
        allowed_requisites,
        disallowed_references,
        disallowed_requisites,
    })
}

// The limit that a member gives, where it is there.
fn limit(found: Option<&Value>) -> Result<Option<u64>, AttributesFault>
    ensures ok { IfOk result (λ n. limit_of (option_map (λ v. view v.now) found.entry) ≡ Some n) }
    ensures bad { result ≡ Err AttributesFault.BadAttributes
        → limit_of (option_map (λ v. view v.now) found.entry) ≡ None }
{
    let Some(value) = found else {
        return Ok(None);
    };
    match value.as_number() {
        Some(number) => Ok(Some(limit_of_number(number))),
        None => Err(AttributesFault::BadAttributes),
    }
}

// The list that a member gives, where it is there.
fn list(alloc: Global, found: Option<&Value>) -> Result<Option<Vec<String>>, AttributesFault>
    ensures ok { IfOk result (λ given. list_of (option_map (λ v. view v.now) found.entry)
        ≡ Some (shown_list given)) }
    ensures bad { result ≡ Err AttributesFault.BadAttributes
        → list_of (option_map (λ v. view v.now) found.entry) ≡ None }
{
    match found {
        None => Ok(None),
        Some(value) => Ok(Some(texts(alloc, value)?)),
    }
}

// A number as a limit.
fn limit_of_number(number: &Number) -> u64
    ensures { result ≡ number_limit (number_view number.now) }
{
    if let Some(n) = number.as_u64() {
        return n;
    }
    if let Some(n) = number.as_i64() {
        return wrap(n);
    }
    match number.as_f64() {
        Some(x) => limit_of_float(x),
        None => 0,
    }
}

// A double as a limit.
fn limit_of_float(x: f64) -> u64
    ensures { result ≡ float_limit x }
{
    let n = saturating_f64_to_u64(x);
    if n == u64::MAX {
        return 0;
    }
    if 0 < n {
        return n;
    }
    wrap(saturating_f64_to_i64(x))
}

// An integer with a sign as one without.
fn wrap(n: i64) -> u64
    ensures { result ≡ wrapped n }
{
    if n < 0 {
        return u64::MAX - (n.unsigned_abs() - 1);
    }
    n.unsigned_abs()
}
