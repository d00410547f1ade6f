//! The list of a check.
ghost use Rattle.std.specs.Prelude.{◌≡◌, IfOk, map, string_bytes};
ghost use Rattle.std.specs.Option.{option_map};
ghost use Rattle.build_outcome.specs.Attributes.{value_at};
ghost use Rattle.build_outcome.specs.Checks.{key_of};
ghost use Rattle.build_outcome.specs.private.Reading.{list_said};

use crate::attributes::value_at;
use crate::checks::check::Check;
use crate::job::Job;
use std::alloc::{AllocError, Global};
use structured_attrs::OutputChecks;

// The text of the list of a check, where entries of the environment ask for that check.
pub(crate) fn list_text(job: &Job, check: Check) -> Option<&[u8]>
    ensures { option_map (λ text. text.now) result ≡ value_at (key_of check) job.now }
{
    value_at(job, key_of(check))
}

// The list of a check among the checks of an output.
pub(crate) fn list_said(checks: &OutputChecks, check: Check) -> Option<&Vec<String>>
    ensures { option_map (λ list. map (λ s. string_bytes s) list.now.items) result
        ≡ list_said checks.now check }
{
    match check {
        Check::AllowedReferences => checks.allowed_references.as_ref(),
        Check::AllowedRequisites => checks.allowed_requisites.as_ref(),
        Check::DisallowedReferences => checks.disallowed_references.as_ref(),
        Check::DisallowedRequisites => checks.disallowed_requisites.as_ref(),
    }
}

// The bytes of some strings.
pub(crate) fn bytes_of(alloc: Global, strings: &Vec<String>) -> Result<Vec<&[u8]>, AllocError>
    ensures { IfOk result (λ found.
        map (λ t. t.now) found.items ≡ map (λ s. string_bytes s) strings.now.items) }
{
    let mut found = Vec::new(alloc);
    for string in strings {
        found.push(string.as_bytes())?;
    }
    Ok(found)
}

// The key of the list of a check.
fn key_of(check: Check) -> &'static [u8]
    ensures { result.now ≡ key_of check }
{
    match check {
        Check::AllowedReferences => b"allowedReferences",
        Check::AllowedRequisites => b"allowedRequisites",
        Check::DisallowedReferences => b"disallowedReferences",
        Check::DisallowedRequisites => b"disallowedRequisites",
    }
}
