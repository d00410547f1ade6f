//! The checks of a job.
ghost use Rattle.std.specs.Prelude.{◌≡◌, ◌≢◌, ◌⊎◌, ◌↔◌, All, Contains, IfErr, IfOk, IsTrue, IsUtf8, List, None, Some, map, option_and_then, option_map, string_bytes, ℕ};
ghost use Rattle.std.specs.List.{AllZip};
ghost use Rattle.structured_attrs.specs.Attributes.{attributes};
ghost use Rattle.structured_attrs.specs.Checks.{AreChecks, said_of};
ghost use Rattle.structured_attrs.specs.Reading.{attributes_of};
ghost use Rattle.build_outcome.specs.Checks.{AreJobChecks, CanReadChecks, IsCounted, NeedsClosure, closure_limit, list_of, size_limit};
ghost use Rattle.build_outcome.specs.declared.reason.Reason.TheVariants.{BadAttributes, OutOfMemory};
ghost use Rattle.build_outcome.specs.private.Reading.{HasBadChecks, IsRefusal, list_said, of_output, reason_of};
ghost use Rattle.build_outcome.specs.declared.job.JobOutput.{JobOutput as JobOutputStruct};

use crate::attributes::json_of;
use crate::checks::check::Check;
use crate::checks::lists::{bytes_of, list_said, list_text};
use crate::checks::tokens::tokens_of;
use crate::job::{Job, JobOutput};
use crate::reason::Reason;
use drv_graph::Profile;
use nix_names::StorePath;
use std::alloc::{AllocError, Global};
use std::str;
use structured_attrs::{Attributes, AttributesFault, OutputChecks};

/// The checks of a job.
#[derive(Debug, Drop)]
pub enum JobChecks {
    /// Those that entries of the environment ask for, the same for each output.
    Entries,
    /// Those of structured attributes, for each output, in the job's order.
    Structured(Vec<OutputChecks>),
}

impl JobChecks {
    /// The checks of a job: `Structured` exactly where it has structured attributes.
    ///
    /// Answers `BadAttributes` where these are not UTF-8 or not an object of JSON, where an output's
    /// name is not UTF-8, or where a check of an output is not what Nix takes; else `OutOfMemory`
    /// where memory is refused. Costs a pass over the keys of the environment, one over the
    /// structured attributes with memory for them until it is over, and memory for the lists.
    pub fn read(alloc: Global, job: &Job) -> Result<JobChecks, Reason>
        ensures ok { IfOk result (AreJobChecks job.now) }
        ensures err { IfErr result (λ why. (why ≡ OutOfMemory)
            ⊎ ((why ≡ BadAttributes) × (CanReadChecks job.now → ⊥))) }
    {
        match json_of(job) {
            None => Ok(JobChecks::Entries),
            Some(text) => {
                let given = attributes_in(alloc, text)?;
                let checks = checks_of_all(alloc, &given, &job.outputs)?;
                Ok(JobChecks::Structured(checks))
            }
        }
    }

    /// Whether a test reads the closure of the output with this number, counted from 0: the profile
    /// is `nix`, and there is a list `allowedRequisites` or `disallowedRequisites` for it, or a limit
    /// `maxClosureSize`. Costs up to two passes over the keys of the environment.
    pub fn asks_for_closure(&self, job: &Job, n: usize) -> bool
        requires { AreJobChecks job.now self.now }
        ensures { IsTrue result ↔ NeedsClosure job.now n }
    {
        match job.profile {
            Profile::Plain => false,
            Profile::Nix => {
                self.has_list(job, n, Check::AllowedRequisites)
                    || self.has_list(job, n, Check::DisallowedRequisites)
                    || self.closure_limit(n).is_some()
            }
        }
    }

    /// The limit of the size of the closure of the output with this number, counted from 0, if there
    /// is one.
    pub fn closure_limit(&self, n: usize) -> Option<u64>
        ensures { (job : _) → AreJobChecks job self.now → result ≡ closure_limit job n }
    {
        match self.of_output(n) {
            Some(of) => of.max_closure_size,
            None => None,
        }
    }

    // The limit of the size of the output with this number, if there is one.
    pub(crate) fn size_limit(&self, n: usize) -> Option<u64>
        ensures { (job : _) → AreJobChecks job self.now → result ≡ size_limit job n }
    {
        match self.of_output(n) {
            Some(of) => of.max_size,
            None => None,
        }
    }

    // The output at `own`, where it doesn't count among its own requisites.
    pub(crate) fn left_out<'a>(&self, own: &'a StorePath) -> Option<&'a StorePath>
        ensures { (job : _) (path : List ℕ) → AreJobChecks job self.now
            → IsCounted job own.now path ↔ (option_map (λ p. p.now) result ≢ Some path) }
    {
        match self {
            JobChecks::Entries => Some(own),
            JobChecks::Structured(_) => None,
        }
    }

    // The specifiers of a check of the output with this number, if it is asked for.
    pub(crate) fn list<'a>(
        &'a self,
        alloc: Global,
        job: &'a Job,
        n: usize,
        check: Check,
    ) -> Result<Option<Vec<&'a [u8]>>, AllocError>
        requires { AreJobChecks job.now self.now }
        ensures { IfOk result (λ list.
            option_map (λ v. map (λ t. t.now) v.items) list ≡ list_of job.now n check) }
    {
        match self {
            JobChecks::Entries => match list_text(job, check) {
                Some(text) => Ok(Some(tokens_of(alloc, text)?)),
                None => Ok(None),
            },
            JobChecks::Structured(_) => match self.said_list(n, check) {
                Some(strings) => Ok(Some(bytes_of(alloc, strings)?)),
                None => Ok(None),
            },
        }
    }

    // Whether a check with a list is asked for, of the output with this number.
    fn has_list(&self, job: &Job, n: usize, check: Check) -> bool
        requires { AreJobChecks job.now self.now }
        ensures { IsTrue result ↔ (list_of job.now n check ≢ None) }
    {
        match self {
            JobChecks::Entries => list_text(job, check).is_some(),
            JobChecks::Structured(_) => self.said_list(n, check).is_some(),
        }
    }

    // The list that structured attributes have for a check of the output with this number.
    fn said_list(&self, n: usize, check: Check) -> Option<&Vec<String>>
        ensures { option_map (λ list. map (λ s. string_bytes s) list.now.items) result
            ≡ option_and_then (λ of. list_said of check) (of_output self.now n) }
    {
        list_said(self.of_output(n)?, check)
    }

    // The checks that structured attributes have of the output with this number.
    fn of_output(&self, n: usize) -> Option<&OutputChecks>
        ensures { option_map (λ of. of.now) result ≡ of_output self.now n }
    {
        match self {
            JobChecks::Entries => None,
            JobChecks::Structured(checks) => checks.get(n),
        }
    }
}

// The structured attributes that a text is.
fn attributes_in(alloc: Global, text: &[u8]) -> Result<Attributes, Reason>
    ensures ok { IfOk result
        (λ a. IsUtf8 text.now × (attributes_of text.now ≡ Some (attributes a))) }
    ensures err { IfErr result (IsRefusal (IsUtf8 text.now → attributes_of text.now ≡ None)) }
{
    match Attributes::read(alloc, text) {
        Ok(given) => Ok(given),
        Err(fault) => Err(reason_of(fault)),
    }
}

// The checks of each output.
fn checks_of_all(
    alloc: Global,
    given: &Attributes,
    outputs: &[JobOutput],
) -> Result<Vec<OutputChecks>, Reason>
    ensures named { IfOk result (λ _. All (λ output. IsUtf8 output.name.items) outputs.now) }
    ensures ok { IfOk result (λ checks. AllZip
        (λ output of. AreChecks (said_of output.name.items (attributes given.now)) of)
        outputs.now checks.items) }
    ensures err { IfErr result (IsRefusal ((output : JobOutputStruct)
        × Contains outputs.now output × HasBadChecks (attributes given.now) output)) }
{
    let mut all = Vec::new(alloc);
    for output in outputs {
        all.push(checks_of(alloc, given, output)?)?;
    }
    Ok(all)
}

// The checks of an output.
fn checks_of(alloc: Global, given: &Attributes, output: &JobOutput) -> Result<OutputChecks, Reason>
    ensures named { IfOk result (λ _. IsUtf8 output.now.name.items) }
    ensures ok { IfOk result
        (AreChecks (said_of output.now.name.items (attributes given.now))) }
    ensures err { IfErr result (IsRefusal (HasBadChecks (attributes given.now) output.now)) }
{
    let Ok(name) = str::from_utf8(&output.name) else {
        return Err(Reason::BadAttributes);
    };
    match given.output_checks(alloc, name) {
        Ok(checks) => Ok(checks),
        Err(fault) => Err(reason_of(fault)),
    }
}

// The reason of a fault of structured attributes.
fn reason_of(fault: AttributesFault) -> Reason
    ensures { result ≡ reason_of fault }
{
    match fault {
        AttributesFault::BadAttributes => Reason::BadAttributes,
        AttributesFault::NoMemory => Reason::OutOfMemory,
    }
}
