//! The tests of all outputs.
ghost use Rattle.std.specs.Prelude.{[], ◌≡◌, ◌∷◌, ◌⊎◌, ◌<◌, All, Contains, IfErr, OnOk, length, map};
ghost use Rattle.std.specs.List.{flat_map, range_with_len};
ghost use Rattle.nix_names.specs.Rising.{IsRising};
ghost use Rattle.drv_graph.specs.declared.profile.Profile.TheVariants.{Nix};
ghost use Rattle.valid_table.specs.PathInfos.{PathInfo};
ghost use Rattle.build_outcome.specs.Checks.{AreJobChecks, ArePassed, HaveClosures, IsFirstTestFault, IsFixedJob, IsPermittedClosure, Of, OfClosureSize, OfFixed, OfSize, checks_at};
ghost use Rattle.build_outcome.specs.declared.reason.Reason.TheVariants.{OutOfMemory};
ghost use Rattle.build_outcome.specs.private.Testing.{AreTestable, IsTesting, lists_at};

use crate::checked_records::Checked;
use crate::checks::check::Check;
use crate::checks::closure::OutputClosure;
use crate::checks::job_checks::JobChecks;
use crate::checks::path_order::index_among;
use crate::checks::sizes::ClosureNars;
use crate::checks::specifiers::paths_listed;
use crate::checks::used_paths::{first_barred, first_index, used_by};
use crate::job::Job;
use crate::reason::Reason;
use drv_graph::{Kind, Profile};
use nix_names::StorePath;
use std::alloc::Global;
use valid_table::Record;

/// What the outputs of a job are to be tested for.
#[derive(Debug, Drop)]
pub struct AskedChecks {
    /// The checks of the job.
    pub checks: JobChecks,
    /// The closures of the outputs, in the job's order. One is read only where
    /// `JobChecks::asks_for_closure`, and its records only where there is a
    /// `JobChecks::closure_limit`.
    pub closures: Vec<OutputClosure>,
}

/// Tests what the outputs of a job refer to and how large they are, by their records, and under the
/// profile `plain` nothing. First, that a fixed output refers to nothing; then, for each output,
/// the checks that are asked for: `maxSize`, `maxClosureSize`, `allowedReferences`,
/// `allowedRequisites`, `disallowedReferences` and `disallowedRequisites`, in this order.
/// `permitted` are the paths to which outputs may refer by the job's inputs.
///
/// At the first test that isn't passed, `PastMaxSize` or `PastMaxClosureSize` with the output;
/// `UnknownNar` with the index of the least path of the closure whose archive isn't known, among
/// the permitted paths, where `maxClosureSize` is asked for; `BadSpecifier` with the output, where
/// the list of the check has what is neither a path of the output's folder nor the name of an
/// output; else `NotAllowed` with the output, and the index among the permitted paths of the first
/// to which it may not refer. `OutOfMemory` where memory is refused.
///
/// Costs, for each output and each check with a list, a copy and a sort of what the list names, for
/// each specifier that is no path a comparison with the outputs' names, and a binary search for
/// each path that the output uses; and for each `maxClosureSize` a look-up by hash for each output,
/// and two look-ups by hash and two binary searches for each path of the closure.
pub fn test_outputs(
    alloc: Global,
    job: &Job,
    permitted: &[StorePath],
    checked: &Checked,
    asked: &AskedChecks,
) -> Result<(), Reason>
    requires rising { IsRising permitted.now }
    requires count { length checked.now ≡ length job.now.outputs.items }
    requires permitted { All (λ (info : PathInfo). All (Contains permitted.now) info.references)
        checked.now }
    requires checks { AreJobChecks job.now asked.now.checks }
    requires closures { All (IsPermittedClosure permitted.now) asked.now.closures.items }
    ensures ok { OnOk result ((registrations : _)
        → HaveClosures registrations job.now checked.now asked.now.closures.items
        → ArePassed registrations job.now permitted.now checked.now) }
    ensures err { IfErr result (λ why. (why ≡ OutOfMemory) ⊎ ((registrations : _)
        → HaveClosures registrations job.now checked.now asked.now.closures.items
        → IsFirstTestFault registrations job.now permitted.now checked.now why)) }
{
    match job.profile {
        Profile::Plain => Ok(()),
        Profile::Nix => {
            let tester = Tester {
                job,
                permitted,
                records: checked.records(),
                asked,
            };
            tester.test_fixed()?;
            tester.test_checks(alloc)
        }
    }
}

// What the tests of a job's outputs read.
#[derive(Drop)]
struct Tester<'a> {
    job: &'a Job,
    permitted: &'a [StorePath],
    records: &'a [Record],
    asked: &'a AskedChecks,
}

impl Tester<'_> {
    // Tests that outputs that are fixed refer to nothing.
    fn test_fixed(&self) -> Result<(), Reason>
        requires { AreTestable self.now.job.now self.now.permitted.now self.now.records.now
            self.now.asked.now.closures.items }
        ensures { IsTesting self.now.job.now self.now.permitted.now self.now.records.now
            self.now.asked.now.closures.items
            (map OfFixed (range_with_len 0 (length self.now.job.now.outputs.items))) result }
    {
        match self.job.kind {
            Kind::Addressed => Ok(()),
            Kind::Fixed(_, _) => self.test_references(),
        }
    }

    // Tests that outputs, which are fixed, refer to nothing.
    fn test_references(&self) -> Result<(), Reason>
        requires fixed { IsFixedJob self.now.job.now }
        requires testable { AreTestable self.now.job.now self.now.permitted.now
            self.now.records.now self.now.asked.now.closures.items }
        ensures { IsTesting self.now.job.now self.now.permitted.now self.now.records.now
            self.now.asked.now.closures.items
            (map OfFixed (range_with_len 0 (length self.now.job.now.outputs.items))) result }
    {
        for (n, record) in self.records.iter().enumerate() {
            if let Some(index) = first_index(self.permitted, record.references()) {
                return Err(Reason::NotAllowed(n, index));
            }
        }
        Ok(())
    }

    // Tests the checks of all outputs.
    fn test_checks(&self, alloc: Global) -> Result<(), Reason>
        requires nix { self.now.job.now.profile ≡ Nix }
        requires checks { AreJobChecks self.now.job.now self.now.asked.now.checks }
        requires testable { AreTestable self.now.job.now self.now.permitted.now
            self.now.records.now self.now.asked.now.closures.items }
        ensures { IsTesting self.now.job.now self.now.permitted.now self.now.records.now
            self.now.asked.now.closures.items
            (flat_map checks_at (range_with_len 0 (length self.now.job.now.outputs.items))) result }
    {
        for n in 0..self.job.outputs.len() {
            self.test_output(alloc, n)?;
        }
        Ok(())
    }

    // Tests the checks of one output.
    fn test_output(&self, alloc: Global, n: usize) -> Result<(), Reason>
        requires nix { self.now.job.now.profile ≡ Nix }
        requires checks { AreJobChecks self.now.job.now self.now.asked.now.checks }
        requires testable { AreTestable self.now.job.now self.now.permitted.now
            self.now.records.now self.now.asked.now.closures.items }
        requires within { n < length self.now.job.now.outputs.items }
        ensures { IsTesting self.now.job.now self.now.permitted.now self.now.records.now
            self.now.asked.now.closures.items (checks_at n) result }
    {
        self.test_size(n)?;
        self.test_closure_size(alloc, n)?;
        self.test_lists(alloc, n)
    }

    // Tests that an output isn't too large, if that is asked for.
    fn test_size(&self, n: usize) -> Result<(), Reason>
        requires checks { AreJobChecks self.now.job.now self.now.asked.now.checks }
        requires testable { AreTestable self.now.job.now self.now.permitted.now
            self.now.records.now self.now.asked.now.closures.items }
        requires within { n < length self.now.job.now.outputs.items }
        ensures { IsTesting self.now.job.now self.now.permitted.now self.now.records.now
            self.now.asked.now.closures.items (OfSize n ∷ []) result }
    {
        let Some(limit) = self.asked.checks.size_limit(n) else {
            return Ok(());
        };
        let Some(nar) = self.records[n].nar() else {
            return Ok(());
        };
        if limit < nar.size() {
            return Err(Reason::PastMaxSize(n));
        }
        Ok(())
    }

    // Tests that the closure of an output isn't too large, if that is asked for.
    fn test_closure_size(&self, alloc: Global, n: usize) -> Result<(), Reason>
        requires nix { self.now.job.now.profile ≡ Nix }
        requires checks { AreJobChecks self.now.job.now self.now.asked.now.checks }
        requires testable { AreTestable self.now.job.now self.now.permitted.now
            self.now.records.now self.now.asked.now.closures.items }
        requires within { n < length self.now.job.now.outputs.items }
        ensures { IsTesting self.now.job.now self.now.permitted.now self.now.records.now
            self.now.asked.now.closures.items (OfClosureSize n ∷ []) result }
    {
        let Some(limit) = self.asked.checks.closure_limit(n) else {
            return Ok(());
        };
        let Some(closure) = self.asked.closures.get(n) else {
            return Ok(());
        };
        let nars = ClosureNars::new(alloc, &self.job.outputs, self.records, &closure.records)?;
        if let Some(index) = nars.first_unknown(self.permitted, &closure.paths) {
            return Err(Reason::UnknownNar(index));
        }
        if nars.are_past(&closure.paths, limit) {
            return Err(Reason::PastMaxClosureSize(n));
        }
        Ok(())
    }

    // Tests the checks of one output that have lists.
    fn test_lists(&self, alloc: Global, n: usize) -> Result<(), Reason>
        requires nix { self.now.job.now.profile ≡ Nix }
        requires checks { AreJobChecks self.now.job.now self.now.asked.now.checks }
        requires testable { AreTestable self.now.job.now self.now.permitted.now
            self.now.records.now self.now.asked.now.closures.items }
        requires within { n < length self.now.job.now.outputs.items }
        ensures { IsTesting self.now.job.now self.now.permitted.now self.now.records.now
            self.now.asked.now.closures.items (lists_at n) result }
    {
        self.test_check(alloc, n, Check::AllowedReferences)?;
        self.test_check(alloc, n, Check::AllowedRequisites)?;
        self.test_check(alloc, n, Check::DisallowedReferences)?;
        self.test_check(alloc, n, Check::DisallowedRequisites)
    }

    // Tests one check of one output, if it is asked for.
    fn test_check(&self, alloc: Global, n: usize, check: Check) -> Result<(), Reason>
        requires nix { self.now.job.now.profile ≡ Nix }
        requires checks { AreJobChecks self.now.job.now self.now.asked.now.checks }
        requires testable { AreTestable self.now.job.now self.now.permitted.now
            self.now.records.now self.now.asked.now.closures.items }
        requires within { n < length self.now.job.now.outputs.items }
        ensures { IsTesting self.now.job.now self.now.permitted.now self.now.records.now
            self.now.asked.now.closures.items (Of n check ∷ []) result }
    {
        let Some(list) = self.asked.checks.list(alloc, self.job, n, check)? else {
            return Ok(());
        };
        let own = &self.job.outputs[n].path;
        let Some(named) = paths_listed(alloc, self.job, own, &list)? else {
            return Err(Reason::BadSpecifier(n));
        };
        let used = used_by(self.records, &self.asked.closures, n, check);
        let left_out = self.asked.checks.left_out(own);
        match first_barred(self.permitted, used, check, left_out, &named) {
            Some(index) => Err(Reason::NotAllowed(n, index)),
            None => Ok(()),
        }
    }
}
