//! The sizes of closures.
ghost use Rattle.std.specs.Prelude.{◌≡◌, ◌<◌, ◌↔◌, ◌++◌, All, Contains, IfOk, IsTrue, List, MatchOption, None, length, map, zip, ℕ};
ghost use Rattle.nix_names.specs.Rising.{IsRising};
ghost use Rattle.valid_table.specs.Entries.{paths_registered};
ghost use Rattle.build_outcome.specs.Checks.{IsFirstPath, nar_at, registration_of, size_of, size_of_all};
ghost use Rattle.build_outcome.specs.declared.job.JobOutput.{JobOutput as JobOutputStruct};
ghost use Rattle.build_outcome.specs.private.Sizing.{AreNars, kept_nar};

use crate::checks::path_order::index_among;
use crate::job::JobOutput;
use indexmap::IndexMap;
use nix_names::StorePath;
use std::alloc::{AllocError, Global};
use valid_table::{Nar, Record, Registration};

// The archives of the paths of a closure, by the records of the job's outputs and of other paths.
#[derive(Drop)]
pub(crate) struct ClosureNars<'a> {
    own: IndexMap<StorePath, Option<Nar>>,
    others: &'a [Registration],
}

impl ClosureNars<'_> {
    // Those by these records. Costs a look-up by hash for each output.
    pub(crate) fn new<'a>(
        alloc: Global,
        outputs: &[JobOutput],
        records: &[Record],
        others: &'a [Registration],
    ) -> Result<ClosureNars<'a>, AllocError>
        requires { length records.now ≡ length outputs.now }
        ensures own { IfOk result (λ nars. AreNars (kept_nar nars.own)
            (map registration_of
            (zip (map (λ (o : JobOutputStruct). o.path) outputs.now) records.now))) }
        ensures others { IfOk result (λ nars. nars.others.now ≡ others.now) }
    {
        let mut own = IndexMap::new(alloc);
        let mut n = outputs.len();
        while n > 0 {
            n -= 1;
            own.insert(outputs[n].path.copy(alloc)?, records[n].nar())?;
        }
        Ok(ClosureNars { own, others })
    }

    // The index, among the permitted paths, of the first of these whose archive isn't known. Costs
    // a look-up by hash and a binary search for each path.
    pub(crate) fn first_unknown(
        &self,
        permitted: &[StorePath],
        paths: &[StorePath],
    ) -> Option<usize>
        requires permitted { IsRising permitted.now }
        requires paths { IsRising paths.now × All (Contains permitted.now) paths.now }
        requires others { IsRising (paths_registered self.now.others.now) }
        ensures { (known : _) → AreNars (kept_nar self.now.own) known → MatchOption result
            ((path : List ℕ) → Contains paths.now path
            → nar_at (known ++ self.now.others.now) path ≡ None → ⊥)
            (λ index. IsFirstPath permitted.now (λ path. Contains paths.now path
            × (nar_at (known ++ self.now.others.now) path ≡ None)) index) }
    {
        for path in paths {
            if self.nar_of(path).is_none() {
                return index_among(permitted, path);
            }
        }
        None
    }

    // Whether the archives of these paths are longer than a limit together. Costs as
    // `first_unknown` does.
    pub(crate) fn are_past(&self, paths: &[StorePath], limit: u64) -> bool
        requires { IsRising (paths_registered self.now.others.now) }
        ensures { (known : _) → AreNars (kept_nar self.now.own) known → IsTrue result
            ↔ (limit < size_of_all (known ++ self.now.others.now) paths.now) }
    {
        let mut left = limit;
        for path in paths {
            match left.checked_sub(size_of(self.nar_of(path))) {
                Some(rest) => left = rest,
                None => return true,
            }
        }
        false
    }

    // The archive of a path, where one is known.
    fn nar_of(&self, path: &StorePath) -> Option<Nar>
        requires { IsRising (paths_registered self.now.others.now) }
        ensures { (known : _) → AreNars (kept_nar self.now.own) known
            → result ≡ nar_at (known ++ self.now.others.now) path.now }
    {
        match self.own.get(path) {
            Some(nar) => *nar,
            None => nar_among(self.others, path),
        }
    }
}

// The archive of a path, where a registration among these in order tells of one.
fn nar_among(records: &[Registration], path: &StorePath) -> Option<Nar>
    requires { IsRising (paths_registered records.now) }
    ensures { result ≡ nar_at records.now path.now }
{
    match records.binary_search_by(|record| record.path.cmp(path)) {
        Ok(index) => records[index].info.nar(),
        Err(_) => None,
    }
}

// The length of an archive, 0 where none is known.
fn size_of(nar: Option<Nar>) -> u64
    ensures { result ≡ size_of nar }
{
    match nar {
        Some(nar) => nar.size(),
        None => 0,
    }
}
