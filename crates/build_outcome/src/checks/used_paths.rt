//! The paths that an output uses, and the first that a check bars.
ghost use Rattle.std.specs.Prelude.{[], ◌≡◌, ◌≢◌, ◌<◌, ◌↔◌, All, Contains, IsTrue, List, MatchOption, None, Some, length, slice_get, ℕ};
ghost use Rattle.nix_names.specs.Rising.{IsRising};
ghost use Rattle.drv_graph.specs.declared.profile.Profile.TheVariants.{Nix};
ghost use Rattle.build_outcome.specs.Checks.{HaveClosures, IsFirstPath, list_of};
ghost use Rattle.build_outcome.specs.Verdicts.{outputs_of};
ghost use Rattle.build_outcome.specs.private.Testing.{AreTestable, AreUsed, IsBarred, bars, shown_path};

use crate::checks::check::Check;
use crate::checks::closure::OutputClosure;
use crate::checks::path_order::{index_among, is_among};
use nix_names::StorePath;
use valid_table::Record;

// The paths that the output with this number may use by a check: its references, or those of its
// closure.
pub(crate) fn used_by<'a>(
    records: &'a [Record],
    closures: &'a [OutputClosure],
    n: usize,
    check: Check,
) -> &'a [StorePath]
    requires { n < length records.now }
    ensures testable { (job : _) (permitted : List (List ℕ))
        → AreTestable job permitted records.now closures.now
        → IsRising result.now × All (Contains permitted) result.now }
    ensures used { (registrations : _) (job : _) (own : List ℕ)
        → HaveClosures registrations job records.now closures.now → job.profile ≡ Nix
        → list_of job n check ≢ None → slice_get (outputs_of job) n ≡ Some own
        → AreUsed registrations job records.now check n own result.now }
{
    match check {
        Check::AllowedReferences | Check::DisallowedReferences => records[n].references(),
        Check::AllowedRequisites | Check::DisallowedRequisites => requisites_at(closures, n),
    }
}

// The paths of the closure with this number, if there is one.
fn requisites_at(closures: &[OutputClosure], n: usize) -> &[StorePath]
    ensures some { (closure : _) → slice_get closures.now n ≡ Some closure
        → result.now ≡ closure.paths.items }
    ensures none { slice_get closures.now n ≡ None → result.now ≡ [] }
{
    match closures.get(n) {
        Some(closure) => &closure.paths,
        None => &[],
    }
}

// The index of the first of these paths among the permitted ones, if there are any.
pub(crate) fn first_index(permitted: &[StorePath], paths: &[StorePath]) -> Option<usize>
    requires permitted { IsRising permitted.now }
    requires paths { IsRising paths.now × All (Contains permitted.now) paths.now }
    ensures { MatchOption result ((path : List ℕ) → Contains paths.now path → ⊥)
        (λ index. IsFirstPath permitted.now (λ path. Contains paths.now path) index) }
{
    match paths.first() {
        Some(first) => index_among(permitted, first),
        None => None,
    }
}

// The index, among the permitted paths, of the first path used that a check bars, where its list
// names these paths, and where one path may be left out. Costs a binary search for each path used.
pub(crate) fn first_barred(
    permitted: &[StorePath],
    used: &[StorePath],
    check: Check,
    left_out: Option<&StorePath>,
    named: &[StorePath],
) -> Option<usize>
    requires permitted { IsRising permitted.now }
    requires used { IsRising used.now × All (Contains permitted.now) used.now }
    requires named { IsRising named.now }
    ensures { MatchOption result ((path : List ℕ) → Contains used.now path
        → IsBarred named.now check (shown_path left_out.entry) path → ⊥)
        (λ index. IsFirstPath permitted.now
        (λ path. Contains used.now path
        × IsBarred named.now check (shown_path left_out.entry) path) index) }
{
    for path in used {
        if is_barred(named, check, left_out, path) {
            return index_among(permitted, path);
        }
    }
    None
}

// Whether a check, whose list names these paths, bars a path that an output may use, where one path
// may be left out.
fn is_barred(
    named: &[StorePath],
    check: Check,
    left_out: Option<&StorePath>,
    path: &StorePath,
) -> bool
    requires { IsRising named.now }
    ensures { IsTrue result ↔ IsBarred named.now check (shown_path left_out.entry) path.now }
{
    bars(check, is_among(named, path), is_left_out(left_out, path))
}

// Whether a path is the one that is left out.
fn is_left_out(left_out: Option<&StorePath>, path: &StorePath) -> bool
    ensures { IsTrue result ↔ (shown_path left_out.entry ≡ Some path.now) }
{
    match left_out {
        Some(own) => path == own,
        None => false,
    }
}

// Whether a check bars a path, by whether its list names the path, and whether the path is left
// out.
fn bars(check: Check, is_named: bool, is_left_out: bool) -> bool
    ensures { result ≡ bars check is_named is_left_out }
{
    match check {
        Check::AllowedReferences => !is_named,
        Check::AllowedRequisites => !is_named && !is_left_out,
        Check::DisallowedReferences => is_named,
        Check::DisallowedRequisites => is_named && !is_left_out,
    }
}
