//! Why registrations can't be taken in, found by look-ups in the rows of a table.
ghost use Rattle.std.specs.Prelude.{◌++◌, ◌↔◌, All, IsTrue, MatchOption};
ghost use Rattle.nix_names.specs.Rising.{IsRising};
ghost use Rattle.valid_table.specs.Adding.{AreClosed, AreNew};
ghost use Rattle.valid_table.specs.private.Blames.{IsBlamed, IsUnclosedAt};
ghost use Rattle.valid_table.specs.private.Entering.{IsFirstUnknownAt, IsNewPrefix};
ghost use Rattle.valid_table.specs.Entries.{paths_registered};
ghost use Rattle.valid_table.specs.Tables.{registrations_of};
ghost use Rattle.valid_table.specs.Valid.{IsValid};

use crate::entry::{Record, Registration};
use crate::path_table::obstacle::FaultAt;
use crate::path_table::rows::has_row;
use indexmap::IndexMap;
use nix_names::StorePath;

// Which registration is to blame where they can't be taken in: the first whose path has a
// row, or else the first with a reference that neither has a row nor is registered here.
pub(crate) fn blame(
    rows: &IndexMap<StorePath, Record>,
    registrations: &[Registration],
) -> Option<FaultAt>
    requires { IsRising (paths_registered registrations.now) }
    ensures { MatchOption result
        (AreNew (registrations_of rows.now.entries) registrations.now
        × AreClosed (registrations_of rows.now.entries) registrations.now)
        (IsBlamed (registrations_of rows.now.entries) registrations.now) }
{
    let registration = new_prefix_len(rows, registrations);
    if registration < registrations.len() {
        return Some(FaultAt {
            registration,
            reference: None,
        });
    }
    first_unclosed(rows, registrations)
}

// The number of registrations before the first whose path has a row.
fn new_prefix_len(rows: &IndexMap<StorePath, Record>, registrations: &[Registration]) -> usize
    ensures { IsNewPrefix (paths_registered (registrations_of rows.now.entries))
        (paths_registered registrations.now)
        result }
{
    for (count, registration) in registrations.iter().enumerate() {
        if has_row(rows, &registration.path) {
            return count;
        }
    }
    registrations.len()
}

// The first reference of registrations that neither has a row nor is registered here.
fn first_unclosed(
    rows: &IndexMap<StorePath, Record>,
    registrations: &[Registration],
) -> Option<FaultAt>
    requires { IsRising (paths_registered registrations.now) }
    ensures { MatchOption result (AreClosed (registrations_of rows.now.entries) registrations.now)
        (IsUnclosedAt (registrations_of rows.now.entries) registrations.now) }
{
    for (index, registration) in registrations.iter().enumerate() {
        let references = registration.info.references();
        if let Some(reference) = first_unknown(rows, registrations, references) {
            return Some(FaultAt {
                registration: index,
                reference: Some(reference),
            });
        }
    }
    None
}

// The index of the first of some paths that neither has a row nor is registered here.
pub(crate) fn first_unknown(
    rows: &IndexMap<StorePath, Record>,
    registrations: &[Registration],
    paths: &[StorePath],
) -> Option<usize>
    requires { IsRising (paths_registered registrations.now) }
    ensures { MatchOption result
        (All (IsValid (registrations_of rows.now.entries ++ registrations.now)) paths.now)
        (IsFirstUnknownAt
        (paths_registered (registrations_of rows.now.entries ++ registrations.now))
        paths.now) }
{
    for (index, path) in paths.iter().enumerate() {
        if !is_known(rows, registrations, path) {
            return Some(index);
        }
    }
    None
}

// Whether a path has a row or is registered here.
fn is_known(
    rows: &IndexMap<StorePath, Record>,
    registrations: &[Registration],
    path: &StorePath,
) -> bool
    requires { IsRising (paths_registered registrations.now) }
    ensures { IsTrue result
        ↔ IsValid (registrations_of rows.now.entries ++ registrations.now) path.now }
{
    has_row(rows, path) || is_registered(registrations, path)
}

// Whether a path is registered here. Costs a binary search.
fn is_registered(registrations: &[Registration], path: &StorePath) -> bool
    requires { IsRising (paths_registered registrations.now) }
    ensures { IsTrue result ↔ IsValid registrations.now path.now }
{
    let found = registrations.binary_search_by(|registration| registration.path.cmp(path));
    found.is_ok()
}
