//! Rising lists of paths, put together.
ghost use Rattle.std.specs.Prelude.{◌≡◌, ◌+◌, [], IfOk, MatchOption, length, vec_capacity};
ghost use Rattle.nix_names.specs.Rising.{IsRising};
ghost use Rattle.valid_table.specs.private.Merging.{IsLeastHead};
ghost use Rattle.valid_table.specs.Unions.{IsUnion};

use nix_names::StorePath;
use std::alloc::{AllocError, Global};
use std::cmp::Ordering;

/// The union of two strictly rising lists of paths: each path of either, strictly rising. Want of
/// memory is its only fault. Costs one pass over both, and takes room for the paths of both.
pub fn union(
    alloc: Global,
    left: &[StorePath],
    right: &[StorePath],
) -> Result<Vec<StorePath>, AllocError>
    requires left { IsRising left.now }
    requires right { IsRising right.now }
    ensures ok { IfOk result (λ paths. IsUnion left.now right.now paths.items) }
    ensures room { IfOk result
        (λ paths. vec_capacity paths ≡ length left.now + length right.now) }
{
    let mut paths = Vec::with_capacity(alloc, left.len() + right.len())?;
    let mut more = left;
    let mut others = right;
    'paths: while let Some((path, after, beside)) = least(more, others) {
        paths.push_reserved(path.copy(alloc)?);
        more = after;
        others = beside;
    }
    Ok(paths)
}

// The least path of two rising lists, and what is left of each list without it.
fn least<'a>(
    left: &'a [StorePath],
    right: &'a [StorePath],
) -> Option<(&'a StorePath, &'a [StorePath], &'a [StorePath])>
    ensures { MatchOption result ((left.now ≡ []) × (right.now ≡ []))
        (λ x. IsLeastHead left.now right.now x.0.now x.1.now x.2.now) }
{
    match (left, right) {
        ([], []) => None,
        ([path, more @ ..], []) => Some((path, more, right)),
        ([], [path, others @ ..]) => Some((path, left, others)),
        ([path, more @ ..], [other, others @ ..]) => match path.cmp(other) {
            Ordering::Less => Some((path, more, right)),
            Ordering::Equal => Some((path, more, others)),
            Ordering::Greater => Some((other, left, others)),
        },
    }
}
