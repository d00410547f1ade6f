//! Rising lists of paths, put together by moving the paths.
ghost use Rattle.std.specs.Prelude.{◌≡◌, ◌≤◌, ◌++◌, IfOk, drop, length, reverse, take};
ghost use Rattle.nix_names.specs.Rising.{IsRising};
ghost use Rattle.valid_table.specs.Unions.{IsUnion};

use nix_names::StorePath;
use std::alloc::AllocError;

/// The union of two strictly rising lists, strictly rising, of which the second is meant to have
/// few paths; both are given away. The error says that memory was refused. Costs a binary search
/// for each path of the second, and a move of the paths of the first that stand above the least of
/// those; the others aren't moved, and no path is copied.
pub fn union_of(paths: Vec<StorePath>, others: Vec<StorePath>) -> Result<Vec<StorePath>, AllocError>
    requires left { IsRising paths.items }
    requires right { IsRising others.items }
    ensures { IfOk result (λ all. IsUnion paths.items others.items all.items) }
{
    let alloc = *paths.allocator();
    let mut below = paths;
    let mut left = others;
    let mut above = Vec::new(alloc);
    while let Some(path) = left.pop() {
        if let Err(index) = below.binary_search(&path) {
            take_off(&mut below, index, &mut above)?;
            above.push(path)?;
        }
    }
    above.reverse();
    below.append(&mut above)?;
    Ok(below)
}

// Moves the paths from this index on to the end of `above`, the last path first.
fn take_off(
    paths: &mut Vec<StorePath>,
    index: usize,
    above: &mut Vec<StorePath>,
) -> Result<(), AllocError>
    requires { index ≤ length paths.old.items }
    ensures below { IfOk result (λ _. paths.new.items ≡ take index paths.old.items) }
    ensures above { IfOk result
        (λ _. above.new.items ≡ above.old.items ++ reverse (drop index paths.old.items)) }
{
    let mut taken = paths.split_off(index)?;
    taken.reverse();
    above.append(&mut taken)
}
