//! Paths in rising order.
ghost use Rattle.std.specs.Prelude.{◌↔◌, Contains, List, ℕ};
ghost use Rattle.nix_names.specs.Rising.{IsRising};

use crate::store_path::StorePath;

/// The paths, once each, in strictly rising order of their bytes. Takes no memory. Costs one sort.
pub fn sort_paths(paths: Vec<StorePath>) -> Vec<StorePath>
    ensures rising { IsRising result.items }
    ensures same { (path : List ℕ) → Contains result.items path ↔ Contains paths.items path }
{
    let mut sorted = paths;
    sorted.sort_unstable();
    sorted.dedup();
    sorted
}
