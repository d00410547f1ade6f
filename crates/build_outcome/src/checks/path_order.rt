//! Where a path stands among paths in rising order.
ghost use Rattle.std.specs.Prelude.{◌≡◌, ◌↔◌, Contains, IsTrue, List, MatchOption, Some, slice_get, ℕ};
ghost use Rattle.nix_names.specs.Rising.{IsRising};

use nix_names::StorePath;

// The index of a path among paths in rising order. Costs a binary search.
pub(crate) fn index_among(paths: &[StorePath], path: &StorePath) -> Option<usize>
    requires { IsRising paths.now }
    ensures { MatchOption result (Contains paths.now path.now → ⊥)
        (λ index. slice_get paths.now index ≡ Some path.now) }
{
    match paths.binary_search(path) {
        Ok(index) => Some(index),
        Err(_) => None,
    }
}

/// Whether a path is one of some paths in rising order. Costs a binary search.
pub fn is_among(paths: &[StorePath], path: &StorePath) -> bool
    requires { IsRising paths.now }
    ensures { IsTrue result ↔ Contains paths.now path.now }
{
    index_among(paths, path).is_some()
}
