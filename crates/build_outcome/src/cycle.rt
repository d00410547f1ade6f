//! Whether outputs refer to each other in a cycle.
ghost use Rattle.std.specs.Prelude.{◌≡◌, ◌↔◌, IfOk, IsTrue, length};
ghost use Rattle.build_outcome.specs.Verdicts.{IsCyclic};

use crate::links::links_among;
use crate::walk::has_round;
use nix_names::StorePath;
use std::alloc::{AllocError, Global};
use valid_table::Record;

/// Whether two different outputs lead to each other by references among the outputs, by their paths
/// and records. An error where memory is refused, and no other. Costs a look-up for each reference,
/// and a step for each that is found.
pub fn is_cyclic(alloc: Global, paths: &[StorePath], records: &[Record]) -> Result<bool, AllocError>
    requires { length records.now ≡ length paths.now }
    ensures { IfOk result (λ cyclic. IsTrue cyclic ↔ IsCyclic paths.now records.now) }
{
    let links = links_among(alloc, paths, records)?;
    has_round(alloc, &links)
}
