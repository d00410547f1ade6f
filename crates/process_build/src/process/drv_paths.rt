//! The paths of a run's derivations, by their numbers in the plan.
ghost use Rattle.std.specs.Prelude.{◌≡◌, IfOk, option_map, slice_get};
ghost use Rattle.drv_graph.specs.Nodes.{paths_of};

use drv_graph::Plan;
use nix_names::StorePath;
use std::alloc::{AllocError, Global};
use std::marker::Model;
use std::sync::Arc;

/// The paths of a plan's derivations: the one with number n is that of derivation n. A contract
/// sees the list, which all copies share, in any threads.
#[derive(Debug, Drop)]
pub struct DrvPaths {
    shared: Arc<Vec<StorePath>>,
}

impl Model for DrvPaths {
    ghost use Rattle.std.specs.Prelude.{List, ℕ};

    ghost Value = { List (List ℕ) };

    ghost view = { λ paths. paths.shared.value.items };
}

impl DrvPaths {
    /// The paths of a plan's derivations. Costs two allocations, and 8 bytes for each path: the
    /// texts are the plan's own.
    pub fn of(alloc: Global, plan: &Plan) -> Result<DrvPaths, AllocError>
        ensures { IfOk result (λ paths. paths ≡ paths_of plan.now.nodes) }
    {
        let paths = copy_paths(alloc, plan)?;
        Ok(DrvPaths {
            shared: Arc::new(alloc, paths)?,
        })
    }

    /// The path of the derivation with this number, if the plan has it.
    pub fn get(&self, number: usize) -> Option<&StorePath>
        ensures { option_map (λ path. path.now) result ≡ slice_get self.now number }
    {
        self.shared.get(number)
    }

    /// A copy of the paths. Costs no allocation: it counts one more owner, so `AllocError` comes
    /// only where the count is full, at 2^63.
    pub fn copy(&self) -> Result<DrvPaths, AllocError>
        ensures { IfOk result (λ paths. paths ≡ self.now) }
    {
        Ok(DrvPaths {
            shared: self.shared.clone()?,
        })
    }
}

// Copies of the paths of a plan's derivations, by number.
fn copy_paths(alloc: Global, plan: &Plan) -> Result<Vec<StorePath>, AllocError>
    ensures { IfOk result (λ paths. paths.items ≡ paths_of plan.now.nodes) }
{
    let mut paths = Vec::with_capacity(alloc, plan.len())?;
    for number in 0..plan.len() {
        paths.push_reserved(plan.path(number).copy(alloc)?);
    }
    Ok(paths)
}
