//! The nearest earlier twins of a plan's derivations.
ghost use Rattle.std.specs.Prelude.{◌≡◌, ◌<◌, ℕ, All, IfOk, List, None, length, vec_capacity};
ghost use Rattle.std.specs.List.{slice_index_or};
ghost use Rattle.valid_table.specs.declared.entry.Entry.{Entry};
ghost use Rattle.run_states.specs.StateTables.{AreNearest, AreWanted, listed};
ghost use Rattle.run_states.specs.Runs.{Run};

use drv_graph::Plan;
use std::alloc::{AllocError, Global};

/// Of each derivation, its nearest earlier twin: the last wanted one of a smaller number with the
/// same output paths. `wanted` says of each derivation, by its number, whether it is wanted. An
/// error where memory is refused, and no other. Costs a few steps for each derivation.
pub fn nearest_twins(
    alloc: Global,
    plan: &Plan,
    wanted: &[bool],
) -> Result<Vec<Option<usize>>, AllocError>
    requires { length wanted.now ≡ length plan.now.nodes }
    ensures ok { IfOk result (λ twins. (run : Run) (opening : List Entry) → run.graph ≡ plan.now
        → AreWanted run opening wanted.now → AreNearest run opening twins.items) }
    ensures count { IfOk result (λ twins. length twins.items ≡ length plan.now.nodes) }
    ensures smaller { IfOk result
        (λ twins. (d : ℕ) → All (λ t. t < d) (listed (slice_index_or twins.items d None))) }
    ensures room { IfOk result (λ twins. vec_capacity twins ≡ length plan.now.nodes) }
{
    // Of each first twin, the last wanted one so far.
    let mut last = vec![in alloc; None; plan.len()]?;
    let mut twins = Vec::with_capacity(alloc, plan.len())?;
    for d in 0..plan.len() {
        let first = plan.first_twin(d);
        twins.push_reserved(last[first]);
        if wanted[d] {
            last[first] = Some(d);
        }
    }
    Ok(twins)
}
