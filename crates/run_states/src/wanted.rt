//! Which derivations of a plan are wanted.
ghost use Rattle.std.specs.Prelude.{◌≡◌, ◌<◌, ◌↔◌, ◌⊎◌, All, Contains, IfOk, IsTrue, List, false, length, true};
ghost use Rattle.std.specs.List.{slice_index_or};
ghost use Rattle.valid_table.specs.declared.entry.Entry.{Entry};
ghost use Rattle.run_states.specs.StateTables.{ArePreconditions, AreWanted};
ghost use Rattle.run_states.specs.Runs.{Run, terms_of};

use crate::precondition::Precondition;
use drv_graph::Plan;
use std::alloc::{AllocError, Global};

/// Whether each derivation is wanted, by the preconditions of all. An error where memory is
/// refused, and no other. Linear in the pairs of a user and an input.
pub fn wanted_of(
    alloc: Global,
    plan: &Plan,
    preconditions: &[Precondition],
) -> Result<Vec<bool>, AllocError>
    requires { length preconditions.now ≡ length plan.now.nodes }
    ensures ok { IfOk result (λ wanted. (run : Run) (opening : List Entry) → run.graph ≡ plan.now
        → ArePreconditions (terms_of run) opening plan.now.nodes preconditions.now
        → AreWanted run opening wanted.items) }
    ensures count { IfOk result (λ wanted. length wanted.items ≡ length plan.now.nodes) }
{
    let mut wanted = vec![in alloc; false; plan.len()]?;
    mark(&mut wanted, plan.roots());
    for d in (0..plan.len()).rev() {
        if wanted[d] && is_free(preconditions[d]) {
            mark(&mut wanted, plan.inputs(d));
        }
    }
    Ok(wanted)
}

// Whether a precondition is `Free`.
fn is_free(precondition: Precondition) -> bool
    ensures { IsTrue result ↔ (precondition ≡ Precondition.Free) }
{
    matches!(precondition, Precondition::Free)
}

/// Sets the marks at these numbers, and no others. Costs a step for each number.
pub fn mark(wanted: &mut [bool], numbers: &[usize])
    requires { All (λ number. number < length wanted.old) numbers.now }
    ensures count { length wanted.new ≡ length wanted.old }
    ensures each { (d : _) → (slice_index_or wanted.new d false ≡ true)
        ↔ ((slice_index_or wanted.old d false ≡ true) ⊎ Contains numbers.now d) }
{
    for number in numbers {
        wanted[*number] = true;
    }
}
