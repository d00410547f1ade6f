//! The line that tells that derivations of a plan have the same outputs.
ghost use Rattle.std.specs.Prelude.{◌↔◌, IfOk, IsTrue};
ghost use Rattle.nix_realise.specs.Planning.{HasTwins, IsTwinsText};

use drv_graph::Plan;
use std::alloc::{AllocError, Global};

// The line.
const TWINS_LINE: &[u8; 118] =
    b"nix_realise: run: derivations share outputs, so a run that is killed and started again may end otherwise than one run\n";

/// What `plan` tells standard error: that line, where two derivations of the plan have the same
/// outputs, and else nothing. Costs a look at each derivation.
pub fn twins_line(alloc: Global, plan: &Plan) -> Result<Vec<u8>, AllocError>
    ensures { IfOk result (λ text. IsTwinsText plan.now.nodes text.items) }
{
    if has_twins(plan) {
        Vec::from_slice(alloc, TWINS_LINE)
    } else {
        Ok(Vec::new(alloc))
    }
}

// Whether two derivations of a plan have the same outputs.
fn has_twins(plan: &Plan) -> bool
    ensures { IsTrue result ↔ HasTwins plan.now.nodes }
{
    'numbers: for number in 0..plan.len() {
        if plan.first_twin(number) != number {
            return true;
        }
    }
    false
}
