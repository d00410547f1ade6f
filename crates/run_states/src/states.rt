//! The inputs of a plan's derivations, and what the state of an input says to its users.
ghost use Rattle.std.specs.Prelude.{◌≡◌, ◌<◌, All, length, slice_get};
ghost use Rattle.run_states.specs.Runs.{inputs_at};
ghost use Rattle.run_states.specs.States.{is_bad, is_good, is_open};

use crate::state::State;
use drv_graph::Plan;

// The numbers of the inputs of the derivation with this number, in its text's order.
pub(crate) fn inputs_of(plan: &Plan, d: usize) -> &[usize]
    requires { d < length plan.now.nodes }
    ensures numbers { result.now ≡ inputs_at plan.now.nodes (slice_get plan.now.nodes d) }
    ensures smaller { All (λ input. input < d) result.now }
{
    plan.inputs(d)
}

// Whether the outputs of a derivation in this state are valid, so that its users may begin.
pub(crate) fn serves(state: State) -> bool
    ensures { result ≡ is_good state }
{
    matches!(state, State::Done | State::Reused)
}

// Whether a user of an input in this state is refused.
pub(crate) fn fails(state: State) -> bool
    ensures { result ≡ is_bad state }
{
    matches!(state, State::Failed(_) | State::Refused(_))
}

// Whether a derivation in this state is Blocked, Ready or Building.
pub(crate) fn is_open(state: State) -> bool
    ensures { result ≡ is_open state }
{
    matches!(state, State::Blocked | State::Ready | State::Building(_))
}
