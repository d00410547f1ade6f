//! What is foretold of all derivations of a plan, by one pass in the order of the plan.
ghost use Rattle.std.specs.Prelude.{◌≡◌, ◌<◌, All, IfOk, List, false, if◌then◌else◌, length, slice_get, vec_capacity};
ghost use Rattle.valid_table.specs.declared.entry.Entry.{Entry};
ghost use Rattle.run_states.specs.StateTables.{ArePreconditions, AreWanted};
ghost use Rattle.run_states.specs.Runs.{Run, inputs_at, terms_of};
ghost use Rattle.run_states.specs.States.{by_hindrance, by_inputs, by_validity, is_done, is_good, is_open};
ghost use Rattle.run_states.specs.declared.state.State.TheVariants.{Reused};
ghost use Rattle.run_report.specs.Forecasts.{built_if_ready};
ghost use Rattle.run_report.specs.private.Holding.{AreClosed, AreForetold, state_at};

use drv_graph::Plan;
use run_states::{Precondition, Refusal, State};
use std::alloc::{AllocError, Global};

// The states that are foretold of a plan's derivations, by their preconditions and by which of them
// are wanted. Costs a step for each derivation, and for each of its inputs.
pub(crate) fn foretold(
    alloc: Global,
    plan: &Plan,
    preconditions: &[Precondition],
    wanted: &[bool],
) -> Result<Vec<State>, AllocError>
    requires preconditions { length preconditions.now ≡ length plan.now.nodes }
    requires wanted { length wanted.now ≡ length plan.now.nodes }
    ensures ok { IfOk result (λ states. (run : Run) (opening : List Entry) → run.graph ≡ plan.now
        → ArePreconditions (terms_of run) opening plan.now.nodes preconditions.now
        → AreWanted run opening wanted.now → AreForetold run opening states.items) }
    ensures room { IfOk result (λ states. vec_capacity states ≡ length plan.now.nodes) }
{
    // Of each first twin, whether one of its wanted twins up to here is built.
    let mut built = vec![in alloc; false; plan.len()]?;
    let mut states = Vec::with_capacity(alloc, plan.len())?;
    for d in 0..plan.len() {
        let first = plan.first_twin(d);
        let inputs = inputs_of(plan, d);
        let state = state_of(preconditions[d], built[first], inputs, &states);
        if wanted[d] && is_done(state) {
            built[first] = true;
        }
        states.push_reserved(state);
    }
    Ok(states)
}

// The numbers of the inputs of the derivation with this number, in its text's order.
fn inputs_of(plan: &Plan, d: usize) -> &[usize]
    requires { d < length plan.now.nodes }
    ensures numbers { result.now ≡ inputs_at plan.now.nodes (slice_get plan.now.nodes d) }
    ensures smaller { All (λ input. input < d) result.now }
{
    plan.inputs(d)
}

// The state of a derivation with this precondition and these inputs, by whether an earlier twin is
// built, and by the states of the derivations before it.
fn state_of(
    precondition: Precondition,
    has_built_twin: bool,
    inputs: &[usize],
    earlier: &[State],
) -> State
    requires within { All (λ input. input < length earlier.now) inputs.now }
    requires closed { AreClosed earlier.now }
    ensures by { result ≡ built_if_ready (by_validity precondition (if has_built_twin then Reused
        else by_hindrance precondition (by_inputs (state_at earlier.now) inputs.now))) }
    ensures closed { is_open result ≡ false }
{
    match precondition {
        Precondition::AllValid => State::Reused,
        _ if has_built_twin => State::Reused,
        Precondition::Hindered(cause) => State::Refused(cause),
        Precondition::Free => state_by_inputs(inputs, earlier),
    }
}

// The state of a derivation that only its inputs can keep from being begun: it is refused for the
// first of them that is refused.
fn state_by_inputs(inputs: &[usize], earlier: &[State]) -> State
    requires within { All (λ input. input < length earlier.now) inputs.now }
    requires closed { AreClosed earlier.now }
    ensures by { result ≡ built_if_ready (by_inputs (state_at earlier.now) inputs.now) }
    ensures closed { is_open result ≡ false }
{
    for input in inputs {
        if !is_good(earlier[*input]) {
            return State::Refused(Refusal::InputNotRealised(*input));
        }
    }
    State::Done
}

// Whether a derivation in this state is built.
fn is_done(state: State) -> bool
    ensures { result ≡ is_done state }
{
    matches!(state, State::Done)
}

// Whether a derivation in this state is built or reused.
pub(crate) fn is_good(state: State) -> bool
    ensures { result ≡ is_good state }
{
    matches!(state, State::Done | State::Reused)
}
