//! What is kept of a derivation, so that its state needs no look at what it waits for.
ghost use Rattle.std.specs.Prelude.{◌≡◌, ◌<◌, ◌++◌, All, List, Option, Some, false, ℕ, if◌then◌else◌, length, map, slice_set};
ghost use Rattle.run_states.specs.StateTables.{Awaited, listed};
ghost use Rattle.run_states.specs.StateLists.{kept, phase_in};
ghost use Rattle.run_states.specs.Nearest.{News, Open};
ghost use Rattle.run_states.specs.States.{Idle, by_first, by_hindrance, by_phase, by_validity};
ghost use Rattle.run_states.specs.NodeStates.{CanHear, Hears, IsSameElse, IsMemo, Turns, by_all, is_held, news_by, news_in, states_in};
ghost use Rattle.run_states.specs.declared.state.State.TheVariants.{Blocked};

use crate::precondition::Precondition;
use crate::state::{Refusal, State};
use crate::states::{fails, is_open, serves};

// What is kept of a derivation: its precondition, whether it is wanted, its nearest earlier twin,
// its state, how many inputs it has, how many of these are neither Done nor Reused, the index of
// the first that failed or is refused (where none did, the number of inputs) with its number, and
// whether the twin is Blocked, Ready or Building.
#[derive(Clone, Copy, Debug)]
pub(crate) struct NodeState {
    pub(crate) precondition: Precondition,
    pub(crate) wanted: bool,
    pub(crate) twin: Option<usize>,
    pub(crate) state: State,
    pub(crate) inputs: usize,
    pub(crate) waits: usize,
    pub(crate) first: usize,
    pub(crate) failed: Option<usize>,
    pub(crate) held: bool,
}

// The memo of a derivation that hasn't begun, by the memos of its inputs and of its nearest
// earlier twin, which are among these.
pub(crate) fn memo_of(
    precondition: Precondition,
    wanted: bool,
    twin: Option<usize>,
    inputs: &[usize],
    memos: &[NodeState],
) -> NodeState
    requires inputs { All (λ input. input < length memos.now) inputs.now }
    requires twin { All (λ t. t < length memos.now) (listed twin) }
    ensures hears { Hears (record { inputs = inputs.now; twins = listed twin })
        (kept (states_in memos.now)) (λ index. 0) result }
    ensures precondition { result.precondition ≡ precondition }
    ensures wanted { result.wanted ≡ wanted }
    ensures twin { result.twin ≡ twin }
    ensures idle { phase_in result.state ≡ Idle }
{
    let memo = memo_by_inputs(precondition, wanted, twin, inputs, memos);
    let Some(t) = twin else {
        return memo;
    };
    let ahead = memos[t].state;
    if is_open(ahead) {
        memo
    } else {
        hear_twin_end(memo, serves(ahead))
    }
}

// The memo of a derivation that hasn't begun, by the memos of its inputs, as though nothing were
// known of its nearest earlier twin.
fn memo_by_inputs(
    precondition: Precondition,
    wanted: bool,
    twin: Option<usize>,
    inputs: &[usize],
    memos: &[NodeState],
) -> NodeState
    requires { All (λ input. input < length memos.now) inputs.now }
    ensures is { IsMemo (record { inputs = inputs.now; twins = listed twin })
        (news_in (kept (states_in memos.now)) inputs.now ++ map (λ t. Open) (listed twin))
        result }
    ensures precondition { result.precondition ≡ precondition }
    ensures wanted { result.wanted ≡ wanted }
    ensures twin { result.twin ≡ twin }
    ensures idle { phase_in result.state ≡ Idle }
{
    let mut waits = inputs.len();
    let mut first = inputs.len();
    for (index, &input) in inputs.iter().enumerate() {
        let state = memos[input].state;
        if serves(state) {
            waits -= 1;
        } else if index < first && fails(state) {
            first = index;
        }
    }
    let failed = inputs.get(first).copied();
    let held = twin.is_some();
    let state = opening_state(precondition, held, failed, waits == 0);
    NodeState {
        precondition,
        wanted,
        twin,
        state,
        inputs: inputs.len(),
        waits,
        first,
        failed,
        held,
    }
}

// The memo of a derivation that is told of the end of another one, which stands at this index
// among what it waits for: that one was built or was valid, or it failed or is refused. The index
// after the inputs is that of the nearest earlier twin.
pub(crate) fn input_ended(memo: NodeState, index: usize, ended: usize, good: bool) -> NodeState
    requires { (awaited : Awaited) × (heard : List News) × CanHear awaited heard memo index ended }
    ensures is { (awaited : Awaited) (heard : List News) → CanHear awaited heard memo index ended
        → IsMemo awaited (slice_set heard index (news_by good)) result }
    ensures same { IsSameElse memo result }
    ensures turns { Turns memo.state result.state }
{
    if index == memo.inputs {
        hear_twin_end(memo, good)
    } else if good {
        let waits = memo.waits - 1;
        let state = state_after_good(memo.state, memo.held, waits == 0);
        NodeState {
            state,
            waits,
            ..memo
        }
    } else if index < memo.first {
        let state = state_after_bad(memo.precondition, memo.state, memo.held, ended);
        NodeState {
            state,
            first: index,
            failed: Some(ended),
            ..memo
        }
    } else {
        memo
    }
}

// The memo once the nearest earlier twin has ended: it was built or was valid, or it failed or is
// refused.
fn hear_twin_end(memo: NodeState, good: bool) -> NodeState
    requires { (awaited : Awaited) × (heard : List News) × (twin : ℕ)
        × CanHear awaited heard memo memo.inputs twin }
    ensures is { (awaited : Awaited) (heard : List News) (twin : ℕ)
        → CanHear awaited heard memo memo.inputs twin
        → IsMemo awaited (slice_set heard memo.inputs (news_by good)) result }
    ensures same { IsSameElse memo result }
    ensures turns { Turns memo.state result.state }
{
    let state = match memo.state {
        State::Blocked => {
            if good {
                State::Reused
            } else {
                own_state(memo.precondition, memo.failed, memo.waits == 0)
            }
        }
        state => state,
    };
    NodeState {
        state,
        held: false,
        ..memo
    }
}

// The state of a derivation that hasn't begun, by whether its nearest earlier twin holds it, by the
// first of its inputs that failed or is refused, if there is one, and by whether all inputs were
// built or were valid.
fn opening_state(precondition: Precondition, held: bool, first: Option<usize>, all: bool) -> State
    ensures { result ≡ by_validity precondition
        (if held then Blocked else by_hindrance precondition (by_first first all)) }
{
    match precondition {
        Precondition::AllValid => State::Reused,
        Precondition::Hindered(_) | Precondition::Free => {
            if held {
                State::Blocked
            } else {
                own_state(precondition, first, all)
            }
        }
    }
}

// The state of a derivation that hasn't begun, by its own cause and its inputs. It has no earlier
// twin, or its nearest one failed or is refused.
fn own_state(precondition: Precondition, first: Option<usize>, all: bool) -> State
    ensures { result ≡ by_hindrance precondition (by_first first all) }
{
    match (precondition, first) {
        (Precondition::Hindered(cause), _) => State::Refused(cause),
        (_, Some(input)) => State::Refused(Refusal::InputNotRealised(input)),
        (_, None) if all => State::Ready,
        (_, None) => State::Blocked,
    }
}

// The state after one more input was built or was valid, by whether the nearest earlier twin holds
// the derivation, and by whether all inputs were built or were valid by now.
fn state_after_good(state: State, held: bool, all: bool) -> State
    ensures is { (precondition : Precondition) (twins : List News) (first : Option ℕ)
        → held ≡ is_held twins
        → state ≡ by_phase (phase_in state) (by_all precondition twins (by_first first false))
        → result ≡ by_phase (phase_in result) (by_all precondition twins (by_first first all)) }
    ensures phase { phase_in result ≡ phase_in state }
    ensures turns { Turns state result }
{
    match state {
        State::Blocked => {
            if all && !held {
                State::Ready
            } else {
                State::Blocked
            }
        }
        _ => state,
    }
}

// The state after this input failed or was refused, before all others that did.
fn state_after_bad(precondition: Precondition, state: State, held: bool, input: usize) -> State
    ensures is { (twins : List News) (first : Option ℕ) → held ≡ is_held twins
        → state ≡ by_phase (phase_in state) (by_all precondition twins (by_first first false))
        → result ≡ by_phase (phase_in result)
        (by_all precondition twins (by_first (Some input) false)) }
    ensures phase { phase_in result ≡ phase_in state }
    ensures turns { Turns state result }
{
    if held {
        return state;
    }
    match precondition {
        Precondition::Free => match state {
            State::Blocked | State::Refused(_) => {
                State::Refused(Refusal::InputNotRealised(input))
            }
            _ => state,
        },
        _ => state,
    }
}
