//! How the state of a derivation changes, and how all that wait for it are told.
ghost use Rattle.std.specs.Prelude.{◌≡◌, ◌<◌, ◌+◌, ◌^◌, [], ℕ, length, slice_set};
ghost use Rattle.run_states.specs.WorkQueues.{AreSameElse, IsSpreading, IsSteady, phases_in, preconditions_in, to_end, twins_in, wanted_in};
ghost use Rattle.run_states.specs.StateTables.{Awaited};
ghost use Rattle.run_states.specs.StateLists.{kept, phase_in};
ghost use Rattle.run_states.specs.States.{Idle};
ghost use Rattle.run_states.specs.NodeStates.{Turns, states_in};
ghost use Rattle.run_states.specs.FollowedEdges.{open_edges, sizes};
ghost use Rattle.run_states.specs.Users.{users_of, users_of_all};

use crate::node_states::{NodeState, input_ended};
use crate::state::State;
use crate::states::serves;
use crate::users::Users;
use crate::work_queues::WorkQueues;

// An event after which a derivation has this state. If it has ended then, its users are told, and
// the users of each one that ends by being told. Takes no memory. Answers along how many edges an
// end was told; costs a step, and two for each of these edges.
pub(crate) fn change_state(
    users: &Users,
    memos: &mut [NodeState],
    queues: &mut WorkQueues,
    d: usize,
    state: State,
) -> usize
    requires within { d < length memos.old }
    requires turns { Turns (kept (states_in memos.old) d) state }
    requires begun { phase_in state ≡ Idle → ⊥ }
    requires steady { (awaited : ℕ → Awaited)
        × IsSteady awaited users.now memos.old queues.old }
    requires few { open_edges (sizes users.now) memos.old < 2 ^ 64 }
    ensures steady { (awaited : ℕ → Awaited) → IsSteady awaited users.now memos.old queues.old
        → IsSteady awaited users.now memos.new queues.new }
    ensures preconditions { preconditions_in memos.new ≡ preconditions_in memos.old }
    ensures wanted { wanted_in memos.new ≡ wanted_in memos.old }
    ensures twins { twins_in memos.new ≡ twins_in memos.old }
    ensures phases { phases_in memos.new ≡ slice_set (phases_in memos.old) d (phase_in state) }
    ensures followed { result + open_edges (sizes users.now) memos.new
        ≡ open_edges (sizes users.now) memos.old }
{
    let before = memos[d];
    let after = NodeState { state, ..before };
    memos[d] = after;
    queues.note(d, before, after);
    let followed = spread_ends(users, memos, queues);
    queues.drop_begun(memos);
    followed
}

// Tells the ends of all that are in the queues' work, and of all that come there meanwhile.
// Answers how many edges it followed.
fn spread_ends(users: &Users, memos: &mut [NodeState], queues: &mut WorkQueues) -> usize
    requires told { (awaited : ℕ → Awaited)
        × IsSpreading awaited users.now memos.old queues.old [] }
    requires few { open_edges (sizes users.now) memos.old
        + length (users_of_all users.now queues.old.work) < 2 ^ 64 }
    ensures told { (awaited : ℕ → Awaited) → IsSpreading awaited users.now memos.old queues.old []
        → IsSpreading awaited users.now memos.new queues.new [] }
    ensures none { queues.new.work ≡ [] }
    ensures same { AreSameElse memos.old memos.new }
    ensures edges { result + open_edges (sizes users.now) memos.new
        ≡ open_edges (sizes users.now) memos.old
        + length (users_of_all users.now queues.old.work) }
{
    let mut edges: usize = 0;
    while let Some(ended) = queues.take() {
        edges += tell_users(users, ended, memos, queues);
    }
    edges
}

// Tells those that wait for a derivation that it was built or was valid, or failed or is refused.
// Answers how many edges it followed.
fn tell_users(
    users: &Users,
    ended: usize,
    memos: &mut [NodeState],
    queues: &mut WorkQueues,
) -> usize
    requires within { ended < length memos.old }
    requires told { (awaited : ℕ → Awaited)
        × IsSpreading awaited users.now memos.old queues.old (users_of users.now ended) }
    ensures told { (awaited : ℕ → Awaited)
        → IsSpreading awaited users.now memos.old queues.old (users_of users.now ended)
        → IsSpreading awaited users.now memos.new queues.new [] }
    ensures same { AreSameElse memos.old memos.new }
    ensures measure { to_end memos.new queues.new ≡ to_end memos.old queues.old }
    ensures edges { result ≡ sizes users.now ended }
    ensures ahead { open_edges (sizes users.now) memos.new
        + length (users_of_all users.now queues.new.work)
        ≡ open_edges (sizes users.now) memos.old
        + length (users_of_all users.now queues.old.work) }
{
    let good = serves(memos[ended].state);
    let edges = users.of(ended);
    for &edge in edges {
        let before = memos[edge.user];
        let after = input_ended(before, edge.index, ended, good);
        memos[edge.user] = after;
        queues.note(edge.user, before, after);
    }
    edges.len()
}
