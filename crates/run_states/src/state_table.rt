//! The state of each derivation of a plan.
ghost use Rattle.std.specs.Prelude.{◌≡◌, ◌<◌, ◌↔◌, ℕ, All, IfOk, IsTrue, MatchOption, None, length, slice_set, vec_capacity};
ghost use Rattle.std.specs.List.{slice_index_or};
ghost use Rattle.run_states.specs.WorkQueues.{AreOpening, wanted_in};
ghost use Rattle.run_states.specs.Counts.{HasCount};
ghost use Rattle.run_states.specs.StateTables.{HasBegun, IsNext, IsSettled, IsUnsettledIn, listed, table_state};
ghost use Rattle.run_states.specs.StateLists.{phase_in};
ghost use Rattle.run_states.specs.States.{Begun, Broken, Ended, Idle};
ghost use Rattle.run_states.specs.NodeStates.{Turns};
ghost use Rattle.run_states.specs.FollowedEdges.{table_followed};

use crate::node_states::{NodeState, memo_of};
use crate::precondition::Precondition;
use crate::propagate::change_state;
use crate::state::State;
use crate::states::inputs_of;
use crate::users::Users;
use crate::work_queues::WorkQueues;
use build_outcome::Reason;
use drv_graph::Plan;
use std::alloc::{AllocError, Global};
use std::marker::Model;

/// A plan, and the state of each of its derivations: of each a memo and the edges to those that
/// wait for it; and what is still to be done. An event costs a step for each edge along which an
/// end is told, and along each edge an end is told at most once.
#[derive(Debug, Drop)]
pub struct StateTable {
    plan: Plan,
    memos: Vec<NodeState>,
    users: Users,
    queues: WorkQueues,
    // Along how many edges an end was told.
    followed: usize,
}

impl Model for StateTable {
    ghost use Rattle.run_states.specs.StateTables.{StateTable};
    ghost use Rattle.run_states.specs.WorkQueues.{IsStateTable, table_by};
    ghost use Rattle.run_states.specs.FollowedEdges.{HasFollowed};

    ghost Value = { StateTable };

    ghost view = { λ c. table_by c.plan c.memos.items };

    ghost invariant = { λ c. IsStateTable c.plan c.memos.items c.users c.queues
        × HasFollowed c.plan c.memos.items c.users c.followed };
}

impl StateTable {
    /// A state table in which nothing has begun, by what is known of each derivation of the plan,
    /// at its number: its precondition, whether it is wanted, and its nearest earlier twin. An
    /// error where memory is refused, and no other. Costs a few steps for each derivation and each
    /// pair of one and what it waits for.
    pub fn open(
        alloc: Global,
        plan: Plan,
        preconditions: Vec<Precondition>,
        wanted: Vec<bool>,
        twins: Vec<Option<usize>>,
    ) -> Result<StateTable, AllocError>
        requires preconditions { length preconditions.items ≡ length plan.nodes }
        requires wanted { length wanted.items ≡ length plan.nodes }
        requires twins { length twins.items ≡ length plan.nodes }
        requires smaller { (d : ℕ) → All (λ t. t < d) (listed (slice_index_or twins.items d None)) }
        ensures graph { IfOk result (λ table. table.graph ≡ plan) }
        ensures preconditions { IfOk result (λ table. table.preconditions ≡ preconditions.items) }
        ensures wanted { IfOk result (λ table. table.wanted ≡ wanted.items) }
        ensures twins { IfOk result (λ table. table.twins ≡ twins.items) }
        ensures phases { IfOk result (λ table. length table.phases ≡ length plan.nodes) }
        ensures idle { IfOk result (λ table. (d : ℕ) → slice_index_or table.phases d Idle
            ≡ Idle) }
    {
        let users = Users::open(alloc, &plan, &twins)?;
        let memos = memos_of(alloc, &plan, &preconditions, &wanted, &twins)?;
        let queues = WorkQueues::open(alloc, &memos)?;
        Ok(StateTable {
            plan,
            memos,
            users,
            queues,
            followed: 0,
        })
    }

    /// The plan.
    pub fn plan(&self) -> &Plan
        ensures { result.now ≡ self.now.graph }
    {
        &self.plan
    }

    /// Of each derivation, at its number, whether it is wanted. An error where memory is refused,
    /// and no other.
    pub fn wanted_marks(&self, alloc: Global) -> Result<Vec<bool>, AllocError>
        ensures marks { IfOk result (λ marks. marks.items ≡ self.now.wanted) }
        ensures count { IfOk result (λ marks. length marks.items ≡ length self.now.graph.nodes) }
    {
        wanted_in(alloc, &self.memos)
    }

    /// The state of the derivation with this number.
    pub fn state(&self, d: usize) -> State
        requires { d < length self.now.graph.nodes }
        ensures { result ≡ table_state self.now d }
    {
        self.memos[d].state
    }

    /// A derivation that is wanted and can be begun, if there is one.
    pub fn next(&self) -> Option<usize>
        ensures { MatchOption result ((d : ℕ) → IsNext self.now d → ⊥) (λ d. IsNext self.now d) }
    {
        self.queues.first()
    }

    /// Begins a derivation under the lease with this number. Takes no memory.
    pub fn begin(&mut self, d: usize, lease: u64)
        requires { IsNext self.old d }
        ensures { self.new
            ≡ record self.old { phases = slice_set self.old.phases d (Begun lease) } }
    {
        self.note(d, State::Building(lease));
    }

    /// Notes that a derivation was built. Takes no memory.
    pub fn finish(&mut self, d: usize)
        requires { HasBegun self.old d }
        ensures { self.new ≡ record self.old { phases = slice_set self.old.phases d Ended } }
    {
        self.note(d, State::Done);
    }

    /// Notes that building a derivation failed. Takes no memory.
    pub fn fail(&mut self, d: usize, reason: Reason)
        requires { HasBegun self.old d }
        ensures { self.new
            ≡ record self.old { phases = slice_set self.old.phases d (Broken reason) } }
    {
        self.note(d, State::Failed(reason));
    }

    /// Whether no wanted derivation is Blocked, Ready or Building.
    pub fn settled(&self) -> bool
        ensures { IsTrue result ↔ IsSettled self.now }
    {
        self.queues.is_settled()
    }

    /// How many wanted derivations are Blocked, Ready or Building.
    pub fn unsettled(&self) -> usize
        ensures { HasCount (IsUnsettledIn self.now) result }
    {
        self.queues.unsettled()
    }

    /// Along how many edges an end was told.
    pub fn followed_edges(&self) -> usize
        ensures { result ≡ table_followed self.now }
    {
        self.followed
    }

    // Notes the state of a derivation, by its last event.
    fn note(&mut self, d: usize, state: State)
        requires within { d < length self.old.graph.nodes }
        requires turns { Turns (table_state self.old d) state }
        requires begun { phase_in state ≡ Idle → ⊥ }
        ensures { self.new
            ≡ record self.old { phases = slice_set self.old.phases d (phase_in state) } }
    {
        let followed = change_state(&self.users, &mut self.memos, &mut self.queues, d, state);
        self.followed += followed;
    }
}

// Of each of some derivations, whether it is wanted.
fn wanted_in(alloc: Global, memos: &[NodeState]) -> Result<Vec<bool>, AllocError>
    ensures { IfOk result (λ marks. marks.items ≡ wanted_in memos.now) }
{
    memos.iter().map(|memo| memo.wanted).collect(alloc)
}

// The memos of a plan on which nothing has begun, by one pass in plan order. Costs a step for
// each derivation and each pair of one and what it waits for.
fn memos_of(
    alloc: Global,
    plan: &Plan,
    preconditions: &[Precondition],
    wanted: &[bool],
    twins: &[Option<usize>],
) -> Result<Vec<NodeState>, AllocError>
    requires preconditions { length preconditions.now ≡ length plan.now.nodes }
    requires wanted { length wanted.now ≡ length plan.now.nodes }
    requires twins { length twins.now ≡ length plan.now.nodes }
    requires smaller { (d : ℕ) → All (λ t. t < d) (listed (slice_index_or twins.now d None)) }
    ensures ok { IfOk result
        (λ memos. AreOpening plan.now preconditions.now wanted.now twins.now memos.items) }
    ensures room { IfOk result (λ memos. vec_capacity memos ≡ length plan.now.nodes) }
{
    let mut memos = Vec::with_capacity(alloc, plan.len())?;
    for d in 0..plan.len() {
        let inputs = inputs_of(plan, d);
        let memo = memo_of(preconditions[d], wanted[d], twins[d], inputs, &memos);
        memos.push_reserved(memo);
    }
    Ok(memos)
}
