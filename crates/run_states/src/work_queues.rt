//! What is still to be done of a plan: which derivations can be begun, and which ended ones have
//! users that are still to be told.
ghost use Rattle.std.specs.Prelude.{◌≡◌, ◌≤◌, ◌==◌, [], IfOk, Option, if◌then◌else◌, length, slice_get, drop};
ghost use Rattle.run_states.specs.WorkQueues.{AreQueues, IsFresh, is_blocked, is_ready, noted, settles};

use crate::node_states::NodeState;
use crate::state::State;
use crate::states::is_open;
use circular_buffer::HeapCircularBuffer;
use std::alloc::{AllocError, Global};
use std::marker::Model;

// What is still to be done of a plan. In each list is room for all that may come.
#[derive(Debug, Drop)]
pub(crate) struct WorkQueues {
    // Wanted derivations: all that are Ready, and some that have begun since. `drop_begun` takes
    // those off its start.
    ring: HeapCircularBuffer<usize>,
    // Ended derivations whose users are still to be told.
    work: HeapCircularBuffer<usize>,
    // How many wanted derivations are Blocked, Ready or Building.
    unsettled: usize,
}

impl Model for WorkQueues {
    ghost use Rattle.run_states.specs.WorkQueues.{WorkQueues};

    ghost Value = { WorkQueues };

    ghost view = { λ a. record {
      ring = a.ring.items;
      room = a.ring.capacity;
      work = a.work.items;
      space = a.work.capacity;
      unsettled = a.unsettled;
    } };
}

impl WorkQueues {
    // The work queues of derivations with these memos. Takes memory for all that may come.
    pub(crate) fn open(alloc: Global, memos: &[NodeState]) -> Result<WorkQueues, AllocError>
        ensures is { IfOk result (λ queues. AreQueues memos.now queues) }
        ensures fresh { IfOk result (λ queues. IsFresh memos.now queues) }
        ensures none { IfOk result (λ queues. queues.work ≡ []) }
        ensures room { IfOk result (λ queues. queues.room ≡ length memos.now) }
        ensures space { IfOk result (λ queues. queues.space ≡ length memos.now) }
    {
        let mut ring = HeapCircularBuffer::with_capacity(alloc, memos.len())?;
        let work = HeapCircularBuffer::with_capacity(alloc, memos.len())?;
        let mut unsettled = 0;
        for (d, memo) in memos.iter().enumerate() {
            if memo.wanted && is_open(memo.state) {
                unsettled += 1;
                if is_ready(memo.state) {
                    ring.push_back(d);
                }
            }
        }
        Ok(WorkQueues {
            ring,
            work,
            unsettled,
        })
    }

    // The first in the ring: it can be begun, or has begun.
    pub(crate) fn first(&self) -> Option<usize>
        ensures { result ≡ slice_get self.now.ring 0 }
    {
        self.ring.front().copied()
    }

    // Whether no wanted derivation is Blocked, Ready or Building.
    pub(crate) fn is_settled(&self) -> bool
        ensures { result ≡ (self.now.unsettled == 0) }
    {
        self.unsettled == 0
    }

    // How many wanted derivations are Blocked, Ready or Building.
    pub(crate) fn unsettled(&self) -> usize
        ensures { result ≡ self.now.unsettled }
    {
        self.unsettled
    }

    // Notes that the memo of derivation `d` changed from `before` to `after`. Takes no memory.
    pub(crate) fn note(&mut self, d: usize, before: NodeState, after: NodeState)
        requires room { length (noted self.old d before after).ring ≤ self.old.room }
        requires space { length (noted self.old d before after).work ≤ self.old.space }
        requires unsettled { (if settles before after then 1 else 0) ≤ self.old.unsettled }
        ensures { self.new ≡ noted self.old d before after }
    {
        if after.wanted && is_blocked(before.state) && is_ready(after.state) {
            self.ring.push_back(d);
        }
        if is_open(before.state) && !is_open(after.state) {
            self.work.push_back(d);
            if after.wanted {
                self.unsettled -= 1;
            }
        }
    }

    // Takes the first ended derivation off the work: its users are to be told.
    pub(crate) fn take(&mut self) -> Option<usize>
        ensures value { result ≡ slice_get self.old.work 0 }
        ensures rest { self.new ≡ record self.old { work = drop 1 self.old.work } }
    {
        self.work.pop_front()
    }

    // Takes derivations that have begun off the start of the ring.
    pub(crate) fn drop_begun(&mut self, memos: &[NodeState])
        requires { AreQueues memos.now self.old }
        ensures is { AreQueues memos.now self.new }
        ensures fresh { IsFresh memos.now self.new }
        ensures work { self.new.work ≡ self.old.work }
    {
        while let Some(&d) = self.ring.front() {
            if is_ready(memos[d].state) {
                return;
            }
            self.ring.pop_front();
        }
    }
}

// Whether a state is Ready.
fn is_ready(state: State) -> bool
    ensures { result ≡ is_ready state }
{
    matches!(state, State::Ready)
}

// Whether a state is Blocked.
fn is_blocked(state: State) -> bool
    ensures { result ≡ is_blocked state }
{
    matches!(state, State::Blocked)
}
