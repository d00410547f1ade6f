//! What workers do at the lock of a run: who holds it, who waits, and who is woken; and that it is
//! not held for a closure.
use crate::heard::{heard_from, heard_of};
use crate::hearing::{Act, Acts, Behaviour, Gate, by, text_of, waiting};
use crate::plans::{Host, SOME, Uses, journal, plan, random_plan};
use drv_graph::Plan;
use std::alloc::Global;
use std::test::*;
use store_run::LockCall;
use valid_table::Journal;

/// What one worker does over two links.
pub(crate) const CHAIN: &str = "Lock(Taken) Lock(Freed) Begins(0, 0, 2) Runs(0, 0) \
    Lock(Taken) Lock(Freed) Ends(0, true, 1) Begins(1, 1, 1) Runs(1, 1) \
    Lock(Taken) Lock(Freed) Lock(WakesAll) Ends(1, true, 0) Leaves ";

// What a worker does for which nothing is ready until the run ends.
const IDLE: &str = "Lock(Taken) Lock(Waits) Lock(Woken) Lock(Freed) Lock(WakesAll) Leaves ";

const BASE_AND_USER: &str = "Lock(Taken) Lock(Freed) Begins(0, 0, 3) Runs(0, 0) \
    Lock(Taken) Lock(Freed) Lock(WakesOne) Ends(0, true, 2) Begins(1, 1, 2) Runs(1, 1) \
    Lock(Taken) Lock(Freed) Ends(1, true, 1) \
    Lock(Taken) Lock(Waits) Lock(Woken) Lock(Freed) Lock(WakesAll) Leaves ";

const OTHER_USER: &str =
    "Lock(Taken) Lock(Waits) Lock(Woken) Lock(Freed) Begins(2, 2, 2) Runs(2, 2) \
    Lock(Taken) Lock(Freed) Lock(WakesAll) Ends(2, true, 0) Leaves ";

// Runs of two links, and of two users of a base: which derivations each uses, and what each worker
// does, as texts in rising order.
const ROWS: [(Uses, &[&str]); 5] = [
    (&[&[], &[0]], &[CHAIN]),
    (&[&[], &[0]], &[CHAIN, IDLE]),
    (&[&[], &[0]], &[CHAIN, IDLE, IDLE, IDLE]),
    (&[&[], &[0], &[0]], &[BASE_AND_USER, OTHER_USER]),
    (&[&[], &[0], &[0]], &[BASE_AND_USER, OTHER_USER, IDLE]),
];

// The first lease ends once all other workers wait; the first user of a base once both are under
// way, and the second one once the worker of the first one waits too. Else there is no lease 9.
fn gates(workers: usize, is_base: bool) -> [Gate; 3] {
    let (left, right) = if is_base { (1, 2) } else { (9, 9) };
    let first = waiting(0, workers.wrapping_sub(1));
    [first, (left, Act::Runs(2, 2), 1), waiting(right, workers)]
}

// What all workers of a run do, in order, each with its number.
fn acts_of<R: Host>(rt: &R, alloc: Global, plan: Plan, behaviour: Behaviour) -> Result<Acts, Fail> {
    Ok(heard_of(rt, alloc, plan, behaviour)?.0)
}

// What each worker does in a run, in rising order.
fn texts<R: Host>(rt: &R, alloc: Global, uses: Uses, workers: usize) -> Result<Vec<String>, Fail> {
    let gates = gates(workers, uses.len() > 2);
    let behaviour = by(workers, 0, &gates);
    let acts = acts_of(rt, alloc, plan(alloc, uses)?, behaviour)?;
    let mut texts = Vec::new(alloc);
    for worker in 0..workers {
        texts.push(text_of(alloc, &acts, worker)?)?;
    }
    texts.sort_unstable();
    Ok(texts)
}

// What each worker does, call by call. One that waits does nothing until it is woken. One other is
// woken where a lease is taken and another derivation is ready, and nobody where none is; all are
// at the end.
#[test]
fn calls_of_each_worker(rt: HostRuntime) -> Result<(), Fail> {
    for (uses, wanted) in ROWS {
        let texts = texts(&rt, rt.alloc(), uses, wanted.len())?;
        for (text, wanted) in texts.iter().zip(wanted) {
            assert_eq!(rt; text.as_str(), *wanted);
        }
    }
    Ok(())
}

// Whether a worker may do this next, after what it did last.
fn may_follow(last: Act, next: Act) -> bool {
    match last {
        Act::Lock(LockCall::Taken | LockCall::Woken) => {
            matches!(next, Act::Lock(LockCall::Waits | LockCall::Freed))
        }
        Act::Lock(LockCall::Waits) => next == Act::Lock(LockCall::Woken),
        Act::Lock(LockCall::Freed) => matches!(
            next,
            Act::Lock(LockCall::WakesOne | LockCall::WakesAll) | Act::Begins(..) | Act::Ends(..)
        ),
        Act::Lock(LockCall::WakesOne) => matches!(next, Act::Begins(..) | Act::Ends(..)),
        Act::Lock(LockCall::WakesAll) => matches!(next, Act::Ends(..) | Act::Leaves),
        Act::Begins(d, number, _) => next == Act::Runs(d, number),
        Act::Runs(..) => next == Act::Lock(LockCall::Taken),
        Act::Ends(..) => {
            matches!(next, Act::Begins(..) | Act::Leaves) || next == Act::Lock(LockCall::Taken)
        }
        Act::Leaves => false,
    }
}

// Who holds the lock after an act of a worker; none where the worker may not do it. It takes the
// lock where nobody has it, lets go of its own, and does all else without it.
fn holder_after(holder: Option<usize>, worker: usize, act: Act) -> Option<Option<usize>> {
    let (is_right, after) = match act {
        Act::Lock(LockCall::Taken | LockCall::Woken) => (holder.is_none(), Some(worker)),
        Act::Lock(LockCall::Freed | LockCall::Waits) => (holder == Some(worker), None),
        _ => (holder != Some(worker), holder),
    };
    if is_right { Some(after) } else { None }
}

// An act that its worker may not do then, if there is one.
type Wrong = Result<Option<(usize, Act)>, Fail>;

// The first act of `count` workers that may not follow what they did before. Each begins as one
// whose builder has heard of an end.
fn first_wrong(alloc: Global, acts: &[(usize, Act)], count: usize) -> Wrong {
    let mut last = vec![in alloc; Act::Ends(0, true, 0); count]?;
    let mut holder = None;
    for (worker, act) in acts {
        match (last.get_mut(*worker), holder_after(holder, *worker, *act)) {
            (Some(did), Some(after)) if may_follow(*did, *act) => {
                *did = *act;
                holder = after;
            }
            _ => return Ok(Some((*worker, *act))),
        }
    }
    Ok(None)
}

// The first wrong act of so many workers over 100 derivations, of which some fail.
fn first_wrong_by<R: Host>(rt: &R, alloc: Global, workers: usize) -> Wrong {
    let plan = random_plan(alloc, 100)?;
    let acts = acts_of(rt, alloc, plan, by(workers, SOME, &[]))?;
    first_wrong(alloc, &acts, workers)
}

// One worker at a time holds the lock. From its turn to its wait a worker doesn't let the lock go,
// and while it waits it does nothing. Builders run, and hear of their jobs, without the lock.
#[test]
fn one_at_a_time(rt: HostRuntime) -> Result<(), Fail> {
    for count in [1, 2, 4, 64] {
        let wrong = first_wrong_by(&rt, rt.alloc(), count)?;
        assert_eq!(rt; wrong, None, "by {count}");
    }
    Ok(())
}

// How many links the output of a base leads to.
const LINKS: usize = 30_000;

// A path without references, a chain of links after it, and the output of derivation 1 after the
// last one.
fn chain(alloc: Global, plan: &Plan) -> Result<Journal, Fail> {
    let mut text = String::from_str(alloc, "realiser-journal 2\nA /nix/store/")?;
    write!(text, "{:032}-link -\n", 0)?;
    for number in 0..LINKS {
        let next = number + 1;
        write!(text, "A /nix/store/{next:032}-link -\n")?;
        write!(text, "R /nix/store/{number:032}-link\n")?;
    }
    if plan.len() > 1 {
        if let Some(path) = plan.output_paths(1).first() {
            write!(text, "A {} -\n", path.as_str())?;
            write!(text, "R /nix/store/{LINKS:032}-link\n")?;
        }
    }
    journal(alloc, text.as_bytes())
}

// Whether the first worker, whose lease ends once the job of the other one is run, takes the lock
// for that before the other one, whose job takes no time, but whose closure does.
fn is_apart_first<R: Host>(rt: &R, alloc: Global) -> Result<bool, Fail> {
    let act = Act::Runs(2, 1);
    let plan = plan(alloc, &[&[], &[], &[1]])?;
    let journal = chain(alloc, &plan)?;
    let gates = [(0, act, 1)];
    let behaviour = by(2, 0, &gates);
    let (acts, _) = heard_from(rt, alloc, (plan, journal), behaviour)?;
    let mut later = acts.iter().skip_while(|(_, known)| *known != act);
    let first = later.find(|(_, act)| *act == Act::Lock(LockCall::Taken));
    Ok(matches!(first, Some((0, _))))
}

// The lock is not held for a closure. It is seen in one of ten runs at least: a busy machine may
// leave a worker without time.
#[test]
fn lease_ends_beside_a_closure(rt: HostRuntime) -> Result<(), Fail> {
    for _ in 0..10 {
        if is_apart_first(&rt, rt.alloc())? {
            return Ok(());
        }
    }
    Err("the end of a lease waits for another lease's closure".into())
}
