//! What builders hear of leases: each is heard of before its job is run, and once; and it counts as
//! built exactly where its outputs were registered; and how runs end that are stopped.
use crate::heard::{Ended, heard_of};
use crate::hearing::View::{self, Full, Gone, Stuck, Whole};
use crate::hearing::{Act, Behaviour, Gate, by, text_of, waiting};
use crate::locking::CHAIN;
use crate::plans::{DIAMOND, Host, SOME, Uses, plan, random_plan};
use drv_graph::Plan;
use sched_core::{BookFault, Event, Reason};
use std::alloc::{AllocError, Global};
use std::test::*;
use store_run::LockCall;
use valid_table::OutletFault;

// Leases that have ended: their numbers, their derivations, and whether the outputs were
// registered.
type Leases = Vec<(u64, usize, bool)>;

// The leases that have ended by these events.
fn ended(alloc: Global, events: &[Event]) -> Result<Leases, AllocError> {
    let mut ended = Vec::new(alloc);
    for event in events {
        match event {
            Event::Begin(_, _) => {}
            Event::Done(d, number) => ended.push((*number, *d, true))?,
            Event::Fail(d, number, _) => ended.push((*number, *d, false))?,
        }
    }
    ended.sort_unstable();
    Ok(ended)
}

// The leases that have ended by what the builders of `workers` workers heard: each is that of the
// job that the worker ran last.
fn ended_by_acts(alloc: Global, acts: &[(usize, Act)], workers: usize) -> Result<Leases, Fail> {
    let mut running = vec![in alloc; None; workers]?;
    let mut ended = Vec::new(alloc);
    for (worker, act) in acts {
        match (act, running.get_mut(*worker)) {
            (Act::Runs(d, _), Some(slot)) => *slot = Some(*d),
            (Act::Ends(number, is_good, _), Some(slot)) => {
                if let Some(d) = slot.take() {
                    ended.push((*number, d, *is_good))?;
                }
            }
            _ => {}
        }
    }
    ended.sort_unstable();
    Ok(ended)
}

// The leases that have ended in a run, by what its builders heard and by its events, unless it was
// stopped.
fn both<R: Host>(
    rt: &R,
    alloc: Global,
    plan: Plan,
    behaviour: Behaviour,
) -> Result<(Leases, Leases), Fail> {
    match heard_of(rt, alloc, plan, behaviour)? {
        (acts, (events, None)) => {
            let heard = ended_by_acts(alloc, &acts, behaviour.workers)?;
            Ok((heard, ended(alloc, &events)?))
        }
        _ => Err("the run was stopped".into()),
    }
}

// A diamond, where few fail, and else random derivations.
fn plan_for(alloc: Global, failing: u64) -> Result<Plan, Fail> {
    if failing < 16 {
        plan(alloc, DIAMOND)
    } else {
        random_plan(alloc, 100)
    }
}

// Each lease that has ended was heard of, with its number, and as built where its derivation is
// done.
#[test]
fn leases_as_they_end(rt: HostRuntime) -> Result<(), Fail> {
    for failing in [0b1, 0b110, 0, SOME] {
        for workers in [1, 4] {
            let plan = plan_for(rt.alloc(), failing)?;
            let (heard, ended) = both(&rt, rt.alloc(), plan, by(workers, failing, &[]))?;
            assert_eq!(rt; heard, ended, "{failing:b} by {workers}");
        }
    }
    Ok(())
}

// What one worker does over two links.
fn alone<R: Host>(rt: &R, alloc: Global, behaviour: Behaviour) -> Result<String, Fail> {
    let (acts, _) = heard_of(rt, alloc, plan(alloc, &[&[], &[0]])?, behaviour)?;
    text_of(alloc, &acts, 0)
}

const FAILED: &str = "Lock(Taken) Lock(Freed) Begins(0, 0, 2) Runs(0, 0) \
    Lock(Taken) Lock(Freed) Lock(WakesAll) Ends(0, false, 0) Leaves ";

// No builder was run. The lease was given up, so both are unsettled.
const STOPPED: &str = "Lock(Taken) Lock(Freed) Begins(0, 0, 2) \
    Lock(Taken) Lock(Freed) Lock(WakesAll) Ends(0, false, 2) Leaves ";

// A builder without an answer has not built anything, whatever the reason.
#[test]
fn failed_for_some_reasons(rt: HostRuntime) -> Result<(), Fail> {
    for reason in [Reason::ExitStatus(7), Reason::NoStart, Reason::OutOfMemory] {
        let mut behaviour = by(1, u64::MAX, &[]);
        behaviour.reason = reason;
        let text = alone(&rt, rt.alloc(), behaviour)?;
        assert_eq!(rt; text.as_str(), FAILED, "{reason:?}");
    }
    Ok(())
}

// What was built counts as built only where it is registered. It isn't where memory is refused for
// that. Where the view is gone nothing is built.
#[test]
fn built_and_registered(rt: HostRuntime) -> Result<(), Fail> {
    for (view, wanted) in [(Whole, CHAIN), (Full, FAILED), (Gone, STOPPED)] {
        let mut behaviour = by(1, 0, &[]);
        behaviour.view = view;
        let text = alone(&rt, rt.alloc(), behaviour)?;
        assert_eq!(rt; text.as_str(), wanted, "{view:?}");
    }
    Ok(())
}

// Views that stop a run: when the next lease is taken, since it refuses memory or cannot be
// reached; or when a verdict is found, by a reader whose view is gone.
const CAUSES: [(View, BookFault); 3] = [
    (Stuck(OutletFault::NoMemory), BookFault::NoMemory),
    (Stuck(OutletFault::NoView), BookFault::NoView),
    (Gone, BookFault::NoView),
];

// The events of a run over a view, and why it stopped.
fn rest<R: Host>(
    rt: &R,
    alloc: Global,
    (uses, view): (Uses, View),
    mut behaviour: Behaviour,
) -> Result<Ended, Fail> {
    behaviour.view = view;
    Ok(heard_of(rt, alloc, plan(alloc, uses)?, behaviour)?.1)
}

// One worker builds the base of a diamond while all others wait; then the run is stopped, before
// anything else begins. All workers end. What was built is registered, unless there is no view for
// its verdict.
#[test]
fn stopped_while_others_wait(rt: HostRuntime) -> Result<(), Fail> {
    let all = [Event::Begin(0, 0), Event::Done(0, 0)];
    for (view, fault) in CAUSES {
        let count = if view == Gone { 1 } else { 2 };
        for workers in [1usize, 2, 4, 64] {
            let gates = [waiting(0, workers.wrapping_sub(1))];
            let behaviour = by(workers, 0, &gates);
            let (events, stop) = rest(&rt, rt.alloc(), (DIAMOND, view), behaviour)?;
            assert!(rt; all.starts_with(&events), "got {events:?} by {workers}");
            assert_eq!(rt; (events.len(), stop), (count, Some(fault)), "by {workers}");
        }
    }
    Ok(())
}

// The first lease ends once the run was stopped; the second one once the first is under way and all
// other workers wait.
fn stop_gates(workers: usize) -> [Gate; 3] {
    let stopped = Act::Lock(LockCall::WakesAll);
    let others = waiting(1, workers.wrapping_sub(2));
    [(0, stopped, 1), (1, Act::Runs(0, 0), 1), others]
}

// A derivation apart from a diamond.
const APART: Uses = &[&[], &[], &[1], &[1], &[2, 3]];

// The run is stopped while that one is being built, which ends well afterwards, and is registered
// likewise.
#[test]
fn stopped_while_another_builds(rt: HostRuntime) -> Result<(), Fail> {
    let [first, second] = [Event::Begin(0, 0), Event::Begin(1, 1)];
    let all = [first, second, Event::Done(1, 1), Event::Done(0, 0)];
    for (view, fault) in CAUSES {
        for workers in [2, 4, 64] {
            let gates = stop_gates(workers);
            let behaviour = by(workers, 0, &gates);
            let (events, stop) = rest(&rt, rt.alloc(), (APART, view), behaviour)?;
            let count = if view == Gone { events.len() } else { 4 };
            assert!(rt; all.starts_with(&events), "got {events:?} by {workers}");
            assert_eq!(rt; (events.len(), stop), (count, Some(fault)), "by {workers}");
        }
    }
    Ok(())
}
