//! The times of a run's leases, which its builders note.
ghost use Rattle.std.specs.Prelude.{◌≡◌, IfSome};

use crate::observe::time::now;
use crate::process::lease::LeaseTimes;
use std::mem;
use std::sync::{Mutex, Wait};
use std::time::Clock;

/// When the builders of a run's leases ran, and when the run began. The builders of its workers
/// note it.
#[derive(Drop)]
pub struct Trace {
    began: u64,
    noted: Mutex<Vec<LeaseTimes>>,
}

impl Trace {
    /// The trace of a run that begins now.
    pub fn new<R: Clock + AllocGlobal>(rt: &R) -> Trace {
        Trace {
            began: now(rt),
            noted: Mutex::new(Vec::new(rt.alloc())),
        }
    }

    /// Takes out what was noted.
    pub fn take<R: Wait + AllocGlobal>(&self, rt: &R) -> NotedTimes {
        let mut times = mem::replace(&mut *self.noted.lock(rt), Vec::new(rt.alloc()));
        times.sort_unstable_by_key(|one| one.number);
        NotedTimes { times }
    }

    // How many microseconds ago the run began.
    pub(crate) fn time<R: Clock>(&self, rt: &R) -> u64 {
        now(rt).saturating_sub(self.began)
    }

    // Notes when the builder of a lease ran. Where memory is refused, it is missing.
    pub(crate) fn note<R: Wait>(&self, rt: &R, times: LeaseTimes) {
        let _ = self.noted.lock(rt).push(times);
    }
}

/// When builders of leases ran, by the numbers of the leases. Only `Trace::take` makes one.
#[derive(Drop)]
pub struct NotedTimes {
    times: Vec<LeaseTimes>,
}

impl NotedTimes {
    /// When the builder of the lease with this number ran; none where that was not noted.
    pub fn get(&self, number: u64) -> Option<LeaseTimes>
        ensures { IfSome result (λ times. times.number ≡ number) }
    {
        let found = self.times.binary_search_by_key(&number, |one| one.number);
        match self.times.get(found.ok()?) {
            Some(times) if times.number == number => Some(*times),
            _ => None,
        }
    }
}
