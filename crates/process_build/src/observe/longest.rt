//! The leases that run, and the one of them that runs longest.
ghost use Rattle.std.specs.Prelude.{◌≡◌, [], MatchOption};
ghost use Rattle.process_build.specs.Leases.{HasMaybe, RunsLongest, others_than};

use crate::process::lease::RunningLease;
use std::alloc::Global;

/// The leases that run and are known.
#[derive(Drop)]
pub struct RunningLeases {
    leases: Vec<RunningLease>,
}

impl RunningLeases {
    /// No lease.
    pub fn new(alloc: Global) -> RunningLeases
        ensures { result.leases.items ≡ [] }
    {
        RunningLeases {
            leases: Vec::new(alloc),
        }
    }

    /// Adds a lease. Where memory is refused, it stays unknown.
    pub fn add(&mut self, lease: RunningLease)
        ensures { HasMaybe self.old.leases.items lease self.new.leases.items }
    {
        let _ = self.leases.push(lease);
    }

    /// Takes the lease with this number away.
    pub fn remove(&mut self, number: u64)
        ensures { self.new.leases.items ≡ others_than number self.old.leases.items }
    {
        self.leases.retain(|one| one.number != number);
    }

    /// The lease that began first, and of several the one with the least number; none where none is
    /// known.
    pub fn longest(&self) -> Option<&RunningLease>
        ensures { MatchOption result (self.now.leases.items ≡ [])
            (λ one. RunsLongest self.now.leases.items one.now) }
    {
        self.leases.iter().min_by_key(|one| (one.start, one.number))
    }
}
