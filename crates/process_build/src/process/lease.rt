//! The leases of a run: since when one runs, and when the builder of one ran.
ghost use Rattle.std.specs.Prelude.{◌≡◌, ◌-◌, IfSome, option_map};
ghost use Rattle.process_build.specs.Leases.{IsRunning, drv_name};

use nix_names::StorePath;
use std::alloc::Global;

// How many bytes the name of a derivation's file has after the name of the derivation: `.drv`.
const SUFFIX_LEN: usize = 4;

/// A lease whose job is being run.
#[derive(Drop)]
pub struct RunningLease {
    /// The path of its derivation.
    pub path: StorePath,
    /// The number of the lease.
    pub number: u64,
    /// When it began, in microseconds.
    pub start: u64,
}

/// Which worker ran the builder of a lease, and when.
#[derive(Clone, Copy, Debug, PartialEq, Eq)]
pub struct LeaseTimes {
    /// The number of the lease.
    pub number: u64,
    /// The number of the worker, from 1.
    pub worker: usize,
    /// When its builder was asked to run, in microseconds after its run began.
    pub start: u64,
    /// How many microseconds later its builder had answered.
    pub length: u64,
}

/// A lease that has ended.
#[derive(Drop)]
pub struct EndedLease {
    /// The path of its derivation.
    pub path: StorePath,
    /// When its builder ran.
    pub times: LeaseTimes,
    /// Whether its outputs were registered.
    pub is_good: bool,
}

impl RunningLease {
    /// A lease with this number of the derivation at this path, which begins at this time. None
    /// where there is no such derivation, or the path has no room for one more owner.
    pub fn of(
        alloc: Global,
        drv: Option<&StorePath>,
        number: u64,
        start: u64,
    ) -> Option<RunningLease>
        ensures { IfSome result
            (IsRunning (option_map (λ d. d.now) drv.entry) number start) }
    {
        let path = drv?.copy(alloc).ok()?;
        Some(RunningLease {
            path,
            number,
            start,
        })
    }
}

impl LeaseTimes {
    // Of the lease with this number, whose builder a worker asked at this time, and which had
    // answered at that one. A clock that went back gives the length 0.
    pub(crate) fn of(number: u64, worker: usize, start: u64, end: u64) -> LeaseTimes
        ensures { result
            ≡ record { number = number; worker = worker; start = start; length = end - start } }
    {
        LeaseTimes {
            number,
            worker,
            start,
            length: end.saturating_sub(start),
        }
    }
}

/// The name of the derivation at this path: the name of its file without `.drv`.
pub fn drv_name(path: &StorePath) -> &[u8]
    ensures { result.now ≡ drv_name path.now }
{
    let name = path.name();
    &name[..name.len().saturating_sub(SUFFIX_LEN)]
}
