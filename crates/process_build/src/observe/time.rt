//! The time of a run.
ghost use Rattle.std.specs.Prelude.{◌≡◌, ◌/◌, ◌-◌, ◌^◌, min};
ghost use Rattle.std.specs.Duration.{as_nanos};

use std::time::{Clock, Duration};

/// What a clock reads, in microseconds; 0 where it can't be read.
pub fn now<R: Clock>(clock: &R) -> u64 {
    match clock.monotonic() {
        Ok(time) => micros_of(time),
        Err(_) => 0,
    }
}

// Whole microseconds; a 64-bit number stops at its greatest.
fn micros_of(time: Duration) -> u64
    ensures { result ≡ min (as_nanos time / 1_000) (2 ^ 64 - 1) }
{
    u64::try_from(time.as_micros()).unwrap_or(u64::MAX)
}
