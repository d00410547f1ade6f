//! How long a keeper pauses.
ghost use Rattle.std.specs.Prelude.{◌≡◌, option_map};
ghost use Rattle.std.specs.Duration.{as_nanos};
ghost use Rattle.store_run.specs.private.Looking.{pause_nanos};

use std::time::Duration;

// The milliseconds of the shortest pause.
const LEAST: u64 = 500;

// How many times as long as looking and writing a pause is.
const TIMES: u32 = 8;

// How long a keeper pauses after looking and writing that took so long; none where the clock could
// not be read. An entry may be registered just after a look. So it is written at most ten times the
// length of a write later, or one second later, if that is more.
pub(crate) fn pause_after(took: Option<Duration>) -> Duration
    ensures { as_nanos result ≡ pause_nanos (option_map as_nanos took) }
{
    let least = Duration::from_millis(LEAST);
    match took {
        Some(took) => least.max(took.saturating_mul(TIMES)),
        None => least,
    }
}
