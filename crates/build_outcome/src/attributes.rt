//! Entries of a job's environment, and its structured attributes among them.
ghost use Rattle.std.specs.Prelude.{◌≡◌, option_map};
ghost use Rattle.build_outcome.specs.Attributes.{json_of, value_at, value_under};

use crate::job::Job;
use drv_graph::Profile;
use nix_drv::EnvEntry;

/// The text of a job's structured attributes, if it has such: under `nix` the value of `__json`.
/// Costs a pass over the keys.
pub fn json_of(job: &Job) -> Option<&[u8]>
    ensures { option_map (λ text. text.now) result ≡ json_of job.now }
{
    value_under(job.profile, job, b"__json")
}

/// The value that a job's environment has for a key, if there is one and the profile is `nix`. Costs
/// a pass over the keys.
pub fn value_under<'a>(profile: Profile, job: &'a Job, key: &[u8]) -> Option<&'a [u8]>
    ensures { option_map (λ text. text.now) result ≡ value_under profile key.now job.now }
{
    match profile {
        Profile::Plain => None,
        Profile::Nix => value_at(job, key),
    }
}

// The value that a job's environment has for a key, if there is one.
pub(crate) fn value_at<'a>(job: &'a Job, key: &[u8]) -> Option<&'a [u8]>
    ensures { option_map (λ text. text.now) result ≡ value_at key.now job.now }
{
    let of_key = |entry: &&EnvEntry| entry.key.as_slice() == key;
    match job.env.iter().find(of_key) {
        Some(entry) => Some(&entry.value),
        None => None,
    }
}
