//! What a job asks for.
ghost use Rattle.std.specs.Prelude.{◌≡◌, ◌↔◌, IsTrue, option_map};
ghost use Rattle.builder_start.specs.Asked.{AsksForRecords, graphs_of};

use build_outcome::{Job, json_of, value_under};

/// Whether the start of a job's builder needs the records of the paths that it is built from: under
/// `nix`, where the environment has the key `__json` or `exportReferencesGraph`. Costs a pass over
/// the keys.
pub fn asks_for_records(job: &Job) -> bool
    ensures { IsTrue result ↔ AsksForRecords job.now }
{
    json_of(job).is_some() || graphs_of(job).is_some()
}

// The text that asks for graphs of references, if there is one.
pub(crate) fn graphs_of(job: &Job) -> Option<&[u8]>
    ensures { option_map (λ text. text.now) result ≡ graphs_of job.now }
{
    value_under(job.profile, job, b"exportReferencesGraph")
}
