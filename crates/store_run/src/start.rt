//! What is prepared for the start of a job's builder, by the list that a worker's reader sees.
ghost use Rattle.std.specs.Prelude.{◌≡◌, IfErr, IfOk};
ghost use mathlib.Core.List.{IsPrefix};
ghost use Rattle.sched_core.specs.Books.{AreSeedsValid};
ghost use Rattle.store_run.specs.private.JobVerdicts.{IsUnseen};
ghost use Rattle.store_run.specs.Starts.{IsStart};

use crate::refusal::{RefusedCall, records};
use build_outcome::Prepared;
use builder_start::{asks_for_records, prepare};
use sched_core::{Job, Reason};
use std::alloc::Global;
use valid_view::{ListId, ViewReader};

// What is prepared for the start of a job's builder, or the reason why nothing can be, by the
// records of the closure of the job's seeds in the list that the reader sees. Refused where the
// reader was. A job that asks for no records gets no files, and the reader is not asked.
pub(crate) fn start<J: ListId>(
    alloc: Global,
    reader: &mut ViewReader<J>,
    job: &Job,
) -> Result<Result<Prepared, Reason>, RefusedCall>
    requires { AreSeedsValid reader.old.told job.now }
    ensures told { reader.new.told ≡ reader.old.told }
    ensures later { IsPrefix reader.old.seen reader.new.seen }
    ensures start { IfOk result (IsStart reader.new.seen job.now) }
    ensures err { IfErr result IsUnseen }
{
    if !asks_for_records(job) {
        return Ok(Ok(Prepared::Entries(Vec::new(alloc))));
    }
    let rows = records(alloc, reader, &job.seeds)?;
    Ok(prepare(alloc, job, rows))
}
