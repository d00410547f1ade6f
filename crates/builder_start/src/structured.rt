//! The texts of structured attributes.
ghost use Rattle.std.specs.Prelude.{IfErr, IfOk};
ghost use Rattle.builder_start.specs.Structured.{AreTexts};
ghost use Rattle.builder_start.specs.private.Shown.{IsUntold};

use crate::given::taken;
use crate::graphs::set_graphs;
use crate::requests::check_requests;
use crate::rows::Rows;
use build_outcome::{AttributeTexts, Job, Reason};
use std::alloc::Global;

// The texts of a job's structured attributes, by the text that they were written as.
pub(crate) fn texts_told(
    alloc: Global,
    job: &Job,
    rows: &Rows,
    text: &[u8],
) -> Result<AttributeTexts, Reason>
    ensures ok { IfOk result (AreTexts rows.now job.now text.now) }
    ensures bad { IfErr result (IsUntold rows.now job.now text.now) }
{
    let given = taken(alloc, job, text)?;
    check_requests(alloc, job, rows, &given.requests)?;
    let mut attributes = given.attributes;
    attributes.set_outputs(alloc, &given.outputs)?;
    set_graphs(
        alloc,
        rows,
        &job.whole_inputs,
        &given.requests,
        &mut attributes,
    )?;
    Ok(AttributeTexts {
        json: attributes.json_text(alloc)?,
        shell: attributes.shell_text(alloc)?,
        impure: given.impure,
    })
}
