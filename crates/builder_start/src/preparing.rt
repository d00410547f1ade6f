//! What is prepared for a job.
ghost use Rattle.std.specs.Prelude.{◌≡◌, ◌⊎◌, IfErr, IfOk, map};
ghost use Rattle.nix_names.specs.Rising.{IsRising};
ghost use Rattle.valid_table.specs.Valid.{AreReferencesValid};
ghost use Rattle.build_outcome.specs.declared.reason.Reason.TheVariants.{OutOfMemory};
ghost use Rattle.builder_start.specs.Preparing.{IsPrepared, IsUnprepared};

use crate::entries::files_asked;
use crate::rows::Rows;
use crate::structured::texts_told;
use build_outcome::{Job, Prepared, Reason, json_of};
use std::alloc::Global;
use valid_table::Registration;

/// What is prepared for the start of a job's builder by the records of the closure of the job's
/// seeds, in strictly rising order of paths. Placeholders stay as they are.
///
/// Where the attributes are entries of the environment, these are the files that
/// `exportReferencesGraph` asks for, each with the registrations of a closure. Where they are
/// structured, these are the texts of `.attrs.json` and `.attrs.sh`: of the attributes with the
/// object of the outputs and with the graphs that they ask for. Under `plain`, and where nothing is
/// asked for, there are no files.
///
/// Answers `BadAttributes` where structured attributes are not what Nix takes, or an output's name
/// is not UTF-8; else `BadGraph` where a graph is asked for that may not be: tokens that are no
/// pairs, a name that is none of a file's, a text that is none of the paths (nor below one, where
/// attributes are entries), a closure with a derivation's file that is not that of a whole input of
/// the job, or one with the file of a whole input of which an output has no record; else
/// `UnknownNar` with the least path whose archive is asked for and not known, by its index among
/// the paths of the records and of the job's outputs. `OutOfMemory` where memory is refused.
///
/// A graph is the closure of the paths that are asked for and of the outputs of the whole inputs
/// whose files that closure has.
///
/// Costs a table of the records, a pass over the records for each path that is asked for, two
/// closures and a sort of the job's whole inputs for each graph, and a closure for each path of a
/// graph among structured attributes.
pub fn prepare(alloc: Global, job: &Job, rows: Vec<Registration>) -> Result<Prepared, Reason>
    requires rising { IsRising (map (λ r. r.path) rows.items) }
    requires closed { AreReferencesValid rows.items }
    ensures ok { IfOk result (IsPrepared rows.items job.now) }
    ensures refused { IfErr result
        (λ reason. (reason ≡ OutOfMemory) ⊎ IsUnprepared rows.items job.now reason) }
{
    let rows = Rows::new(alloc, rows)?;
    match json_of(job) {
        Some(text) => Ok(Prepared::Structured(texts_told(alloc, job, &rows, text)?)),
        None => Ok(Prepared::Entries(files_asked(alloc, job, &rows)?)),
    }
}
