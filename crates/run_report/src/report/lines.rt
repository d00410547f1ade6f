//! The lines that the report of a run and a forecast share.
ghost use Rattle.std.specs.Prelude.{◌≡◌, ◌++◌, OnOk, codes, flat_map};
ghost use Rattle.run_report.specs.Reports.{path_line, why_line};
ghost use Rattle.run_report.specs.Words.{refusal_words};

use crate::words::write_refusal;
use drv_graph::Plan;
use nix_drv::Derivation;
use nix_names::StorePath;
use run_states::Refusal;
use std::alloc::AllocError;

/// Adds a line `output O` for each of some outputs, in their order. An error where memory is
/// refused, and no other; a part may be written then. Costs time in proportion to the text.
pub fn write_outputs(paths: &[StorePath], out: &mut Vec<u8>) -> Result<(), AllocError>
    ensures { OnOk result (out.new.items ≡ out.old.items
        ++ flat_map (path_line (codes "output ")) paths.now) }
{
    'paths: for path in paths {
        write_path_line(b"output ", path, out)?;
    }
    Ok(())
}

/// Adds a line of a word, with the space after it, and a path. An error where memory is refused,
/// and no other; a part may be written then. Costs time in proportion to the line.
pub fn write_path_line(word: &[u8], path: &StorePath, out: &mut Vec<u8>) -> Result<(), AllocError>
    ensures { OnOk result (out.new.items ≡ out.old.items ++ path_line word.now path.now) }
{
    out.extend_from_slice(word)?;
    out.extend_from_slice(path.text())?;
    out.extend_from_slice(b"\n")
}

/// Adds a line of a word, with the space after it, the path of a derivation of a plan, and why it
/// is refused. An error where memory is refused, and no other; a part may be written then. Costs
/// time in proportion to the line, and for a missing feature to the environment.
pub fn write_refused(
    word: &[u8],
    plan: &Plan,
    path: &StorePath,
    drv: &Derivation,
    cause: Refusal,
    out: &mut Vec<u8>,
) -> Result<(), AllocError>
    ensures { OnOk result (out.new.items ≡ out.old.items
        ++ why_line word.now path.now (refusal_words plan.now.nodes drv.now cause)) }
{
    write_line_start(word, path, out)?;
    write_refusal(plan, drv, cause, out)?;
    out.extend_from_slice(b"\n")
}

// Adds a word, a path and a colon.
pub(crate) fn write_line_start(
    word: &[u8],
    path: &StorePath,
    out: &mut Vec<u8>,
) -> Result<(), AllocError>
    ensures { OnOk result (out.new.items ≡ out.old.items ++ word.now ++ path.now ++ codes ": ") }
{
    out.extend_from_slice(word)?;
    out.extend_from_slice(path.text())?;
    out.extend_from_slice(b": ")
}
