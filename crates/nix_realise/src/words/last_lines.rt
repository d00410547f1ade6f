//! The lines that standard error gets at the end of a run of `realise`.
ghost use Rattle.std.specs.Prelude.{◌≡◌, ◌++◌, IfOk, OnOk, drop, flat_map, length};
ghost use Rattle.process_build.specs.Options.{log_path_of};
ghost use Rattle.run_report.specs.Listing.{AreWithin};
ghost use Rattle.run_report.specs.Reports.{path_at};
ghost use Rattle.nix_realise.specs.LastLines.{AreFailedLines, IsFailedText, IsLastText};
ghost use Rattle.nix_realise.specs.LastLines.{failed_line, failed_marks, is_failed};
ghost use Rattle.run_report.specs.declared.report.listing.Listed.{Listed};

use crate::cli::exit::Status;
use crate::runs::summary::roots_status;
use crate::words::cause_lines::cause_lines;
use crate::words::drv_line::write_front;
use crate::words::kept_lines::{KeptBuilds, kept_lines};
use command_line::RealiseRequest;
use drv_graph::Plan;
use nix_names::StorePath;
use run_report::{Listed, marked_by_path};
use sched_core::{Book, State};
use std::alloc::{AllocError, Global};
use valid_table::{Journal, Outlet};

/// The lines that standard error gets at the end of a run with this book, which opened with the
/// entries of this journal, and which kept these build folders. The first are the lines of the
/// derivations that failed, by path, where logs were asked for and a root was not realised; then
/// come those of the folders of leases under which a derivation failed, by its path, and those of
/// the derivations that are refused as `Unsupported`, by path, where a root was not realised.
pub fn last_lines<V: Outlet>(
    alloc: Global,
    request: &RealiseRequest<'_>,
    book: &Book<V>,
    kept: &KeptBuilds<'_>,
    opening: &Journal,
) -> Result<Vec<u8>, AllocError>
    requires { opening.now.entries ≡ book.now.history.opening }
    ensures { IfOk result (λ text. IsLastText request.now book.now.run book.now.history kept.now
        text.items) }
{
    let mut lines = failed_lines(alloc, request, book)?;
    lines.extend_from_slice(&kept_lines(alloc, &request.run, book, kept)?)?;
    lines.extend_from_slice(&cause_lines(alloc, book, opening)?)?;
    Ok(lines)
}

// The lines of the derivations that failed, where a run tells them.
fn failed_lines<V: Outlet>(
    alloc: Global,
    request: &RealiseRequest<'_>,
    book: &Book<V>,
) -> Result<Vec<u8>, AllocError>
    ensures { IfOk result (λ text. IsFailedText request.now book.now.run book.now.history
        text.items) }
{
    match request.logs {
        Some(logs) if roots_status(book) == Status::Unrealised => {
            lines_of_failed(alloc, logs, request.run.store_dir, book)
        }
        _ => Ok(Vec::new(alloc)),
    }
}

// A line for each derivation that failed, by path.
fn lines_of_failed<V: Outlet>(
    alloc: Global,
    logs: &str,
    store_dir: &str,
    book: &Book<V>,
) -> Result<Vec<u8>, AllocError>
    ensures { IfOk result (λ text. AreFailedLines logs.now store_dir.now book.now.run
        book.now.history text.items) }
{
    let marks = failed_marks(alloc, book)?;
    let failed = marked_by_path(alloc, book.plan(), &marks)?;
    let mut lines = Vec::new(alloc);
    write_failed(book.plan(), logs, store_dir, &failed, &mut lines)?;
    Ok(lines)
}

// Whether each derivation failed, by number.
fn failed_marks<V: Outlet>(alloc: Global, book: &Book<V>) -> Result<Vec<bool>, AllocError>
    ensures { IfOk result (λ marks. marks.items ≡ failed_marks book.now.run book.now.history) }
{
    let mut marks = Vec::new(alloc);
    for number in 0..book.plan().len() {
        marks.push(is_failed(book.state(number)))?;
    }
    Ok(marks)
}

// Whether a derivation in this state failed.
fn is_failed(state: State) -> bool
    ensures { result ≡ is_failed state }
{
    matches!(state, State::Failed(_))
}

// Adds the lines of these derivations, which failed.
fn write_failed(
    plan: &Plan,
    logs: &str,
    store_dir: &str,
    failed: &[Listed<'_>],
    out: &mut Vec<u8>,
) -> Result<(), AllocError>
    requires { AreWithin (length plan.now.nodes) failed.now }
    ensures { OnOk result (out.new.items ≡ out.old.items ++ flat_map
        (λ (l : Listed). failed_line logs.now store_dir.now (path_at plan.now.nodes l.number))
        failed.now) }
{
    'failed: for one in failed {
        write_failed_line(logs, store_dir, plan.path(one.number), out)?;
    }
    Ok(())
}

// Adds the line of a derivation that failed.
fn write_failed_line(
    logs: &str,
    store_dir: &str,
    drv: &StorePath,
    out: &mut Vec<u8>,
) -> Result<(), AllocError>
    ensures { OnOk result (out.new.items
        ≡ out.old.items ++ failed_line logs.now store_dir.now drv.now) }
{
    write_front(drv, b": failed, see ", out)?;
    write_log_path(logs, store_dir, drv, out)?;
    out.extend_from_slice(b"\n")
}

// Adds the path of a derivation's log.
fn write_log_path(
    logs: &str,
    store_dir: &str,
    drv: &StorePath,
    out: &mut Vec<u8>,
) -> Result<(), AllocError>
    ensures { OnOk result (out.new.items
        ≡ out.old.items ++ log_path_of logs.now store_dir.now drv.now) }
{
    out.extend_from_slice(logs.as_bytes())?;
    out.extend_from_slice(after(drv.text(), store_dir.len()))?;
    out.extend_from_slice(b".log")
}

// What comes after so many bytes of a text.
fn after(text: &[u8], count: usize) -> &[u8]
    ensures { result.now ≡ drop count text.now }
{
    text.get(count..).unwrap_or(&[])
}
