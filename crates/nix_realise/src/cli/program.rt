//! One run of the program.
ghost use Rattle.std.specs.Prelude.{◌⊎◌, IfErr, IfOk, map};
ghost use Rattle.clap.specs.Words.{kind_of};
ghost use Rattle.nix_names.specs.Names.{IsStoreDir};
ghost use Rattle.nix_realise.specs.CheckLines.{IsCheckReport};
ghost use Rattle.nix_realise.specs.Folders.{may_give};
ghost use Rattle.nix_realise.specs.ProgramEndings.{CheckEnds, IsToldEnd, IsToldWith, ProgramEnds};
ghost use Rattle.nix_realise.specs.ProgramEndings.{SubcommandEnds, UsageEnds};
ghost use Rattle.nix_realise.specs.RunErrors.{IsStopOf, IsTold};
ghost use Rattle.nix_realise.specs.declared.cli.run_error.RunError.{RunError};

use crate::additions::add_drv::add_drv;
use crate::additions::add_text::add_text;
use crate::archives::dump::dump;
use crate::archives::hash::hash;
use crate::archives::restore::restore_input;
use crate::cli::exit::{Exit, Outcome, Status, quietly, quietly_written};
use crate::cli::printing::{print_bytes, print_text};
use crate::cli::run_error::RunError;
use crate::cli::store_dir::store_dir;
use crate::io::folder::FolderSource;
use crate::io::journal_keeper::JournalSinks;
use crate::io::locks::Locks;
use crate::io::trace_file::told;
use crate::queries::check::check_lines;
use crate::queries::faults::print_faults;
use crate::queries::plan::plan;
use crate::runs::realise::realise;
use crate::verification::verify::verify;
use crate::words::fault_words::stop_line;
use clap::error::ErrorKind;
use command_line::{CheckRequest, Request, not_text, request};
use process_build::Builders;
use std::alloc::{AllocError, Global};
use std::io::{Input, Write};
use std::rt::{Env, Files};
use std::sync::Wait;
use std::thread::Threads;
use std::time::Clock;

// The line of a run that ends for want of memory.
const NO_MEMORY_LINE: &[u8; 27] = b"nix_realise: run: NoMemory\n";

/// What a run of the program works on.
#[derive(Drop)]
pub struct Machine<'m, R, M, L> {
    /// The system.
    pub rt: &'m R,
    /// What makes its builders.
    pub make: &'m M,
    /// What takes its locks, and makes the sinks of its journals.
    pub host: &'m L,
}

/// Runs the program on a command line, whose first word is the program's own name. Says how the run
/// ended, and whether that was told.
pub fn run<'a, R, M, L, O, E>(
    machine: &Machine<'_, R, M, L>,
    words: &'a [&'a str],
    out: &mut O,
    err: &mut E,
) -> Exit
where
    R: Env + Files + Input + Threads + Wait + Clock + Sync + AllocGlobal,
    M: Builders,
    L: Locks + JournalSinks,
    O: Write,
    E: Write,
    ensures { ProgramEnds M.Builder.may (map (λ w. w.now) words.entry.now)
        (O.contents out.old, O.contents out.new) (E.contents err.old, E.contents err.new) result }
{
    let alloc = machine.rt.alloc();
    match request(alloc, words) {
        Ok(request) => end(alloc, run_subcommand(machine, &request, out), err),
        Err(fault) => print_usage(alloc, &fault, out, err),
    }
}

// Runs a subcommand.
fn run_subcommand<'a, R, M, L, O>(
    machine: &Machine<'_, R, M, L>,
    request: &Request<'a>,
    out: &mut O,
) -> Result<Outcome, RunError<'a>>
where
    R: Env + Files + Input + Threads + Wait + Clock + Sync + AllocGlobal,
    M: Builders,
    L: Locks + JournalSinks,
    O: Write,
    ensures { SubcommandEnds M.Builder.may request.now (O.contents out.old, O.contents out.new)
        result }
{
    let (rt, make, host) = (machine.rt, machine.make, machine.host);
    match request {
        Request::Check(request) => quietly(check(rt, request, out)),
        Request::AddText(request) => quietly_written(add_text(rt, host, request, out)),
        Request::AddDrv(request) => quietly_written(add_drv(rt, request, out)),
        Request::Plan(request) => plan(rt, request, out),
        Request::Realise(request) => told(realise(rt, make, host, request, out)),
        Request::Dump(request) => quietly(dump(rt, request, out)),
        Request::Restore(request) => quietly(restore_input(rt, request)),
        Request::Hash(request) => quietly(hash(rt, request, out)),
        Request::Verify(request) => quietly(verify(rt, request, out)),
        Request::Faults => quietly(print_faults(rt.alloc(), out)),
    }
}

// Ends a run with its status and its last lines, or with the line and the status of what stopped
// it.
fn end<E: Write>(alloc: Global, outcome: Result<Outcome, RunError<'_>>, err: &mut E) -> Exit
    ensures { IsToldEnd outcome.entry (E.contents err.old, E.contents err.new) result }
{
    match outcome {
        Ok(Outcome { status, lines }) => print_lines(status, &lines, err),
        Err(stop) => print_stop(alloc, &stop, err),
    }
}

// Ends a run with its status, and prints its last lines, if it has any.
fn print_lines<E: Write>(status: Status, lines: &Option<Vec<u8>>, err: &mut E) -> Exit
    ensures { IsToldWith status lines.now (E.contents err.old, E.contents err.new) result }
{
    let Some(lines) = lines else {
        return Exit::Printed(status);
    };
    match print_bytes(lines, err) {
        Ok(()) => Exit::Printed(status),
        Err(_) => Exit::Unprinted,
    }
}

/// Ends a run whose command line has a word that is not UTF-8.
pub fn refuse_words<O: Write, E: Write>(alloc: Global, out: &mut O, err: &mut E) -> Exit
    ensures { UsageEnds ErrorKind.ValueValidation
        (O.contents out.old, O.contents out.new) (E.contents err.old, E.contents err.new) result
        ⊎ UsageEnds ErrorKind.OutOfMemory
        (O.contents out.old, O.contents out.new) (E.contents err.old, E.contents err.new) result }
{
    match not_text(alloc) {
        Ok(fault) => print_usage(alloc, &fault, out, err),
        Err(_) => print_no_memory(err),
    }
}

/// Ends a run with a line that names the fault, and gives its status.
pub fn print_stop<E: Write>(alloc: Global, stop: &RunError<'_>, err: &mut E) -> Exit
    ensures { IsTold (E.contents err.old) (E.contents err.new) stop.now result }
{
    let line = match stop_line(alloc, stop) {
        Ok(line) => line,
        Err(refused) => return print_no_line(refused, err),
    };
    match print_bytes(&line, err) {
        Ok(()) => Exit::Printed(stop.row().status),
        Err(_) => Exit::Unprinted,
    }
}

// Ends a run for which there is no memory to make its line.
fn print_no_line<E: Write>(_refused: AllocError, err: &mut E) -> Exit
    ensures { (stop : RunError) → IsTold (E.contents err.old) (E.contents err.new) stop result }
{
    match print_bytes(NO_MEMORY_LINE, err) {
        Ok(()) => Exit::NoMemory,
        Err(_) => Exit::Unprinted,
    }
}

/// Ends a run for want of memory, and needs no memory.
pub fn print_no_memory<E: Write>(err: &mut E) -> Exit
    ensures { IsTold (E.contents err.old) (E.contents err.new) RunError.NoMemory result }
{
    match print_bytes(NO_MEMORY_LINE, err) {
        Ok(()) => Exit::Printed(Status::CutShort),
        Err(_) => Exit::Unprinted,
    }
}

// Ends a run with the text of `clap`: a mistake in the words, or the help or version that was asked
// for.
fn print_usage<O: Write, E: Write>(
    alloc: Global,
    fault: &clap::Error,
    out: &mut O,
    err: &mut E,
) -> Exit
    ensures { UsageEnds (kind_of fault.now)
        (O.contents out.old, O.contents out.new) (E.contents err.old, E.contents err.new) result }
{
    if fault.kind() == ErrorKind::OutOfMemory {
        return print_no_memory(err);
    }
    if fault.use_stderr() {
        return match print_text(fault, err) {
            Ok(()) => Exit::Printed(Status::Refused),
            Err(_) => Exit::Unprinted,
        };
    }
    match print_text(fault, out) {
        Ok(()) => Exit::Printed(Status::Done),
        Err(_) => print_stop(alloc, &RunError::Unwritable, err),
    }
}

// The subcommand `check`: prints its lines and gives its status.
fn check<'a, R: Files + AllocGlobal, O: Write>(
    rt: &R,
    request: &CheckRequest<'a>,
    out: &mut O,
) -> Result<Status, RunError<'a>>
    ensures { CheckEnds request.now (O.contents out.old, O.contents out.new) result }
{
    let (lines, status) = report(rt, request)?;
    match print_bytes(&lines, out) {
        Ok(()) => Ok(status),
        Err(_) => Err(RunError::Unwritable),
    }
}

// The lines of `check` over files on disk, and its status.
fn report<'a, R: Files + AllocGlobal>(
    rt: &R,
    request: &CheckRequest<'a>,
) -> Result<(Vec<u8>, Status), RunError<'a>>
    ensures report { IfOk result (λ r.
        IsCheckReport (λ _ answer. may_give answer) request.now.store_dir.now
        (map (λ w. w.now) request.now.drvs.items) r.0.items r.1) }
    ensures is_dir { IfOk result (λ _. IsStoreDir request.now.store_dir.now) }
    ensures stop { IfErr result (IsStopOf request.now.store_dir.now) }
{
    let dir = store_dir(rt.alloc(), request.store_dir)?;
    let mut source = FolderSource::new(rt);
    match check_lines(rt.alloc(), &mut source, &dir, &request.drvs) {
        Ok(report) => Ok(report),
        // `NoMemory` is the only fault.
        Err(_) => Err(RunError::NoMemory),
    }
}
