//! The trace of a run, if the request asks for one: its file, written at the end.
ghost use Rattle.std.specs.Prelude.{◌≡◌, IfOk, option_map};
ghost use Rattle.std.specs.Option.{option_copied};
ghost use Rattle.nix_realise.specs.Tracing.{IsTraceOf, IsTraceTried, IsTriedAt};
ghost use Rattle.nix_realise.specs.Tracing.{told_of, told_with, trace_stop};

use crate::cli::exit::Outcome;
use crate::cli::run_error::RunError;
use crate::io::whole_file::{WriteError, WrittenFile, write_owned};
use crate::words::run_trace::run_trace;
use command_line::RealiseRequest;
use process_build::{Failure, Trace, trace_text};
use sched_core::Book;
use std::alloc::AllocError;
use std::rt::Files;
use std::sync::Wait;
use std::time::Clock;
use valid_table::Outlet;

/// A trace, and the path of the file that will get it, as it was given.
#[derive(Drop)]
pub struct TraceFile<'a> {
    path: &'a str,
    trace: Trace,
}

/// What came of writing the trace of a run. Only that writing makes what the variants hold.
#[derive(Drop)]
pub enum TraceTried<'a> {
    /// The file was written.
    Written(WrittenFile<'a>),
    /// The file at this path could not be written.
    Unwritten(&'a str, WriteError),
    /// There was no memory for the text.
    NoText(AllocError),
}

/// How a run ended whose workers were made, and what came of writing its trace, if one was asked
/// for.
#[derive(Drop)]
pub struct TracedRun<'a> {
    trace: Option<TraceTried<'a>>,
    ended: Result<Outcome, RunError<'a>>,
}

impl<'a> TraceFile<'a> {
    /// The trace of a run that begins now, if the request asks for one.
    pub fn of<R: Clock + AllocGlobal>(rt: &R, request: &RealiseRequest<'a>) -> Option<TraceFile<'a>>
        ensures { option_map (λ file. file.path) result ≡ request.now.trace }
    {
        match request.trace {
            Some(path) => Some(TraceFile {
                path,
                trace: Trace::new(rt),
            }),
            None => None,
        }
    }

    /// The trace, which the builders of the run note.
    pub fn trace_in<'t>(file: &'t Option<TraceFile<'a>>) -> Option<&'t Trace> {
        match file {
            Some(file) => Some(&file.trace),
            None => None,
        }
    }

    // The text of the trace of a run that left this book, or none.
    fn text<R: AllocGlobal + Wait, V: Outlet>(
        &self,
        rt: &R,
        book: Option<&Book<V>>,
    ) -> Result<Vec<u8>, AllocError>
        ensures { IfOk result
            (λ text. IsTraceOf (option_copied book.entry) text.items) }
    {
        match book {
            Some(book) => run_trace(rt.alloc(), book, &self.trace.take(rt)),
            None => trace_text(rt.alloc(), &[]),
        }
    }

    // Tries to put the trace of a run that left this book, or none, into the file.
    fn write<R: Files + AllocGlobal + Wait, V: Outlet>(
        &self,
        rt: &R,
        book: Option<&Book<V>>,
    ) -> TraceTried<'a>
        ensures { IsTriedAt self.now.path (option_copied book.entry) result }
    {
        let text = match self.text(rt, book) {
            Ok(text) => text,
            Err(refused) => return TraceTried::NoText(refused),
        };
        match write_owned(rt, self.path, text) {
            Ok(written) => TraceTried::Written(written),
            Err(unwritten) => TraceTried::Unwritten(self.path, unwritten),
        }
    }
}

impl<'a> TracedRun<'a> {
    /// A run that ended so and left this book, or none: tries to write its trace, if one is asked
    /// for.
    pub fn of<R: Files + AllocGlobal + Wait, V: Outlet>(
        rt: &R,
        file: &Option<TraceFile<'a>>,
        book: Option<&Book<V>>,
        ended: Result<Outcome, RunError<'a>>,
    ) -> TracedRun<'a>
        ensures trace { IsTraceTried (option_map (λ f. f.path) file.now)
            (option_copied book.entry) result.trace }
        ensures ended { result.ended ≡ ended.entry }
    {
        let trace = match file {
            Some(file) => Some(file.write(rt, book)),
            None => None,
        };
        TracedRun { trace, ended }
    }
}

/// What is told of a run: what stopped it, if anything did; else why there is no trace, though one
/// was asked for.
pub fn told<'a>(run: Result<TracedRun<'a>, RunError<'a>>) -> Result<Outcome, RunError<'a>>
    ensures { result ≡ told_of run.entry }
{
    let TracedRun { trace, ended } = run?;
    match (trace, ended) {
        (Some(tried), Ok(finish)) => told_with(tried, finish),
        (_, ended) => ended,
    }
}

// What is told of a run that was not stopped, by what came of writing its trace.
fn told_with<'a>(tried: TraceTried<'a>, finish: Outcome) -> Result<Outcome, RunError<'a>>
    ensures { result ≡ told_with tried.entry finish }
{
    match tried {
        TraceTried::Written(_) => Ok(finish),
        TraceTried::Unwritten(path, why) => Err(trace_stop(path, why.failure())),
        TraceTried::NoText(refused) => Err(RunError::from(refused)),
    }
}

// What ends a run whose trace file is not written for this reason.
fn trace_stop<'a>(path: &'a str, why: Failure) -> RunError<'a>
    ensures { result ≡ trace_stop path.entry why }
{
    match why {
        Failure::NoMemory => RunError::NoMemory,
        _ => RunError::NoTrace(path),
    }
}
