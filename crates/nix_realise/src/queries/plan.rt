//! The subcommand `plan`.
ghost use Rattle.std.specs.Prelude.{◌≡◌, IfOk};
ghost use Rattle.nix_realise.specs.Planning.{ForecastEnds, IsForecastPrinted, PlanEnds};
ghost use Rattle.nix_realise.specs.Planning.{whole_status};

use crate::cli::exit::{Outcome, Status};
use crate::cli::printing::print_bytes;
use crate::cli::run_error::RunError;
use crate::queries::read_task::read_task;
use crate::queries::run_system::system_of;
use crate::queries::task::Task;
use crate::words::twins_line::twins_line;
use command_line::PlanRequest;
use run_report::Forecast;
use run_states::System;
use std::alloc::{AllocError, Global};
use std::io::Write;
use std::rt::Files;

/// Prints what `realise` would report for the request, if each builder that it starts made its
/// outputs: as a report or as a graph. The plan is loaded, then the journal is read; the first
/// fault ends the run. A line at the end tells where derivations of the plan have the same outputs.
/// No file is written, and no builder is started.
pub fn plan<'a, R, O>(
    rt: &R,
    request: &PlanRequest<'a>,
    out: &mut O,
) -> Result<Outcome, RunError<'a>>
where
    R: Files + AllocGlobal,
    O: Write,
    ensures { PlanEnds request.now (O.contents out.old) (O.contents out.new) result }
{
    let task = read_task(rt, &request.run)?;
    let system = system_of(rt, &request.run)?;
    print_forecast(rt.alloc(), request, task, system, out)
}

// Prints the forecast of a run over a task for a system, and gives the last line.
fn print_forecast<'a, O: Write>(
    alloc: Global,
    request: &PlanRequest<'a>,
    task: Task,
    system: System,
    out: &mut O,
) -> Result<Outcome, RunError<'a>>
    ensures { ForecastEnds request.now system task (O.contents out.old) (O.contents out.new)
        result }
{
    let lines = twins_line(alloc, task.plan())?;
    let forecast = forecast_of(alloc, system, task)?;
    let text = text_of(&forecast, request.dot)?;
    match print_bytes(&text, out) {
        Ok(()) => Ok(Outcome::with(whole_status(&forecast), lines)),
        Err(_) => Err(RunError::Unwritable),
    }
}

// The forecast of a run over a task for a system.
fn forecast_of(alloc: Global, system: System, task: Task) -> Result<Forecast, AllocError>
    ensures run { IfOk result
        (λ forecast. forecast.run ≡ record { graph = task.plan; system = system }) }
    ensures entries { IfOk result (λ forecast. forecast.entries ≡ task.journal.entries) }
{
    let (plan, journal) = task.into_parts();
    Forecast::open(alloc, plan, journal, system)
}

// The text that is printed for a forecast: its own, or its picture.
fn text_of(forecast: &Forecast, dot: bool) -> Result<Vec<u8>, AllocError>
    ensures { IfOk result
        (λ text. IsForecastPrinted dot forecast.now.run forecast.now.entries text.items) }
{
    if dot {
        forecast.picture()
    } else {
        forecast.text()
    }
}

// The status of a forecast: `Done` where each root is built or reused, else `Unrealised`.
fn whole_status(forecast: &Forecast) -> Status
    ensures { result ≡ whole_status forecast.now.run forecast.now.entries }
{
    if forecast.is_whole() {
        Status::Done
    } else {
        Status::Unrealised
    }
}
