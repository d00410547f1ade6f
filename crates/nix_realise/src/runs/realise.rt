//! The subcommand `realise`.
ghost use Rattle.std.specs.Prelude.{◌≡◌, [], All, IfErr, IfOk, List, is_some, length, option_map};
ghost use Rattle.std.specs.Prelude.{false, string_bytes, true};
ghost use Rattle.std.proofs.Props.{props};
ghost use Rattle.nix_names.specs.Bytes.{Bytes};
ghost use Rattle.valid_table.specs.declared.entry.Entry.{Entry};
ghost use Rattle.drv_graph.specs.Nodes.{paths_of};
ghost use Rattle.run_states.specs.StateTables.{IsRunSettled};
ghost use Rattle.nix_realise.specs.Locking.{IsKeptOut};
ghost use Rattle.nix_realise.specs.Building.{AreOptionsFor};
ghost use Rattle.nix_realise.specs.JournalFiles.{IsRunsFile};
ghost use Rattle.nix_realise.specs.LastLines.{AreKeptFor};
ghost use Rattle.nix_realise.specs.Realising.{BookEnds, IsCutShort, IsNotBegun, RealiseEnds};
ghost use Rattle.nix_realise.specs.Realising.{TaskEnds, TracedEnds};
ghost use Rattle.nix_realise.specs.RunSystems.{IsSystemOf};
ghost use Rattle.nix_realise.specs.Tools.{AreTools};
ghost use Rattle.nix_realise.specs.Tracing.{IsTraceTried};
ghost use Rattle.process_build.specs.declared.process.options.BuildOptions.{BuildOptions};

use crate::cli::exit::Outcome;
use crate::cli::printing::print_bytes;
use crate::cli::run_error::RunError;
use crate::io::folder::FolderSource;
use crate::io::journal_file::OwnJournal;
use crate::io::journal_keeper::JournalSinks;
use crate::io::locks::{HeldFolder, Locks, hold};
use crate::io::logs_folder::{LogsFolder, logs_folder};
use crate::io::nix_store::allow;
use crate::io::trace_file::{TraceFile, TracedRun};
use crate::io::whole_file::WriteProbe;
use crate::queries::run_system::system_of;
use crate::queries::task::{Task, load_plan};
use crate::runs::builders::{kept_folders, make_all};
use crate::runs::summary::{JournalOutcome, journal_bytes, report_of, roots_status};
use crate::runs::tools::{Tools, tools_of};
use crate::words::kept_lines::KeptBuilds;
use crate::words::last_lines::last_lines;
use command_line::RealiseRequest;
use process_build::{BuildOptions, Builders, DrvPaths, KeptFolders, WithTrace, remove_left};
use run_states::System;
use sched_core::Book;
use std::io::Write;
use std::marker::Brand;
use std::rt::{Env, Files};
use std::sync::Wait;
use std::thread::Threads;
use std::time::Clock;
use store_run::{RunFault, realise_kept};
use valid_table::Outlet;
use valid_view::{ListId, Name};

/// Builds the wanted derivations of the request, writes the journal and prints the report. What
/// starts the builders is tested, as `tools_of` does; the plan is loaded; it is looked
/// whether Nix manages the store folder, and its lock is taken; what earlier runs moved aside there
/// is removed, as far as that can be done; then the journal is read, it is tested whether the
/// journal can be written, and the folder of logs, if one is named, is made. The first fault ends
/// the run, and nothing is built. While the workers build, the journal is written again and again,
/// in the sink that `host` makes; a fault of such a write is not told. Once the workers gave a
/// book, the journal is written, whether the book is settled or not; then the lock is let go.
/// Nothing is printed where the book isn't settled, or where the journal is not written.
pub fn realise<'a, R, M, L, O>(
    rt: &R,
    make: &M,
    host: &L,
    request: &RealiseRequest<'a>,
    out: &mut O,
) -> Result<TracedRun<'a>, RunError<'a>>
where
    R: Env + Files + AllocGlobal + Threads + Wait + Clock + Sync,
    M: Builders,
    L: Locks + JournalSinks,
    O: Write,
    ensures { RealiseEnds M.Builder.may request.now (O.contents out.old) (O.contents out.new)
        result }
{
    let tools = tools_of(rt, request)?;
    let (dir, plan) = load_plan(rt.alloc(), &mut FolderSource::new(rt), &request.run)?;
    let held = enter(rt, host, request)?;
    remove_left(rt, held.holding().dir());
    let file = OwnJournal::new(rt.alloc(), held.holding(), request.run.journal)?;
    let task = Task::new(rt.alloc(), &request.run, &dir, plan, file.read(rt))?;
    let run = Realisation::new(rt, request, &tools, &file, task)?;
    run.start(make, host, out)
}

// Takes the lock of the request's store folder, unless Nix manages that.
fn enter<'a, R: Files + AllocGlobal, L: Locks>(
    rt: &R,
    locks: &L,
    request: &RealiseRequest<'a>,
) -> Result<HeldFolder<'a, L::Lock>, RunError<'a>>
    ensures ok { IfOk result (λ held. held.asked.dir ≡ request.now.run.store_dir) }
    ensures err { IfErr result (IsKeptOut request.now) }
{
    let allowed = allow(rt, request)?;
    hold(locks, allowed.dir(), request.wait)
}

// A run of a request that holds its store folder, over a plan and a journal. It was tried whether
// its journal file can be written. It has a list of the build folders that are kept, if the request
// asks to keep those of builders that failed.
#[derive(Drop)]
struct Realisation<'a, 'r, 'h, R> {
    rt: &'r R,
    request: &'r RealiseRequest<'a>,
    tools: &'r Tools<'a>,
    file: &'r OwnJournal<'h>,
    tried: WriteProbe<'r>,
    task: Task,
    kept: Option<KeptFolders>,
    ghost asked: { AreTools request.now tools.now } by { Prim.hlevel props },
    ghost file_is: { IsRunsFile request.now.run file.now },
    ghost tried_is: { tried.path.now ≡ string_bytes file.now.path },
    ghost kept_is: { is_some kept ≡ request.now.keep_failed },
}

impl<'a, 'r, 'h, R: Files + AllocGlobal> Realisation<'a, 'r, 'h, R> {
    // A run that holds its store folder, if its journal file can be written.
    fn new(
        rt: &'r R,
        request: &'r RealiseRequest<'a>,
        tools: &'r Tools<'a>,
        file: &'r OwnJournal<'h>,
        task: Task,
    ) -> Result<Realisation<'a, 'r, 'h, R>, RunError<'a>>
        requires tools { AreTools request.now tools.now }
        requires file { IsRunsFile request.now.run file.now }
        ensures request { IfOk result (λ run. run.request.now ≡ request.entry.now) }
        ensures task { IfOk result (λ run. run.task ≡ task) }
        ensures err { IfErr result (IsNotBegun request.entry.now) }
    {
        let tried = file.try_out(rt)?;
        let kept = kept_folders(rt.alloc(), request, task.plan().len())?;
        Ok(Realisation {
            rt,
            request,
            tools,
            file,
            tried,
            task,
            kept,
        })
    }
}

impl<'a, R> Realisation<'a, '_, '_, R>
where
    R: Files + AllocGlobal + Threads + Wait + Clock + Sync,
{
    // Makes the folder of logs, and runs with builders that build as the request asks.
    fn start<M, P, O>(
        &self,
        make: &M,
        sinks: &P,
        out: &mut O,
    ) -> Result<TracedRun<'a>, RunError<'a>>
    where
        M: Builders,
        P: JournalSinks,
        O: Write,
        ensures { TaskEnds M.Builder.may self.now.request.now self.now.task
            (O.contents out.old) (O.contents out.new) result }
    {
        let (rt, request) = (self.rt, self.request);
        let logs = logs_folder(rt, request.logs)?;
        let drvs = DrvPaths::of(rt.alloc(), self.task.plan())?;
        let sink = self.file.sink(rt.alloc(), sinks)?;
        let options = self.options(logs, &drvs);
        let system = system_of(rt, &request.run)?;
        self.build_traced::<M, P, O>(make, &options, &system, sink, out)
    }

    // Makes the builders, which note when they ran if the request asks for a trace, and lets them
    // build.
    fn build_traced<M, P, O>(
        &self,
        make: &M,
        options: &BuildOptions<'_>,
        system: &System,
        sink: P::Sink,
        out: &mut O,
    ) -> Result<TracedRun<'a>, RunError<'a>>
    where
        M: Builders,
        P: JournalSinks,
        O: Write,
        requires options { AreOptionsFor self.now.request.now (paths_of self.now.task.plan.nodes)
            options.now }
        requires system { IsSystemOf self.now.request.now.run system.now }
        requires sink { P.keeps_at sink (string_bytes self.now.file.now.path) }
        requires each { (shown : List Entry) (text : Bytes) → P.Sink.may_keep shown text }
        ensures { TaskEnds M.Builder.may self.now.request.now self.now.task
            (O.contents out.old) (O.contents out.new) result }
    {
        let (rt, request) = (self.rt, self.request);
        let trace = TraceFile::of(rt, request);
        let make = WithTrace::new(rt, make, TraceFile::trace_in(&trace));
        let builders = make_all(rt.alloc(), &make, request, options)?;
        Ok(self.build::<Brand, WithTrace<'_, R, M>, P, O>(
            Name::new(),
            builders,
            system,
            sink,
            &trace,
            out,
        ))
    }

    // Builds the wanted derivations for a system over a view of this name, by one worker for each
    // builder, keeps the journal in its place meanwhile, and ends the run, with this trace.
    fn build<J, M, P, O>(
        &self,
        name: Name,
        builders: Vec<M::Builder>,
        system: &System,
        sink: P::Sink,
        trace: &Option<TraceFile<'a>>,
        out: &mut O,
    ) -> TracedRun<'a>
    where
        J: ListId + Send + Sync,
        M: Builders,
        P: JournalSinks,
        O: Write,
        requires named { name ≡ J.book }
        requires jobs { length builders.items ≡ self.now.request.now.jobs }
        requires options { (options : BuildOptions)
            × AreOptionsFor self.now.request.now (paths_of self.now.task.plan.nodes) options
            × All (λ b. M.builds_in b options) builders.items }
        requires system { IsSystemOf self.now.request.now.run system.now }
        requires sink { P.keeps_at sink (string_bytes self.now.file.now.path) }
        requires each { (shown : List Entry) (text : Bytes) → P.Sink.may_keep shown text }
        requires trace { option_map (λ f. f.path) trace.now ≡ self.now.request.now.trace }
        ensures { TracedEnds M.Builder.may self.now.request.now self.now.task
            (O.contents out.old) (O.contents out.new) result }
    {
        let rt = self.rt;
        let (plan, opening) = (self.task.plan(), self.task.journal());
        match realise_kept::<J, R, M::Builder, P::Sink>(
            rt,
            rt.alloc(),
            name,
            plan,
            opening,
            system,
            builders,
            sink,
        ) {
            Ok(book) => {
                let ended = self.write_and_report(&book, out);
                self.end(trace, Some(book), ended)
            }
            Err((fault, book)) => {
                let stop = self.cut_short(fault, book.as_ref());
                self.end(trace, book, Err(stop))
            }
        }
    }
}

impl<'a, R: Files + AllocGlobal> Realisation<'a, '_, '_, R> {
    // How the builders build.
    fn options<'m>(&'m self, logs: LogsFolder<'a>, drvs: &'m DrvPaths) -> BuildOptions<'m>
        requires { logs.path ≡ self.now.request.now.logs }
        ensures { AreOptionsFor self.now.request.now drvs.now result }
    {
        let request = self.request;
        BuildOptions {
            store_dir: request.run.store_dir,
            runner: self.tools.runner(),
            logs: logs.path(),
            kept: self.kept.as_ref(),
            drvs,
            build_dir: self.tools.build_dir(),
            cores: self.tools.cores(),
            builtins: self.tools.builtins(),
        }
    }

    // Ends the run for a fault of its workers. Where they left a book, its journal is written.
    fn cut_short<V: Outlet>(&self, fault: RunFault, book: Option<&Book<V>>) -> RunError<'a>
        ensures { IsCutShort fault (is_some book.entry) result }
    {
        match book {
            Some(book) => RunError::Run(fault, self.write_unsettled(book)),
            None => RunError::Run(fault, JournalOutcome::no_book()),
        }
    }

    // Puts the journal of a book that isn't settled in place of the journal file.
    fn write_unsettled<V: Outlet>(&self, book: &Book<V>) -> JournalOutcome
        ensures { result.has_book ≡ true }
    {
        match journal_bytes(self.rt.alloc(), book) {
            Ok(bytes) => {
                let tried = self.file.write(self.rt, &bytes);
                JournalOutcome::of_write(self.request, book, tried)
            }
            Err(refused) => JournalOutcome::no_memory(refused),
        }
    }
}

impl<'a, R: Files + AllocGlobal + Wait> Realisation<'a, '_, '_, R> {
    // Tries to write the trace of a run that ended so and left this book, or none, if the request
    // asks for one; then the book is closed.
    fn end<V: Outlet>(
        &self,
        trace: &Option<TraceFile<'a>>,
        book: Option<Book<V>>,
        ended: Result<Outcome, RunError<'a>>,
    ) -> TracedRun<'a>
        requires { option_map (λ f. f.path) trace.now ≡ self.now.request.now.trace }
        ensures trace { IsTraceTried self.now.request.now.trace book result.trace }
        ensures ended { result.ended ≡ ended.entry }
    {
        let run = TracedRun::of(self.rt, trace, book.as_ref(), ended);
        if let Some(book) = book {
            book.close();
        }
        run
    }

    // Writes the journal of a settled book, and prints its report.
    #[tactic(auto, using(crate::proofs::WriteErrors::short_text, crate::proofs::WriteErrors::book_unwritten))]
    fn write_and_report<V: Outlet, O: Write>(
        &self,
        book: &Book<V>,
        out: &mut O,
    ) -> Result<Outcome, RunError<'a>>
        requires settled { IsRunSettled book.now.run book.now.history }
        requires opening { self.now.task.journal.entries ≡ book.now.history.opening }
        ensures { BookEnds self.now.request.now book.now (O.contents out.old) (O.contents out.new)
            result }
    {
        let bytes = journal_bytes(self.rt.alloc(), book)?;
        let written = self.file.write(self.rt, &bytes)?;
        let report = report_of(self.request, book, written)?;
        let (kept, opening) = (self.take_kept(), self.task.journal());
        let lines = last_lines(self.rt.alloc(), self.request, book, &kept, opening)?;
        match print_bytes(&report, out) {
            Ok(()) => Ok(Outcome::with(roots_status(book), lines)),
            Err(_) => Err(RunError::Unwritable),
        }
    }

    // The build folders that were kept.
    fn take_kept(&self) -> KeptBuilds<'_>
        ensures { AreKeptFor self.now.request.now result }
    {
        KeptBuilds {
            build_dir: self.tools.build_dir(),
            suffixes: self.take_suffixes(),
        }
    }

    // The numbers at the ends of their names, by the numbers of their leases: none where the
    // request doesn't ask for them.
    fn take_suffixes(&self) -> Vec<Option<u64>>
        ensures { self.now.request.now.keep_failed ≡ false → result.items ≡ [] }
    {
        match &self.kept {
            Some(kept) => kept.take(self.rt),
            None => Vec::new(self.rt.alloc()),
        }
    }
}
