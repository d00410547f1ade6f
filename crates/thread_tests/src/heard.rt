//! Runs by workers that note what they do, and outlets that refuse entries, or refuse to show more
//! than their view showed at first.
ghost use Rattle.std.specs.Prelude.{◌≡◌, ◌++◌, []};

use crate::hearing::{Act, Acts, Behaviour, Comes, View, Worker, awaits};
use crate::plans::{Host, SYSTEM};
use drv_graph::Plan;
use run_states::System;
use sched_core::{Book, BookFault, Build, Event, LeaseObserver};
use std::alloc::Global;
use std::marker::Brand;
use std::sync::{Mutex, Wait};
use std::test::*;
use std::thread;
use store_run::{Listen, Locked, work_heard};
use valid_table::{Entry, Journal, Outlet, OutletFault};
use valid_view::{ListId, Name, Prefix, Tells, ViewReader, ViewWriter, open};

// An outlet that shows what its view showed at first. Its view is there until the outlet is
// closed; where it is gone, there is no writer.
struct Poor<J: ListId, R> {
    writer: Option<ViewWriter<J, R>>,
    prefix: Prefix<J>,
    waits: Vec<Entry>,
    view: View,
}

// The outlet over this view.
fn poor_outlet<J: ListId + Send, R: Wait + Drop>(
    alloc: Global,
    writer: ViewWriter<J, R>,
    view: View,
) -> Poor<J, R>
    ensures shown { result.prefix ≡ writer.shown }
    ensures waits { result.waits.items ≡ [] }
{
    let (prefix, waits) = (writer.tell(), Vec::new(alloc));
    let writer = if view == View::Gone {
        writer.close();
        None
    } else {
        Some(writer)
    };
    Poor {
        writer,
        prefix,
        waits,
        view,
    }
}

impl<J: ListId + Send, R: Wait + Drop> Outlet for Poor<J, R> {
    type Told = Prefix<J>;

    ghost shown = { λ outlet. outlet.prefix };

    ghost pending = { λ outlet. outlet.waits.items };

    ghost names = { λ told entries. told ≡ entries };

    fn append(&mut self, entry: Entry) -> Result<(), OutletFault> {
        if self.view == View::Full {
            return Err(OutletFault::NoMemory);
        }
        self.waits.push(entry)?;
        Ok(())
    }

    fn publish(&mut self) -> Result<(), OutletFault> {
        match self.view {
            _ if self.waits.is_empty() => Ok(()),
            View::Stuck(fault) => Err(fault),
            _ => Err(OutletFault::NoView),
        }
    }

    fn tell(&self) -> Prefix<J> {
        self.prefix.again()
    }

    fn close(self) {
        let Poor {
            writer,
            prefix: _,
            waits: _,
            view: _,
        } = self;
        if let Some(writer) = writer {
            writer.close();
        }
    }
}

impl<J: ListId + Send, R: Wait + Drop> Tells<J> for Poor<J, R> {
    fn prefix(told: Prefix<J>) -> Prefix<J> {
        told
    }
}

// The workers of a run, and a reader for each.
type Crew<B, J> = (Vec<B>, Vec<ViewReader<J>>);

// What is given to a run: its plan, its journal and its system.
type Given = (Plan, Journal, System);

/// The events of a run, and why it was stopped.
pub(crate) type Ended = (Vec<Event>, Option<BookFault>);

/// What the workers of a run did, and how it ended.
pub(crate) type Heard = (Acts, Ended);

// Lets each worker work in a thread of its own. Where a worker doesn't end, the test ends.
fn work_all<R: Host, J: ListId + Send + Sync, O, B>(
    rt: &R,
    alloc: Global,
    locked: &Locked<O, B>,
    (workers, readers): Crew<B, J>,
    log: &Mutex<Acts>,
)
where
    O: Tells<J> + Send,
    B: Build + LeaseObserver + Listen + Comes + Send + Drop,
{
    let count = workers.len();
    thread::scope(thread::scope_env(), rt, |scope| {
        for (worker, reader) in workers.into_iter().zip(readers) {
            let _ = scope.spawn(move || {
                worker.comes(rt);
                work_heard(&worker, alloc, locked, reader, &worker);
                worker.leaves();
            });
        }
        assert!(rt; awaits(rt, log, Act::Leaves, count), "a worker still waits");
    });
}

// The events of a run over this outlet, and why it was stopped.
fn heard_over<R: Host, J: ListId + Send + Sync, O, B>(
    rt: &R,
    alloc: Global,
    given: Given,
    outlet: O,
    crew: Crew<B, J>,
    log: &Mutex<Acts>,
) -> Result<Ended, Fail>
where
    O: Tells<J> + Send,
    B: Build + LeaseObserver + Listen + Comes + Send + Drop,
    requires { O.shown outlet ++ O.pending outlet ≡ given.1.entries }
{
    let (plan, journal, system) = given;
    let book = Book::open(alloc, plan, journal, system, outlet)?;
    let locked = Locked::new(book);
    work_all(rt, alloc, &locked, crew, log);
    let (book, stop) = locked.into_parts();
    let events: Result<_, _> = Vec::from_slice(alloc, book.events());
    book.close();
    Ok((events?, stop))
}

// The workers of a run, which share a log.
fn workers_of<'a, R>(
    rt: &'a R,
    alloc: Global,
    behaviour: Behaviour<'a>,
    log: &'a Mutex<Acts>,
) -> Result<Vec<Worker<'a, R>>, Fail> {
    let mut workers = Vec::new(alloc);
    for number in 0..behaviour.workers {
        workers.push(Worker {
            rt,
            alloc,
            log,
            number,
            behaviour,
        })?;
    }
    Ok(workers)
}

// The events of a run over a view of this name, and why it was stopped.
fn heard_named<J: ListId + Send + Sync, R: Host>(
    rt: &R,
    alloc: Global,
    name: Name,
    given: Given,
    behaviour: Behaviour,
    log: &Mutex<Acts>,
) -> Result<Ended, Fail>
    requires { name ≡ J.book }
{
    let count = behaviour.workers;
    if count == 0 || count > 64 {
        return Err("a wrong number of workers".into());
    }
    let workers = workers_of(rt, alloc, behaviour, log)?;
    let (writer, readers) = open::<J, &R>(alloc, rt, name, &given.1, count)?;
    let crew = (workers, readers);
    if behaviour.view == View::Whole {
        heard_over(rt, alloc, given, writer, crew, log)
    } else {
        let outlet = poor_outlet(alloc, writer, behaviour.view);
        heard_over(rt, alloc, given, outlet, crew, log)
    }
}

/// What a run leaves behind that opens with a journal.
pub(crate) fn heard_from<R: Host>(
    rt: &R,
    alloc: Global,
    (plan, journal): (Plan, Journal),
    behaviour: Behaviour,
) -> Result<Heard, Fail> {
    let log = Mutex::new(Vec::new(alloc));
    let given = (plan, journal, System::named(alloc, SYSTEM)?);
    let ended = heard_named::<Brand, _>(rt, alloc, Name::new(), given, behaviour, &log)?;
    Ok((log.into_inner(), ended))
}

/// What a run leaves behind that opens with an empty journal.
pub(crate) fn heard_of<R: Host>(
    rt: &R,
    alloc: Global,
    plan: Plan,
    behaviour: Behaviour,
) -> Result<Heard, Fail> {
    heard_from(rt, alloc, (plan, Journal::new(alloc)), behaviour)
}
