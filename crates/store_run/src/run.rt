//! A run: from a plan and a journal to a settled book.
ghost use Rattle.std.specs.Prelude.{◌≡◌, ◌⊎◌, ◌++◌, Err, IfErr, IfOk, MatchResult, vec_len};
ghost use Rattle.run_states.specs.Runs.{opened};
ghost use Rattle.run_states.specs.Legal.{IsLegal};
ghost use Rattle.store_run.specs.Builders.{IsAnswered};
ghost use Rattle.store_run.specs.private.Ending.{IsHandedOut, IsRunEnd, fault_of_stop};
ghost use Rattle.store_run.specs.Realising.{IsBookOver, IsRealised, IsRunFault, fault_of_opening};
ghost use Rattle.store_run.specs.Workers.{AreWorkers};
ghost use Rattle.store_run.specs.declared.fault.RunFault.TheVariants.{NoMemory, NoView};

use crate::basis::Basis;
use crate::fault::RunFault;
use crate::locked::Locked;
use crate::same_run::is_this_run;
use crate::shared::Shared;
use crate::worker::work;
use drv_graph::{GraphFault, Plan};
use run_states::System;
use sched_core::{Book, BookFault, Build, LeaseObserver};
use std::alloc::{AllocError, Global};
use std::sync::Wait;
use std::thread;
use std::thread::Threads;
use valid_table::{Journal, Outlet, TableFault};
use valid_view::{ListId, Name, OpenFault, Tells, ViewReader, ViewWriter};

// The greatest number of workers.
pub(crate) const MOST_WORKERS: usize = 64;

/// A run's book, whose outlet is a view, or why there is no settled one.
pub type RunResult<'a, J, R> = Result<
    Book<ViewWriter<J, &'a R>>,
    (RunFault, Option<Book<ViewWriter<J, &'a R>>>),
>;

/// Builds the wanted derivations of a plan, for a system, over a journal. Each builder has one
/// worker, which reads the valid paths in the view of this name. The book is over this plan,
/// system and entries, settled and legal, and what became of each derivation is a verdict on what a
/// builder may give. Whoever gets a book closes it.
///
/// `NoWorkers`, without a book, exactly where there is no builder, or more than 64. `NoView`,
/// without a book, where the view can't be opened. `ForeignPlan`, without a book, where the book
/// isn't over this plan, system and entries. `NoMemory` where memory was refused: without a
/// book before a worker was started, and else with the book, which is unsettled. `ThreadFault`,
/// with the book, where all workers that could be started have ended and it isn't settled. All
/// workers have ended whenever the call returns. Copies the plan, the journal and the system, and
/// the journal's table twice.
pub fn realise<
    'a,
    J: ListId + Send + Sync,
    R: Threads + Wait + Sync,
    B: Build + LeaseObserver + Send + Drop,
>(
    rt: &'a R,
    alloc: Global,
    name: Name,
    plan: &Plan,
    journal: &Journal,
    system: &System,
    builders: Vec<B>,
) -> RunResult<'a, J, R>
    requires { name ≡ J.book }
    ensures ok { IfOk result
        (IsRealised B.may plan.now system.now journal.now.entries (vec_len builders)) }
    ensures err { IfErr result (λ e. IsRunFault B.may plan.now system.now journal.now.entries
        (vec_len builders) e.0 e.1) }
{
    if builders.is_empty() || builders.len() > MOST_WORKERS {
        return Err((RunFault::NoWorkers, None));
    }
    let count = builders.len();
    let (book, readers) = match open_over::<J, R>(rt, alloc, name, plan, journal, system, count) {
        Ok(opened) => opened,
        Err(fault) => return Err((fault, None)),
    };
    let shared = run_book(rt, alloc, book, readers, builders);
    hand_out(ending(shared, plan, system, journal))
}

// A book over this plan, system and entries, in which nothing began, and `count` readers of its
// outlet, which is a view.
pub(crate) fn open_over<'a, J: ListId + Send, R: Wait>(
    rt: &'a R,
    alloc: Global,
    name: Name,
    plan: &Plan,
    journal: &Journal,
    system: &System,
    count: usize,
) -> Result<(Book<ViewWriter<J, &'a R>>, Vec<ViewReader<J>>), RunFault>
    requires name { name ≡ J.book }
    requires count { AreWorkers count }
    ensures over { IfOk result
        (λ pair. IsBookOver plan.now system.now journal.now.entries pair.0) }
    ensures opened { IfOk result (λ pair. pair.0.history ≡ opened journal.now.entries) }
    ensures shown { IfOk result (λ pair. pair.0.shown ≡ journal.now.entries) }
    ensures err { IfErr result (λ fault. (fault ≡ NoMemory) ⊎ (fault ≡ NoView)) }
{
    let copies = copies_of(alloc, plan, journal, system)?;
    book_over(
        alloc,
        copies,
        valid_view::open::<J, &R>(alloc, rt, name, journal, count),
    )
}

// A book over these copies, in which nothing began, and the readers of its outlet, by what opening
// the view gave. Where the view was opened memory alone can be refused.
fn book_over<O: Outlet, J: ListId>(
    alloc: Global,
    copies: (Plan, Journal, System),
    view: Result<(O, Vec<ViewReader<J>>), OpenFault>,
) -> Result<(Book<O>, Vec<ViewReader<J>>), RunFault>
    requires { IfOk view (λ pair. O.shown pair.0 ++ O.pending pair.0 ≡ copies.1.entries) }
    ensures over { IfOk result
        (λ pair. IsBookOver copies.0 copies.2 copies.1.entries pair.0) }
    ensures opened { IfOk result (λ pair. pair.0.history ≡ opened copies.1.entries) }
    ensures shown { IfOk view (λ seen. IfOk result (λ pair. pair.0.shown ≡ O.shown seen.0)) }
    ensures err { MatchResult view (λ pair. IfErr result (λ fault. fault ≡ NoMemory))
        (λ opening. result ≡ Err (fault_of_opening opening)) }
{
    let (plan, journal, system) = copies;
    let (outlet, readers) = view?;
    let book = Book::open(alloc, plan, journal, system, outlet)?;
    Ok((book, readers))
}

// Copies of the plan, the journal and the system. An error where memory is refused, and no other.
fn copies_of(
    alloc: Global,
    plan: &Plan,
    journal: &Journal,
    system: &System,
) -> Result<(Plan, Journal, System), AllocError>
    ensures plan { IfOk result (λ copy. copy.0 ≡ plan.now) }
    ensures journal { IfOk result (λ copy. copy.1.entries ≡ journal.now.entries) }
    ensures system { IfOk result (λ copy. copy.2 ≡ system.now) }
{
    let plan = match plan.copy(alloc) {
        Ok(plan) => plan,
        Err(GraphFault::NoMemory) => return Err(AllocError),
        Err(_) => unreachable!(),
    };
    let journal = match journal.copy(alloc) {
        Ok(journal) => journal,
        Err(TableFault::NoMemory) => return Err(AllocError),
        Err(_) => unreachable!(),
    };
    Ok((plan, journal, system.copy(alloc)?))
}

// Lets the builders work over a book until all workers have ended. Gives what they shared: the book
// that they left, and what stopped them.
fn run_book<R, J, O, B>(
    rt: &R,
    alloc: Global,
    book: Book<O>,
    readers: Vec<ViewReader<J>>,
    builders: Vec<B>,
) -> Shared<O, B>
where
    R: Threads + Wait + Sync,
    J: ListId + Send + Sync,
    O: Tells<J> + Send,
    B: Build + LeaseObserver + Send + Drop,
    requires { IsAnswered B.may book.run book.history }
{
    let locked = Locked::new(book);
    run_workers(rt, alloc, &locked, builders, readers);
    locked.into_shared()
}

// Lets each builder work in a thread of its own, with a reader of its own, until all threads have
// ended. A builder for which no thread can be made is left out.
pub(crate) fn run_workers<R, J, O, B, S>(
    rt: &R,
    alloc: Global,
    locked: &Locked<O, B, S>,
    builders: Vec<B>,
    readers: Vec<ViewReader<J>>,
)
where
    R: Threads + Wait + Sync,
    J: ListId + Send + Sync,
    O: Tells<J> + Send,
    B: Build + LeaseObserver + Send + Drop,
    S: Basis + Send,
{
    thread::scope(thread::scope_env(), rt, |scope| {
        for (builder, reader) in builders.into_iter().zip(readers) {
            let _ = scope.spawn(move || work(rt, alloc, locked, reader, &builder));
        }
    });
}

// How a run ends whose workers have ended, by what they shared. The book is given in any case. A
// fault comes with a book that isn't over this plan, system and entries, and with one that
// isn't settled. A settled book is given without a fault, whatever stopped the run.
pub(crate) fn ending<O: Outlet, B: Build>(
    shared: Shared<O, B>,
    plan: &Plan,
    system: &System,
    journal: &Journal,
) -> Result<Book<O>, (RunFault, Book<O>)>
    ensures end { IsRunEnd plan.now system.now journal.now.entries shared result }
    ensures legal { IsLegal shared.book.run shared.book.history }
    ensures answered { IsAnswered B.may shared.book.run shared.book.history }
{
    let (book, stop) = shared.into_parts();
    if !is_this_run(&book, plan, system, journal) {
        return Err((RunFault::ForeignPlan, book));
    }
    if book.settled() {
        return Ok(book);
    }
    Err((fault_by(stop), book))
}

// By which fault a run ends whose book isn't settled, by what stopped the run, if anything did.
fn fault_by(stop: Option<BookFault>) -> RunFault
    ensures { result ≡ fault_of_stop stop }
{
    match stop {
        Some(BookFault::NoMemory) => RunFault::NoMemory,
        _ => RunFault::ThreadFault,
    }
}

// What a run hands out, by how it ended: its book, with the fault if there is one. A book that
// isn't over this plan, system and entries is closed.
pub(crate) fn hand_out<O: Outlet>(
    ended: Result<Book<O>, (RunFault, Book<O>)>,
) -> Result<Book<O>, (RunFault, Option<Book<O>>)>
    ensures { IsHandedOut ended result }
{
    match ended {
        Ok(book) => Ok(book),
        Err((RunFault::ForeignPlan, book)) => {
            book.close();
            Err((RunFault::ForeignPlan, None))
        }
        Err((fault, book)) => Err((fault, Some(book))),
    }
}
