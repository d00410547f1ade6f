//! A run beside whose workers a keeper keeps what they register.
ghost use Rattle.std.specs.Prelude.{◌≡◌, IfErr, IfOk, IfSome, List, MatchResult, vec_len};
ghost use Rattle.nix_names.specs.Bytes.{Bytes};
ghost use Rattle.valid_table.specs.Texts.{text};
ghost use Rattle.valid_table.specs.declared.entry.Entry.{Entry};
ghost use Rattle.store_run.specs.Builders.{IsAnswered};
ghost use Rattle.store_run.specs.Keeping.{IsInterimJournal, TakesEachInterimJournal, interim_version};
ghost use Rattle.store_run.specs.Realising.{IsRealised, IsRunFault};
ghost use Rattle.store_run.specs.private.Looking.{AreKeptIn};

use crate::basis::Basis;
use crate::checkpoint_sink::{CheckpointSink, TextSink, keep_on};
use crate::fault::RunFault;
use crate::kept_text::KeptText;
use crate::locked::Locked;
use crate::run::{MOST_WORKERS, RunResult, ending, hand_out, open_over, run_workers};
use crate::shared::Shared;
use drv_graph::{Plan, Profile};
use run_states::System;
use sched_core::{Book, Build, LeaseObserver};
use std::alloc::Global;
use std::marker::Brand;
use std::sync::Wait;
use std::thread;
use std::thread::Threads;
use std::time::Clock;
use valid_table::{Journal, Version};
use valid_view::{ListId, Name, Tells, ViewReader};

/// Does what `realise` does, and keeps what is registered while the run goes on. A thread beside
/// the workers hands texts to the sink: each is the text of all entries that the book had at one
/// moment, of a legal history of the run, in which what became of each derivation is a verdict on
/// what a builder may give. All are in one version: version 3 under the profile `nix`, and else
/// that in which `Journal::write` writes the journal. With it comes the list that was shown at that
/// moment: the entries go on from it, and all is valid in it that was being built from. What the
/// returned book shows was shown under the same name; of two such lists one begins with the other
/// (`Prefix::one_begins_the_other`). The next run reads such a text as these entries, by
/// `laws::journals_of_runs_are_read`. No text is handed over where nothing was registered since the
/// last one that was kept, nor in the first half second. The thread has ended whenever the call
/// returns; what was registered last may not have been handed over. Where no thread can be made,
/// nothing is. The lock is held for the lines of new entries alone, and no worker waits for the
/// sink. Takes memory for the text, once.
pub fn realise_kept<
    'a,
    J: ListId + Send + Sync,
    R: Threads + Wait + Clock + Sync,
    B: Build + LeaseObserver + Send + Drop,
    K: CheckpointSink + Send + Drop,
>(
    rt: &'a R,
    alloc: Global,
    name: Name,
    plan: &Plan,
    journal: &Journal,
    system: &System,
    builders: Vec<B>,
    sink: K,
) -> RunResult<'a, J, R>
    requires name { name ≡ J.book }
    requires each { (shown : List Entry) (bytes : Bytes)
        → IsInterimJournal B.may (J.Showing.shown J.book)
        (record { graph = plan.now; system = system.now }) journal.now.entries shown bytes
        → K.may_keep shown bytes }
    ensures ok { IfOk result
        (IsRealised B.may plan.now system.now journal.now.entries (vec_len builders)) }
    ensures shown { MatchResult result (λ book. J.Showing.shown J.book book.shown)
        (λ e. IfSome e.1 (λ book. J.Showing.shown J.book book.shown)) }
    ensures err { IfErr result (λ e. IsRunFault B.may plan.now system.now journal.now.entries
        (vec_len builders) e.0 e.1) }
{
    if builders.is_empty() || builders.len() > MOST_WORKERS {
        return Err((RunFault::NoWorkers, None));
    }
    let count = builders.len();
    let (book, readers) = match open_over::<J, R>(rt, alloc, name, plan, journal, system, count) {
        Ok(opened) => opened,
        Err(fault) => return Err((fault, None)),
    };
    let shared = run_kept::<Brand, R, J, _, B, K>(
        rt, alloc, book, readers, builders, journal, sink,
    );
    // Its contract says that what the book shows was shown.
    shared.shows::<J>();
    hand_out(ending(shared, plan, system, journal))
}

// Lets the builders work over a book, which opened with a journal, and keeps what they register,
// until all workers have ended. Gives what they shared.
fn run_kept<S, R, J, O, B, K>(
    rt: &R,
    alloc: Global,
    book: Book<O>,
    readers: Vec<ViewReader<J>>,
    builders: Vec<B>,
    opening: &Journal,
    sink: K,
) -> Shared<O, B>
where
    S: Basis + Send,
    R: Threads + Wait + Clock + Sync,
    J: ListId + Send + Sync,
    O: Tells<J> + Send,
    B: Build + LeaseObserver + Send + Drop,
    K: CheckpointSink + Send + Drop,
    requires answered { IsAnswered B.may book.run book.history }
    requires over { S.is_this_run book.run book.history.opening }
    requires shown { book.shown ≡ opening.now.entries }
    requires version { AreKeptIn S.is_this_run
        (interim_version book.run.graph.profile opening.now.entries) }
    requires each { TakesEachInterimJournal B.may (J.Showing.shown J.book) S.is_this_run K.may_keep }
{
    let text = first_text::<S, J, O>(alloc, &book, opening);
    let locked = Locked::<O, B, S>::new(book);
    match text {
        Some(text) => {
            run_beside(
                rt,
                alloc,
                &locked,
                builders,
                readers,
                text,
                TextSink::new(sink),
            );
        }
        None => run_workers(rt, alloc, &locked, builders, readers),
    }
    locked.into_shared().over_any()
}

// The text of the entries that a book opened with, which are those of a journal, in the version of
// the texts that are kept of its run; none where nothing can be built, or where memory is refused.
fn first_text<S: Basis, J: ListId, O: Tells<J>>(
    alloc: Global,
    book: &Book<O>,
    opening: &Journal,
) -> Option<KeptText<J, S>>
    requires shown { book.now.shown ≡ opening.now.entries }
    requires version { AreKeptIn S.is_this_run
        (interim_version book.now.run.graph.profile opening.now.entries) }
    ensures shown { IfSome result (λ kept. kept.shown ≡ opening.now.entries) }
    ensures text { IfSome result (λ kept. kept.text
        ≡ text (interim_version book.now.run.graph.profile opening.now.entries)
        opening.now.entries) }
{
    if book.settled() {
        return None;
    }
    let version = interim_version(book.plan().profile(), opening);
    KeptText::open(alloc, opening, version, &O::prefix(book.tell()))
}

// The version of the texts that are kept of a run under a profile, which opens with the entries of
// a journal.
fn interim_version(profile: Profile, opening: &Journal) -> Version
    ensures { result ≡ interim_version profile opening.now.entries }
{
    match profile {
        Profile::Nix => Version::Three,
        Profile::Plain => opening.version(),
    }
}

// Lets the workers work, and a keeper keep what they register in a thread of its own, until all
// threads have ended. Where no thread can be made for the keeper, nothing is kept.
fn run_beside<S, R, J, O, B, K>(
    rt: &R,
    alloc: Global,
    locked: &Locked<O, B, S>,
    builders: Vec<B>,
    readers: Vec<ViewReader<J>>,
    text: KeptText<J, S>,
    sink: TextSink<J, B, S, K>,
)
where
    S: Basis + Send,
    R: Threads + Wait + Clock + Sync,
    J: ListId + Send + Sync,
    O: Tells<J> + Send,
    B: Build + LeaseObserver + Send + Drop,
    K: CheckpointSink + Send + Drop,
{
    thread::scope(thread::scope_env(), rt, |scope| {
        let _ = scope.spawn(move || keep_on(rt, alloc, locked, text, sink));
        run_workers(rt, alloc, locked, builders, readers);
        locked.ends(rt);
    });
}
