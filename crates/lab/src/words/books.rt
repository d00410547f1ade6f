//! Books, their leases and verdicts.
//!
//! `Book::open PLAN JOURNAL SYSTEM` begins the lines of a book, which end with `close` (`session`).
//! After a system there may stand its features and the builtin builders that have a program, each
//! as a list with commas. What a builder leaves is a status, or `killed`, and a tree for each
//! output: `-` where nothing lies, `file:TEXT`, `zeros:N` for a file of N bytes, `parts:A:B` for a
//! file in these pieces, or `folder:N` for a folder of N empty files of one name; `program:A:B` is
//! a file in pieces that its owner may execute. It has `open:` before it where others than its
//! owner may write it. The last tree stands for those that are left out. A kind is a digest by a
//! method, or another word, and has `nix/` before it under that profile.
ghost use Rattle.std.specs.Prelude.{IfOk};
ghost use Rattle.nix_names.specs.Rising.{IsRising};
ghost use Rattle.build_outcome.specs.Verdicts.{IsExamining};
ghost use Rattle.sched_core.specs.Books.{IsBooksLease, MayAllRefer};

mod session;

use crate::line::{Line, as_text, halves, number_of, pieces};
use crate::stop::{Found, Stop, Taken, call, tried};
use crate::teller::Teller;
use crate::words::journals::push_known;
use crate::words::scans::wide;
use crate::world::World;
use build_outcome::{HeardOutput, OutputHearer, examine_heard};
use drv_graph::{Kind, Plan, Profile};
use nix_names::{MethodDigest, StorePath};
use ref_scan::{Told as TreeTold, Tree, tell};
use run_states::System;
use sched_core::{
    Answer, Book, BookFault, Checked, Job, JobOutput, Lease, LeftOutput, Reason,
    examine as verdict_on, permitted_beside,
};
use session::take_session;
use std::alloc::{AllocError, Global};
use std::sync::atomic::{AtomicU64, Ordering};
use valid_table::{Entry, Journal, ListOutlet, Outlet, OutletFault, Record};

/// Takes a line, if its call is one of these.
pub(crate) fn take(teller: &mut Teller<'_>, world: &mut World, line: &Line<'_>) -> Found {
    words! { teller, world, line;
        "permitted_beside" (reached = reached 0, job = job 2)
            => permitted_beside(world.alloc, reached, &job) => paths;
        do "examine" => examine(teller, world, line);
        do "heard" => examine_told(teller, world, line);
        do "Book::open" => take_session(teller, world, line);
    }
}

/// Copies of the plan and of the journal that a line names first, and the system.
pub(crate) fn opening(
    teller: &mut Teller<'_>,
    world: &World,
    line: &Line<'_>,
) -> Result<(Plan, Journal, System), Stop> {
    let plan = world.plans.get(line.argument(0))?.copy(world.alloc)?;
    let journal = world.journals.get(line.argument(1))?.copy(world.alloc)?;
    Ok((plan, journal, system(teller, world, line)?))
}

/// The system that a line names after a plan and a journal.
pub(crate) fn system(
    teller: &mut Teller<'_>,
    world: &World,
    line: &Line<'_>,
) -> Result<System, Stop> {
    let name = line.argument(2);
    if line.arguments(3).is_empty() {
        return tried!(teller, "System::named" => System::named(world.alloc, name));
    }
    let name = name.to_vec(world.alloc)?;
    let features = world.copies(&pieces(world.alloc, line.argument(3), b',')?)?;
    let builtins = world.copies(&pieces(world.alloc, line.argument(4), b',')?)?;
    Ok(call!(teller, "System::new" => System::new(name, features, builtins)))
}

/// The book that a line opens.
fn opened<'a>(
    teller: &mut Teller<'_>,
    world: &World,
    line: &Line<'_>,
    unshown: &'a AtomicU64,
) -> Result<Book<Counting<'a>>, Stop> {
    let (plan, journal, system) = opening(teller, world, line)?;
    let outlet = Counting {
        outlet: ListOutlet::open(world.alloc, &journal)?,
        appends: 0,
        publishes: 0,
        unshown,
    };
    tried!(teller, "Book::open" => Book::open(world.alloc, plan, journal, system, outlet))
}

// `examine KIND OUTPUTS STATUS TREE..`: the outputs may refer to each other.
fn examine(teller: &mut Teller<'_>, world: &World, line: &Line<'_>) -> Taken {
    let job = made_job(world, line.argument(0), line.argument(1))?;
    let answer = answer(world, line.arguments(2), job.outputs.len())?;
    let permitted = permitted_beside(world.alloc, Vec::new(world.alloc), &job)?;
    let verdict = examined(teller, &job, &permitted, answer);
    tell_verdict(teller, world, verdict)
}

// `heard KIND OUTPUTS STATUS TREE..`: the same of trees that are heard, and of which none is kept.
fn examine_told(teller: &mut Teller<'_>, world: &World, line: &Line<'_>) -> Taken {
    let job = made_job(world, line.argument(0), line.argument(1))?;
    let answer = answer(world, line.arguments(2), job.outputs.len())?;
    let permitted = permitted_beside(world.alloc, Vec::new(world.alloc), &job)?;
    let verdict = heard(teller, world.alloc, &job, &permitted, answer);
    tell_verdict(teller, world, verdict)
}

// The records of a verdict, or its reason.
fn tell_verdict(teller: &mut Teller<'_>, world: &World, verdict: Result<Checked, Reason>) -> Taken {
    let checked = teller.answered(verdict)?;
    let records = call!(teller, "Checked::records" => checked.records());
    teller.lines(&text_of(world.alloc, records)?);
    Ok(())
}

// The verdict on the trees of an answer to a job, each of which is heard.
fn heard(
    teller: &mut Teller<'_>,
    alloc: Global,
    job: &Job,
    permitted: &[StorePath],
    answer: Answer,
) -> Result<Checked, Reason>
    requires { IsRising permitted.now }
{
    let mut outputs = Vec::new(alloc);
    for left in &answer.outputs {
        outputs.push(match left {
            Some(left) => Some(kept(teller, alloc, job, permitted, left)?),
            None => None,
        })?;
    }
    let status = answer.status;
    call!(teller, "examine_heard" => examine_heard(alloc, job, permitted, status, outputs))
}

// What is kept of a tree that is told to a hearer; `ReadFault` where it has no archive.
fn kept(
    teller: &mut Teller<'_>,
    alloc: Global,
    job: &Job,
    permitted: &[StorePath],
    left: &LeftOutput,
) -> Result<HeardOutput, Reason>
    requires { IsRising permitted.now }
{
    let begun = call!(teller, "OutputHearer::new" => OutputHearer::new(alloc, job, permitted));
    let mut hearer = begun?;
    let told = call!(teller, "OutputHearer::hear" => tell(alloc, &left.tree, &mut hearer));
    if told? == TreeTold::NoArchive {
        return Err(Reason::ReadFault);
    }
    call!(teller, "OutputHearer::may_be_taken" => hearer.may_be_taken());
    call!(teller, "OutputHearer::finish" => hearer.finish(left.others_may_write))
}

// `permitted_beside JOURNAL ROOTS OUTPUTS`: the closure of the roots.
fn reached(world: &World, line: &Line<'_>) -> Result<Vec<StorePath>, Stop>
    ensures { IfOk result (λ paths. IsRising paths.items) }
{
    let journal = world.journals.get(line.argument(0))?;
    let roots = listed_paths(world, line.argument(1))?;
    Ok(journal.table().closure(world.alloc, &roots)?)
}

/// What the outlet tells: how many entries it shows, how many were added to it, and how often it
/// published.
pub(crate) type Told = (usize, usize, usize);

/// The outlet.
pub(crate) struct Counting<'a> {
    outlet: ListOutlet,
    appends: usize,
    publishes: usize,
    // How many entries waited when it was closed.
    unshown: &'a AtomicU64,
}

impl Outlet for Counting<'_> {
    ghost use Rattle.valid_table.specs.Outlets.{CountsEntries};

    type Told = Told;

    ghost shown = { λ counting. counting.outlet.shown };

    ghost pending = { λ counting. counting.outlet.pending };

    ghost names = { λ told entries. CountsEntries told.0 entries };

    fn append(&mut self, entry: Entry) -> Result<(), OutletFault> {
        self.appends = self.appends.wrapping_add(1);
        self.outlet.append(entry)
    }

    fn publish(&mut self) -> Result<(), OutletFault> {
        self.publishes = self.publishes.wrapping_add(1);
        self.outlet.publish()
    }

    fn tell(&self) -> Told {
        (self.outlet.tell(), self.appends, self.publishes)
    }

    fn close(self) {
        let Counting {
            outlet,
            appends: _,
            publishes: _,
            unshown,
        } = self;
        unshown.store(outlet.pending().len() as u64, Ordering::SeqCst);
        outlet.close();
    }
}

// What lies at an output, by a word.
fn left(world: &World, word: &[u8]) -> Result<Option<LeftOutput>, AllocError> {
    let (first, rest) = halves(word, b':');
    let others_may_write = first == b"open".as_slice();
    match tree(world, if others_may_write { rest } else { word })? {
        Some(tree) => Ok(Some(LeftOutput {
            tree,
            others_may_write,
        })),
        None => Ok(None),
    }
}

// The tree at an output, by a word.
fn tree(world: &World, word: &[u8]) -> Result<Option<Tree>, AllocError> {
    let (kind, rest) = halves(word, b':');
    let count = number_of(rest).unwrap_or(0);
    Ok(Some(match as_text(kind) {
        "file" => Tree::File(world.text(rest).to_vec(world.alloc)?),
        "zeros" => Tree::File(vec![in world.alloc; 0; count]?),
        "parts" => Tree::Pieces(world.copies(&pieces(world.alloc, rest, b':')?)?),
        "program" => Tree::Executable(world.copies(&pieces(world.alloc, rest, b':')?)?),
        "folder" => wide(world.alloc, count, b"f")?,
        _ => return Ok(None),
    }))
}

/// The number that a word is, if it is one: a status.
pub(crate) fn status_of(word: &[u8]) -> Option<i32> {
    str::from_utf8(word).ok()?.parse().ok()
}

/// The answer of a builder at so many outputs, by the words of its status and of its trees.
pub(crate) fn answer(world: &World, words: &[&[u8]], count: usize) -> Result<Answer, AllocError> {
    let mut outputs = Vec::new(world.alloc);
    for index in 0..count.max(words.len().saturating_sub(1)) {
        outputs.push(match words.iter().skip(1).nth(index).or(words.last()) {
            Some(word) => left(world, word)?,
            None => None,
        })?;
    }
    let status = words.first().copied().and_then(status_of);
    Ok(Answer { status, outputs })
}

/// The paths in a list of words with commas between them; none where it is `-`.
pub(crate) fn listed_paths(world: &World, word: &[u8]) -> Result<Vec<StorePath>, Stop> {
    let mut words = pieces(world.alloc, word, b',')?;
    words.retain(|path| *path != b"-".as_slice());
    Ok(world.paths(&words)?)
}

/// A job for outputs at listed paths, without a builder. They are fixed where the kind is a digest.
pub(crate) fn made_job(world: &World, kind: &[u8], word: &[u8]) -> Result<Job, Stop> {
    let (alloc, mut outputs) = (world.alloc, Vec::new(world.alloc));
    for path in listed_paths(world, word)? {
        let name = Vec::new(alloc);
        outputs.push(JobOutput { name, path })?;
    }
    let (profile, kind) = match kind.strip_prefix(b"nix/") {
        Some(kind) => (Profile::Nix, kind),
        None => (Profile::Plain, kind),
    };
    let fixed = MethodDigest::of_text(kind).map(|it| Kind::Fixed(it.method, it.digest));
    Ok(Job {
        derivation: 0,
        profile,
        builder: Vec::new(alloc),
        args: Vec::new(alloc),
        env: Vec::new(alloc),
        outputs,
        kind: fixed.unwrap_or(Kind::Addressed),
        seeds: Vec::new(alloc),
        whole_inputs: Vec::new(alloc),
    })
}

/// The verdict on an answer to a job.
pub(crate) fn examined(
    teller: &mut Teller<'_>,
    job: &Job,
    permitted: &[StorePath],
    answer: Answer,
) -> Result<Checked, Reason>
    requires { IsRising permitted.now }
    ensures { IsExamining job.now permitted.now answer result }
{
    let alloc = *job.outputs.allocator();
    call!(teller, "examine" => verdict_on(alloc, job, permitted, answer))
}

/// The verdict on an answer to a job that may refer to what is permitted to a lease: to nothing,
/// where the lease isn't the book's.
pub(crate) fn found(
    teller: &mut Teller<'_>,
    book: &Book<Counting<'_>>,
    lease: &Lease<Told>,
    job: &Job,
    answer: Answer,
) -> Result<Result<Checked, Reason>, BookFault>
    ensures { IfOk result (λ verdict. IfOk verdict (λ checked.
        IsBooksLease book.now.run book.now.history lease.now.job lease.now.number
        → MayAllRefer book.now.history.entries lease.now.job checked)) }
{
    match call!(teller, "Book::permitted" => book.permitted(lease)) {
        Ok(paths) => Ok(examined(teller, job, &paths, answer)),
        Err(BookFault::ForeignLease) => Ok(examined(teller, job, &[], answer)),
        Err(fault) => Err(fault),
    }
}

/// The text of records.
pub(crate) fn text_of(alloc: Global, records: &[Record]) -> Result<Vec<u8>, AllocError> {
    let mut text = Vec::new(alloc);
    for record in records {
        text.extend_from_slice(b"record")?;
        push_known(&mut text, record)?;
        text.push(b'\n')?;
    }
    Ok(text)
}

/// Tells what a book answers about itself.
pub(crate) fn look(teller: &mut Teller<'_>, book: &Book<Counting<'_>>) -> Taken {
    const CALLS: &str = "Book::steps Book::unsettled Book::settled Book::can_begin Book::opening \
        Book::tell Book::plan Book::system System::name Book::journal Book::events";
    teller.begins(CALLS);
    let (steps, unsettled, opening) = (book.steps(), book.unsettled(), book.opening());
    let (settled, can_begin, told) = (book.settled(), book.can_begin(), book.tell());
    let (entries, count) = (book.journal().entries().len(), book.plan().len());
    let (system, events) = (book.system().name(), book.events());
    teller.ends(CALLS);
    let system = system.escape_ascii();
    teller.say(format_args!("{count} for {system}, {opening} of {entries} entries, {told:?}"));
    teller.say(format_args!("{steps} steps, {unsettled} unsettled, {settled} {can_begin}"));
    teller.say(format_args!("{events:?}"));
    Ok(())
}

/// Tells the state of each derivation: one line for neighbours of the same state.
pub(crate) fn tell_states(teller: &mut Teller<'_>, book: &Book<Counting<'_>>) -> Taken {
    let mut states = Vec::new(teller.rt.alloc());
    for d in 0..book.plan().len() {
        states.push(call!(teller, "Book::state" => book.state(d)))?;
    }
    for run in states.chunk_by(|before, state| before == state) {
        if let Some(state) = run.first() {
            teller.say(format_args!("{state:?} {}", run.len()));
        }
    }
    Ok(())
}

/// Tells a lease's number and its job.
pub(crate) fn tell_lease(teller: &mut Teller<'_>, lease: &Lease<Told>) -> Taken {
    const CALLS: &str = "Lease::job Lease::number";
    let (job, number) = call!(teller, CALLS => (lease.job(), lease.number()));
    teller.say(format_args!("lease {number} of {}, {:?}", job.derivation, job.kind));
    tell_job(teller, job);
    Ok(())
}

fn tell_job(teller: &mut Teller<'_>, job: &Job) {
    teller.text(&job.builder);
    job.args.iter().for_each(|arg| teller.text(arg));
    for entry in &job.env {
        let (key, value) = (entry.key.escape_ascii(), entry.value.escape_ascii());
        teller.say(format_args!("{key}={value}"));
    }
    job.outputs.iter().for_each(|output| {
        let name = output.name.escape_ascii();
        teller.say(format_args!("{name} {}", output.path.as_str()));
    });
    teller.paths(&job.seeds);
}
