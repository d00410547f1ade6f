//! The line of progress, which tells how far a run is.
ghost use Rattle.std.specs.Prelude.{◌≡◌, ◌∷◌, [], ◌++◌, List};
ghost use Rattle.process_build.specs.Progress.{AreCountsOf, AreNumbersOf, Began, Ended, Heard, IsHeardAndShown};

use crate::observe::counts::JobCounts;
use crate::observe::line::LineContent;
use crate::observe::longest::RunningLeases;
use crate::observe::shown_numbers::ShownNumbers;
use crate::observe::time::now;
use crate::process::lease::RunningLease;
use std::alloc::Global;
use std::io::Write;
use std::sync::{Condvar, Mutex, Wait};
use std::time::{Clock, Duration};

// How many seconds the line stands before it is written again.
const STANDS: u64 = 1;

// The counts, the leases that run, the terminal to which the line is written, and the numbers that
// it was shown last. Whenever the lock is free, these are the numbers of the counts.
#[derive(Drop)]
struct LineState<W> {
    counts: JobCounts,
    running: RunningLeases,
    columns: Option<usize>,
    to: W,
    last: Option<ShownNumbers>,
    is_over: bool,
    ghost heard: { ∥ IsHeardAndShown counts last ∥₁ },
}

impl<W: Write> LineState<W> {
    // Hears at this time that a job begins, and tells it. The lease is not named later where it is
    // not known or memory is refused.
    fn begin(&mut self, alloc: Global, running: Option<RunningLease>, unsettled: usize, at: u64)
        ensures { (calls : List Heard) → AreCountsOf calls self.old.counts
            → AreCountsOf (calls ++ Began unsettled ∷ []) self.new.counts }
    {
        self.counts.begin(unsettled);
        if let Some(running) = running {
            self.running.add(running);
        }
        let last = tell(
            alloc,
            &self.counts,
            &self.running,
            at,
            self.columns,
            &mut self.to,
        );
        self.last = Some(last);
    }

    // Hears at this time that the job of the lease with this number ended, and tells it.
    fn end(&mut self, alloc: Global, number: u64, is_good: bool, unsettled: usize, at: u64)
        ensures { (calls : List Heard) → AreCountsOf calls self.old.counts
            → AreCountsOf (calls ++ Ended is_good unsettled ∷ []) self.new.counts }
    {
        self.counts.end(is_good, unsettled);
        self.running.remove(number);
        let last = tell(
            alloc,
            &self.counts,
            &self.running,
            at,
            self.columns,
            &mut self.to,
        );
        self.last = Some(last);
    }

    // Tells the line again at this time, while a job runs.
    fn tell_again(&mut self, alloc: Global, at: u64) {
        if self.counts.numbers().running > 0 {
            let last = tell(
                alloc,
                &self.counts,
                &self.running,
                at,
                self.columns,
                &mut self.to,
            );
            self.last = Some(last);
        }
    }
}

// Tells a terminal with so many columns the line at this time.
fn tell<W: Write>(
    alloc: Global,
    counts: &JobCounts,
    running: &RunningLeases,
    at: u64,
    columns: Option<usize>,
    to: &mut W,
) -> ShownNumbers
    ensures { (calls : List Heard) → AreCountsOf calls counts.now
        → AreNumbersOf calls result.numbers }
{
    let line = LineContent {
        numbers: counts.numbers(),
        longest: running.longest(),
        at,
        columns,
    };
    ShownNumbers::by(alloc, &line, to)
}

/// The line of progress of a run: how many derivations are being built, how many were built and how
/// many failed, how many wait, how many were to be built when the first was begun, and for how many
/// seconds the derivation that runs longest has run. It is written again when a build begins or
/// ends, and each second meanwhile. It is cleared while nothing is being built and if there is no
/// memory for it.
#[derive(Drop)]
pub struct ProgressLine<W> {
    shown: Mutex<LineState<W>>,
    ending: Condvar,
}

impl<W: Write> ProgressLine<W> {
    /// Before anything is built; the line goes to this terminal, which has so many columns, if that
    /// is known.
    pub fn new(alloc: Global, columns: Option<usize>, to: W) -> ProgressLine<W> {
        let counts = JobCounts::new();
        ProgressLine {
            shown: Mutex::new(LineState {
                counts,
                running: RunningLeases::new(alloc),
                columns,
                to,
                last: None,
                is_over: false,
            }),
            ending: Condvar::new(),
        }
    }

    /// Writes the line again each second while a job runs, and returns after the run is over.
    pub fn draw<R: Wait + Clock + AllocGlobal>(&self, rt: &R) {
        let time = Duration::from_secs(STANDS);
        let mut shown = self.shown.lock(rt);
        for _ in rt.forever() {
            if shown.is_over {
                return;
            }
            shown = self.ending.wait_timeout(rt, shown, time).0;
            shown.tell_again(rt.alloc(), now(rt));
        }
        unreachable!()
    }

    /// The run is over.
    pub fn end<R: Wait>(&self, rt: &R) {
        self.shown.lock(rt).is_over = true;
        self.ending.notify_all();
    }

    // A job begins, of a lease that may be known, while `unsettled` derivations are unsettled.
    pub(crate) fn begin<R: Wait + Clock + AllocGlobal>(
        &self,
        rt: &R,
        running: Option<RunningLease>,
        unsettled: usize,
    ) {
        let at = now(rt);
        let mut shown = self.shown.lock(rt);
        shown.begin(rt.alloc(), running, unsettled, at);
    }

    // The job of the lease with this number ended, well or not, and `unsettled` derivations are
    // unsettled.
    pub(crate) fn finish<R: Wait + Clock + AllocGlobal>(
        &self,
        rt: &R,
        number: u64,
        is_good: bool,
        unsettled: usize,
    ) {
        let at = now(rt);
        let mut shown = self.shown.lock(rt);
        shown.end(rt.alloc(), number, is_good, unsettled, at);
    }
}
