//! The numbers of the line of progress: jobs that began and ended, and derivations that are
//! unsettled.
ghost use Rattle.std.specs.Prelude.{◌≡◌, ◌∷◌, [], ◌++◌, List, max, min};
ghost use Rattle.process_build.specs.Progress.{AreCountsOf, AreNumbersOf, Began, Ended, Heard};

/// Of the calls that were heard: how many jobs began, and how many ended well and otherwise; the
/// greatest number of unsettled derivations that a call told, and the least.
#[derive(Clone, Copy)]
pub struct JobCounts {
    begun: usize,
    built: usize,
    failed: usize,
    all: usize,
    unsettled: usize,
}

impl JobCounts {
    /// Before any call.
    pub fn new() -> JobCounts
        ensures { AreCountsOf [] result }
    {
        JobCounts {
            begun: 0,
            built: 0,
            failed: 0,
            all: 0,
            unsettled: usize::MAX,
        }
    }

    /// A job begins, while `unsettled` derivations are unsettled.
    pub fn begin(&mut self, unsettled: usize)
        ensures { (calls : List Heard) → AreCountsOf calls self.old
            → AreCountsOf (calls ++ Began unsettled ∷ []) self.new }
    {
        self.begun = self.begun.saturating_add(1);
        self.learn(unsettled);
    }

    /// A job ended, well or not, and `unsettled` derivations are unsettled.
    pub fn end(&mut self, is_good: bool, unsettled: usize)
        ensures { (calls : List Heard) → AreCountsOf calls self.old
            → AreCountsOf (calls ++ Ended is_good unsettled ∷ []) self.new }
    {
        if is_good {
            self.built = self.built.saturating_add(1);
        } else {
            self.failed = self.failed.saturating_add(1);
        }
        self.learn(unsettled);
    }

    // Notes how many derivations are unsettled. That number only falls, so of two that come in the
    // wrong order the lesser is the newer.
    fn learn(&mut self, unsettled: usize)
        ensures { self.new ≡ record self.old {
          all = max self.old.all unsettled;
          unsettled = min self.old.unsettled unsettled;
        } }
    {
        self.all = self.all.max(unsettled);
        self.unsettled = self.unsettled.min(unsettled);
    }

    /// The numbers that the line tells. A job runs that began and hasn't ended.
    pub fn numbers(&self) -> Numbers
        ensures { (calls : List Heard) → AreCountsOf calls self.now → AreNumbersOf calls result }
    {
        let running = self
            .begun
            .saturating_sub(self.built)
            .saturating_sub(self.failed);
        Numbers {
            running,
            built: self.built,
            failed: self.failed,
            waiting: self.unsettled.saturating_sub(running),
            all: self.all,
        }
    }
}

/// The numbers of the line of progress.
#[derive(Clone, Copy)]
pub struct Numbers {
    /// How many jobs run.
    pub running: usize,
    /// How many ended well.
    pub built: usize,
    /// How many ended otherwise.
    pub failed: usize,
    /// How many derivations are unsettled and do not run.
    pub waiting: usize,
    /// How many were unsettled at first.
    pub all: usize,
}
