//! The text of the line of progress.
ghost use Rattle.std.specs.Prelude.{◌≡◌, ◌/◌, ◌-◌, ◌++◌, IfOk, OnOk, codes, decimal, string_bytes};
ghost use Rattle.process_build.specs.Progress.{cut_to_columns, line_of, named_by, number_words, words_of};

use crate::observe::counts::Numbers;
use crate::process::lease::{RunningLease, drv_name};
use itoa::Buffer;
use std::alloc::{AllocError, Global};

/// What clears a terminal's line: back to the first column, then erase to the end (ECMA-48, EL).
pub const NO_LINE: &str = "\r\x1b[K";

// What turns a terminal's line wrapping off, so that a long line is cut at the last column, and on
// again (DECAWM).
const CUT: &str = "\x1b[?7l";

const WRAP: &str = "\x1b[?7h";

const MICROS_PER_SEC: u64 = 1_000_000;

/// What the line tells.
#[derive(Clone, Copy)]
pub struct LineContent<'a> {
    /// Its numbers.
    pub numbers: Numbers,
    /// The lease that runs longest, if one is known.
    pub longest: Option<&'a RunningLease>,
    /// The time, in microseconds of the clock by which leases begin.
    pub at: u64,
    /// How many columns the terminal has, if that is known.
    pub columns: Option<usize>,
}

impl LineContent<'_> {
    /// The line, in the place of the one before. A terminal that is narrower than is known shows
    /// its beginning.
    pub fn text(&self, alloc: Global) -> Result<Vec<u8>, AllocError>
        ensures { IfOk result (λ text. text.items ≡ line_of self.now) }
    {
        let words = self.words(alloc)?;
        let mut text = Vec::new(alloc);
        text.extend_from_slice(NO_LINE.as_bytes())?;
        text.extend_from_slice(CUT.as_bytes())?;
        text.extend_from_slice(cut_to_columns(&words, self.columns))?;
        text.extend_from_slice(WRAP.as_bytes())?;
        Ok(text)
    }

    // The words of the line: its numbers, and what it tells of the lease that runs longest.
    #[tactic(auto, unfolding(crate::specs::Progress::words_of))]
    fn words(&self, alloc: Global) -> Result<Vec<u8>, AllocError>
        ensures { IfOk result (λ words. words.items ≡ words_of self.now) }
    {
        let mut words = self.numbers.words(alloc)?.into_bytes();
        match self.longest {
            Some(running) => write_named(running, self.at, &mut words)?,
            None => {}
        }
        Ok(words)
    }
}

impl Numbers {
    // The numbers in words.
    fn words(&self, alloc: Global) -> Result<String, AllocError>
        ensures { IfOk result (λ words. string_bytes words ≡ number_words self.now) }
    {
        let Numbers {
            running,
            built,
            failed,
            waiting,
            all,
        } = self;
        format!(in alloc;
            "nix_realise: {running} running, {built} built, {failed} failed, {waiting} waiting, of {all}"
        )
    }
}

// Adds for how many whole seconds a lease has run, and the name of its derivation.
#[tactic(auto, unfolding(crate::specs::Progress::named_by))]
fn write_named(running: &RunningLease, at: u64, out: &mut Vec<u8>) -> Result<(), AllocError>
    ensures { OnOk result (out.new.items ≡ out.old.items ++ named_by at running.now) }
{
    let seconds = at.saturating_sub(running.start) / MICROS_PER_SEC;
    out.extend_from_slice(b", ")?;
    out.extend_from_slice(Buffer::new().format(seconds).as_bytes())?;
    out.extend_from_slice(b" s in ")?;
    out.extend_from_slice(drv_name(&running.path))
}

// The beginning of some words that a terminal with so many columns has room for. All bytes are
// ASCII, so each takes a column.
fn cut_to_columns(words: &[u8], columns: Option<usize>) -> &[u8]
    ensures { result.now ≡ cut_to_columns columns words.now }
{
    match columns {
        Some(columns) => &words[..columns.min(words.len())],
        None => words,
    }
}
