//! The keeper of a run: a thread beside the workers that keeps what they register.
ghost use Rattle.store_run.specs.Keeping.{TakesEachInterimJournal};

use crate::basis::Basis;
use crate::kept_text::KeptText;
use crate::locked::Locked;
use crate::monitor::NoListener;
use crate::pause::pause_after;
use sched_core::Build;
use std::alloc::Global;
use std::marker::{Model, PhantomData};
use std::sync::Wait;
use std::time::{Clock, Duration, Instant};
use valid_view::{ListId, Prefix, Tells};

/// Where a run puts the text of its journal while it goes on.
pub trait CheckpointSink {
    ghost use Rattle.std.specs.Prelude.{List};
    ghost use Rattle.nix_names.specs.Bytes.{Bytes};
    ghost use Rattle.valid_table.specs.declared.entry.Entry.{Entry};

    // The texts that may be put there, each with a list from which its entries go on.
    ghost may_keep: { List Entry → Bytes → Type 0 };

    /// Puts a text in place of the one before, and says whether that was done; where it was not,
    /// another call comes, also where nothing more is registered. The list was shown when the text
    /// was that of the book. No lock is held, and no worker waits for it.
    fn keep<J: ListId>(&mut self, text: &[u8], shown: &Prefix<J>) -> bool
        requires { may_keep shown.now text.now };
}

// Where each text may be put that is kept of a run over the basis.
#[derive(Drop)]
pub(crate) struct TextSink<J: ListId, B: Build, S: Basis, K: CheckpointSink> {
    inner: K,
    of: PhantomData<(J, B, S)>,
}

impl<J: ListId, B: Build, S: Basis, K: CheckpointSink> Model for TextSink<J, B, S, K> {
    ghost use Rattle.store_run.specs.Keeping.{TakesEachInterimJournal};

    ghost Value = { Unit {0} };

    ghost view = { λ p. tt };

    ghost invariant = { λ p. TakesEachInterimJournal B.may (J.Showing.shown J.book) S.is_this_run K.may_keep };
}

impl<J: ListId, B: Build, S: Basis, K: CheckpointSink> TextSink<J, B, S, K> {
    // A sink where each such text may be put.
    pub(crate) fn new(inner: K) -> TextSink<J, B, S, K>
        requires { TakesEachInterimJournal B.may (J.Showing.shown J.book) S.is_this_run K.may_keep }
    {
        TextSink {
            inner,
            of: PhantomData,
        }
    }
}

// Keeps what is registered behind a lock, again and again, until all workers have ended. Begins
// with the text of the opening entries.
pub(crate) fn keep_on<R, J, O, B, S, K>(
    rt: &R,
    alloc: Global,
    locked: &Locked<O, B, S>,
    mut text: KeptText<J, S>,
    mut sink: TextSink<J, B, S, K>,
)
where
    R: Wait + Clock,
    J: ListId,
    O: Tells<J>,
    B: Build,
    S: Basis,
    K: CheckpointSink + Drop,
{
    let mut took = None;
    for _ in rt.forever() {
        if locked.ends_within(rt, pause_after(took)) {
            return;
        }
        took = keep_new(rt, alloc, locked, &mut text, &mut sink);
    }
    unreachable!()
}

// Puts the text of what is registered behind a lock in its place, if that has more entries than the
// text that was kept last. Says how long that took, if the clock can be read; none where there is
// nothing new, or where memory is refused.
fn keep_new<R, J, O, B, S, K>(
    rt: &R,
    alloc: Global,
    locked: &Locked<O, B, S>,
    text: &mut KeptText<J, S>,
    sink: &mut TextSink<J, B, S, K>,
) -> Option<Duration>
where
    R: Wait + Clock,
    J: ListId,
    O: Tells<J>,
    B: Build,
    S: Basis,
    K: CheckpointSink,
{
    let start = Instant::now(rt).ok();
    let news = locked.look(&NoListener::over(rt), alloc, text)?;
    let count = news.count();
    let Ok(()) = text.go_on(news) else {
        return None;
    };
    if sink.inner.keep(text.bytes(), text.shown()) {
        text.note_kept(count);
    }
    start?.elapsed(rt).ok()
}
