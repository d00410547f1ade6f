//! The text of what a run has registered, as it goes on.
ghost use Rattle.std.specs.Prelude.{◌≡◌, ◌++◌, IfSome, List, OnOk};
ghost use Rattle.valid_table.specs.Texts.{text};
ghost use Rattle.valid_table.specs.declared.entry.Entry.{Entry};
ghost use Rattle.sched_core.specs.Books.{BuildsOver};
ghost use Rattle.store_run.specs.private.Looking.{AreKeptIn, IsNews};

use crate::basis::Basis;
use sched_core::Book;
use std::alloc::{AllocError, Global};
use std::marker::{Model, PhantomData};
use valid_table::{Entry, Journal, Version, write_lines};
use valid_view::{ListId, Prefix, Tells};

// The text of the entries of a run over the basis, as far as a keeper has looked, in the version of
// the texts that are kept of such a run. It begins with the text of the entries that were shown
// then.
#[derive(Drop)]
pub(crate) struct KeptText<J: ListId, S: Basis> {
    bytes: Vec<u8>,
    version: Version,
    shown: Prefix<J>,
    // How many of the bytes are the text of what was shown.
    shown_len: usize,
    // How many entries the text had that was kept last.
    kept: usize,
    of: PhantomData<S>,
}

impl<J: ListId, S: Basis> Model for KeptText<J, S> {
    ghost use Rattle.std.specs.Prelude.{◌≡◌, take};
    ghost use Rattle.valid_table.specs.Texts.{text};
    ghost use Rattle.store_run.specs.private.Looking.{AreKeptIn, Keeping};

    ghost Value = { Keeping };

    ghost view = { λ k. record {
      version = k.version;
      shown = k.shown;
      text = k.bytes.items;
      kept = k.kept;
    } };

    ghost invariant = { λ k. (take k.shown_len k.bytes.items ≡ text k.version k.shown)
        × AreKeptIn S.is_this_run k.version };
}

// What a look at a book gives: what is shown now, the lines of what is new of it, the lines of what
// waits, and how many entries there are.
#[derive(Drop)]
pub(crate) struct NewLines<J: ListId> {
    shown: Prefix<J>,
    fresh: Vec<u8>,
    waiting: Vec<u8>,
    count: usize,
}

impl<J: ListId> Model for NewLines<J> {
    ghost use Rattle.store_run.specs.private.Looking.{Looked};

    ghost Value = { Looked };

    ghost view = { λ n. record {
      shown = n.shown;
      fresh = n.fresh.items;
      waiting = n.waiting.items;
      count = n.count;
    } };
}

impl<J: ListId, S: Basis> KeptText<J, S> {
    // The text of a journal, whose entries are shown, and which is kept, in the version of the
    // texts that are kept of runs over the basis; none where memory is refused.
    pub(crate) fn open(
        alloc: Global,
        journal: &Journal,
        version: Version,
        shown: &Prefix<J>,
    ) -> Option<KeptText<J, S>>
        requires shown { shown.now ≡ journal.now.entries }
        requires version { AreKeptIn S.is_this_run version }
        ensures version { IfSome result (λ opened. opened.version ≡ version) }
        ensures shown { IfSome result (λ opened. opened.shown ≡ journal.now.entries) }
        ensures text { IfSome result (λ opened. opened.text ≡ text version journal.now.entries) }
    {
        let bytes = journal.write_in(alloc, version).ok()?;
        Some(KeptText {
            shown_len: bytes.len(),
            bytes,
            version,
            shown: shown.again(),
            kept: journal.entries().len(),
            of: PhantomData,
        })
    }

    // What a book has that the text that was kept last has not; none where there is nothing, or
    // where memory is refused. What is shown was shown, and all is valid in it that is built from.
    // Costs the lines of the entries that are new since the last look, and of those that wait.
    pub(crate) fn look<O: Tells<J>>(&self, alloc: Global, book: &Book<O>) -> Option<NewLines<J>>
        ensures news { IfSome result
            (IsNews self.now.version self.now.shown book.now.history.entries) }
        ensures shown { IfSome result (λ looked. J.Showing.shown J.book looked.shown) }
        ensures seeds { IfSome result
            (λ looked. BuildsOver book.now.run book.now.history looked.shown) }
    {
        let entries = book.journal().entries();
        if entries.len() == self.kept {
            return None;
        }
        let shown = O::prefix(book.tell());
        what_is_new(alloc, self.version, &self.shown, shown, entries)
    }

    // Goes on with what a look gave. Then the text is that of all entries that there were, and what
    // was shown then is known; the version stays, and is that of the texts that are kept of each
    // run over the basis. Where memory is refused, it begins with the text of what is shown, as
    // before.
    pub(crate) fn go_on(&mut self, news: NewLines<J>) -> Result<(), AllocError>
        requires { (entries : List Entry) × IsNews self.old.version self.old.shown entries news }
        ensures version { OnOk result (self.new.version ≡ self.old.version) }
        ensures run { OnOk result (AreKeptIn S.is_this_run self.old.version) }
        ensures shown { OnOk result (self.new.shown ≡ news.shown) }
        ensures text { OnOk result ((entries : List Entry)
            → IsNews self.old.version self.old.shown entries news
            → self.new.text ≡ text self.old.version entries) }
    {
        let NewLines {
            shown,
            fresh,
            waiting,
            count: _,
        } = news;
        self.bytes.truncate(self.shown_len);
        self.bytes.extend_from_slice(&fresh)?;
        self.shown_len = self.bytes.len();
        self.shown = shown;
        self.bytes.extend_from_slice(&waiting)
    }

    // The text.
    pub(crate) fn bytes(&self) -> &[u8]
        ensures { result.now ≡ self.now.text }
    {
        &self.bytes
    }

    // The list that was shown when the book was looked at.
    pub(crate) fn shown(&self) -> &Prefix<J>
        ensures { result.now ≡ self.now.shown }
    {
        &self.shown
    }

    // Takes note that a text of so many entries was kept.
    pub(crate) fn note_kept(&mut self, count: usize)
        ensures version { self.new.version ≡ self.old.version }
        ensures shown { self.new.shown ≡ self.old.shown }
        ensures text { self.new.text ≡ self.old.text }
        ensures kept { self.new.kept ≡ count }
    {
        self.kept = count;
    }
}

impl<J: ListId> NewLines<J> {
    // How many entries there are.
    pub(crate) fn count(&self) -> usize
        ensures { result ≡ self.now.count }
    {
        self.count
    }
}

// What some entries, which begin with what is shown now, have that was not shown before, in lines
// of a version, and what is shown now.
fn what_is_new<J: ListId>(
    alloc: Global,
    version: Version,
    known: &Prefix<J>,
    shown: Prefix<J>,
    entries: &[Entry],
) -> Option<NewLines<J>>
    requires { (waiting : List Entry) × (entries.now ≡ shown ++ waiting) }
    ensures news { IfSome result (IsNews version known.now entries.now) }
    ensures is { IfSome result (λ looked. looked.shown ≡ shown) }
    ensures shown { IfSome result (λ looked. J.Showing.shown J.book looked.shown) }
{
    let (before, now) = (known.len() as usize, shown.len() as usize);
    shown.one_begins_the_other(known);
    if now < before {
        return None;
    }
    let (all, waiting) = entries.split_at(now);
    let (_, fresh) = all.split_at(before);
    let fresh = write_lines(alloc, version, fresh).ok()?;
    let waiting = write_lines(alloc, version, waiting).ok()?;
    Some(NewLines {
        shown,
        fresh,
        waiting,
        count: entries.len(),
    })
}
