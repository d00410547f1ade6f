//! Entries on their way to be shown: into the one list, to the writer's end, to the readers.
ghost use Rattle.std.specs.Prelude.{◌≡◌, ◌++◌, [], ◌∷◌, All, IfErr, IsOk, OnErr, OnOk};
ghost use Rattle.valid_table.specs.Adding.{IsNew, IsValidWith};
ghost use Rattle.valid_table.specs.Entries.{registered_by};
ghost use Rattle.valid_table.specs.Valid.{references_of};
ghost use Rattle.valid_view.specs.private.Feeding.{Takes, known_of, pending_of};
ghost use Rattle.valid_view.specs.private.Refusals.{IsShowRefused};

use crate::list_id::ListId;
use crate::prefix::{Head, NamedPrefix, Prefix};
use crate::refusal::FeedFault;
use crate::shown_table::Op;
use crate::writer_end::{ReturnedOp, WriterEnd};
use core::mem::replace_with;
use std::alloc::AllocError;
use std::collections::VecDeque;
use std::marker::Model;
use std::sync::Wait;
use valid_table::{Entry, OutletFault};

// The writer's end, and the entries that wait before it.
pub(crate) struct Feed<J: ListId> {
    end: WriterEnd<J>,
    // The prefix of the one list that ends with all that is in it.
    prefix: NamedPrefix<J>,
    // The last entry of that list, if it was not handed over yet.
    held: Option<Op>,
    // Entries that are not in the list yet.
    queue: VecDeque<Entry>,
    head: Head<J>,
}

impl<J: ListId> Model for Feed<J> {
    ghost use Rattle.valid_view.specs.private.Feeding.{FeedValue, IsFeed, entries_of, ops_of};

    ghost Value = { FeedValue };

    ghost view = { λ f. record {
      shown = f.end.shown;
      handed = f.end.handed;
      held = entries_of (ops_of f.held);
      queue = f.queue.items;
    } };

    ghost invariant = { λ f. IsFeed J.book f.end.shown f.end.handed (ops_of f.held)
        f.queue.items f.prefix };
}

impl<J: ListId> Feed<J> {
    // A feed over the writer's end, where all that is in the list is shown.
    pub(crate) fn over(
        end: WriterEnd<J>,
        prefix: NamedPrefix<J>,
        head: Head<J>,
        queue: VecDeque<Entry>,
    ) -> Feed<J>
        requires all { end.shown ≡ prefix }
        requires handed { end.handed ≡ [] }
        requires queue { queue.items ≡ [] }
        ensures shown { result.shown ≡ end.shown }
        ensures pending { pending_of result ≡ [] }
    {
        prefix.may_be_shown();
        Feed {
            end,
            prefix,
            held: None,
            queue,
            head,
        }
    }

    // The list that is shown.
    pub(crate) fn prefix(&self) -> Prefix<J>
        ensures { result ≡ self.now.shown }
    {
        self.end.prefix()
    }

    // Puts an entry after those that wait.
    pub(crate) fn append(&mut self, entry: Entry) -> Result<(), OutletFault>
        requires new { IsNew (self.old.shown ++ pending_of self.old) entry }
        requires closed { All (IsValidWith (self.old.shown ++ pending_of self.old) entry)
            (references_of (registered_by entry)) }
        ensures same { self.new.shown ≡ self.old.shown }
        ensures ok { OnOk result (pending_of self.new ≡ pending_of self.old ++ entry ∷ []) }
        ensures err { OnErr result (pending_of self.new ≡ pending_of self.old) }
        ensures memory { IfErr result (λ e. e ≡ OutletFault.NoMemory) }
    {
        // Its contract says that the registrations rise.
        let _ = entry.registrations();
        self.queue.push_back(entry)?;
        Ok(())
    }

    // Shows all entries that wait. Where none does, it waits for no reader.
    pub(crate) fn publish<R: Wait>(&mut self, rt: &R) -> Result<(), FeedFault>
        ensures ok { OnOk result
            ((self.new.shown ≡ self.old.shown ++ pending_of self.old)
            × (pending_of self.new ≡ [])) }
        ensures err { OnErr result
            ((self.new.shown ≡ self.old.shown)
            × (pending_of self.new ≡ pending_of self.old)) }
        ensures nothing { pending_of self.old ≡ [] → IsOk result }
        ensures why { IfErr result (IsShowRefused J.book (known_of self.new)) }
    {
        self.hand_over()?;
        if !self.end.all_shown() {
            self.show(rt)?;
        }
        Ok(())
    }

    // Ends the view, and gives the list that was shown last. No entry that waits is
    // shown.
    pub(crate) fn close<R: Wait>(self, rt: &R) -> Prefix<J>
        ensures { result ≡ self.shown }
    {
        let Feed {
            end,
            prefix: _prefix,
            held: _held,
            queue: _queue,
            head: _head,
        } = self;
        end.close(rt)
    }

    // Shows the entries that were handed over, of which there are some. No other function but
    // `close` waits for readers.
    fn show<R: Wait>(&mut self, rt: &R) -> Result<(), AllocError>
        requires some { self.old.handed ≡ [] → ⊥ }
        ensures held { self.new.held ≡ self.old.held }
        ensures queue { self.new.queue ≡ self.old.queue }
        ensures ok { OnOk result
            ((self.new.shown ≡ self.old.shown ++ self.old.handed) × (self.new.handed ≡ [])) }
        ensures err { OnErr result
            ((self.new.shown ≡ self.old.shown) × (self.new.handed ≡ self.old.handed)) }
    {
        replace_with(&mut self.end, rt, WriterEnd::show)
    }

    // Hands over all entries that wait. Those that were handed over before a fault stay handed
    // over.
    fn hand_over(&mut self) -> Result<(), FeedFault>
        ensures shown { self.new.shown ≡ self.old.shown }
        ensures pending { pending_of self.new ≡ pending_of self.old }
        ensures ok { OnOk result ((self.new.held ≡ []) × (self.new.queue ≡ [])) }
        ensures nothing { pending_of self.old ≡ [] → IsOk result }
        ensures why { IfErr result (IsShowRefused J.book (known_of self.new)) }
    {
        self.hand_held()?;
        while self.take_next()? {
            self.hand_held()?;
        }
        Ok(())
    }

    // Hands over the entry that is held, if there is one.
    fn hand_held(&mut self) -> Result<(), AllocError>
        ensures shown { self.new.shown ≡ self.old.shown }
        ensures queue { self.new.queue ≡ self.old.queue }
        ensures pending { self.new.handed ++ self.new.held ≡ self.old.handed ++ self.old.held }
        ensures ok { OnOk result (self.new.held ≡ []) }
        ensures nothing { self.old.held ≡ [] → IsOk result }
    {
        let Some(op) = self.held.take() else {
            return Ok(());
        };
        if let Err(ReturnedOp { op, error }) = self.end.append(op) {
            self.held = Some(op);
            return Err(error);
        }
        Ok(())
    }

    // Puts the queue's first entry into the list, if there is one, and holds it.
    fn take_next(&mut self) -> Result<bool, FeedFault>
        requires { self.old.held ≡ [] }
        ensures shown { self.new.shown ≡ self.old.shown }
        ensures handed { self.new.handed ≡ self.old.handed }
        ensures taken { Takes self.old.queue self.new.held self.new.queue result }
        ensures nothing { self.old.queue ≡ [] → IsOk result }
        ensures why { IfErr result (IsShowRefused J.book (known_of self.new)) }
    {
        let Some(entry) = self.queue.pop_front() else {
            return Ok(false);
        };
        let mut prefix = self.prefix.again();
        if let Err(found) = prefix.add(&self.head, &entry) {
            self.queue.push_front_reserved(entry);
            return Err(found.into());
        }
        self.held = Some(Op {
            entry,
            prefix: prefix.bare(),
        });
        self.prefix = prefix;
        Ok(true)
    }
}
