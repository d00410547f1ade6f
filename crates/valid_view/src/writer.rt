//! The writer of a view: an outlet whose list readers see without a lock.
ghost use Rattle.std.specs.Prelude.{◌≡◌, ◌++◌, [], ◌∷◌, All, IfErr, IsOk, OnErr, OnOk};
ghost use Rattle.valid_table.specs.Adding.{IsNew, IsValidWith};
ghost use Rattle.valid_table.specs.Entries.{registered_by};
ghost use Rattle.valid_table.specs.Valid.{references_of};
ghost use Rattle.valid_view.specs.private.Feeding.{pending_of};

use crate::feed::Feed;
use crate::list_id::ListId;
use crate::prefix::Prefix;
use std::marker::Model;
use std::sync::Wait;
use valid_table::{Entry, Outlet, OutletFault};

/// The writer of the view with this name. A contract sees the entries that are shown, and those
/// that wait. The writer keeps the handle by which `publish` and `close` wait for readers. It can't
/// be dropped: `close` ends it.
pub struct ViewWriter<J: ListId, R> {
    feed: Feed<J>,
    rt: R,
}

impl<J: ListId, R> Model for ViewWriter<J, R> {
    ghost use Rattle.valid_table.specs.Outlets.{Outgoing};
    ghost use Rattle.valid_view.specs.private.Feeding.{pending_of};

    ghost Value = { Outgoing };

    ghost view = { λ w. record { shown = w.feed.shown; pending = pending_of w.feed } };
}

impl<J: ListId, R> ViewWriter<J, R> {
    // The writer over the feed of the view.
    pub(crate) fn over(feed: Feed<J>, rt: R) -> ViewWriter<J, R>
        ensures shown { result.shown ≡ feed.shown }
        ensures pending { result.pending ≡ pending_of feed }
    {
        ViewWriter { feed, rt }
    }

    /// Appends an entry to those that wait. Its paths must be new, and each of its references must
    /// be registered before or by the entry itself. `NoMemory`, the only fault, changes nothing.
    /// Waits for nobody.
    pub fn append(&mut self, entry: Entry) -> Result<(), OutletFault>
        requires new { IsNew (self.old.shown ++ self.old.pending) entry }
        requires closed { All (IsValidWith (self.old.shown ++ self.old.pending) entry)
            (references_of (registered_by entry)) }
        ensures same { self.new.shown ≡ self.old.shown }
        ensures ok { OnOk result (self.new.pending ≡ self.old.pending ++ entry ∷ []) }
        ensures err { OnErr result (self.new.pending ≡ self.old.pending) }
        ensures memory { IfErr result (λ e. e ≡ OutletFault.NoMemory) }
    {
        self.feed.append(entry)
    }

    /// The list that is shown. Never waits, and takes no memory.
    pub fn tell(&self) -> Prefix<J>
        ensures is { result ≡ self.now.shown }
        ensures shown { J.Showing.shown J.book self.now.shown }
    {
        let prefix = self.feed.prefix();
        prefix.was_shown();
        prefix
    }
}

impl<J: ListId, R: Wait + Drop> ViewWriter<J, R> {
    /// Ends the view, and gives the list that was shown last: readers are answered `NoView` from
    /// now on, and entries that wait are not shown. Waits for readers that still read.
    pub fn close(self) -> Prefix<J>
        ensures is { result ≡ self.shown }
        ensures shown { J.Showing.shown J.book self.shown }
    {
        let ViewWriter { feed, rt } = self;
        let shown = feed.close(&rt);
        shown.was_shown();
        shown
    }
}

impl<J: ListId + Send, R: Wait + Drop> Outlet for ViewWriter<J, R> {
    type Told = Prefix<J>;

    ghost shown = { λ w. w.shown };

    ghost pending = { λ w. w.pending };

    ghost names = { λ told entries. told ≡ entries };

    fn append(&mut self, entry: Entry) -> Result<(), OutletFault> {
        self.feed.append(entry)
    }

    /// Shows the entries that wait: each reader that asks afterwards sees them. Waits for readers
    /// that still read the list before the last one. Where no entry waits it does nothing, and does
    /// not wait. `NoMemory` where memory is refused; `NoView` where someone else made the one list
    /// longer, which nobody can.
    fn publish(&mut self) -> Result<(), OutletFault>
        ensures idle { self.old.pending ≡ [] → IsOk result }
        ensures ok { OnOk result
            ((self.new.shown ≡ self.old.shown ++ self.old.pending) × (self.new.pending ≡ [])) }
        ensures err { OnErr result
            ((self.new.shown ≡ self.old.shown) × (self.new.pending ≡ self.old.pending)) }
        ensures shown { J.Showing.shown J.book self.new.shown }
    {
        let answer = self.feed.publish(&self.rt);
        self.feed.prefix().was_shown();
        match answer {
            Ok(()) => Ok(()),
            Err(refusal) => Err(refusal.fault()),
        }
    }

    /// The list that is shown. Never waits, and takes no memory.
    fn tell(&self) -> Prefix<J>
        ensures is { result ≡ self.now.shown }
        ensures shown { J.Showing.shown J.book self.now.shown }
    {
        ViewWriter::tell(self)
    }

    /// Ends the view: readers are answered `NoView` from now on, and entries that wait are not
    /// shown. Waits for readers that still read.
    fn close(self)
        ensures shown { J.Showing.shown J.book self.shown }
    {
        let _shown = ViewWriter::close(self);
    }
}
