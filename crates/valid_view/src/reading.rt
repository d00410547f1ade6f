//! What a reader of a view saw, and what it sees while it reads.
ghost use Rattle.std.specs.Prelude.{◌≡◌, IfErr, IfOk, MatchResult};
ghost use mathlib.Core.List.{IsPrefix};
ghost use Rattle.left_right.specs.Sides.{view as seat_view};
ghost use Rattle.valid_table.specs.Entries.{registered};
ghost use Rattle.valid_view.specs.Answers.{IsUnreached};
ghost use Rattle.valid_view.specs.Shown.{IsShowable};

use crate::display::DisplayedList;
use crate::list_id::ListId;
use crate::prefix::Prefix;
use crate::rule::{Published, SeenEntries, Sees};
use crate::shown_table::ShownTable;
use left_right::reader::{Reader, Reading};
use std::marker::Model;
use valid_table::Table;

/// That a reader did not reach its view. Only a reader that was refused makes one.
#[derive(Clone, Copy, Debug, PartialEq, Eq)]
pub struct WriterGone(());

// A reader that reads nothing now. A contract sees the list that was shown to it last.
#[derive(Drop)]
pub(crate) struct IdleReader<J: ListId> {
    reader: Reader<ShownTable, SeenEntries, Published<J>>,
    seen: Prefix<J>,
}

impl<J: ListId> Model for IdleReader<J> {
    ghost use Rattle.std.specs.Prelude.{◌≡◌, List};
    ghost use Rattle.left_right.specs.Sides.{view as seat_view};
    ghost use Rattle.valid_table.specs.declared.entry.Entry.{Entry};

    ghost Value = { List Entry };

    ghost view = { λ s. s.seen };

    ghost invariant = { λ s. seat_view s.reader.place ≡ s.seen };
}

// A reader that reads. A contract sees the list that is shown to it.
pub(crate) struct BusyReader<J: ListId> {
    reading: Reading<ShownTable, SeenEntries, Published<J>>,
    shown: Prefix<J>,
}

impl<J: ListId> Model for BusyReader<J> {
    ghost use Rattle.std.specs.Prelude.{◌≡◌, List};
    ghost use Rattle.left_right.specs.Sides.{view as seat_view};
    ghost use Rattle.valid_table.specs.Entries.{registered};
    ghost use Rattle.valid_table.specs.declared.entry.Entry.{Entry};

    ghost Value = { List Entry };

    ghost view = { λ g. g.shown };

    ghost invariant = { λ g. (seat_view g.reading.place ≡ g.shown)
        × (g.reading.part.value.registrations ≡ registered g.shown) };
}

impl<J: ListId> IdleReader<J> {
    // A reader that saw a list.
    pub(crate) fn over(
        reader: Reader<ShownTable, SeenEntries, Published<J>>,
        seen: Prefix<J>,
    ) -> IdleReader<J>
        requires { seat_view reader.place ≡ seen }
        ensures { result ≡ seen }
    {
        IdleReader { reader, seen }
    }

    // The list that it saw.
    pub(crate) fn seen(&self) -> &Prefix<J>
        ensures { result.now ≡ self.now }
    {
        &self.seen
    }

    // Begins to read the list that is shown. The reader comes back where the writer is gone, or
    // where the list does not begin with the one that it was told of, which never happens.
    pub(crate) fn enter(
        self,
        told: &Prefix<J>,
    ) -> Result<BusyReader<J>, (IdleReader<J>, WriterGone)>
        ensures later { MatchResult result (IsPrefix self) (λ back. IsPrefix self back.0) }
        ensures told { IfOk result (IsPrefix told.now) }
        ensures showable { IfOk result IsShowable }
        ensures gone { IfErr result (λ back. IsUnreached self told.now back.0) }
    {
        let IdleReader { reader, seen } = self;
        let reading = match reader.enter_as::<Sees<J>>() {
            Ok(reading) => reading,
            Err(reader) => return Err((IdleReader { reader, seen }, WriterGone(()))),
        };
        let shown = Prefix::<J>::over(DisplayedList::of_reading(&reading));
        let busy = BusyReader { reading, shown };
        if busy.shown.len() < told.len() {
            return Err((busy.leave(), WriterGone(())));
        }
        busy.shown.one_begins_the_other(told);
        Ok(busy)
    }
}

impl<J: ListId> BusyReader<J> {
    // The table that is shown.
    pub(crate) fn table(&self) -> &Table
        ensures { result.now.registrations ≡ registered self.now }
    {
        &self.reading.get().table
    }

    // Ends reading.
    pub(crate) fn leave(self) -> IdleReader<J>
        ensures { result ≡ self }
    {
        let BusyReader { reading, shown } = self;
        IdleReader {
            reader: reading.leave(),
            seen: shown,
        }
    }
}
