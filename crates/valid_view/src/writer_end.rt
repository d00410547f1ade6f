//! The writer's end of a view, under the rule.
ghost use Rattle.std.specs.Prelude.{◌≡◌, ◌<◌, ◌≤◌, ◌++◌, ◌↔◌, [], ◌∷◌, MatchResult, IfOk, IsTrue, OnErr, OnOk};
ghost use Rattle.valid_view.specs.private.ShownTables.{IsShownTable};

use crate::display::DisplayedList;
use crate::list_id::ListId;
use crate::prefix::Prefix;
use crate::reading::IdleReader;
use crate::rule::{Published, SeenEntries, Sees};
use crate::shown_table::{Op, ShownTable};
use left_right::writer::Writer;
use std::alloc::{AllocError, AllocFailed, Global};
use std::marker::Model;
use std::sync::Wait;

// An operation that came back, since memory was refused.
#[derive(Drop)]
pub(crate) struct ReturnedOp {
    pub op: Op,
    pub error: AllocError,
}

// That there is no place for a reader: what the factory of readers answered.
#[derive(Drop)]
pub(crate) struct TooManyReaders(AllocError);

// The writer. A contract sees the entries that are shown, and those that were handed over and not
// shown yet.
pub(crate) struct WriterEnd<J: ListId> {
    writer: Writer<ShownTable, Op, SeenEntries, Published<J>>,
}

impl<J: ListId> Model for WriterEnd<J> {
    ghost use Rattle.std.specs.Prelude.{drop};
    ghost use Rattle.valid_view.specs.private.Feeding.{Follows, WriterEndValue, entries_of};
    ghost use Rattle.valid_view.specs.private.ShownTables.{IsShownTable};

    ghost Value = { WriterEndValue };

    ghost view = { λ l. record {
      shown = l.writer.desk.shown.value.prefix.entries;
      handed = entries_of (drop l.writer.behind l.writer.log.items);
    } };

    ghost invariant = { λ l. IsShownTable J.book l.writer.desk.shown.value
        × Follows J.book l.writer.desk.shown.value.prefix.entries
        (drop l.writer.behind l.writer.log.items) };
}

impl<J: ListId> WriterEnd<J> {
    // The writer of two equal tables, for `readers` readers. `AllocError` where memory is refused.
    pub(crate) fn open(
        alloc: Global,
        first: ShownTable,
        second: ShownTable,
        readers: usize,
    ) -> Result<WriterEnd<J>, AllocError>
        requires readers { (0 < readers) × (readers ≤ 64) }
        requires alike { first ≡ second }
        requires table { IsShownTable J.book first }
        ensures shown { IfOk result (λ end. end.shown ≡ first.prefix.entries) }
        ensures handed { IfOk result (λ end. end.handed ≡ []) }
    {
        let writer = Writer::new(alloc, first, second, readers)?;
        Ok(WriterEnd { writer })
    }

    // A new reader, which has seen the list without entries. `TooManyReaders` where each place is
    // in use.
    pub(crate) fn reader(&self, none: &Prefix<J>) -> Result<IdleReader<J>, TooManyReaders>
        requires { none.now ≡ [] }
        ensures { IfOk result (λ idle. idle ≡ []) }
    {
        match self.writer.factory().reader() {
            Ok(reader) => Ok(IdleReader::over(reader, none.again())),
            Err(error) => Err(TooManyReaders(error)),
        }
    }

    // The list that is shown.
    pub(crate) fn prefix(&self) -> Prefix<J>
        ensures { result ≡ self.now.shown }
    {
        Prefix::over(DisplayedList::of_writer(&self.writer))
    }

    // Whether all entries that were handed over are shown.
    pub(crate) fn all_shown(&self) -> bool
        ensures { IsTrue result ↔ (self.now.handed ≡ []) }
    {
        !self.writer.has_pending_operations()
    }

    // Hands over the next entry. It comes back where memory is refused.
    pub(crate) fn append(&mut self, op: Op) -> Result<(), ReturnedOp>
        requires named { op.prefix.book ≡ J.book }
        requires next { op.prefix.entries
            ≡ (self.old.shown ++ self.old.handed) ++ op.entry ∷ [] }
        ensures shown { self.new.shown ≡ self.old.shown }
        ensures handed { MatchResult result
            (λ _. self.new.handed ≡ self.old.handed ++ op.entry ∷ [])
            (λ back. (back.op ≡ op) × (self.new.handed ≡ self.old.handed)) }
    {
        match self.writer.append(op) {
            Ok(()) => Ok(()),
            // The writer gives an operation back where its queue could not grow, and never else.
            Err(op) => Err(ReturnedOp {
                op,
                error: AllocFailed { value: () }.into(),
            }),
        }
    }

    // Shows all entries that were handed over. May wait for readers. `AllocError` where memory is
    // refused; then nothing changes.
    pub(crate) fn show<R: Wait>(self, rt: &R) -> (WriterEnd<J>, Result<(), AllocError>)
        ensures ok { OnOk result.1
            ((result.0.shown ≡ self.shown ++ self.handed) × (result.0.handed ≡ [])) }
        ensures err { OnErr result.1
            ((result.0.shown ≡ self.shown) × (result.0.handed ≡ self.handed)) }
    {
        let WriterEnd { writer } = self;
        let (writer, shown) = writer.publish_as::<Sees<J>, R>(rt);
        (WriterEnd { writer }, shown)
    }

    // Ends the view, and gives the list that was shown last. May wait for readers.
    pub(crate) fn close<R: Wait>(self, rt: &R) -> Prefix<J>
        ensures { result ≡ self.shown }
    {
        let WriterEnd { writer } = self;
        Prefix::over(DisplayedList::at_end(writer, rt))
    }
}
