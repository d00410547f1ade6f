//! Lists that are shown, as what shows them tells.
ghost use Rattle.std.specs.Prelude.{◌≡◌, []};

use crate::append_only::AppendOnly;
use crate::list_id::ListId;
use crate::prefix::BarePrefix;
use crate::rule::{Published, SeenEntries};
use crate::shown_table::{Op, ShownTable};
use left_right::reader::Reading;
use left_right::writer::Writer;
use logbook::Seen;
use std::marker::{Brand, Model};
use std::sync::Wait;
use valid_table::Entry;

/// Which lists were shown. A name brings the predicate, and code that is generic in the name can
/// make it true by `show` alone.
pub trait Showing {
    ghost use Rattle.std.specs.Prelude.{List};
    ghost use Rattle.logbook.specs.Pages.{Book};
    ghost use Rattle.valid_table.specs.declared.entry.Entry.{Entry};

    // Whether a list of entries was shown as a prefix of the list with this name.
    ghost shown: { Book → List Entry → Type 0 };

    /// Takes note of a list that was shown.
    fn show(list: &DisplayedList)
        ensures { shown list.now.book list.now.entries };
}

impl Showing for Brand {
    ghost use Rattle.std.specs.Prelude.{⊤};

    ghost shown = { λ book entries. ⊤ };

    fn show(_list: &DisplayedList) {}
}

/// A list that was shown. Only what shows lists makes one: a writer's end, of the list that it
/// shows, and a reader that reads, of the list that it reads. The list without entries, with which
/// each list begins, counts as shown.
#[derive(Drop)]
pub struct DisplayedList {
    prefix: BarePrefix,
}

impl Model for DisplayedList {
    ghost use Rattle.valid_view.specs.Prefixes.{PrefixValue};

    ghost Value = { PrefixValue };

    ghost view = { λ d. d.prefix };
}

impl DisplayedList {
    // The list without entries.
    pub(crate) fn none(seen: Seen<Entry, u64, AppendOnly>) -> DisplayedList
        requires { seen.log ≡ [] }
        ensures book { result.book ≡ seen.book }
        ensures entries { result.entries ≡ [] }
    {
        DisplayedList {
            prefix: BarePrefix::first(seen),
        }
    }

    // The list that a writer shows.
    pub(crate) fn of_writer<J: ListId>(
        writer: &Writer<ShownTable, Op, SeenEntries, Published<J>>,
    ) -> DisplayedList
        ensures { result ≡ writer.now.desk.shown.value.prefix }
    {
        DisplayedList {
            prefix: writer.published().prefix.again(),
        }
    }

    // The list that a writer showed last. Ends the writer. May wait for readers.
    pub(crate) fn at_end<J: ListId, R: Wait>(
        writer: Writer<ShownTable, Op, SeenEntries, Published<J>>,
        rt: &R,
    ) -> DisplayedList
        ensures { result ≡ writer.desk.shown.value.prefix }
    {
        DisplayedList {
            prefix: writer.take(rt).prefix.again(),
        }
    }

    // The list that a reader reads.
    pub(crate) fn of_reading<J: ListId>(
        reading: &Reading<ShownTable, SeenEntries, Published<J>>,
    ) -> DisplayedList
        ensures { result ≡ reading.now.part.value.prefix }
    {
        DisplayedList {
            prefix: reading.get().prefix.again(),
        }
    }

    // The list, as a prefix of the one list.
    pub(crate) fn prefix(&self) -> BarePrefix
        ensures { result ≡ self.now }
    {
        self.prefix.again()
    }
}
