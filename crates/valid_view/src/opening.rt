//! How a view is opened.
ghost use Rattle.std.specs.Prelude.{◌≡◌, ◌≤◌, [], All, IfOk, MatchResult, length, vec_capacity};
ghost use Rattle.valid_table.specs.Entries.{registered};
ghost use Rattle.valid_table.specs.Valid.{IsJournal};
ghost use Rattle.valid_view.specs.Prefixes.{Hinders};
ghost use Rattle.valid_view.specs.private.Feeding.{pending_of};

use crate::feed::Feed;
use crate::list_id::{ListId, Name};
use crate::prefix::{BarePrefix, Head, NamedPrefix, Prefix};
use crate::reader::ViewReader;
use crate::refusal::{FeedFault, OpenFault};
use crate::shown_table::ShownTable;
use crate::writer::ViewWriter;
use crate::writer_end::WriterEnd;
use std::alloc::{AllocError, Global};
use std::collections::VecDeque;
use std::sync::Wait;
use valid_table::{Entry, Journal, Table, TableFault};

/// Opens a view that shows a journal's entries, with 1 to 64 readers, each of which was told of
/// these entries. `NoMemory` where memory is refused, `NoView` where there is no place for a
/// reader. Copies the table of the journal twice.
pub fn open<J: ListId, R: Wait + Drop>(
    alloc: Global,
    rt: R,
    name: Name,
    journal: &Journal,
    readers: usize,
) -> Result<(ViewWriter<J, R>, Vec<ViewReader<J>>), OpenFault>
    requires name { name ≡ J.book }
    requires readers { (1 ≤ readers) × (readers ≤ 64) }
    ensures shown { IfOk result (λ view. view.0.shown ≡ journal.now.entries) }
    ensures was_shown { IfOk result (λ view. J.Showing.shown J.book view.0.shown) }
    ensures pending { IfOk result (λ view. view.0.pending ≡ []) }
    ensures readers { IfOk result (λ view. length view.1.items ≡ readers) }
    ensures room { IfOk result (λ view. vec_capacity view.1 ≡ readers) }
    ensures told { IfOk result
        (λ view. All (λ reader. reader.told ≡ journal.now.entries) view.1.items) }
    ensures seen { IfOk result (λ view. All (λ reader. reader.seen ≡ []) view.1.items) }
{
    match open_feed(alloc, &rt, name, journal, readers) {
        Ok((feed, readers)) => {
            let writer = ViewWriter::over(feed, rt);
            writer.tell().was_shown();
            Ok((writer, readers))
        }
        Err(refusal) => Err(refusal.open_fault()),
    }
}

// The feed of a view that shows a journal's entries, and the readers of the view.
fn open_feed<J: ListId, R: Wait>(
    alloc: Global,
    rt: &R,
    name: Name,
    journal: &Journal,
    readers: usize,
) -> Result<(Feed<J>, Vec<ViewReader<J>>), FeedFault>
    requires name { name ≡ J.book }
    requires readers { (1 ≤ readers) × (readers ≤ 64) }
    ensures shown { IfOk result (λ view. view.0.shown ≡ journal.now.entries) }
    ensures pending { IfOk result (λ view. pending_of view.0 ≡ []) }
    ensures readers { IfOk result (λ view. length view.1.items ≡ readers) }
    ensures room { IfOk result (λ view. vec_capacity view.1 ≡ readers) }
    ensures told { IfOk result
        (λ view. All (λ reader. reader.told ≡ journal.now.entries) view.1.items) }
    ensures seen { IfOk result (λ view. All (λ reader. reader.seen ≡ []) view.1.items) }
{
    let (head, mut prefix, none) = name.open::<J>();
    fill(&mut prefix, &head, journal.entries())?;
    let first = shown_table(alloc, journal, &prefix)?;
    let second = shown_table(alloc, journal, &prefix)?;
    let end = WriterEnd::open(alloc, first, second, readers)?;
    match make_readers(alloc, &end, &none, readers) {
        Ok(readers) => {
            let feed = Feed::over(end, prefix, head, VecDeque::new(alloc));
            Ok((feed, readers))
        }
        Err(refusal) => {
            let _shown = end.close(rt);
            Err(refusal)
        }
    }
}

// Puts a journal's entries into a list that has none.
fn fill<J: ListId>(
    prefix: &mut NamedPrefix<J>,
    head: &Head<J>,
    entries: &[Entry],
) -> Result<(), BarePrefix>
    requires empty { prefix.old ≡ [] }
    requires journal { IsJournal entries.now }
    ensures { MatchResult result (λ _. prefix.new ≡ entries.now) (Hinders J.book prefix.new) }
{
    for entry in entries {
        prefix.add(head, entry)?;
    }
    Ok(())
}

// One of the two tables of a view.
fn shown_table<J: ListId>(
    alloc: Global,
    journal: &Journal,
    prefix: &NamedPrefix<J>,
) -> Result<ShownTable, AllocError>
    requires { prefix.now ≡ journal.now.entries }
    ensures table { IfOk result
        (λ shown. shown.registrations ≡ registered journal.now.entries) }
    ensures named { IfOk result (λ shown. shown.prefix.book ≡ J.book) }
    ensures entries { IfOk result (λ shown. shown.prefix.entries ≡ journal.now.entries) }
{
    let table = match Table::replay(alloc, journal) {
        Ok(table) => table,
        Err(TableFault::NoMemory) => return Err(AllocError),
        Err(_) => unreachable!(),
    };
    Ok(ShownTable {
        table,
        prefix: prefix.bare(),
    })
}

// The readers of a view, which have seen the list without entries, and were told of the one that
// is shown.
fn make_readers<J: ListId>(
    alloc: Global,
    end: &WriterEnd<J>,
    none: &Prefix<J>,
    count: usize,
) -> Result<Vec<ViewReader<J>>, FeedFault>
    requires { none.now ≡ [] }
    ensures count { IfOk result (λ readers. length readers.items ≡ count) }
    ensures room { IfOk result (λ readers. vec_capacity readers ≡ count) }
    ensures told { IfOk result
        (λ readers. All (λ reader. reader.told ≡ end.now.shown) readers.items) }
    ensures seen { IfOk result (λ readers. All (λ reader. reader.seen ≡ []) readers.items) }
{
    let mut readers = Vec::with_capacity(alloc, count)?;
    for _ in 0..count {
        let idle = match end.reader(none) {
            Ok(idle) => idle,
            Err(error) => return Err(FeedFault::TooManyReaders(error)),
        };
        readers.push_reserved(ViewReader::over(idle, end.prefix()));
    }
    Ok(readers)
}
