//! Views, their writers and their readers.
ghost use Rattle.std.specs.Prelude.{◌≡◌, ◌≤◌, ◌++◌, IfOk, IfSome, length};
ghost use Rattle.valid_table.specs.Entries.{registered_by};
ghost use Rattle.valid_table.specs.Valid.{HasDrvPath};

use crate::give::Give;
use crate::line::Line;
use crate::stop::{Found, Stop, Taken, call, take_lines, tried};
use crate::teller::Teller;
use crate::world::World;
use std::alloc::{AllocError, Global};
use std::marker::Brand;
use std::sync::Wait;
use valid_table::{Entry, Journal, Outlet};
use valid_view::{ListId, Name, Seen, Tells, ViewReader, ViewWriter, open};

/// Takes a line, if its call is one of these.
///
/// `view $JOURNAL READERS` opens a view of a journal. The lines after it, up to `close`, are calls
/// of its writer and of its readers, which have numbers. Those up to `end` are calls of readers
/// whose writer is gone.
pub(crate) fn take<W: Wait>(
    wait: &W,
    teller: &mut Teller<'_>,
    world: &mut World,
    line: &Line<'_>,
) -> Found {
    let journal = world.journals.get(line.argument(0))?.copy(world.alloc)?;
    let readers = line.number(1).unwrap_or(0);
    if readers == 0 || readers > 64 {
        return Err(Stop::NotAllowed);
    }
    let name = call!(teller, "Name::new" => Name::new());
    opened::<Brand, W>(wait, teller, world, name, (journal, readers))?;
    Ok(true)
}

// Opens a view of a journal with so many readers, and takes the lines of its calls.
fn opened<J: ListId + Send, W: Wait>(
    wait: &W,
    teller: &mut Teller<'_>,
    world: &mut World,
    name: Name,
    opening: (Journal, usize),
) -> Taken
    requires name { name ≡ J.book }
    requires readers { (1 ≤ opening.1) × (opening.1 ≤ 64) }
{
    let (journal, readers) = opening;
    match call!(teller, "open" => open::<J, &W>(world.alloc, wait, name, &journal, readers)) {
        Ok((writer, readers)) => {
            let view = View {
                journal,
                writer,
                readers,
            };
            view.talk(teller, world)
        }
        Err(fault) => teller.answered(Err(fault)),
    }
}

// A writer beside the journal of all its entries, and its readers.
struct View<'a, J: ListId, W> {
    journal: Journal,
    writer: ViewWriter<J, &'a W>,
    readers: Vec<ViewReader<J>>,
    ghost same: { writer.shown ++ writer.pending ≡ journal.entries },
}

impl<J: ListId + Send, W: Wait> View<'_, J, W> {
    // Takes the lines of the calls of the writer and the readers, and closes the writer. Then takes
    // those of the calls of readers whose writer is gone.
    fn talk(mut self, teller: &mut Teller<'_>, world: &mut World) -> Taken {
        teller.say(format_args!("{} readers", self.readers.len()));
        let taken = self.take_lines(teller, world);
        let View {
            journal: _,
            writer,
            mut readers,
        } = self;
        let shown = call!(teller, "ViewWriter::close" => writer.close());
        teller.say(format_args!("closed with {} entries", shown.len()));
        taken?;
        take_lines!(teller, "end", line => ask(teller, world, &line, &mut readers),
            _before = (), true)
    }

    // Takes each line up to `close`.
    fn take_lines(&mut self, teller: &mut Teller<'_>, world: &mut World) -> Taken {
        take_lines!(teller, "close", line => self.take_once(teller, world, &line),
            shown = self.writer.tell().len(), self.shows(shown))
    }

    // Whether the writer shows so many entries, and the first reader finds what these register, and
    // none of what the others do.
    fn shows(&mut self, shown: u64) -> bool {
        let mut is_so = self.writer.tell().len() == shown;
        let Some(reader) = self.readers.get_mut(0) else {
            return false;
        };
        let mut number = 0u64;
        for entry in self.journal.entries() {
            let first = entry.registrations().first();
            let seen = first.map(|one| reader.look(&one.path));
            let is_shown = matches!(seen, Some(Ok(Seen::Valid(_))));
            is_so = is_so && is_shown == (number < shown);
            number = number.wrapping_add(1);
        }
        is_so
    }

    fn take_once(&mut self, teller: &mut Teller<'_>, world: &mut World, line: &Line<'_>) -> Found {
        Ok(self.of_writer(teller, world, line)? || ask(teller, world, line, &mut self.readers)?)
    }

    fn of_writer(&mut self, teller: &mut Teller<'_>, world: &mut World, line: &Line<'_>) -> Found {
        words! { teller, world, line;
            "tell" as "ViewWriter::tell Prefix::len" => (self.writer.tell().len(),);
            do "append" => self.append(teller, world, line);
            do "publish" => self.publish(teller);
            do "learn" => self.learn(teller, line);
            do "longer" => self.longer(teller, line);
        }
    }

    // Appends the entries of a kept journal up to a number, from the number of entries on that the
    // view has.
    fn append(&mut self, teller: &mut Teller<'_>, world: &World, line: &Line<'_>) -> Taken {
        let first = self.journal.entries().len();
        for number in first..line.number(1).unwrap_or(first) {
            let Some(entry) = kept_entry(world, line.argument(0), number) else {
                return Err(Stop::Lost("no entry"));
            };
            let copies = thrice(world.alloc, entry)?;
            self.journal.reserve(entry.registrations().len())?;
            self.append_one(teller, copies)?;
        }
        teller.say(format_args!("{} entries", self.journal.entries().len()));
        Ok(())
    }

    // Appends an entry, if it may come next.
    fn append_one(&mut self, teller: &mut Teller<'_>, copies: (Entry, Entry, Entry)) -> Taken
        requires alike { (copies.1 ≡ copies.0) × (copies.2 ≡ copies.0) }
        requires derived { HasDrvPath copies.0 }
        requires room { length (registered_by copies.0) ≤ self.old.journal.room }
    {
        let (entry, copy, shown) = copies;
        if let Some(_) = self.journal.table().obstacle(&entry) {
            return Err(Stop::NotAllowed);
        }
        match call!(teller, "ViewWriter::append" => self.writer.append(shown)) {
            Ok(()) => {
                self.journal.push_reserved(entry, copy);
                Ok(())
            }
            Err(fault) => teller.answered(Err(fault)),
        }
    }

    fn publish(&mut self, teller: &mut Teller<'_>) -> Taken {
        let is_idle = self.writer.tell().len() == self.journal.entries().len() as u64;
        let call = ["ViewWriter::publish", "ViewWriter::publish idle"][is_idle as usize];
        tried!(teller, call => self.writer.publish())?;
        teller.say("published");
        Ok(())
    }

    // Has a reader learn of the list that is shown.
    fn learn(&mut self, teller: &mut Teller<'_>, line: &Line<'_>) -> Taken {
        let told = self.writer.tell();
        let reader = reader_of(line, &mut self.readers)?;
        let prefix = call!(teller, "ViewWriter::prefix" =>
            <ViewWriter<J, &W> as Tells<J>>::prefix(told));
        call!(teller, "ViewReader::learn" => reader.learn(prefix));
        Ok(())
    }

    // The longer of the list that is shown and the one that a reader saw.
    fn longer(&mut self, teller: &mut Teller<'_>, line: &Line<'_>) -> Taken {
        let told = self.writer.tell();
        let reader = reader_of(line, &mut self.readers)?;
        let again = call!(teller, "Prefix::again" => told.again());
        let longer = call!(teller, "Prefix::longer" => reader.seen().longer(&again));
        teller.say(format_args!("{} and {} entries", again.len(), longer.len()));
        Ok(())
    }
}

// The entry with this number of a kept journal.
fn kept_entry<'a>(world: &'a World, journal: &[u8], number: usize) -> Option<&'a Entry>
    ensures { IfSome result (λ entry. HasDrvPath entry.now) }
{
    world.journals.get(journal).ok()?.entries().get(number)
}

// Three copies of an entry.
fn thrice(alloc: Global, entry: &Entry) -> Result<(Entry, Entry, Entry), AllocError>
    ensures first { IfOk result (λ copies. copies.0 ≡ entry.now) }
    ensures alike { IfOk result (λ copies. (copies.1 ≡ copies.0) × (copies.2 ≡ copies.0)) }
{
    Ok((entry.copy(alloc)?, entry.copy(alloc)?, entry.copy(alloc)?))
}

// The reader whose number is the first argument of a line.
fn reader_of<'a, J: ListId>(
    line: &Line<'_>,
    readers: &'a mut [ViewReader<J>],
) -> Result<&'a mut ViewReader<J>, Stop> {
    let number = line.number(0).unwrap_or(readers.len());
    readers.get_mut(number).ok_or(Stop::Lost("no reader"))
}

// Takes the line of a call of a reader.
fn ask<J: ListId>(
    teller: &mut Teller<'_>,
    world: &mut World,
    line: &Line<'_>,
    readers: &mut [ViewReader<J>],
) -> Found {
    let reader = reader_of(line, readers)?;
    words! { teller, world, line;
        "look" as "ViewReader::look" (path = path 1) => reader.look(&path);
        "closure" as "ViewReader::closure" (roots = paths 1)
            => reader.closure(world.alloc, &roots);
        "seen" as "ViewReader::seen Prefix::len" => (reader.seen().len(),);
    }
}
