//! The lines of a book, up to `close`. A lease stands under a name, from `a` to `d`.
ghost use Rattle.std.specs.Prelude.{IfOk};
ghost use Rattle.sched_core.specs.Books.{IsBooksLease, MayAllRefer};

use super::{
    Counting, Told, answer, found, look, made_job, opened, status_of, tell_lease, tell_states,
    text_of,
};
use crate::give::Give;
use crate::line::{Line, as_text};
use crate::stop::{Found, Stop, Taken, call, take_lines, tried};
use crate::teller::Teller;
use crate::world::World;
use sched_core::{Book, BookFault, Checked, Lease, Reason};
use std::alloc::Global;
use std::mem;
use std::sync::atomic::{AtomicU64, Ordering};

// A book, the leases under each name, and how many entries its outlet didn't show.
struct Desk<'a> {
    book: Book<Counting<'a>>,
    leases: [Option<Lease<Told>>; 4],
    unshown: &'a AtomicU64,
}

/// Opens a book, and takes its lines.
pub(crate) fn take_session(teller: &mut Teller<'_>, world: &mut World, line: &Line<'_>) -> Taken {
    let unshown = &AtomicU64::new(0);
    let mut desk = Desk {
        book: opened(teller, world, line, unshown)?,
        leases: [None, None, None, None],
        unshown,
    };
    let taken = desk.take_all(teller, world);
    desk.close(teller);
    taken
}

// Gives up a lease, if there is one.
fn give_up(lease: Option<Lease<Told>>) {
    if let Some(lease) = lease {
        lease.give_up();
    }
}

// Where the lease with this name stands.
fn index_of(name: &[u8]) -> usize {
    usize::from(name.first().unwrap_or(&b'z').wrapping_sub(b'a'))
}

impl Desk<'_> {
    fn take_out(&mut self, name: &[u8]) -> Result<Lease<Told>, Stop> {
        let lease = match self.leases.get_mut(index_of(name)) {
            Some(slot) => slot.take(),
            None => None,
        };
        lease.ok_or(Stop::Lost("there is no such call of a book, or no lease"))
    }

    // Puts a lease under a name. What stood there is given up.
    fn put(&mut self, name: &[u8], lease: Lease<Told>) {
        match self.leases.get_mut(index_of(name)) {
            Some(slot) => give_up(slot.replace(lease)),
            None => lease.give_up(),
        }
    }

    // The text of the book and of the leases.
    fn text(&self, alloc: Global) -> Result<Vec<u8>, Stop> {
        let words = format!(in alloc; "{:?} {:?}", self.book.events(), self.leases)?;
        Ok([words.as_bytes(), &self.book.journal().write(alloc)?].concat(alloc)?)
    }

    fn close(self, teller: &mut Teller<'_>) {
        let Desk {
            book,
            leases: [a, b, c, d],
            unshown,
        } = self;
        give_up(a);
        give_up(b);
        give_up(c);
        give_up(d);
        call!(teller, "Book::close" => book.close());
        teller.say(format_args!("{} unshown", unshown.load(Ordering::SeqCst)));
    }

    fn take_all(&mut self, teller: &mut Teller<'_>, world: &mut World) -> Taken {
        take_lines!(teller, "close", line => self.take_once(teller, world, &line),
            before = self.text(world.alloc)?, self.text(world.alloc)? == before)
    }

    fn take_once(&mut self, teller: &mut Teller<'_>, world: &mut World, line: &Line<'_>) -> Found {
        Ok(self.of_book(teller, world, line)? || self.of_lease(teller, world, line)?)
    }

    fn of_book(&mut self, teller: &mut Teller<'_>, world: &mut World, line: &Line<'_>) -> Found {
        words! { teller, world, line;
            "report" as "Book::report" if self.book.settled() => self.book.report() => lines;
            "journal" as "Journal::write" => self.book.journal().write(world.alloc) => lines;
            do "next" => self.next(teller, line.name);
            do "finish" => self.finish(teller, world, line);
            do "drive" => self.drive(teller, world, line);
            do "reopen" => self.reopen(teller, world, line);
            do "look" => look(teller, &self.book);
            do "states" => tell_states(teller, &self.book);
        }
    }

    // Takes a line over a lease, which is put back under its name if it comes back.
    fn of_lease(&mut self, teller: &mut Teller<'_>, world: &mut World, line: &Line<'_>) -> Found {
        let name = line.argument(0);
        let mut lease = self.take_out(name)?;
        match line.call {
            "fail" => self.fail(teller, name, lease, reason_of(line.argument(1))),
            "give_up" => call!(teller, "Lease::give_up" => lease.give_up()),
            _ => {
                let taken = self.ask(teller, world, line, &mut lease);
                self.put(name, lease);
                return taken;
            }
        }
        Ok(true)
    }

    fn ask(
        &self,
        teller: &mut Teller<'_>,
        world: &mut World,
        line: &Line<'_>,
        lease: &mut Lease<Told>,
    ) -> Found {
        words! { teller, world, line;
            "permitted" as "Book::permitted" => self.book.permitted(lease) => paths;
            "told" as "Lease::told" => (lease.told(), lease.told());
            do "lease" => tell_lease(teller, lease);
        }
    }

    fn reopen(&mut self, teller: &mut Teller<'_>, world: &World, line: &Line<'_>) -> Taken {
        let book = opened(teller, world, line, self.unshown)?;
        mem::replace(&mut self.book, book).close();
        Ok(())
    }

    // Keeps the next lease, if there is one.
    fn next(&mut self, teller: &mut Teller<'_>, name: &[u8]) -> Taken {
        let can_begin = self.book.can_begin();
        let call = ["Book::next idle", "Book::next"][can_begin as usize];
        match tried!(teller, call => self.book.next())? {
            Some(lease) => {
                let (number, d) = (lease.number(), lease.job().derivation);
                teller.say(format_args!("lease {number} of {d}"));
                self.put(name, lease);
            }
            None => teller.say("nothing to begin"),
        }
        Ok(())
    }

    // `finish LEASE OUTPUTS STATUS TREE..`, where OUTPUTS is `*`, or lists the outputs of another
    // job, for which the verdict is found. Where that is a reason, the lease ends by it.
    fn finish(&mut self, teller: &mut Teller<'_>, world: &World, line: &Line<'_>) -> Taken {
        let (name, outputs) = (line.argument(0), line.argument(1));
        let made = made_job(world, b"", outputs).ok();
        let lease = self.take_out(name)?;
        let job = made.as_ref().unwrap_or(lease.job());
        match answer(world, line.arguments(2), job.outputs.len()) {
            Ok(answer) => {
                let verdict = found(teller, &self.book, &lease, job, answer);
                self.end(teller, name, lease, verdict)
            }
            Err(_) => {
                self.put(name, lease);
                Err(Stop::Lost("no memory"))
            }
        }
    }

    // Ends a lease by a verdict.
    fn end(
        &mut self,
        teller: &mut Teller<'_>,
        name: &[u8],
        lease: Lease<Told>,
        verdict: Result<Result<Checked, Reason>, BookFault>,
    ) -> Taken
        requires { IfOk verdict (λ found. IfOk found (λ checked.
            IsBooksLease self.old.book.run self.old.book.history lease.job lease.number
            → MayAllRefer self.old.book.history.entries lease.job checked)) }
    {
        match verdict {
            Ok(Ok(checked)) => self.register(teller, name, lease, checked),
            Ok(Err(Reason::OutOfMemory)) | Err(_) => {
                self.put(name, lease);
                teller.answered(Err(BookFault::NoMemory))
            }
            Ok(Err(reason)) => {
                self.fail(teller, name, lease, reason);
                Ok(())
            }
        }
    }

    // Ends a lease by records. Where they come back, they must be as they were.
    fn register(
        &mut self,
        teller: &mut Teller<'_>,
        name: &[u8],
        lease: Lease<Told>,
        checked: Checked,
    ) -> Taken
        requires { IsBooksLease self.old.book.run self.old.book.history lease.job lease.number
            → MayAllRefer self.old.book.history.entries lease.job checked }
    {
        let alloc = *lease.job().outputs.allocator();
        let before = text_of(alloc, checked.records());
        match call!(teller, "Book::finish" => self.book.finish(lease, checked)) {
            Ok(()) => {
                teller.say("finished");
                Ok(())
            }
            Err((fault, lease, checked)) => {
                self.put(name, lease);
                if text_of(alloc, checked.records()) != before {
                    return Err(Stop::Lost("other records came back"));
                }
                teller.answered(Err(fault))
            }
        }
    }

    fn fail(&mut self, teller: &mut Teller<'_>, name: &[u8], lease: Lease<Told>, reason: Reason) {
        let answer = match reason {
            Reason::OutOfMemory => call!(teller, "Book::abandon" => self.book.abandon(lease)),
            reason => call!(teller, "Book::fail" => self.book.fail(lease, reason)),
        };
        match answer {
            Ok(()) => teller.say(format_args!("failed by {reason:?}")),
            Err(lease) => {
                teller.say("ForeignLease");
                self.put(name, lease);
            }
        }
    }

    // `drive LEASE OUTPUTS STATUS TREE..`: each derivation that can be begun is begun under this
    // name, and ends like this. No call is told.
    fn drive(&mut self, teller: &mut Teller<'_>, world: &World, line: &Line<'_>) -> Taken {
        teller.hush(true);
        for _ in 0..self.book.plan().len() {
            if self.book.can_begin() {
                let begun = self.next(teller, line.argument(0)).and(Ok(true));
                teller.end(begun);
                let ended = self.finish(teller, world, line).and(Ok(true));
                teller.end(ended);
            }
        }
        teller.hush(false);
        let (events, steps) = (self.book.events().len(), self.book.steps());
        let settled = self.book.settled();
        teller.say(format_args!("events {events}, steps {steps}, settled {settled}"));
        Ok(())
    }
}

// The reason that a word is: one of these, with the numbers 1 where it has some; a status; or else
// want of memory.
fn reason_of(word: &[u8]) -> Reason {
    match as_text(word) {
        "Killed" => Reason::Killed,
        "BadMode" => Reason::BadMode(1),
        "NotAllowed" => Reason::NotAllowed(1, 1),
        "BadSpecifier" => Reason::BadSpecifier(1),
        "BadAttributes" => Reason::BadAttributes,
        "BadGraph" => Reason::BadGraph,
        "UnknownNar" => Reason::UnknownNar(1),
        "PastMaxSize" => Reason::PastMaxSize(1),
        "PastMaxClosureSize" => Reason::PastMaxClosureSize(1),
        _ => status_of(word).map_or(Reason::OutOfMemory, Reason::ExitStatus),
    }
}
