//! Readers of a view beside its writer: the greatest number of them, in threads of their own; and
//! one that is asked while its own thread holds the book's lock.
ghost use Rattle.std.specs.Prelude.{◌≡◌, ◌≤◌, ◌++◌, IfOk, length};
ghost use Rattle.valid_table.specs.Entries.{registered_by};
ghost use Rattle.valid_table.specs.Valid.{HasDrvPath};

use crate::plans::{BEFORE, Host, SYSTEM, journal, next, plan, store_dir};
use nix_names::{StorePath, parse_path};
use run_states::System;
use sched_core::Book;
use std::alloc::Global;
use std::marker::Brand;
use std::sync::atomic::{AtomicU64, Ordering};
use std::sync::{Mutex, Wait};
use std::test::*;
use std::thread::Threads;
use std::{slice, thread};
use valid_table::{Entry, Journal, Outlet, Record, Registration};
use valid_view::{ListId, Name, Prefix, Seen, Tells, ViewFault, ViewReader, ViewWriter, open};

// Path n: its hash part is the number in 32 digits, and its name `x`.
fn numbered(alloc: Global, n: usize) -> Result<StorePath, Fail> {
    let text = format!(in alloc; "/nix/store/{n:032}-x")?;
    Ok(parse_path(alloc, &store_dir(alloc)?, text.as_bytes())?)
}

// The record of a folder that refers to the path before path n.
fn record(alloc: Global, n: usize) -> Result<Record, Fail> {
    let before = numbered(alloc, n.wrapping_sub(1))?;
    Ok(Record::new(vec![in alloc; before]?, None, None)?)
}

// The entry that adds path n.
fn added(alloc: Global, n: usize) -> Result<Entry, Fail>
    ensures one { IfOk result (λ entry. length (registered_by entry) ≡ 1) }
    ensures derived { IfOk result HasDrvPath }
{
    let (path, info) = (numbered(alloc, n)?, record(alloc, n)?);
    Ok(Entry::Add(Registration { path, info }))
}

// The entry that adds path n, and two copies of it.
fn added_thrice(alloc: Global, n: usize) -> Result<(Entry, Entry, Entry), Fail>
    ensures one { IfOk result (λ all. length (registered_by all.0) ≡ 1) }
    ensures derived { IfOk result (λ all. HasDrvPath all.0) }
    ensures alike { IfOk result (λ all. (all.1 ≡ all.0) × (all.2 ≡ all.0)) }
{
    let entry = added(alloc, n)?;
    let (second, third) = (entry.copy(alloc)?, entry.copy(alloc)?);
    Ok((entry, second, third))
}

// A writer, beside the journal of all its entries.
struct Store<J: ListId, R> {
    journal: Journal,
    writer: ViewWriter<J, R>,
    ghost same: { writer.shown ++ writer.pending ≡ journal.entries },
}

impl<J: ListId, R> Store<J, R> {
    // Appends path n, which refers to the path before it.
    fn append(&mut self, alloc: Global, n: usize) -> Result<(), Fail> {
        let (entry, copy, shown) = added_thrice(alloc, n)?;
        self.journal.reserve(1)?;
        if let Some(_) = self.journal.table().obstacle(&entry) {
            return Err("the path may come next".into());
        }
        self.writer.append(shown)?;
        self.journal.push_reserved(entry, copy);
        Ok(())
    }
}

impl<J: ListId + Send, R: Wait + Drop> Store<J, R> {
    // The view of a journal with path 0 alone, and `readers` readers.
    fn open(
        rt: R,
        alloc: Global,
        name: Name,
        readers: usize,
    ) -> Result<(Store<J, R>, Vec<ViewReader<J>>), Fail>
        requires name { name ≡ J.book }
        requires readers { (1 ≤ readers) × (readers ≤ 64) }
        ensures { IfOk result (λ view. length view.1.items ≡ readers) }
    {
        let journal = journal(alloc, BEFORE)?;
        let (writer, readers) = open::<J, R>(alloc, rt, name, &journal, readers)?;
        Ok((Store { journal, writer }, readers))
    }
}

const READERS: u64 = 64;

// How many entries are published after the first.
const LAST: usize = 10_000;

// The greatest number of turns of a reader.
const TURNS: u64 = 1_000_000;

// What all threads share: the numbered paths, the list that the writer told last, and how many
// readers had right answers.
#[derive(Drop)]
struct Square<J: ListId> {
    alloc: Global,
    paths: Vec<StorePath>,
    told: Mutex<Prefix<J>>,
    content: AtomicU64,
}

// A reader, and the last path that it found valid.
#[derive(Drop)]
struct Watcher<'a, J: ListId> {
    square: &'a Square<J>,
    reader: ViewReader<J>,
    last: usize,
}

impl<'a, J: ListId> Watcher<'a, J> {
    // Whether path n is valid.
    fn sees(&mut self, n: usize) -> Result<bool, ViewFault> {
        let Some(path) = self.square.paths.get(n) else {
            return Ok(false);
        };
        let valid = self.reader.look(path)? != Seen::Absent;
        if valid {
            self.last = self.last.max(n);
        }
        Ok(valid)
    }

    // Asks for path n. Says whether the answers fit: the path is valid only where the path before
    // it is, and the last path that was valid is still valid.
    fn asks(&mut self, n: usize) -> Result<bool, ViewFault> {
        let fits = !self.sees(n)? || self.sees(n.saturating_sub(1))?;
        Ok(fits && self.sees(self.last)?)
    }

    // Asks for the closure of path n. Says whether the answer fits: all paths up to it, or that it
    // is not valid, if it never was.
    fn asks_all(&mut self, n: usize) -> Result<bool, ViewFault> {
        let paths = &self.square.paths;
        let (Some(path), Some(all)) = (paths.get(n), paths.get(..=n)) else {
            return Ok(false);
        };
        let (alloc, roots) = (self.square.alloc, slice::from_ref(path));
        match self.reader.closure(alloc, roots) {
            Ok(closure) => {
                self.last = self.last.max(n);
                Ok(closure.as_slice() == all)
            }
            Err(ViewFault::NotValid(root)) => Ok(root == *path && n > self.last),
            Err(fault) => Err(fault),
        }
    }

    // One turn. Of 1,024 turns, one asks for the closure of any path, 15 ask for the closure of one
    // of the first 256 paths, 256 learn of the told list, whose last path is valid then, and the
    // others ask for a path. Publishing waits for closures that are being computed.
    fn turn<R: Wait>(&mut self, rt: &R, seed: u64) -> Result<bool, ViewFault> {
        let n = (seed >> 33) as usize % (LAST + 1);
        match seed >> 23 & 1_023 {
            0 => self.asks_all(n),
            1..=15 => self.asks_all(n % 256),
            16..=271 => {
                let told = self.square.told.lock(rt).again();
                let last = (told.len() as usize).saturating_sub(1);
                self.reader.learn(told);
                Ok(self.asks(last)? && self.last >= last)
            }
            _ => self.asks(n),
        }
    }

    // Asks until the last path is valid. Says whether all answers fitted.
    fn watches<R: Wait>(&mut self, rt: &R, mut seed: u64) -> Result<bool, ViewFault> {
        for _ in 0..TURNS {
            seed = next(seed);
            if !self.turn(rt, seed)? {
                return Ok(false);
            }
            if self.last == LAST {
                return self.asks_all(LAST);
            }
            thread::yield_now();
        }
        Ok(false)
    }
}

// The paths with the numbers up to the last.
fn all_numbered(alloc: Global) -> Result<Vec<StorePath>, Fail> {
    let mut paths = Vec::new(alloc);
    for n in 0..=LAST {
        paths.push(numbered(alloc, n)?)?;
    }
    Ok(paths)
}

// One reader's thread. The reader is counted where all answers fitted.
fn watch<J: ListId, R: Wait>(rt: &R, square: &Square<J>, reader: ViewReader<J>, seed: u64) {
    let mut watcher = Watcher {
        square,
        reader,
        last: 0,
    };
    if let Ok(true) = watcher.watches(rt, seed) {
        square.content.fetch_add(1, Ordering::SeqCst);
    }
}

// Publishes all paths, one by one, and nothing after each, and tells the list.
fn write<J: ListId + Send, R: Wait, W: Wait + Drop>(
    rt: &R,
    square: &Square<J>,
    store: &mut Store<J, W>,
) -> Result<(), Fail> {
    for n in 1..=LAST {
        store.append(square.alloc, n)?;
        store.writer.publish()?;
        store.writer.publish()?;
        *square.told.lock(rt) = store.writer.tell();
    }
    Ok(())
}

// How many readers had right answers, while each asked in a thread of its own and all paths were
// published.
fn content<J: ListId + Send + Sync, R: Threads + Wait + Sync, W: Wait + Drop>(
    rt: &R,
    square: &Square<J>,
    store: &mut Store<J, W>,
    readers: Vec<ViewReader<J>>,
) -> Result<u64, Fail> {
    thread::scope(thread::scope_env(), rt, |scope| {
        let mut seed = 0;
        for reader in readers {
            seed = next(seed);
            let _ = scope.spawn(move || watch(rt, square, reader, seed));
        }
        write(rt, square, store)
    })?;
    Ok(square.content.load(Ordering::SeqCst))
}

// How many readers had right answers, and how many entries the writer showed in the end.
fn crowded<J: ListId + Send + Sync, R: Host>(
    rt: &R,
    alloc: Global,
    name: Name,
    paths: Vec<StorePath>,
) -> Result<(u64, u64), Fail>
    requires { name ≡ J.book }
{
    let (mut store, readers) = Store::<J, &R>::open(rt, alloc, name, READERS as usize)?;
    let square = Square {
        alloc,
        paths,
        told: Mutex::new(store.writer.tell()),
        content: AtomicU64::new(0),
    };
    let content = content(rt, &square, &mut store, readers);
    let told = store.writer.tell().len();
    let Store { journal: _, writer } = store;
    writer.close();
    Ok((content?, told))
}

#[test]
fn crowd_beside_a_writer(rt: HostRuntime) -> Result<(), Fail> {
    let paths = all_numbered(rt.alloc())?;
    let found = crowded::<Brand, _>(&rt, rt.alloc(), Name::new(), paths)?;
    assert_eq!(rt; found, (READERS, LAST as u64 + 1));
    Ok(())
}

// What a reader answers. Nothing here could wait: no handle is in reach.
fn closure<J: ListId>(
    alloc: Global,
    reader: &mut ViewReader<J>,
    roots: &[StorePath],
) -> Result<Vec<StorePath>, ViewFault> {
    reader.closure(alloc, roots)
}

// What a reader answers while the book's lock is held, and how many entries the book has then.
fn asked_meanwhile<J: ListId, O: Tells<J>, R: Wait>(
    rt: &R,
    alloc: Global,
    book: Book<O>,
    reader: &mut ViewReader<J>,
    roots: &[StorePath],
) -> (Result<Vec<StorePath>, ViewFault>, usize) {
    let locked = Mutex::new(book);
    let held = locked.lock(rt);
    let answer = closure(alloc, reader, roots);
    let entries = held.journal().entries().len();
    drop(held);
    locked.into_inner().close();
    (answer, entries)
}

// What a reader answers while the lock of a book is held whose run opens with path 0.
fn asked<J: ListId + Send, R: Host>(
    rt: &R,
    alloc: Global,
    name: Name,
    roots: &[StorePath],
) -> Result<(Vec<StorePath>, usize), Fail>
    requires { name ≡ J.book }
{
    let (plan, journal) = (plan(alloc, &[&[]])?, journal(alloc, BEFORE)?);
    let system = System::named(alloc, SYSTEM)?;
    let (outlet, mut readers) = open::<J, &R>(alloc, rt, name, &journal, 1)?;
    let book = Book::open(alloc, plan, journal, system, outlet)?;
    let (answer, entries) = asked_meanwhile::<J, _, R>(rt, alloc, book, &mut readers[0], roots);
    Ok((answer?, entries))
}

#[test]
fn asked_under_the_books_lock(rt: HostRuntime) -> Result<(), Fail> {
    let roots = vec![in rt.alloc(); numbered(rt.alloc(), 0)?]?;
    let asked = asked::<Brand, _>(&rt, rt.alloc(), Name::new(), &roots)?;
    assert!(rt; asked == (roots, 1), "got {asked:?}");
    Ok(())
}
