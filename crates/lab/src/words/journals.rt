//! Journals, their entries and what these are made of, and the plain outlet.
//!
//! An added path is given, and printed, as `PATH DIGEST NAR REFERENCE ..`, where the digest and the
//! archive (`HASH:SIZE`) are left out if there is none, and the outputs of a derivation as
//! `DERIVER : PATH .. / PATH ..`. A version is `1`, `3`, or else 2.
//!
//! `outlet J ENTRY` opens an outlet with a journal, in which an entry waits and is published.
ghost use Rattle.std.specs.Prelude.{◌≡◌, ◌≤◌, ◌++◌, IsTrue, length};
ghost use Rattle.valid_table.specs.Entries.{registered_by};
ghost use Rattle.valid_table.specs.Valid.{HasDrvPath};

use crate::give::{Give, Lines};
use crate::line::{Line, halves, number_of};
use crate::rising::rising;
use crate::stop::{Found, Stop, Taken, call, tried};
use crate::teller::Teller;
use crate::words::names::digest_of;
use crate::words::tables::{check_reference, tell_obstacle};
use crate::world::World;
use nix_names::{MethodDigest, is_drv_name};
use std::alloc::AllocError;
use valid_table::{
    Entry, Journal, ListOutlet, Nar, Outlet, Outputs, Record, Registration, TableFault, Version,
    write_lines,
};

/// Takes a line, if its call is one of these.
pub(crate) fn take(teller: &mut Teller<'_>, world: &mut World, line: &Line<'_>) -> Found {
    any_of! { teller, world, line; of_journals, of_entries }
}

fn of_journals(teller: &mut Teller<'_>, world: &mut World, line: &Line<'_>) -> Found {
    words! { teller, world, line;
        "Journal::new" => Journal::new(world.alloc);
        "Journal::read" (text = text 0) => Journal::read(world.alloc, &world.dir, text);
        "Journal::copy" (journal = journals 0) => journal.copy(world.alloc);
        "Journal::registers" (journal = journals 0, path = path 1) => (journal.registers(&path),);
        "Journal::write" (journal = journals 0) => journal.write(world.alloc).map(Lines);
        "Journal::write_in" (journal = journals 0, version = version 1)
            => journal.write_in(world.alloc, version).map(Lines);
        "write_lines" (entries = entries 0, version = version 3)
            => write_lines(world.alloc, version, entries).map(Lines);
    }
}

fn of_entries(teller: &mut Teller<'_>, world: &mut World, line: &Line<'_>) -> Found {
    words! { teller, world, line;
        do "Journal::add" | "Journal::append" => add(teller, world, line);
        do "Journal::push_reserved" => push_reserved(teller, world, line);
        do "Record::new" => record(teller, world, line);
        do "Outputs::new" => one_output(teller, world, line);
        do "Outputs::sorted" => sorted(teller, world, line);
        do "Entry::copy" => copy(teller, world, line);
        do "outlet" => outlet(teller, world, line);
    }
}

// The answer of a journal to an entry; none where its deriver has no derivation's name.
fn added(journal: &mut Journal, entry: Entry) -> Option<Result<(), TableFault>> {
    match entry {
        Entry::Add(one) => Some(journal.add(one.path, one.info)),
        Entry::Done(deriver, outputs) if is_drv_name(deriver.name()) => {
            Some(journal.append(deriver, outputs))
        }
        Entry::Done(..) => None,
    }
}

// The entries that a line names by their journal, the first number and the number after the last.
fn entries<'a>(world: &'a World, line: &Line<'_>) -> Result<&'a [Entry], Stop> {
    let (first, end) = (line.number(1).unwrap_or(0), line.number(2).unwrap_or(0));
    let journal = world.journals.get(line.argument(0))?;
    journal.entries().get(first..end).ok_or(Stop::NotAllowed)
}

fn add(teller: &mut Teller<'_>, world: &mut World, line: &Line<'_>) -> Taken {
    let entry = entry_of(world, line.arguments(1))?;
    let call = match entry {
        Entry::Add(_) => "Journal::add",
        Entry::Done(..) => "Journal::append",
    };
    let journal = world.journals.get_mut(line.argument(0))?;
    let answer = call!(teller, call => added(journal, entry)).ok_or(Stop::NotAllowed)?;
    check_reference(teller, &answer)?;
    teller.answered(answer)?;
    teller.say("added");
    Ok(())
}

// Makes room for an entry, and pushes it.
fn push_reserved(teller: &mut Teller<'_>, world: &mut World, line: &Line<'_>) -> Taken {
    let entry = entry_of(world, line.arguments(1))?;
    let copy = entry.copy(world.alloc)?;
    let journal = world.journals.get_mut(line.argument(0))?;
    let paths = entry.registrations().len();
    tried!(teller, "Journal::reserve" => journal.reserve(paths))?;
    push(teller, journal, entry, copy)
}

fn push(teller: &mut Teller<'_>, journal: &mut Journal, entry: Entry, copy: Entry) -> Taken
    requires room { length (registered_by entry) ≤ journal.old.room }
    requires same { copy ≡ entry }
{
    if !is_derived(&entry) {
        return Err(Stop::NotAllowed);
    }
    if let Some(obstacle) = journal.table().obstacle(&entry) {
        tell_obstacle(teller, obstacle);
        return Err(Stop::Told);
    }
    call!(teller, "Journal::push_reserved" => journal.push_reserved(entry, copy));
    teller.say("pushed");
    Ok(())
}

// Whether the deriver of an entry, if it has one, has a derivation's name.
fn is_derived(entry: &Entry) -> bool
    ensures { IsTrue result → HasDrvPath entry.now }
{
    match entry {
        Entry::Add(_) => true,
        Entry::Done(deriver, _) => is_drv_name(deriver.name()),
    }
}

fn outlet(teller: &mut Teller<'_>, world: &World, line: &Line<'_>) -> Taken {
    let entry = entry_of(world, line.arguments(1))?;
    let journal = world.journals.get(line.argument(0))?;
    let outlet = tried!(teller, "ListOutlet::open" => ListOutlet::open(world.alloc, journal))?;
    append(teller, journal, outlet, entry)
}

// Appends an entry to the outlet that opens with a journal.
fn append(teller: &mut Teller<'_>, journal: &Journal, mut outlet: ListOutlet, entry: Entry) -> Taken
    requires { outlet.shown ++ outlet.pending ≡ journal.now.entries }
{
    if let Some(_) = journal.table().obstacle(&entry) {
        return Err(Stop::NotAllowed);
    }
    let answer = call!(teller, "ListOutlet::append" => outlet.append(entry));
    if answer.is_err() && (outlet.shown() != journal.entries() || !outlet.pending().is_empty()) {
        return Err(Stop::Lost("memory was refused, and the outlet is not as it was"));
    }
    teller.answered(answer)?;
    publish(teller, outlet)
}

// Publishes what waits in an outlet, and tells how that stands before and after that.
fn publish(teller: &mut Teller<'_>, mut outlet: ListOutlet) -> Taken {
    tell_outlet(teller, &outlet);
    if call!(teller, "ListOutlet::publish" => outlet.publish()).is_err() {
        return Err(Stop::Lost("the outlet did not publish"));
    }
    tell_outlet(teller, &outlet);
    call!(teller, "ListOutlet::close" => outlet.close());
    Ok(())
}

fn tell_outlet(teller: &mut Teller<'_>, outlet: &ListOutlet) {
    const CALLS: &str = "ListOutlet::shown ListOutlet::pending ListOutlet::tell";
    let (shown, pending, told) =
        call!(teller, CALLS => (outlet.shown(), outlet.pending(), outlet.tell()));
    let (count, waiting) = (shown.len(), pending.len());
    teller.say(format_args!("{told} told, {count} shown, {waiting} pending"));
    if let Some(Entry::Add(last)) = shown.last() {
        teller.say(last.path.as_str());
    }
}

/// The entry that words stand for.
pub(crate) fn entry_of(world: &World, words: &[&[u8]]) -> Result<Entry, Stop> {
    match words {
        [deriver, b":", outputs @ ..] => {
            let outputs = Outputs::sorted(registrations_of(world, outputs)?);
            let outputs = outputs.ok_or(Stop::NotAllowed)?;
            Ok(Entry::Done(world.path(deriver)?, outputs))
        }
        words => Ok(Entry::Add(registration_of(world, words)?)),
    }
}

// The registrations that words stand for, with `/` between them; none for no words.
fn registrations_of(world: &World, words: &[&[u8]]) -> Result<Vec<Registration>, Stop> {
    let mut registrations = Vec::new(world.alloc);
    for words in words.split(|word| *word == b"/".as_slice()) {
        if !words.is_empty() {
            registrations.push(registration_of(world, words)?)?;
        }
    }
    Ok(registrations)
}

fn registration_of(world: &World, words: &[&[u8]]) -> Result<Registration, Stop> {
    let (path, known) = words.split_first().ok_or(Stop::Lost("no path"))?;
    let (digest, nar, references) = known_first(known);
    let info = Record::new(rising(world, references)?, digest, nar)?;
    let path = world.path(path)?;
    Ok(Registration { path, info })
}

// The digest and the archive with which some words begin, if they do, and the words after these.
fn known_first<'a, 'b>(
    words: &'a [&'b [u8]],
) -> (Option<MethodDigest>, Option<Nar>, &'a [&'b [u8]]) {
    let digest = words.first().copied().and_then(MethodDigest::of_text);
    let (_, words) = words.split_at(usize::from(digest.is_some()));
    let nar = words.first().copied().and_then(nar_of);
    let (_, references) = words.split_at(usize::from(nar.is_some()));
    (digest, nar, references)
}

// The archive that a word is, as `HASH:SIZE`, if it is one.
fn nar_of(word: &[u8]) -> Option<Nar> {
    let (hash, size) = halves(word, b':');
    Nar::new(digest_of(hash).ok()?, number_of(size)? as u64)
}

/// Adds what a record says to a text.
pub(crate) fn push_known(text: &mut Vec<u8>, info: &Record) -> Result<(), AllocError> {
    let alloc = *text.allocator();
    if let Some(digest) = info.digest() {
        text.push(b' ')?;
        digest.push_text(text)?;
    }
    if let Some(nar) = info.nar() {
        let hash = hex::encode(alloc, &nar.hash())?;
        let words = format!(in alloc; " {}:{}", hash.as_str(), nar.size())?;
        text.extend_from_slice(words.as_bytes())?;
    }
    for reference in info.references() {
        text.push(b' ')?;
        text.extend_from_slice(reference.text())?;
    }
    Ok(())
}

// Prints registrations after some text.
fn tell(teller: &mut Teller<'_>, mut text: Vec<u8>, registrations: &[Registration]) -> Taken {
    let front = text.len();
    for Registration { path, info } in registrations {
        text.extend_from_slice(if text.len() > front { b" / " } else { b"" })?;
        text.extend_from_slice(path.text())?;
        push_known(&mut text, info)?;
    }
    teller.text(&text);
    Ok(())
}

// A record, its copy, and what that says.
fn record(teller: &mut Teller<'_>, world: &World, line: &Line<'_>) -> Taken {
    const CALLS: &str = "Record::references Record::digest Record::nar";
    let (digest, nar, references) = known_first(line.arguments(0));
    let references = rising(world, references)?;
    let info = tried!(teller, "Record::new" => Record::new(references, digest, nar))?;
    let copy = tried!(teller, "Record::copy" => info.copy(world.alloc))?;
    call!(teller, CALLS => (copy.references(), copy.digest(), copy.nar()));
    let mut text = Vec::from_slice(world.alloc, b"known:")?;
    push_known(&mut text, &copy)?;
    teller.text(&text);
    Ok(())
}

fn one_output(teller: &mut Teller<'_>, world: &World, line: &Line<'_>) -> Taken {
    let one = vec![in world.alloc; registration_of(world, line.arguments(0))?]?;
    let outputs = call!(teller, "Outputs::new" => Outputs::new(one));
    tell(teller, Vec::new(world.alloc), outputs.as_slice())
}

fn sorted(teller: &mut Teller<'_>, world: &World, line: &Line<'_>) -> Taken {
    let registrations = registrations_of(world, line.arguments(0))?;
    match call!(teller, "Outputs::sorted" => Outputs::sorted(registrations)) {
        Some(outputs) => {
            let sorted = call!(teller, "Outputs::as_slice" => outputs.as_slice());
            tell(teller, Vec::new(world.alloc), sorted)
        }
        None => tell(teller, Vec::from_slice(world.alloc, b"none")?, &[]),
    }
}

// A copy of an entry, and a copy of what that adds, or of its outputs.
fn copy(teller: &mut Teller<'_>, world: &World, line: &Line<'_>) -> Taken {
    let entry = entry_of(world, line.arguments(0))?;
    let copy = match tried!(teller, "Entry::copy" => entry.copy(world.alloc))? {
        Entry::Add(one) => {
            Entry::Add(tried!(teller, "Registration::copy" => one.copy(world.alloc))?)
        }
        Entry::Done(deriver, outputs) => {
            let outputs = tried!(teller, "Outputs::copy" => outputs.copy(world.alloc))?;
            Entry::Done(deriver, outputs)
        }
    };
    let mut text = Vec::new(world.alloc);
    if let Entry::Done(deriver, _) = &copy {
        text.extend_from_slice(deriver.text())?;
        text.extend_from_slice(b" : ")?;
    }
    let registrations = call!(teller, "Entry::registrations" => copy.registrations());
    tell(teller, text, registrations)
}
