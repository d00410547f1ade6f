//! Tables, closures, and lists of paths.
//!
//! A line that only asks a table may name a journal, and asks its table. `list TEXT` keeps paths,
//! each a line of a text.
ghost use Rattle.std.specs.Prelude.{◌≤◌, length};
ghost use Rattle.valid_table.specs.Entries.{registered_by};

use crate::give::Give;
use crate::line::{Line, pieces};
use crate::rising::rising;
use crate::stop::{Found, Stop, Taken, call, tried};
use crate::teller::Teller;
use crate::words::journals::{entry_of, push_known};
use crate::world::{KeptTable, World};
use nix_names::StorePath;
use std::alloc::AllocError;
use valid_table::{Entry, Journal, Obstacle, Table, TableFault, union};

/// Takes a line, if its call is one of these.
pub(crate) fn take(teller: &mut Teller<'_>, world: &mut World, line: &Line<'_>) -> Found {
    any_of! { teller, world, line; of_equals, of_tables }
}

fn of_equals(teller: &mut Teller<'_>, world: &mut World, line: &Line<'_>) -> Found {
    words! { teller, world, line;
        "Plan::eq" (one = plans 0, two = plans 1) => (one == two,);
        "Derivation::eq" (one = drvs 0, two = drvs 1) => (one == two,);
        "same_entries" (one = journals 0, two = journals 1) => (one.entries() == two.entries(),);
        "same_paths" (one = lists 0, two = lists 1) => (one.as_slice() == two.as_slice(),);
        "same" (one = text 0, two = text 1) => (one == two,);
    }
}

fn of_tables(teller: &mut Teller<'_>, world: &mut World, line: &Line<'_>) -> Found {
    words! { teller, world, line;
        "Table::closure" (table = table 0, roots = paths 1) => table.closure(world.alloc, &roots);
        "union" (left = before b"/", right = after b"/") => union(world.alloc, &left, &right);
        put "list" (text = text 0) => listed(world, text)?;
        do "Table::new" => new(teller, world, line);
        do "Table::replay" => replay(teller, world, line);
        do "Table::get" => get(teller, world, line);
        do "Table::obstacle" => obstacle(teller, world, line);
        do "Table::reserve" | "Journal::reserve" => reserve(teller, world, line);
        do "Table::register" => register(teller, world, line);
        do "Table::register_reserved" => register_reserved(teller, world, line);
    }
}

/// What a line may change: the text of its journal, and what its table says of all its paths and of
/// the words of the line that are paths. No bytes where there is nothing, or times are told.
pub(crate) fn given(teller: &Teller<'_>, world: &World, line: &Line<'_>) -> Result<Vec<u8>, Stop> {
    let (mut text, mut paths) = (Vec::new(world.alloc), Vec::new(world.alloc));
    if teller.tells_times {
        return Ok(text);
    }
    push_mentioned(&mut paths, world, line.arguments(1))?;
    if let Ok(kept) = world.tables.get(line.argument(0)) {
        push_told(&mut text, &kept.table, &kept.paths)?;
        push_told(&mut text, &kept.table, &paths)?;
    }
    if let Ok(journal) = world.journals.get(line.argument(0)) {
        push_entries(&mut paths, journal)?;
        push_told(&mut text, journal.table(), &paths)?;
        text.extend_from_slice(&journal.write(world.alloc)?)?;
    }
    Ok(text)
}

// Adds those words that are paths to a list.
fn push_mentioned(paths: &mut Vec<StorePath>, world: &World, words: &[&[u8]]) -> Taken {
    for word in words {
        if let Ok(path) = world.path(word) {
            paths.push(path)?;
        }
    }
    Ok(())
}

// Adds what a table says of paths to a text.
fn push_told(text: &mut Vec<u8>, table: &Table, paths: &[StorePath]) -> Result<(), AllocError> {
    for path in paths {
        if !text.is_empty() {
            text.extend_from_slice(b" / ")?;
        }
        match table.get(path) {
            Some(info) => {
                text.extend_from_slice(path.text())?;
                push_known(text, info)?;
            }
            None => text.extend_from_slice(b"none")?,
        }
    }
    Ok(())
}

// Adds the paths that a journal's entries register to a list.
fn push_entries(paths: &mut Vec<StorePath>, journal: &Journal) -> Result<(), AllocError> {
    for entry in journal.entries() {
        push_paths(paths, entry)?;
    }
    Ok(())
}

// Adds the paths that an entry registers to a list.
fn push_paths(paths: &mut Vec<StorePath>, entry: &Entry) -> Result<(), AllocError> {
    let alloc = *paths.allocator();
    for registration in entry.registrations() {
        paths.push(registration.path.copy(alloc)?)?;
    }
    Ok(())
}

// The path of each line of a text.
fn listed(world: &World, text: &[u8]) -> Result<Vec<StorePath>, Stop> {
    let mut lines = pieces(world.alloc, text, b'\n')?;
    lines.retain(|line| !line.is_empty());
    Ok(world.paths(&lines)?)
}

// The table of a line, or that of its journal.
fn table<'a>(
    teller: &mut Teller<'_>,
    world: &'a World,
    line: &Line<'_>,
) -> Result<&'a Table, Stop> {
    if let Ok(kept) = world.tables.get(line.argument(0)) {
        return Ok(&kept.table);
    }
    let journal = world.journals.get(line.argument(0))?;
    Ok(call!(teller, "Journal::table" => journal.table()))
}

fn new(teller: &mut Teller<'_>, world: &mut World, line: &Line<'_>) -> Taken {
    let table = call!(teller, "Table::new" => Table::new(world.alloc));
    let paths = Vec::new(world.alloc);
    world.tables.put(line.name, KeptTable { table, paths })
}

fn replay(teller: &mut Teller<'_>, world: &mut World, line: &Line<'_>) -> Taken {
    let journal = world.journals.get(line.argument(0))?;
    let mut paths = Vec::new(world.alloc);
    push_entries(&mut paths, journal)?;
    let table = tried!(teller, "Table::replay" => Table::replay(world.alloc, journal))?;
    teller.say("replayed");
    world.tables.put(line.name, KeptTable { table, paths })
}

// What a table says of some paths.
fn get(teller: &mut Teller<'_>, world: &World, line: &Line<'_>) -> Taken {
    const CALLS: &str = "Table::get Table::registers";
    let (table, paths) = (table(teller, world, line)?, world.paths(line.arguments(1))?);
    for path in &paths {
        let (info, is_valid) = call!(teller, CALLS => (table.get(path), table.registers(path)));
        if info.is_some() != is_valid {
            return Err(Stop::Lost("a record of a path that is not valid, or none"));
        }
    }
    let mut text = Vec::new(world.alloc);
    push_told(&mut text, table, &paths)?;
    teller.text(&text);
    Ok(())
}

fn obstacle(teller: &mut Teller<'_>, world: &World, line: &Line<'_>) -> Taken {
    let entry = entry_of(world, line.arguments(1))?;
    let table = table(teller, world, line)?;
    match call!(teller, "Table::obstacle" => table.obstacle(&entry)) {
        Some(obstacle) => tell_obstacle(teller, obstacle),
        None => teller.say("no obstacle"),
    }
    Ok(())
}

/// Says why an entry can't be registered.
pub(crate) fn tell_obstacle(teller: &mut Teller<'_>, obstacle: Obstacle<'_>) {
    match obstacle {
        Obstacle::AlreadyValid(path) => teller.say(format_args!("AlreadyValid({})", path.as_str())),
        Obstacle::Unclosed(path) => teller.say(format_args!("Unclosed({})", path.as_str())),
    }
}

/// Looks whether the reference that an answer blames has the text of its path.
pub(crate) fn check_reference(teller: &mut Teller<'_>, answer: &Result<(), TableFault>) -> Taken {
    if let Err(TableFault::Unclosed(one)) = answer {
        let path = call!(teller, "Reference::path" => one.path());
        let text = call!(teller, "Reference::text" => one.text());
        if text != path.text() {
            return Err(Stop::Lost("the reference has another text than its path"));
        }
    }
    Ok(())
}

// Makes room in a table or in a journal.
fn reserve(teller: &mut Teller<'_>, world: &mut World, line: &Line<'_>) -> Taken {
    let paths = line.number(1).unwrap_or(0);
    if line.call == "Table::reserve" {
        let kept = world.tables.get_mut(line.argument(0))?;
        tried!(teller, "Table::reserve" => kept.table.reserve(paths))?;
    } else {
        let journal = world.journals.get_mut(line.argument(0))?;
        tried!(teller, "Journal::reserve" => journal.reserve(paths))?;
    }
    teller.say("reserved");
    Ok(())
}

fn register(teller: &mut Teller<'_>, world: &mut World, line: &Line<'_>) -> Taken {
    let entry = entry_of(world, line.arguments(1))?;
    let kept = world.tables.get_mut(line.argument(0))?;
    let answer = call!(teller, "Table::register" => kept.table.register(&entry));
    check_reference(teller, &answer)?;
    teller.answered(answer)?;
    teller.say("registered");
    Ok(push_paths(&mut kept.paths, &entry)?)
}

// Makes room for an entry, and registers it.
fn register_reserved(teller: &mut Teller<'_>, world: &mut World, line: &Line<'_>) -> Taken {
    let entry = entry_of(world, line.arguments(1))?;
    let kept = world.tables.get_mut(line.argument(0))?;
    let count = entry.registrations().len();
    tried!(teller, "Table::reserve" => kept.table.reserve(count))?;
    register_in_room(teller, kept, entry)
}

fn register_in_room(teller: &mut Teller<'_>, kept: &mut KeptTable, entry: Entry) -> Taken
    requires { length (registered_by entry) ≤ kept.old.table.room }
{
    push_paths(&mut kept.paths, &entry)?;
    if let Some(obstacle) = kept.table.obstacle(&entry) {
        tell_obstacle(teller, obstacle);
        return Err(Stop::Told);
    }
    call!(teller, "Table::register_reserved" => kept.table.register_reserved(entry));
    teller.say("registered");
    Ok(())
}
