//! Archives. An event is a word: `folder`, `entry:NAME`, `left` and `end`; `file:N` or `program:N`
//! for a file of N bytes, `piece:TEXT` and `close:N`; `link:TARGET`.
//!
//! `archive EVENT ..` is the archive of the events, and `events BYTES N` tells those of an archive
//! that comes in pieces of N bytes. `rewrite BYTES` is the archive that is written while one is
//! read, with its length and its SHA-256. `archive_sum TREE` and the like are of a tree's archive.
ghost use Rattle.std.specs.Prelude.{⊤};

use crate::give::Give;
use crate::line::{Line, as_text, halves, number_of};
use crate::stop::{Found, Taken, call, tried};
use crate::teller::Teller;
use crate::world::World;
use nix_archive::{ArchiveFault, ArchiveReader, ArchiveWriter, Both, DigestSink, Event, Hear};
use ref_scan::{archive_digest, archive_into, archive_sum};
use sha2::{Digest, Sha256, Sha512};
use std::alloc::AllocError;

/// Takes a line, if its call is one of these.
pub(crate) fn take(teller: &mut Teller<'_>, world: &mut World, line: &Line<'_>) -> Found {
    words! { teller, world, line;
        "archive_sum" (tree = trees 0) => archive_sum(world.alloc, tree);
        "archive_digest" (tree = trees 0) => archive_digest::<Sha512>(world.alloc, tree);
        "archive_into" (tree = trees 0) => archive_into(world.alloc, tree, Vec::new(world.alloc));
        do "archive" => archive(teller, world, line);
        do "events" => events(teller, world, line);
        do "rewrite" => rewrite(teller, world, line);
    }
}

// The event that a word is.
fn event_of<'a>(world: &'a World, word: &'a [u8]) -> Event<'a> {
    let (kind, rest) = halves(word, b':');
    let count = number_of(rest).unwrap_or(0) as u64;
    match as_text(kind) {
        "folder" => Event::BeginFolder,
        "entry" => Event::BeginEntry(world.text(rest)),
        "left" => Event::EndEntry,
        "end" => Event::EndFolder,
        "file" => Event::BeginFile(false, count),
        "program" => Event::BeginFile(true, count),
        "close" => Event::EndFile(count),
        "link" => Event::Link(world.text(rest)),
        _ => Event::Piece(world.text(rest)),
    }
}

fn archive(teller: &mut Teller<'_>, world: &mut World, line: &Line<'_>) -> Taken {
    let begun = tried!(teller, "ArchiveWriter::begin" =>
        ArchiveWriter::begin(Vec::new(world.alloc)));
    let mut writer = begun?;
    for word in line.arguments(0) {
        let event = event_of(world, word);
        tried!(teller, "ArchiveWriter::hear" => writer.hear(event))?;
    }
    writer.sink.give(teller, world, line)
}

// The words of the events that were heard.
#[derive(Drop)]
struct Heard {
    text: String,
}

impl Hear for Heard {
    ghost heard = { λ _ _ _. ⊤ };

    ghost silence = { λ _. tt };

    ghost joins = { λ _ _ _ _ _ _ _. tt };

    fn hear(&mut self, event: Event<'_>) -> Result<(), AllocError> {
        let alloc = *self.text.allocator();
        let word = match event {
            Event::BeginFolder => format!(in alloc; "folder "),
            Event::BeginEntry(name) => format!(in alloc; "entry:{} ", name.escape_ascii()),
            Event::EndEntry => format!(in alloc; "left "),
            Event::EndFolder => format!(in alloc; "end "),
            Event::BeginFile(false, count) => format!(in alloc; "file:{count} "),
            Event::BeginFile(true, count) => format!(in alloc; "program:{count} "),
            Event::Piece(bytes) => format!(in alloc; "piece:{} ", bytes.escape_ascii()),
            Event::EndFile(count) => format!(in alloc; "close:{count} "),
            Event::Link(target) => format!(in alloc; "link:{} ", target.escape_ascii()),
        };
        self.text.push_str(&word?)
    }
}

// Has a reader read an archive in pieces of a length. Gives the offset of the byte with which no
// archive goes on, if there is one.
fn feed<H: Hear>(
    reader: &mut ArchiveReader,
    bytes: &[u8],
    length: usize,
    hearer: &mut H,
) -> Result<Option<usize>, AllocError> {
    let mut done: usize = 0;
    for piece in bytes.chunks(length.max(1)) {
        match reader.feed(piece, hearer) {
            Ok(()) => done = done.saturating_add(piece.len()),
            Err(ArchiveFault::BadNar(offset)) => return Ok(Some(done.saturating_add(offset))),
            Err(_) => return Err(AllocError),
        }
    }
    Ok(None)
}

fn events(teller: &mut Teller<'_>, world: &World, line: &Line<'_>) -> Taken {
    let (bytes, length) = (world.text(line.argument(0)), line.number(1));
    let text = String::new(world.alloc);
    let mut heard = Heard { text };
    let mut reader = call!(teller, "ArchiveReader::new" => ArchiveReader::new(world.alloc));
    let offset = tried!(teller, "ArchiveReader::feed" =>
        feed(&mut reader, bytes, length.unwrap_or(usize::MAX), &mut heard))?;
    let is_done = call!(teller, "ArchiveReader::is_done" => reader.is_done());
    let words = heard.text.as_bytes().strip_suffix(b" ");
    teller.text(words.unwrap_or(b"none"));
    match offset {
        Some(offset) => teller.say(format_args!("BadNar({offset})")),
        None => teller.say(if is_done { "whole" } else { "unfinished" }),
    }
    Ok(())
}

fn rewrite(teller: &mut Teller<'_>, world: &mut World, line: &Line<'_>) -> Taken {
    let (alloc, bytes) = (world.alloc, world.text(line.argument(0)));
    let sink = call!(teller, "DigestSink::new" => DigestSink::<Sha256>::new());
    let second = tried!(teller, "DigestSink::put" => ArchiveWriter::begin(sink))?;
    let first = ArchiveWriter::begin(Vec::new(alloc))?;
    let (mut reader, mut both) = (ArchiveReader::new(alloc), Both { first, second });
    tried!(teller, "Both::hear" => feed(&mut reader, bytes, 64, &mut both))?;
    let Both { first, second } = both;
    teller.say(format_args!("{} bytes", second.sink.length));
    teller.hex(&second.sink.hasher.finalize());
    first.sink.give(teller, world, line)
}
