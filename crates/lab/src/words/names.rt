//! Names, paths and digests. `dir` names the store folder of the lines that follow.
//!
//! What `bench/` measures by: `load_files ROOT..` is the plan of some roots, from the files of the
//! store folder, `memmem` one pass over a text, which `scan` is compared with, and `memory` tells
//! how many bytes of memory the program holds.

use crate::give::{Appended, Give};
use crate::line::{Line, as_text, number_of};
use crate::stop::{Found, Stop, Taken, call, tried};
use crate::teller::Teller;
use crate::world::World;
use digest_lanes::digests;
use drv_graph::Plan;
use memchr::memmem;
use nix_drv::{DrvSource, SourceFault};
use nix_names::{
    Algorithm, Digest, StoreDir, StorePath, fold20, from_base32, is_drv_name, is_name, known_path,
    make_named_path, make_path, parse_path, to_base32,
};
use std::alloc::Global;
use std::fs;
use std::mem::size_of;

/// Takes a line, if its call is one of these.
pub(crate) fn take(teller: &mut Teller<'_>, world: &mut World, line: &Line<'_>) -> Found {
    any_of! { teller, world, line; of_paths, of_names, of_digests, of_texts }
}

fn of_paths(teller: &mut Teller<'_>, world: &mut World, line: &Line<'_>) -> Found {
    words! { teller, world, line;
        "parse_path" (text = text 0) => parse_path(world.alloc, &world.dir, text);
        "known_path" (path = known 0) => known_path(world.alloc, path.text());
        "make_path" (kind = text 0, inner = digest 1, name = text 2)
            => make_path(world.alloc, kind, &inner, &world.dir, name);
        do "path" => path(teller, world, line);
    }
}

fn of_names(teller: &mut Teller<'_>, world: &mut World, line: &Line<'_>) -> Found {
    words! { teller, world, line;
        "make_named_path" (kind = text 0, inner = digest 1, name = text 2) if is_name(name)
            => make_named_path(world.alloc, kind, &inner, &world.dir, name);
        "is_name" as "is_name is_drv_name" (name = text 0) => (is_name(name), is_drv_name(name));
        "compare" as "StorePath::cmp StorePath::eq" (path = path 0, other = path 1)
            => (path.cmp(&other), path == other);
        "dir" as "StoreDir::new" (text = text 0) => StoreDir::new(world.alloc, text);
        "load_files" as "Plan::load" (roots = paths 0)
            => Plan::load(world.alloc, &mut Folder { files: teller.rt }, &world.dir, &roots);
        do "memory" => memory(teller);
    }
}

fn of_digests(teller: &mut Teller<'_>, world: &mut World, line: &Line<'_>) -> Found {
    words! { teller, world, line;
        "to_base32" (bytes = text 0) => to_base32(world.alloc, bytes) => say;
        "from_base32" (text = text 0, count = number 1)
            => from_base32(world.alloc, text, count) => hex;
        "fold20" (digest = digest 0) => fold20(&digest);
        "digests" (texts = copies 0) => digests(world.alloc, &texts);
        "Digest::of_text" (text = text 0) => Digest::of_text(text);
        "Digest::of_digits" as "Algorithm::of_name Digest::of_digits" (name = text 0, digits = text 1)
            => Algorithm::of_name(name).and_then(|named| Digest::of_digits(named, digits));
    }
}

fn of_texts(teller: &mut Teller<'_>, world: &mut World, line: &Line<'_>) -> Found {
    words! { teller, world, line;
        "Digest::push_text" (mut out = copy 0, digest = written 1)
            => Appended(digest.push_text(&mut out), out);
        "Digest::push_digits" (mut out = copy 0, digest = written 1)
            => Appended(digest.push_digits(&mut out), out);
        "memmem" (text = text 0, wanted = text 1) => (memmem::find(text, wanted).is_some(),);
        put "bytes" => hex::decode(world.alloc, line.argument(0)).or(Err(NO_BYTES))?;
        put "file" => file_bytes(teller, line.argument(0))?;
    }
}

/// The bytes of the file at a path.
pub(crate) fn file_bytes(teller: &Teller<'_>, path: &[u8]) -> Result<Vec<u8>, Stop> {
    fs::read(teller.rt, as_text(path)).or(Err(Stop::Lost("no file")))
}

const NO_BYTES: Stop = Stop::Lost("no such bytes");

/// The 32 bytes that are written in hex digits.
pub(crate) fn digest_of(digits: &[u8]) -> Result<[u8; 32], Stop> {
    let mut digest = [0; 32];
    hex::decode_to_slice(digits, &mut digest).or(Err(NO_BYTES))?;
    Ok(digest)
}

// All that is told of a path, by a copy of it that outlives it.
fn path(teller: &mut Teller<'_>, world: &World, line: &Line<'_>) -> Taken {
    const TEXTS: &str = "StorePath::text StorePath::as_str StorePath::hash_part StorePath::name";
    let path = world.path(line.argument(0))?;
    let copy = tried!(teller, "StorePath::copy" => path.copy(world.alloc))?;
    let (text, string, part, name) =
        call!(teller, TEXTS => (copy.text(), copy.as_str(), copy.hash_part(), copy.name()));
    let key = call!(teller, "StorePath::key" => copy.key());
    teller.text(text);
    teller.say(string);
    teller.text(part);
    teller.text(name);
    teller.say(format_args!("{key:x}, in {} bytes", size_of::<StorePath>()));
    Ok(())
}

// Derivations' files on disk, each under the text of its path.
#[derive(Drop)]
struct Folder<'a> {
    files: &'a HostRuntime,
}

impl DrvSource for Folder<'_> {
    ghost use Rattle.std.specs.Prelude.{⊤};

    ghost gives = { λ _ _ _. ⊤ };

    ghost failures = { λ _. 0 };

    fn fetch(&mut self, _: Global, path: &StorePath) -> Result<Vec<u8>, SourceFault> {
        fs::read(self.files, path.as_str()).or(Err(SourceFault::Missing))
    }
}

fn memory(teller: &mut Teller<'_>) -> Taken {
    let pages = file_bytes(teller, b"/proc/self/statm")?;
    let held = pages.split(|byte| *byte == b' ').nth(1).and_then(number_of);
    let pages = held.ok_or(Stop::Lost("the system does not tell how much memory is held"))?;
    teller.say(format_args!("holds {} bytes", pages.saturating_mul(4096)));
    Ok(())
}
