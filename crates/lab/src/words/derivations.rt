//! Derivations, their texts, sources, plans and drafts. `.._as` calls go by the profile `Nix`.
ghost use Rattle.std.specs.Prelude.{◌<◌, IfOk, length};

use crate::give::{Appended, Give};
use crate::line::{Line, as_text, halves, number_of};
use crate::rising::rising;
use crate::stop::{Found, Stop, Taken, call, tried};
use crate::teller::Teller;
use crate::words::names::{digest_of, file_bytes};
use crate::world::World;
use drv_graph::{Kind, Plan, Profile, fill_outputs, fill_outputs_as, modulo_text};
use nix_drv::{
    Derivation, DrvSource, Input, ListSource, ListedFile, Output, Parts, SourceFault,
    check_digested_text, check_text, named_text_path, read, references, text_path, write,
    write_string,
};
use nix_names::is_name;
use sha2::{Digest, Sha256};
use std::alloc::{AllocError, Global};

/// Takes a line, if its call is one of these.
pub(crate) fn take(teller: &mut Teller<'_>, world: &mut World, line: &Line<'_>) -> Found {
    any_of! { teller, world, line; of_texts, of_drvs, of_plans }
}

fn of_texts(teller: &mut Teller<'_>, world: &mut World, line: &Line<'_>) -> Found {
    words! { teller, world, line;
        "read" (text = text 0) => read(world.alloc, text);
        "check_text" (path = path 0, text = text 1)
            => check_text(world.alloc, &world.dir, &path, text);
        "check_digested_text" (path = path 0, text = text 1)
            => check_digested_text(world.alloc, &world.dir, &path, text, &Sha256::digest(text));
        "write_string" (mut out = copy 0, text = text 1)
            => Appended(write_string(&mut out, text), out);
        "text_path" (name = text 0, text = text 1, references = rising 2)
            => text_path(world.alloc, &world.dir, name, text, &references);
        "named_text_path" (name = text 0, text = text 1, references = rising 2) if is_name(name)
            => named_text_path(world.alloc, &world.dir, name, text, &references);
        do "ListSource::new" => list(teller, world, line);
        do "ListSource::fetch" => fetch(teller, world, line);
    }
}

fn of_drvs(teller: &mut Teller<'_>, world: &mut World, line: &Line<'_>) -> Found {
    words! { teller, world, line;
        "write" (drv = drvs 0) => write(world.alloc, drv);
        "Derivation::copy" (drv = drvs 0) => drv.copy(world.alloc);
        "Parts::text_with_inputs" (drv = drvs 0, other = drvs 1)
            => drv.parts().text_with_inputs(world.alloc, other.inputs());
        "references" (drv = drvs 0) => references(world.alloc, &world.dir, drv) => paths;
        "places" as "Derivation::output_index Derivation::env_index" (drv = drvs 0, name = text 1)
            => (drv.output_index(name), drv.env_index(name));
        "uses" as "Derivation::uses" (drv = drvs 0, input = number 1, name = text 2)
            if input < drv.inputs().len()
            => (drv.uses(input, name),);
        do "drv" => drv(teller, world, line);
        do "Derivation::new" => new(teller, world, line);
        do "Parts::copy" => parts(teller, world, line);
    }
}

fn of_plans(teller: &mut Teller<'_>, world: &mut World, line: &Line<'_>) -> Found {
    words! { teller, world, line;
        "Plan::copy" (plan = plans 0) => plan.copy(world.alloc);
        "modulo_text" (drv = drvs 0, masked = text 1, hashes = digests 2)
            if hashes.len() == drv.inputs().len()
            => modulo_text(world.alloc, drv, &hashes, masked == b"masked".as_slice());
        do "Plan::load" | "Plan::load_as" => load(teller, world, line);
        do "plan" => plan(teller, world, line);
        do "node" => node(teller, world, line);
        do "fill_outputs" | "fill_outputs_as" => fill(teller, world, line);
    }
}

// Prints each text after a word.
fn tell_texts(teller: &mut Teller<'_>, word: &str, texts: &[Vec<u8>]) {
    for text in texts {
        teller.say(format_args!("{word} {}", text.escape_ascii()));
    }
}

fn tell_outputs(teller: &mut Teller<'_>, outputs: &[Output]) {
    for output in outputs {
        let (name, path) = (output.name.escape_ascii(), output.path.escape_ascii());
        let (algo, hash) = (output.algo.escape_ascii(), output.hash.escape_ascii());
        teller.say(format_args!("output {name} {path} ({algo}, {hash})"));
    }
}

fn tell_inputs(teller: &mut Teller<'_>, inputs: &[Input]) {
    for input in inputs {
        teller.say(format_args!("input {}", input.path.escape_ascii()));
        tell_texts(teller, "  name", &input.names);
    }
}

// All that a derivation says.
fn drv(teller: &mut Teller<'_>, world: &World, line: &Line<'_>) -> Taken {
    const CALLS: &str = "Derivation::outputs Derivation::inputs Derivation::sources \
        Derivation::system Derivation::builder Derivation::args Derivation::env";
    let drv = world.drvs.get(line.argument(0))?;
    teller.begins(CALLS);
    let (outputs, inputs, sources) = (drv.outputs(), drv.inputs(), drv.sources());
    let (system, builder, args, env) = (drv.system(), drv.builder(), drv.args(), drv.env());
    teller.ends(CALLS);
    tell_outputs(teller, outputs);
    tell_inputs(teller, inputs);
    tell_texts(teller, "source", sources);
    let (system, builder) = (system.escape_ascii(), builder.escape_ascii());
    teller.say(format_args!("system \"{system}\", builder \"{builder}\""));
    tell_texts(teller, "argument", args);
    for entry in env {
        let (key, value) = (entry.key.escape_ascii(), entry.value.escape_ascii());
        teller.say(format_args!("entry {key}={value}"));
    }
    Ok(())
}

fn parts(teller: &mut Teller<'_>, world: &mut World, line: &Line<'_>) -> Taken {
    let drv = world.drvs.get(line.argument(0))?;
    let parts = call!(teller, "Derivation::parts" => drv.parts());
    let copy = tried!(teller, "Parts::copy" => parts.copy(world.alloc))?;
    Derivation::new(copy).give(teller, world, line)
}

// Leaves out the paths of the outputs, where a derivation has them.
fn leave_out(drv: &Derivation, parts: &mut Parts) {
    for output in parts.outputs.iter_mut() {
        output.path.clear();
    }
    let values = parts.env.iter_mut();
    values.for_each(|entry| if drv.output_index(&entry.key).is_some() {
        entry.value.clear();
    });
}

// Gives some parts in place of those of a derivation.
fn change(world: &World, line: &Line<'_>, drv: &Derivation, parts: &mut Parts) -> Taken {
    match as_text(line.argument(1)) {
        "draft" => leave_out(drv, parts),
        "builder" => parts.builder = world.text(line.argument(2)).to_vec(world.alloc)?,
        _ => {
            let other = world.drvs.get(line.argument(2))?;
            parts.inputs = other.parts().copy(world.alloc)?.inputs;
        }
    }
    Ok(())
}

// The derivation of the parts of another one, of which some are changed.
fn new(teller: &mut Teller<'_>, world: &mut World, line: &Line<'_>) -> Taken {
    let drv = world.drvs.get(line.argument(0))?;
    let copy = drv.copy(world.alloc)?;
    let mut parts = call!(teller, "Derivation::into_parts" => copy.into_parts());
    change(world, line, drv, &mut parts)?;
    let answer = call!(teller, "Derivation::new" => Derivation::new(parts));
    answer.give(teller, world, line)
}

// The source of a list: each line of it is a file, its path, a space and its bytes, or the number
// of a fetch that fails.
fn files(alloc: Global, list: &[u8]) -> Result<(Vec<ListedFile>, Vec<u64>), AllocError> {
    let (mut files, mut failing) = (Vec::new(alloc), Vec::new(alloc));
    for line in list.split(|byte| *byte == b'\n') {
        let (path, bytes) = halves(line, b' ');
        if path.len() < line.len() {
            let (path, bytes) = (path.to_vec(alloc)?, bytes.to_vec(alloc)?);
            files.push(ListedFile { path, bytes })?;
        } else if let Some(number) = number_of(path) {
            failing.push(number as u64)?;
        }
    }
    Ok((files, failing))
}

// The source of the list that the first argument stands for.
fn source_of(world: &World, line: &Line<'_>) -> Result<ListSource, Stop> {
    let (files, failing) = files(world.alloc, world.text(line.argument(0)))?;
    Ok(ListSource::new(world.alloc, files, failing)?)
}

// Prints how many fetches of a source failed, if some did.
fn tell_failures(teller: &mut Teller<'_>, source: &ListSource) {
    let count = call!(teller, "ListSource::failures" => source.failures());
    if count != 0 {
        teller.say(format_args!("{count} failures"));
    }
}

// Adds to a list the lines of a kept one, the number of a fetch, or a file of the store folder.
fn push_listed(teller: &Teller<'_>, world: &World, list: &mut Vec<u8>, word: &[u8]) -> Taken {
    if world.texts.get(word).is_ok() || number_of(word).is_some() {
        list.extend_from_slice(world.text(word))?;
    } else {
        let bytes = file_bytes(teller, word)?;
        let base = word.rsplit(|byte| *byte == b'/').next().unwrap_or(word);
        let pieces = [world.dir.text(), b"/".as_slice(), base, b" ", &bytes];
        list.extend_from_slice(&pieces.concat(world.alloc)?)?;
    }
    Ok(list.push(b'\n')?)
}

// Keeps the list of what words stand for.
fn list(teller: &mut Teller<'_>, world: &mut World, line: &Line<'_>) -> Taken {
    let mut list = Vec::new(world.alloc);
    for word in line.arguments(0) {
        push_listed(teller, world, &mut list, word)?;
    }
    let (files, failing) = files(world.alloc, &list)?;
    let made = call!(teller, "ListSource::new" => ListSource::new(world.alloc, files, failing));
    drop(teller.answered(made)?);
    world.texts.put(line.name, list)
}

// The fetch of a source with a number, after as many others.
fn fetch(teller: &mut Teller<'_>, world: &mut World, line: &Line<'_>) -> Taken {
    let (mut source, path) = (source_of(world, line)?, world.path(line.argument(1))?);
    for _ in 0..line.number(2).unwrap_or(0) {
        drop(source.fetch(world.alloc, &path));
    }
    let answer = call!(teller, "ListSource::fetch" => source.fetch(world.alloc, &path));
    if !matches!(&answer, Err(SourceFault::NoMemory)) {
        tell_failures(teller, &source);
    }
    answer.give(teller, world, line)
}

fn load(teller: &mut Teller<'_>, world: &mut World, line: &Line<'_>) -> Taken {
    let (mut source, roots) = (source_of(world, line)?, world.paths(line.arguments(1))?);
    let answer = if line.call == "Plan::load" {
        call!(teller, "Plan::load" => Plan::load(world.alloc, &mut source, &world.dir, &roots))
    } else {
        call!(teller, "Plan::load_as" =>
            Plan::load_as(world.alloc, Profile::Nix, &mut source, &world.dir, &roots))
    };
    tell_failures(teller, &source);
    answer.give(teller, world, line)
}

// The path, the inputs and the first twin of each derivation of a plan, and its roots.
fn plan(teller: &mut Teller<'_>, world: &World, line: &Line<'_>) -> Taken {
    const CALLS: &str = "Plan::path Plan::inputs Plan::first_twin";
    let plan = world.plans.get(line.argument(0))?;
    let (len, roots) = call!(teller, "Plan::len Plan::roots" => (plan.len(), plan.roots()));
    for number in 0..len {
        let (path, inputs, twin) = call!(teller, CALLS =>
            (plan.path(number), plan.inputs(number), plan.first_twin(number)));
        teller.say(format_args!("{number} {} {inputs:?} {twin}", path.as_str()));
    }
    teller.say(format_args!("roots {roots:?}"));
    Ok(())
}

/// A plan and the number of one of its derivations, which are the arguments of a line from a first
/// one on.
pub(crate) fn node_of<'a>(
    world: &'a World,
    line: &Line<'_>,
    first: usize,
) -> Result<(&'a Plan, usize), Stop>
    ensures { IfOk result (λ found. found.1 < length found.0.now.nodes) }
{
    let plan = world.plans.get(line.argument(first))?;
    let number = line.number(first.saturating_add(1)).unwrap_or(0);
    if number >= plan.len() {
        return Err(Stop::NotAllowed);
    }
    Ok((plan, number))
}

// The kind, the outputs and the sources of one derivation of a plan, which is kept.
fn node(teller: &mut Teller<'_>, world: &mut World, line: &Line<'_>) -> Taken {
    const CALLS: &str = "Plan::drv Plan::kind Plan::output_paths Plan::sources";
    let (plan, number) = node_of(world, line, 0)?;
    let (drv, kind, outputs, sources) = call!(teller, CALLS =>
        (plan.drv(number), plan.kind(number), plan.output_paths(number), plan.sources(number)));
    tell_kind(teller, world.alloc, kind)?;
    teller.paths(outputs);
    teller.paths(sources);
    let copy = drv.copy(world.alloc)?;
    world.drvs.put(line.name, copy)
}

fn tell_kind(teller: &mut Teller<'_>, alloc: Global, kind: Kind) -> Taken {
    match kind {
        Kind::Addressed => teller.say("Addressed"),
        Kind::Fixed(method, digest) => {
            let mut text = Vec::new(alloc);
            digest.push_text(&mut text)?;
            teller.say(format_args!("Fixed({method:?}, {})", text.escape_ascii()));
        }
    }
    Ok(())
}

// Fills a draft under a name, or under that of a derivation's path.
fn fill(teller: &mut Teller<'_>, world: &mut World, line: &Line<'_>) -> Taken {
    let (mut source, word) = (source_of(world, line)?, line.argument(1));
    let path = world.path(word);
    let name = match &path {
        Ok(path) => path.name().strip_suffix(b".drv").unwrap_or(word),
        Err(_) => word,
    };
    let draft = world.drvs.get(line.argument(2))?;
    let (alloc, dir) = (world.alloc, &world.dir);
    let answer = if line.call == "fill_outputs" {
        call!(teller, "fill_outputs" => fill_outputs(alloc, &mut source, dir, name, draft))
    } else {
        call!(teller, "fill_outputs_as" =>
            fill_outputs_as(alloc, Profile::Nix, &mut source, dir, name, draft))
    };
    tell_failures(teller, &source);
    let (drv, path) = teller.answered(answer)?;
    teller.say(path.as_str());
    world.drvs.put(line.name, drv)
}

// The digests that words stand for.
fn digests(alloc: Global, words: &[&[u8]]) -> Result<Vec<[u8; 32]>, Stop> {
    let mut digests = Vec::new(alloc);
    for word in words {
        digests.push(digest_of(word)?)?;
    }
    Ok(digests)
}
