//! The archive of what is heard.
ghost use Rattle.std.specs.Prelude.{◌≡◌, ◌++◌, ◌∷◌, [], OnOk, IfOk, List, ℕ, length, codes};
ghost use Rattle.std.specs.List.{flat_map};
ghost use Rattle.nix_archive.specs.Archive.{magic, mark, padding, size_text, str, strs};

use crate::event::{Event, Hear};
use crate::sink::Sink;
use std::alloc::AllocError;

/// Writes the archive of the tree that it hears. It keeps nothing: each event has its text.
#[derive(Drop)]
pub struct ArchiveWriter<S> {
    /// Where the archive goes.
    pub sink: S,
}

impl<S: Sink> Hear for ArchiveWriter<S> {
    ghost use Rattle.nix_archive.specs.Texts.{text_of, token_text};
    ghost use Rattle.std.proofs.lemmas.Grind.{flat_map-append};
    ghost use Rattle.std.proofs.Common.{subst, sym};

    ghost heard = { λ s tokens t. S.took s.sink (text_of tokens) t.sink };

    ghost silence = { λ s. S.silence s.sink };

    ghost joins = { λ s m t before after h g.
        subst (λ l. S.took s.sink l t.sink) (sym (flat_map-append token_text before after))
        (S.joins s.sink m.sink t.sink (text_of before) (text_of after) h g) };

    fn hear(&mut self, event: Event<'_>) -> Result<(), AllocError> {
        match event {
            Event::BeginFolder => put_strs(&mut self.sink, &[b"(", b"type", b"directory"]),
            Event::BeginEntry(name) => put_strs(
                &mut self.sink,
                &[b"entry", b"(", b"name", name, b"node"],
            ),
            Event::EndEntry | Event::EndFolder => put_str(&mut self.sink, b")"),
            Event::BeginFile(executable, size) => put_head(&mut self.sink, executable, size),
            Event::Piece(bytes) => self.sink.put(bytes),
            Event::EndFile(size) => put_end(&mut self.sink, size),
            Event::Link(target) => put_strs(
                &mut self.sink,
                &[b"(", b"type", b"symlink", b"target", target, b")"],
            ),
        }
    }
}

impl<S: Sink + Drop> ArchiveWriter<S> {
    /// Begins an archive.
    pub fn begin(sink: S) -> Result<ArchiveWriter<S>, AllocError>
        ensures { IfOk result (λ writer. S.took sink magic writer.sink) }
    {
        let mut writer = ArchiveWriter { sink };
        put_str(&mut writer.sink, b"nix-archive-1")?;
        Ok(writer)
    }
}

// Writes what stands before a file's bytes.
fn put_head<S: Sink>(sink: &mut S, executable: bool, size: u64) -> Result<(), AllocError>
    ensures { OnOk result (S.took sink.old
        (strs (codes "(" ∷ codes "type" ∷ codes "regular" ∷ []) ++ (mark executable
        ++ (str (codes "contents") ++ size_text size))) sink.new) }
{
    put_strs(sink, &[b"(", b"type", b"regular"])?;
    put_mark(sink, executable)?;
    put_str(sink, b"contents")?;
    put_size(sink, size)
}

// Writes the mark of a file that may be executed.
fn put_mark<S: Sink>(sink: &mut S, executable: bool) -> Result<(), AllocError>
    ensures { OnOk result (S.took sink.old (mark executable) sink.new) }
{
    if executable {
        put_strs(sink, &[b"executable", b""])
    } else {
        Ok(())
    }
}

// Writes what stands after a file's bytes.
fn put_end<S: Sink>(sink: &mut S, size: u64) -> Result<(), AllocError>
    ensures { OnOk result (S.took sink.old (padding size ++ str (codes ")")) sink.new) }
{
    put_padding(sink, size)?;
    put_str(sink, b")")
}

// Writes some strings.
fn put_strs<S: Sink>(sink: &mut S, all: &[&[u8]]) -> Result<(), AllocError>
    ensures { OnOk result (S.took sink.old (flat_map (λ bytes. str bytes.now) all.now) sink.new) }
{
    'all: for bytes in all {
        put_str(sink, bytes)?;
    }
    Ok(())
}

// Writes a string: its length, its bytes, and zeros.
fn put_str<S: Sink>(sink: &mut S, bytes: &[u8]) -> Result<(), AllocError>
    ensures { OnOk result (S.took sink.old (str bytes.now) sink.new) }
{
    let size = bytes.len() as u64;
    put_size(sink, size)?;
    sink.put(bytes)?;
    put_padding(sink, size)
}

// Writes a length.
fn put_size<S: Sink>(sink: &mut S, size: u64) -> Result<(), AllocError>
    ensures { OnOk result (S.took sink.old (size_text size) sink.new) }
{
    sink.put(&size.to_le_bytes())
}

// Writes zeros up to a multiple of eight.
fn put_padding<S: Sink>(sink: &mut S, size: u64) -> Result<(), AllocError>
    ensures { OnOk result (S.took sink.old (padding size) sink.new) }
{
    let zeros = [0; 8];
    sink.put(&zeros[..((8 - size % 8) % 8) as usize])
}
