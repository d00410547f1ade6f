//! What a journal tells of a text.
ghost use Rattle.std.specs.Prelude.{◌≡◌, ◌≤◌, IfOk, length};
ghost use Rattle.nix_realise.specs.AddedText.{max_text_len};
ghost use Rattle.nix_realise.specs.Registering.{archive_info, record_of_text, text_archive, text_nar};

use drv_graph::Profile;
use nix_archive::{ArchiveWriter, DigestSink, Event, Hear, Sink};
use sha2::{Digest, Sha256};
use std::alloc::AllocError;
use valid_table::Nar;

/// What a journal tells of a text without references, beside its path.
#[derive(Clone, Copy, Debug)]
pub struct TextRecord {
    /// The SHA-256 of its bytes.
    pub digest: [u8; 32],
    /// Its archive, as that of a file which its owner may not execute; none under `Profile::Plain`.
    pub nar: Option<Nar>,
}

impl TextRecord {
    /// What is told of a text under a profile. An error where memory was refused. Costs one SHA-256
    /// over the text's bytes, and under `Profile::Nix` one over its archive, which is not kept.
    pub fn of(profile: Profile, text: &[u8]) -> Result<TextRecord, AllocError>
        requires { length text.now ≤ max_text_len }
        ensures { IfOk result (λ told. told ≡ record_of_text profile text.now) }
    {
        Ok(TextRecord {
            digest: Sha256::digest(text),
            nar: nar_of(profile, text)?,
        })
    }
}

// What is told of a text's archive under a profile.
fn nar_of(profile: Profile, text: &[u8]) -> Result<Option<Nar>, AllocError>
    requires { length text.now ≤ max_text_len }
    ensures { IfOk result (λ nar. nar ≡ text_nar profile text.now) }
{
    match profile {
        Profile::Plain => Ok(None),
        Profile::Nix => Ok(Some(archive_of(text)?)),
    }
}

// The SHA-256 and the length of a text's archive.
fn archive_of(text: &[u8]) -> Result<Nar, AllocError>
    requires { length text.now ≤ max_text_len }
    ensures { IfOk result (λ nar. nar ≡ archive_info (text_archive text.now)) }
{
    let sink = archive_into(text, DigestSink::<Sha256>::new())?;
    match Nar::new(sink.hasher.finalize(), sink.length) {
        Some(nar) => Ok(nar),
        None => unreachable!(),
    }
}

// Writes a text's archive into a sink.
fn archive_into<S: Sink + Drop>(text: &[u8], sink: S) -> Result<S, AllocError>
    ensures { IfOk result (λ written. S.took sink (text_archive text.now) written) }
{
    let size = text.len() as u64;
    let mut writer = ArchiveWriter::begin(sink)?;
    writer.hear(Event::BeginFile(false, size))?;
    writer.hear(Event::Piece(text))?;
    writer.hear(Event::EndFile(size))?;
    Ok(writer.sink)
}
