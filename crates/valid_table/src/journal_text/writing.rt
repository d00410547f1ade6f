//! Writing a journal's text.
ghost use Rattle.std.specs.Prelude.{◌≡◌, ◌++◌, ◌∷◌, IfOk, IfErr, OnOk};
ghost use Rattle.std.specs.List.{list_any};
ghost use Rattle.valid_table.specs.private.LineTexts.{fields_text, lines_text, path_line, registration_text};
ghost use Rattle.valid_table.specs.Texts.{digest_text, entry_lines, known_text, nar_text, text};
ghost use Rattle.valid_table.specs.Written.{entry_needs_three, lines_in, needs_three, written_text, written_version};
ghost use Rattle.valid_table.specs.declared.entry.Registration.{Registration as ARegistration};

use crate::entry::{Entry, Outputs, Record, Registration};
use crate::fault::TableFault;
use crate::journal::Journal;
use crate::nar::Nar;
use crate::path_table::version::Version;
use itoa::Buffer;
use nix_names::{Digest, MethodDigest, StorePath};
use std::alloc::{AllocError, Global};

impl Journal {
    /// The journal's text: the line of its version (`Journal::version`) and each entry's lines,
    /// each with its newline. Answers `NoMemory` where memory is refused, and no other fault. Costs two
    /// passes over the entries, and memory for the text alone.
    pub fn write(&self, alloc: Global) -> Result<Vec<u8>, TableFault>
        ensures ok { IfOk result (λ bytes. bytes.items ≡ written_text self.now.entries) }
        ensures err { IfErr result (λ e. e ≡ TableFault.NoMemory) }
    {
        self.write_in(alloc, self.version())
    }

    /// The journal's text in a version, as `write` writes it in the journal's own. Version 1 has no
    /// algorithm's name, versions 1 and 2 have no method and no archive: what an entry has of these
    /// is left out there. Answers `NoMemory` where memory is refused, and no other fault. Costs one
    /// pass over the entries, and memory for the text alone.
    #[tactic(auto, unfolding(crate::specs::Texts::text))]
    pub fn write_in(&self, alloc: Global, version: Version) -> Result<Vec<u8>, TableFault>
        ensures ok { IfOk result (λ bytes. bytes.items ≡ text version self.now.entries) }
        ensures err { IfErr result (λ e. e ≡ TableFault.NoMemory) }
    {
        let mut out = Vec::from_slice(alloc, version.line())?;
        add_lines(version, self.entries(), &mut out)?;
        Ok(out)
    }

    /// The version in which `write` writes the journal: version 3 where an entry has an archive or
    /// the digest of an archive, else version 2. Costs one pass over the entries.
    pub fn version(&self) -> Version
        ensures { result ≡ written_version self.now.entries }
    {
        if need_three(self.entries()) {
            Version::Three
        } else {
            Version::Two
        }
    }
}

/// The lines of some entries in a version, each with its newline. A journal's text in that version
/// with the lines of further entries after it is the text of all of them. Answers `NoMemory` where
/// memory is refused, and no other fault. Costs one pass over the entries.
pub fn write_lines(
    alloc: Global,
    version: Version,
    entries: &[Entry],
) -> Result<Vec<u8>, TableFault>
    ensures ok { IfOk result (λ bytes. bytes.items ≡ lines_in version entries.now) }
    ensures err { IfErr result (λ e. e ≡ TableFault.NoMemory) }
{
    let mut out = Vec::new(alloc);
    add_lines(version, entries, &mut out)?;
    Ok(out)
}

// Whether one of the entries can be told in version 3 alone.
fn need_three(entries: &[Entry]) -> bool
    ensures { result ≡ list_any entry_needs_three entries.now }
{
    'entries: for entry in entries {
        if registrations_need_three(entry.registrations()) {
            return true;
        }
    }
    false
}

// Whether one of the registrations can be told in version 3 alone.
fn registrations_need_three(registrations: &[Registration]) -> bool
    ensures { result ≡ list_any (λ (r : ARegistration). needs_three r.info) registrations.now }
{
    'registrations: for registration in registrations {
        if registration.info.needs_three() {
            return true;
        }
    }
    false
}

// Adds the lines of some entries.
fn add_lines(version: Version, entries: &[Entry], out: &mut Vec<u8>) -> Result<(), AllocError>
    ensures { OnOk result (out.new.items ≡ out.old.items ++ lines_in version entries.now) }
{
    'entries: for entry in entries {
        write_entry(version, entry, out)?;
    }
    Ok(())
}

// Adds an entry's lines.
fn write_entry(version: Version, entry: &Entry, out: &mut Vec<u8>) -> Result<(), AllocError>
    ensures { OnOk result
        (out.new.items ≡ out.old.items ++ lines_text version (entry_lines entry.now)) }
{
    match entry {
        Entry::Add(registration) => write_registration(version, b'A', registration, out),
        Entry::Done(deriver, outputs) => {
            write_path(b'D', deriver, out)?;
            'outputs: for output in outputs.as_slice() {
                write_registration(version, b'O', output, out)?;
            }
            Ok(())
        }
    }
}

// Adds the lines of a path that is registered, the first of them with this letter.
fn write_registration(
    version: Version,
    letter: u8,
    registration: &Registration,
    out: &mut Vec<u8>,
) -> Result<(), AllocError>
    ensures { OnOk result
        (out.new.items ≡ out.old.items ++ registration_text version letter registration.now) }
{
    write_fields(version, letter, registration, out)?;
    'references: for reference in registration.info.references() {
        write_path(b'R', reference, out)?;
    }
    Ok(())
}

// Adds the line with this letter, the path that is registered and what is known of it.
fn write_fields(
    version: Version,
    letter: u8,
    registration: &Registration,
    out: &mut Vec<u8>,
) -> Result<(), AllocError>
    ensures { OnOk result
        (out.new.items
        ≡ out.old.items
        ++ letter ∷ 32
        ∷ fields_text version registration.now.path registration.now.info.digest
        registration.now.info.nar) }
{
    out.extend_from_slice(&[letter, b' '])?;
    out.extend_from_slice(registration.path.text())?;
    out.extend_from_slice(b" ")?;
    write_known(version, &registration.info, out)?;
    out.extend_from_slice(b"\n")
}

// Adds a line with this letter and a path.
fn write_path(letter: u8, path: &StorePath, out: &mut Vec<u8>) -> Result<(), AllocError>
    ensures { OnOk result (out.new.items ≡ out.old.items ++ path_line letter path.now) }
{
    out.extend_from_slice(&[letter, b' '])?;
    out.extend_from_slice(path.text())?;
    out.extend_from_slice(b"\n")
}

// Adds what a version tells of a path.
fn write_known(version: Version, info: &Record, out: &mut Vec<u8>) -> Result<(), AllocError>
    ensures { OnOk result
        (out.new.items ≡ out.old.items ++ known_text version info.now.digest info.now.nar) }
{
    write_digest(version, info.digest(), out)?;
    match version {
        Version::One | Version::Two => Ok(()),
        Version::Three => {
            out.extend_from_slice(b" ")?;
            write_nar(info.nar(), out)
        }
    }
}

// Adds a digest's text in a version.
fn write_digest(
    version: Version,
    digest: Option<MethodDigest>,
    out: &mut Vec<u8>,
) -> Result<(), AllocError>
    ensures { OnOk result (out.new.items ≡ out.old.items ++ digest_text version digest) }
{
    match digest {
        None => out.extend_from_slice(b"-"),
        Some(found) => match version {
            Version::One => found.digest.push_digits(out),
            Version::Two => found.digest.push_text(out),
            Version::Three => found.push_text(out),
        },
    }
}

// Adds an archive's text.
fn write_nar(nar: Option<Nar>, out: &mut Vec<u8>) -> Result<(), AllocError>
    ensures { OnOk result (out.new.items ≡ out.old.items ++ nar_text nar) }
{
    match nar {
        None => out.extend_from_slice(b"-"),
        Some(nar) => {
            Digest::Sha256(nar.hash()).push_digits(out)?;
            out.extend_from_slice(b":")?;
            out.extend_from_slice(Buffer::new().format(nar.size()).as_bytes())
        }
    }
}
