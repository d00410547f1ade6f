//! Reading a journal's text.
ghost use Rattle.std.specs.Prelude.{◌≡◌, ◌≢◌, ◌↔◌, [], IfErr, IfOk, IsErrOf, IsTrue, MatchOption, None, ℕ, vec_capacity};
ghost use Rattle.std.specs.List.{last_or};
ghost use Rattle.std.specs.Option.{option_copied};
ghost use Rattle.nix_names.specs.Names.{IsStoreDir};
ghost use Rattle.valid_table.specs.BadLines.{BeginsOutput};
ghost use Rattle.valid_table.specs.Entries.{paths_registered};
ghost use Rattle.valid_table.specs.private.Readers.{HasEntry, HasNoFields, HasOutputs, ReadsReferences, HasRegistration, HasToBegin, IsFieldsLine, IsNoLine, StopsInReferences, StopsInRegistration, StopsInText, StopsWhere};
ghost use Rattle.valid_table.specs.Reading.{BeginsVersion, IsJournalReading, answered};
ghost use Rattle.valid_table.specs.private.Steps.{IsAbove, Position, Opened, Stops};
ghost use Rattle.valid_table.specs.Texts.{IsJournalText};
ghost use Rattle.valid_table.specs.declared.path_table.version.Version.{Version as AVersion};

use crate::entry::{Entry, Outputs, Record, Registration};
use crate::fault::TableFault;
use crate::journal::Journal;
use crate::journal_text::known::Known;
use crate::journal_text::lines::{
    Fields, after_letter, deriver_line, fields_line, is_other_version, line_number, path_line,
    show_store_dir,
};
use crate::path_table::version::{Version, is_too_long, version_of};
use nix_names::{StoreDir, StorePath};
use std::alloc::{AllocError, AllocFailed, Global};

impl Journal {
    /// The journal whose text the bytes are, in version 1, 2 or 3. No bytes are the text of
    /// the journal without entries.
    ///
    /// Answers the first of these faults that holds. `TooLong` is for more than 134,217,728 bytes,
    /// and for more than 67,108,864 bytes that begin with the line of version 1. `WrongVersion` is
    /// for a first line of another version. `BadLine` has the first line that has no line's form,
    /// may not come where it is, breaks an order or lacks its newline. Then comes the first line
    /// with one of two faults: `NotClosed`, where it refers to a path that neither an earlier entry
    /// nor its own registers, and `Twice`, where it registers a path that an earlier entry
    /// registered. `NoMemory` may come in place of the last three, for bytes that begin with the
    /// line of a version and for no others. Lines are counted from 1.
    ///
    /// Passes over the bytes once, and once more over their newlines where a line is bad. Costs a
    /// copy of each path, one more of each that is registered, one look-up by hash for each path
    /// that is registered, and two for each reference.
    pub fn read(alloc: Global, dir: &StoreDir, bytes: &[u8]) -> Result<Journal, TableFault>
        ensures { IsJournalReading dir.now bytes.now (answered result) }
    {
        if is_too_long(bytes) {
            return Err(TableFault::TooLong);
        }
        if is_other_version(bytes) {
            return Err(TableFault::WrongVersion);
        }
        match entries_of(alloc, dir, bytes) {
            Ok(entries) => Journal::of_entries(alloc, entries),
            Err(LineFault::Left(left)) => Err(TableFault::BadLine(line_number(bytes, left))),
            Err(LineFault::NoMemory) => Err(TableFault::NoMemory),
        }
    }
}

// Why no entries were read.
#[derive(Debug, Drop)]
pub(crate) enum LineFault {
    // Memory was refused.
    NoMemory,
    // A line is bad. This is the number of bytes from the beginning of that line on.
    Left(usize),
}

impl From<AllocError> for LineFault {
    ghost use Rattle.valid_table.specs.declared.journal_text.reading.LineFault.TheVariants.{NoMemory};

    ghost from_gives = { λ _ stop. stop ≡ NoMemory };

    fn from(_: AllocError) -> Self {
        LineFault::NoMemory
    }
}

impl<T: Drop> From<AllocFailed<T>> for LineFault {
    ghost use Rattle.valid_table.specs.declared.journal_text.reading.LineFault.TheVariants.{NoMemory};

    ghost from_gives = { λ _ stop. stop ≡ NoMemory };

    fn from(_: AllocFailed<T>) -> Self {
        LineFault::NoMemory
    }
}

// Whether a path is greater than the one before it, if any.
fn is_above(before: Option<&StorePath>, path: &StorePath) -> bool
    ensures { IsTrue result ↔ IsAbove (option_copied before.entry) path.now }
{
    match before {
        None => true,
        Some(before) => before < path,
    }
}

// The references at the head of the bytes, and the bytes after their lines.
fn references_of<'a>(
    alloc: Global,
    dir: &StoreDir,
    bytes: &'a [u8],
) -> Result<(Vec<StorePath>, &'a [u8]), LineFault>
    ensures ok { IfOk result (λ x. ReadsReferences dir.now bytes.now x.0.items x.1.now) }
    ensures left { IfErr result (StopsWhere (StopsInReferences dir.now bytes.now)) }
{
    let mut references = Vec::new(alloc);
    let mut rest = bytes;
    'references: while let Some(fields) = after_letter(b'R', rest) {
        let Some((path, after)) = path_line(alloc, dir, fields)? else {
            return Err(LineFault::Left(rest.len()));
        };
        if !is_above(references.last(), &path) {
            return Err(LineFault::Left(rest.len()));
        }
        references.push(path)?;
        rest = after;
    }
    Ok((references, rest))
}

// The record with what a line tells and with the references at the head of the bytes, and the bytes
// after their lines.
fn record_of<'a>(
    alloc: Global,
    dir: &StoreDir,
    known: Known,
    bytes: &'a [u8],
) -> Result<(Record, &'a [u8]), LineFault>
    ensures references { IfOk result
        (λ x. ReadsReferences dir.now bytes.now x.0.references x.1.now) }
    ensures digest { IfOk result (λ x. x.0.digest ≡ known.digest) }
    ensures nar { IfOk result (λ x. x.0.nar ≡ known.nar) }
    ensures left { IfErr result (StopsWhere (StopsInReferences dir.now bytes.now)) }
{
    let (references, rest) = references_of(alloc, dir, bytes)?;
    let info = Record::new(references, known.digest, known.nar)?;
    Ok((info, rest))
}

// The path, greater than the one before it, and what is known of it at the head of the bytes, and
// the bytes after their line. None where no such line is there.
fn fields_above<'a>(
    alloc: Global,
    dir: &StoreDir,
    version: Version,
    before: Option<&StorePath>,
    bytes: &'a [u8],
) -> Result<Option<Fields<'a>>, AllocError>
    ensures { IfOk result
        (λ found. MatchOption found
        (HasNoFields version dir.now (option_copied before.entry) bytes.now)
        (λ x. IsAbove (option_copied before.entry) x.path
        × IsFieldsLine version dir.now bytes.now x.path x.known.digest x.known.nar
        x.rest.now)) }
{
    let Some(fields) = fields_line(alloc, dir, version, bytes)? else {
        return Ok(None);
    };
    if is_above(before, &fields.path) {
        Ok(Some(fields))
    } else {
        Ok(None)
    }
}

// The registration at the head of the bytes, by a line with this letter, and the bytes after its
// references. None where no such line begins there. The path has to be greater than the one before
// it.
fn registration_of<'a>(
    alloc: Global,
    dir: &StoreDir,
    version: Version,
    letter: u8,
    before: Option<&StorePath>,
    bytes: &'a [u8],
) -> Result<Option<(Registration, &'a [u8])>, LineFault>
    ensures ok { IfOk result
        (λ found. MatchOption found (IsNoLine letter bytes.now)
        (λ x. HasRegistration version dir.now letter (option_copied before.entry) bytes.now x.0
        x.1.now)) }
    ensures left { IfErr result
        (StopsWhere
        (StopsInRegistration version dir.now letter (option_copied before.entry) bytes.now)) }
{
    let Some(fields) = after_letter(letter, bytes) else {
        return Ok(None);
    };
    let Some(Fields { path, known, rest }) = fields_above(alloc, dir, version, before, fields)?
    else {
        return Err(LineFault::Left(bytes.len()));
    };
    let (info, rest) = record_of(alloc, dir, known, rest)?;
    Ok(Some((Registration { path, info }, rest)))
}

// The path of the last registration.
fn last_path(registrations: &[Registration]) -> Option<&StorePath>
    ensures { option_copied result ≡ last_or None (paths_registered registrations.now) }
{
    match registrations.last() {
        Some(last) => Some(&last.path),
        None => None,
    }
}

// The outputs at the head of the bytes, and the bytes after their lines.
fn outputs_of<'a>(
    alloc: Global,
    dir: &StoreDir,
    version: Version,
    bytes: &'a [u8],
) -> Result<(Vec<Registration>, &'a [u8]), LineFault>
    requires { BeginsOutput bytes.now }
    ensures ok { IfOk result (λ x. HasOutputs version dir.now bytes.now x.0.items x.1.now) }
    ensures left { IfErr result (StopsWhere (Stops version dir.now Opened bytes.now)) }
{
    let mut outputs: Vec<Registration> = Vec::new(alloc);
    let mut rest = bytes;
    'outputs: loop {
        let before = last_path(&outputs);
        let Some((output, after)) = registration_of(alloc, dir, version, b'O', before, rest)? else {
            return Ok((outputs, rest));
        };
        outputs.push(output)?;
        rest = after;
    }
}

// The entry of a built derivation at the head of the bytes, and the bytes after its lines. None
// where no deriver's line begins there.
fn done_of<'a>(
    alloc: Global,
    dir: &StoreDir,
    version: Version,
    bytes: &'a [u8],
) -> Result<Option<(Entry, &'a [u8])>, LineFault>
    ensures ok { IfOk result
        (λ found. MatchOption found (IsNoLine 68 bytes.now)
        (λ x. HasEntry version dir.now bytes.now x.0 x.1.now)) }
    ensures left { IfErr result
        (StopsWhere
        (λ left. (from : Position) → HasToBegin from bytes.now
        → Stops version dir.now from bytes.now left)) }
{
    let Some(fields) = after_letter(b'D', bytes) else {
        return Ok(None);
    };
    let Some((deriver, rest)) = deriver_line(alloc, dir, fields)? else {
        return Err(LineFault::Left(bytes.len()));
    };
    let (outputs, rest) = outputs_of(alloc, dir, version, rest)?;
    Ok(Some((Entry::Done(deriver, Outputs::new(outputs)), rest)))
}

// The entry at the head of the bytes, and the bytes after its lines.
fn entry_of<'a>(
    alloc: Global,
    dir: &StoreDir,
    version: Version,
    bytes: &'a [u8],
) -> Result<(Entry, &'a [u8]), LineFault>
    requires { bytes.now ≢ [] }
    ensures ok { IfOk result (λ x. HasEntry version dir.now bytes.now x.0 x.1.now) }
    ensures left { IfErr result
        (StopsWhere
        (λ left. (from : Position) → HasToBegin from bytes.now
        → Stops version dir.now from bytes.now left)) }
{
    if let Some((added, rest)) = registration_of(alloc, dir, version, b'A', None, bytes)? {
        return Ok((Entry::Add(added), rest));
    }
    match done_of(alloc, dir, version, bytes)? {
        Some(done) => Ok(done),
        None => Err(LineFault::Left(bytes.len())),
    }
}

// The entries whose text the bytes are.
pub(crate) fn entries_of(
    alloc: Global,
    dir: &StoreDir,
    bytes: &[u8],
) -> Result<Vec<Entry>, LineFault>
    ensures is_dir { IsStoreDir dir.now }
    ensures ok { IfOk result (λ entries. IsJournalText dir.now entries.items bytes.now) }
    ensures left { IfErr result (StopsWhere (StopsInText dir.now bytes.now)) }
    ensures memory { IsErrOf result LineFault.NoMemory
        → (version : AVersion) × BeginsVersion version bytes.now }
    ensures room { IfOk result (λ entries. bytes.now ≡ [] → vec_capacity entries ≡ 0) }
{
    show_store_dir(dir);
    let mut entries = Vec::new(alloc);
    if bytes.is_empty() {
        return Ok(entries);
    }
    let Some((version, mut rest)) = version_of(bytes) else {
        return Err(LineFault::Left(bytes.len()));
    };
    'entries: while !rest.is_empty() {
        let (entry, after) = entry_of(alloc, dir, version, rest)?;
        entries.push(entry)?;
        rest = after;
    }
    Ok(entries)
}
