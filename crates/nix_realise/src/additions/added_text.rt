//! The answer of `add-text`: a text's path, and the journal with it. No file is read here.
ghost use Rattle.std.specs.Global.{Vec};
ghost use Rattle.std.specs.Prelude.{◌≡◌, [], ℕ, List, IfOk, IfErr, IsTrue, if◌then◌else◌};
ghost use Rattle.std.specs.Prelude.{option_map};
ghost use Rattle.sha2.specs.Sha256.{sha256};
ghost use Rattle.nix_names.specs.Names.{IsStoreDir, is_name};
ghost use Rattle.nix_drv.specs.OwnPath.{text_path};
ghost use Rattle.nix_realise.specs.AddedText.{IsAdding, IsJournalOf, IsNaming, IsRenewing};
ghost use Rattle.nix_realise.specs.AddedText.{IsTextOf};
ghost use Rattle.nix_realise.specs.Files.{IsReadFrom, journal_bytes, needed_bytes};
ghost use Rattle.nix_realise.specs.JournalFiles.{IsTextsJournal};
ghost use Rattle.nix_realise.specs.Registering.{IsTextRegistering};

use crate::additions::text_record::TextRecord;
use crate::cli::run_error::RunError;
use crate::io::files::{FileFault, FileRead};
use command_line::AddTextRequest;
use nix_drv::MAX_LEN;
use nix_names::{Digest, Method, MethodDigest, NameFault, StoreDir, StorePath, make_path};
use std::alloc::Global;
use valid_table::{Journal, Record, TableFault};

/// A text that is put into a store. Only `added_text` makes one, of what reading the journal gave.
#[derive(Debug, Drop)]
pub struct AddedText {
    path: StorePath,
    text: Vec<u8>,
    journal: Option<Vec<u8>>,
}

impl AddedText {
    /// Its path.
    pub fn path(&self) -> &StorePath
        ensures { result.now ≡ self.now.path }
    {
        &self.path
    }

    /// Its bytes.
    pub fn text(&self) -> &[u8]
        ensures { result.now ≡ self.now.text.items }
    {
        &self.text
    }

    /// The bytes of the journal with the text's entry; none where the path is valid already.
    pub fn journal(&self) -> Option<&[u8]>
        ensures { option_map (λ b. b.now) result
            ≡ option_map (λ (b : Vec ℕ). b.items) self.now.journal }
    {
        match &self.journal {
            Some(bytes) => Some(bytes),
            None => None,
        }
    }

    /// Its path alone.
    pub fn into_path(self) -> StorePath
        ensures { result ≡ self.path }
    {
        self.path
    }
}

/// A text with its path. Only `named_text` makes one, of what reading its file gave.
#[derive(Debug, Drop)]
pub struct NamedText {
    path: StorePath,
    text: Vec<u8>,
    told: TextRecord,
}

/// The text that the request's file gave, with the path that it gets without references under the
/// request's folder and name, and with what the journal tells of it under the request's profile.
/// The faults, in this order: `Unreadable`; `TooLong` for more than 4,194,304 bytes; `BadName`.
/// `NoMemory` may be answered in place of each. Costs one SHA-256 over the text's bytes, and under
/// `Profile::Nix` one over its archive.
pub fn named_text<'a>(
    alloc: Global,
    request: &AddTextRequest<'a>,
    dir: &StoreDir,
    text: FileRead<'_>,
) -> Result<NamedText, RunError<'a>>
    requires dir { (dir.now ≡ request.now.store_dir.now) × IsStoreDir request.now.store_dir.now }
    requires text { IsReadFrom request.now.file.now 4194305 text }
    ensures { IsNaming request.now (needed_bytes text.entry) result }
{
    let text = text_within(request.file, text)?;
    let told = TextRecord::of(request.profile, &text)?;
    let path = path_of(alloc, dir, request.name, &told.digest)?;
    Ok(NamedText { path, text, told })
}

/// The text, and the journal's new bytes. The journal gets one more entry, after all others: the
/// path, with what is told of the text. Where the path is valid already, there are no new bytes.
/// `journal` is what the journal file gave. The faults are those of `journal_of`.
///
/// Costs one reading of the journal. Where the path is new, the journal is written once, in the
/// version that its entries need.
pub fn added_text<'a>(
    alloc: Global,
    _request: &AddTextRequest<'a>,
    dir: &StoreDir,
    named: NamedText,
    journal: FileRead<'_>,
) -> Result<AddedText, RunError<'a>>
    requires { IsTextsJournal _request.now journal }
    ensures { IsAdding dir.now named (journal_bytes journal.entry) result }
{
    let NamedText { path, text, told } = named;
    let journal = renewed_journal(alloc, dir, journal, &path, &told)?;
    Ok(AddedText {
        path,
        text,
        journal,
    })
}

// The text's bytes, if they are not too many.
fn text_within<'a>(file: &'a str, text: FileRead<'_>) -> Result<Vec<u8>, RunError<'a>>
    ensures { IsTextOf file.entry (needed_bytes text.entry) result }
{
    match text.bytes() {
        Ok(bytes) if bytes.len() > MAX_LEN => Err(RunError::TooLong(file)),
        Ok(bytes) => Ok(bytes),
        Err(FileFault::NoMemory) => Err(RunError::NoMemory),
        Err(FileFault::Unreadable) => Err(RunError::Unreadable(file)),
    }
}

// The path of a text without references, whose bytes have this digest.
#[tactic(auto, using(crate::proofs::AddedTexts::text_path_of_digest))]
fn path_of<'a>(
    alloc: Global,
    dir: &StoreDir,
    name: &'a str,
    digest: &[u8; 32],
) -> Result<StorePath, RunError<'a>>
    ensures ok { (bytes : List ℕ) → digest.now ≡ sha256 bytes
        → IfOk result (λ path.
        IsTrue (is_name name.now) × (path ≡ text_path dir.now name.now bytes [])) }
    ensures err { IfErr result (λ stop.
        stop ≡ (if is_name name.now then RunError.NoMemory else RunError.BadName name.entry)) }
{
    match make_path(alloc, b"text", digest, dir, name.as_bytes()) {
        Ok(path) => Ok(path),
        Err(NameFault::NoMemory) => Err(RunError::NoMemory),
        Err(_) => Err(RunError::BadName(name)),
    }
}

// The journal's bytes with the entry of a text, or none where its path is valid.
fn renewed_journal<'a>(
    alloc: Global,
    dir: &StoreDir,
    journal: FileRead<'_>,
    path: &StorePath,
    told: &TextRecord,
) -> Result<Option<Vec<u8>>, RunError<'a>>
    ensures { IsRenewing dir.now (journal_bytes journal.entry) path.now told.now result }
{
    let mut journal = journal_of(alloc, dir, journal)?;
    if !register_text(alloc, &mut journal, path, told)? {
        return Ok(None);
    }
    Ok(Some(journal.write(alloc)?))
}

/// The journal whose text the journal file gave. The faults, in this order: `JournalUnreadable`;
/// `BadJournal` with the fault of `Journal::read`. `NoMemory` may be answered in place of each.
pub fn journal_of<'a>(
    alloc: Global,
    dir: &StoreDir,
    journal: FileRead<'_>,
) -> Result<Journal, RunError<'a>>
    ensures { IsJournalOf dir.now (journal_bytes journal.entry) result }
{
    match journal.bytes_or_none(alloc) {
        Ok(bytes) => Ok(Journal::read(alloc, dir, &bytes)?),
        Err(FileFault::NoMemory) => Err(RunError::NoMemory),
        Err(FileFault::Unreadable) => Err(RunError::JournalUnreadable),
    }
}

// Registers a text without references under its path, with what is told of it, unless the path is
// valid. Says whether it did. `NoMemory` is the only fault, and changes nothing.
fn register_text(
    alloc: Global,
    journal: &mut Journal,
    path: &StorePath,
    told: &TextRecord,
) -> Result<bool, TableFault>
    ensures { IsTextRegistering journal.old.entries journal.new.entries path.now told.now result }
{
    if journal.registers(path) {
        return Ok(false);
    }
    let path = path.copy(alloc)?;
    let digest = MethodDigest {
        method: Method::Flat,
        digest: Digest::Sha256(told.digest),
    };
    let info = Record::new(Vec::new(alloc), Some(digest), told.nar)?;
    journal.add(path, info)?;
    Ok(true)
}
