//! The journal file of a run: its path, read and written.
ghost use Rattle.std.specs.Prelude.{◌≡◌, ◌≤◌, IfErr, IfOk, List, length, option_map, string_bytes};
ghost use Rattle.nix_names.specs.Bytes.{Bytes};
ghost use Rattle.valid_table.specs.declared.entry.Entry.{Entry};
ghost use Rattle.nix_realise.specs.Files.{IsReadFrom};
ghost use Rattle.nix_realise.specs.JournalFiles.{IsUnwrittenJournal, journal_path_of};
ghost use Rattle.nix_realise.specs.JournalFiles.{max_journal_len};

use crate::io::files::{FileRead, read_journal};
use crate::io::journal_keeper::JournalSinks;
use crate::io::journal_write::{UnwrittenJournal, write_journal};
use crate::io::locks::LockProof;
use crate::io::whole_file::{WriteError, WriteProbe, WriteReceipt, try_out};
use std::alloc::{AllocError, Global};
use std::rt::Files;

// The path that was given, else that of `realiser-journal` in the store folder.
fn journal_path(alloc: Global, store_dir: &str, given: Option<&str>) -> Result<String, AllocError>
    ensures { IfOk result (λ path. string_bytes path
        ≡ journal_path_of store_dir.now (option_map (λ f. f.now) given.entry)) }
{
    match given {
        Some(path) => String::from_str(alloc, path),
        None => format!(in alloc; "{store_dir}/realiser-journal"),
    }
}

/// The journal file of a run that changes nothing. Another run may write it meanwhile.
#[derive(Drop)]
pub struct JournalFile {
    path: String,
}

impl JournalFile {
    /// The file at the path that was given, else `realiser-journal` in the store folder.
    pub fn new(
        alloc: Global,
        store_dir: &str,
        given: Option<&str>,
    ) -> Result<JournalFile, AllocError>
        ensures { IfOk result (λ file. string_bytes file.path
            ≡ journal_path_of store_dir.now (option_map (λ f. f.now) given.entry)) }
    {
        let path = journal_path(alloc, store_dir, given)?;
        Ok(JournalFile { path })
    }

    /// What the file gives, at most one byte more than a journal may have.
    pub fn read<R: Files + AllocGlobal>(&self, rt: &R) -> FileRead<'_>
        ensures { IsReadFrom (string_bytes self.now.path) 134217729 result }
    {
        read_journal(rt, self.path.as_str())
    }
}

/// The journal file of a run that holds its store folder, for as long as it does. No other run
/// reads it to write it meanwhile.
#[derive(Drop)]
pub struct OwnJournal<'h> {
    path: String,
    holding: LockProof<'h>,
}

impl<'h> OwnJournal<'h> {
    /// The file at the path that was given, else `realiser-journal` in the store folder.
    pub fn new(
        alloc: Global,
        holding: LockProof<'h>,
        given: Option<&str>,
    ) -> Result<OwnJournal<'h>, AllocError>
        ensures { IfOk result (λ file. string_bytes file.path
            ≡ journal_path_of holding.entry.dir.now (option_map (λ f. f.now) given.entry)) }
    {
        let path = journal_path(alloc, holding.dir(), given)?;
        Ok(OwnJournal { path, holding })
    }

    /// What the file gives, at most one byte more than a journal may have.
    pub fn read<R: Files + AllocGlobal>(&self, rt: &R) -> FileRead<'_>
        ensures { IsReadFrom (string_bytes self.now.path) 134217729 result }
    {
        read_journal(rt, self.path.as_str())
    }

    /// Tests whether the file can be written, and changes nothing.
    pub fn try_out<R: Files + AllocGlobal>(&self, rt: &R) -> Result<WriteProbe<'_>, WriteError>
        ensures { IfOk result (λ tried. tried.path.now ≡ string_bytes self.entry.now.path) }
    {
        try_out(rt, self.path.as_str())
    }

    /// The sink that keeps the file while a run goes on.
    pub fn sink<P: JournalSinks>(&self, alloc: Global, sinks: &P) -> Result<P::Sink, AllocError>
        ensures at { IfOk result (λ sink. P.keeps_at sink (string_bytes self.now.path)) }
        ensures each { IfOk result
            (λ _. (shown : List Entry) (text : Bytes) → P.Sink.may_keep shown text) }
    {
        let path = String::from_str(alloc, self.path.as_str())?;
        sinks.sink(self.holding, path)
    }

    /// Puts a file with these bytes in place of the journal file, if there is one. They are not
    /// written if they are more than 134,217,728, and the journal file stays then.
    pub fn write<'b, R: Files + AllocGlobal>(
        &'b self,
        rt: &R,
        bytes: &'b [u8],
    ) -> Result<WriteReceipt<'b>, UnwrittenJournal>
        ensures ok { IfOk result (λ written. (written.path.now ≡ string_bytes self.entry.now.path)
            × (written.bytes.now ≡ bytes.entry.now)) }
        ensures fits { IfOk result (λ _. length bytes.entry.now ≤ max_journal_len) }
        ensures err { IfErr result (IsUnwrittenJournal bytes.entry.now) }
    {
        write_journal(rt, self.path.as_str(), bytes)
    }
}
