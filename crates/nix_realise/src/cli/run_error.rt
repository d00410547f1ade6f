//! Why a run ends without its report.
ghost use Rattle.std.specs.Prelude.{◌≡◌};
ghost use Rattle.nix_realise.specs.RunErrors.{row_of, words_of};

use crate::cli::exit::Status;
use crate::io::journal_write::UnwrittenJournal;
use crate::io::whole_file::WriteError;
use crate::runs::summary::JournalOutcome;
use FaultName::{OfArchive, OfJournal, OfName, OfNode, OfRun, Word};
use drv_graph::NodeFault;
use nix_names::{NameFault, StorePath};
use process_build::Failure;
use std::alloc::{AllocError, AllocFailed};
use store_run::RunFault;
use valid_table::TableFault;

/// Why a run ends without its report.
#[derive(Drop)]
pub enum RunError<'a> {
    /// This text, given as the store folder, is not well-formed.
    BadStoreDir(&'a str),
    /// The file with this path, as it was given, cannot be read.
    Unreadable(&'a str),
    /// Standard input cannot be read.
    InputUnreadable,
    /// The text on standard input, of which this path was to be made, as it was given, is no
    /// archive: the byte at this offset, counted from 0, can't stand there.
    BadArchive(&'a str, usize),
    /// What an archive holds cannot be made at this path, as it was given.
    NotRestored(&'a str),
    /// The file with this path, as it was given, has more than 4,194,304 bytes.
    TooLong(&'a str),
    /// The file with this path, as it was given, is no draft that can be filled.
    BadDraft(&'a str, NodeFault),
    /// This text, given as a name, is not well-formed.
    BadName(&'a str),
    /// This text, given as the path of a derivation, is no path of the store folder.
    NoPath(&'a str, NameFault),
    /// This text, given as a path to verify, is no valid path.
    NotValid(&'a str),
    /// The derivation at this path, which a draft or a plan reaches, is refused.
    BadDrv(StorePath, NodeFault),
    /// The journal file is there and cannot be read.
    JournalUnreadable,
    /// The journal file's bytes are no journal.
    BadJournal(TableFault),
    /// Another run uses this store folder, as it was given.
    InUse(&'a str),
    /// Nix manages this store folder, as it was given.
    NixStore(&'a str),
    /// The system gives no lock of this store folder, as it was given.
    NotLocked(&'a str),
    /// This word, given as the program that starts builders, is no absolute path of a file that may
    /// be executed.
    NoRunner(&'a str),
    /// The folder at this path, which should get the build folders, is no absolute path of a
    /// folder, or that is the store folder or lies below it.
    NoBuildDir(String),
    /// The folder of logs at this path, as it was given, cannot be made.
    NoLogs(&'a str),
    /// The trace file at this path, as it was given, cannot be written.
    NoTrace(&'a str),
    /// The file at this path cannot be written.
    NotWritten(StorePath),
    /// The journal's new text has more than 134,217,728 bytes, and is not written.
    JournalTooLong,
    /// The journal file cannot be written.
    JournalNotWritten,
    /// The workers gave no settled book; what became of the journal.
    Run(RunFault, JournalOutcome),
    /// Memory was refused.
    NoMemory,
    /// Standard output refused a write.
    Unwritable,
}

/// What is told of a fault that ends a run: its row in the table of these faults.
#[derive(Clone, Copy)]
pub struct FaultRow<'s> {
    /// The fault's number in the table of faults.
    pub number: u8,
    /// The status of the run: `Refused` where a word, a file or the journal is refused, else
    /// `CutShort`.
    pub status: Status,
    /// Where the fault was found, as the line says: a word as it was given, a path, the journal or
    /// the run.
    pub location: &'s [u8],
    /// The fault's name, with its value.
    pub name: FaultName<'s>,
}

/// The name of a fault that ends a run, with its value.
#[derive(Clone, Copy)]
pub enum FaultName<'s> {
    /// This name, without a value.
    Word(&'s [u8]),
    /// That of a fault of a name.
    OfName(NameFault),
    /// That of a fault of a derivation in a plan.
    OfNode(&'s NodeFault),
    /// That of a fault of a journal.
    OfJournal(&'s TableFault),
    /// That of a fault of a run.
    OfRun(RunFault),
    /// That of a text which is no archive, by the offset of the first byte that can't stand there.
    OfArchive(usize),
}

impl RunError<'_> {
    /// The row of the fault in the table of the faults that end a run.
    pub fn row(&self) -> FaultRow<'_>
        ensures number { result.number ≡ (row_of self.now).number }
        ensures status { result.status ≡ (row_of self.now).status }
        ensures location { result.location.now ≡ (row_of self.now).location }
        ensures words { words_of result.name ≡ (row_of self.now).words }
    {
        match self {
            RunError::BadName(name) => refused(6, name.as_bytes(), Word(b"BadName")),
            RunError::BadStoreDir(dir) => refused(7, dir.as_bytes(), Word(b"BadStoreDir")),
            RunError::NoMemory => cut_short(9, b"run", Word(b"NoMemory")),
            RunError::TooLong(file) => refused(12, file.as_bytes(), Word(b"TooLong")),
            RunError::Unreadable(file) => refused(20, file.as_bytes(), Word(b"Unreadable")),
            RunError::InputUnreadable => refused(20, b"input", Word(b"Unreadable")),
            RunError::NotValid(word) => refused(34, word.as_bytes(), Word(b"NotValid")),
            RunError::JournalUnreadable => cut_short(20, b"journal", Word(b"Unreadable")),
            RunError::JournalTooLong => cut_short(35, b"journal", Word(b"TooLong")),
            RunError::NotWritten(path) => cut_short(74, path.text(), Word(b"Unwritable")),
            RunError::JournalNotWritten => cut_short(74, b"journal", Word(b"Unwritable")),
            RunError::Unwritable => cut_short(74, b"run", Word(b"Unwritable")),
            RunError::NotLocked(dir) => cut_short(74, dir.as_bytes(), Word(b"Unwritable")),
            RunError::NoLogs(folder) => cut_short(74, folder.as_bytes(), Word(b"Unwritable")),
            RunError::NoTrace(file) => cut_short(74, file.as_bytes(), Word(b"Unwritable")),
            RunError::NoBuildDir(folder) => {
                cut_short(74, folder.as_bytes(), Word(b"Unwritable"))
            }
            RunError::NotRestored(path) => cut_short(74, path.as_bytes(), Word(b"Unwritable")),
            RunError::InUse(dir) => cut_short(75, dir.as_bytes(), Word(b"InUse")),
            RunError::NixStore(dir) => cut_short(76, dir.as_bytes(), Word(b"NixStore")),
            RunError::NoRunner(file) => refused(77, file.as_bytes(), Word(b"NoRunner")),
            RunError::NoPath(word, fault) => {
                refused(fault.number(), word.as_bytes(), OfName(*fault))
            }
            RunError::BadDraft(file, fault) => {
                refused(fault.number(), file.as_bytes(), OfNode(fault))
            }
            RunError::BadDrv(path, fault) => refused(fault.number(), path.text(), OfNode(fault)),
            RunError::BadArchive(path, offset) => refused(87, path.as_bytes(), OfArchive(*offset)),
            RunError::BadJournal(fault) => refused(fault.number(), b"journal", OfJournal(fault)),
            RunError::Run(fault, _) => cut_short(fault.number(), b"run", OfRun(*fault)),
        }
    }
}

// The row of a fault for which a word, a file or the journal is refused.
fn refused<'s>(number: u8, location: &'s [u8], name: FaultName<'s>) -> FaultRow<'s>
    ensures number { result.number ≡ number }
    ensures status { result.status ≡ Status.Refused }
    ensures location { result.location ≡ location.entry }
    ensures name { result.name ≡ name.entry }
{
    FaultRow {
        number,
        status: Status::Refused,
        location,
        name,
    }
}

// The row of a fault that cuts a run short.
fn cut_short<'s>(number: u8, location: &'s [u8], name: FaultName<'s>) -> FaultRow<'s>
    ensures number { result.number ≡ number }
    ensures status { result.status ≡ Status.CutShort }
    ensures location { result.location ≡ location.entry }
    ensures name { result.name ≡ name.entry }
{
    FaultRow {
        number,
        status: Status::CutShort,
        location,
        name,
    }
}

// What ends a run whose journal file cannot be written.
impl From<WriteError> for RunError<'_> {
    ghost use Rattle.std.specs.Prelude.{◌⊎◌};
    ghost use Rattle.nix_realise.specs.JournalFiles.{journal_stop};
    ghost use Rattle.nix_realise.specs.declared.cli.run_error.RunError.TheVariants.{JournalNotWritten, NoMemory};

    ghost from_gives = { λ unwritten stop. (stop ≡ journal_stop unwritten.failure)
        × ((stop ≡ NoMemory) ⊎ (stop ≡ JournalNotWritten)) };

    fn from(unwritten: WriteError) -> Self {
        match unwritten.failure() {
            Failure::NoMemory => RunError::NoMemory,
            _ => RunError::JournalNotWritten,
        }
    }
}

// What ends a run whose journal is not written.
impl From<UnwrittenJournal> for RunError<'_> {
    ghost use Rattle.nix_realise.specs.JournalFiles.{unwritten_stop};

    ghost from_gives = { λ fault stop. stop ≡ unwritten_stop fault };

    fn from(fault: UnwrittenJournal) -> Self {
        match fault {
            UnwrittenJournal::TooLong => RunError::JournalTooLong,
            UnwrittenJournal::File(unwritten) => RunError::from(unwritten),
        }
    }
}

impl From<AllocError> for RunError<'_> {
    ghost use Rattle.nix_realise.specs.declared.cli.run_error.RunError.TheVariants.{NoMemory};

    ghost from_gives = { λ _ stop. stop ≡ NoMemory };

    fn from(_: AllocError) -> Self {
        RunError::NoMemory
    }
}

impl<T: Drop> From<AllocFailed<T>> for RunError<'_> {
    ghost use Rattle.nix_realise.specs.declared.cli.run_error.RunError.TheVariants.{NoMemory};

    ghost from_gives = { λ _ stop. stop ≡ NoMemory };

    fn from(_: AllocFailed<T>) -> Self {
        RunError::NoMemory
    }
}

// What ends a run for this fault of its journal.
impl From<TableFault> for RunError<'_> {
    ghost use Rattle.nix_realise.specs.RunErrors.{stop_of};

    ghost from_gives = { λ fault stop. stop ≡ stop_of fault };

    fn from(fault: TableFault) -> Self {
        match fault {
            TableFault::NoMemory => RunError::NoMemory,
            fault => RunError::BadJournal(fault),
        }
    }
}
