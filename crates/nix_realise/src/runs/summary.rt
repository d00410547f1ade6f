//! What a run leaves at its end, by its book: its status, its journal and its report.
ghost use Rattle.std.specs.Prelude.{◌≡◌, IfOk, false, true};
ghost use Rattle.valid_table.specs.Written.{written_text};
ghost use Rattle.run_states.specs.StateTables.{IsRunSettled};
ghost use Rattle.run_report.specs.Reports.{IsReportIn};
ghost use Rattle.run_states.specs.States.{is_good};
ghost use Rattle.nix_realise.specs.JournalFiles.{runs_journal};
ghost use Rattle.nix_realise.specs.RootsStatus.{roots_status};

use crate::cli::exit::Status;
use crate::io::journal_write::UnwrittenJournal;
use crate::io::whole_file::WriteReceipt;
use command_line::RealiseRequest;
use sched_core::{Book, State};
use std::alloc::{AllocError, Global};
use valid_table::Outlet;

/// The status of a run with this book: `Done` where each root was built or reused, else
/// `Unrealised`.
pub fn roots_status<O: Outlet>(book: &Book<O>) -> Status
    ensures { result ≡ roots_status book.now.run book.now.history }
{
    let plan = book.plan();
    let count = plan.len();
    'roots: for root in plan.roots() {
        prove!(*root < count);
        if !is_realised(book.state(*root)) {
            return Status::Unrealised;
        }
    }
    Status::Done
}

/// Whether a derivation in this state was built or reused.
pub fn is_realised(state: State) -> bool
    ensures { result ≡ is_good state }
{
    matches!(state, State::Done | State::Reused)
}

/// The text of the journal of a book, in the version that its entries need.
pub fn journal_bytes<O: Outlet>(alloc: Global, book: &Book<O>) -> Result<Vec<u8>, AllocError>
    ensures { IfOk result (λ bytes. bytes.items ≡ written_text book.now.history.entries) }
{
    book.journal().write(alloc).map_err(|_| AllocError)
}

/// The report of a book that is settled, whose journal was written to the path that the run's words
/// name.
pub fn report_of<O: Outlet>(
    _request: &RealiseRequest<'_>,
    book: &Book<O>,
    journal: WriteReceipt<'_>,
) -> Result<Vec<u8>, AllocError>
    requires settled { IsRunSettled book.now.run book.now.history }
    requires path { journal.path.now ≡ runs_journal _request.now.run }
    requires written { journal.bytes.now ≡ written_text book.now.history.entries }
    ensures { IfOk result (λ text. IsReportIn book.now.run book.now.history text.items) }
{
    journal.spend();
    book.report()
}

/// Evidence of what became of the journal where the workers of a run gave no settled book. Only this
/// module makes one.
#[derive(Clone, Copy, Debug, PartialEq, Eq)]
pub struct JournalOutcome {
    // Whether the workers left a book.
    has_book: bool,
}

impl JournalOutcome {
    /// The workers left no book, so there is no journal.
    pub fn no_book() -> JournalOutcome
        ensures { result.has_book ≡ false }
    {
        JournalOutcome { has_book: false }
    }

    /// The journal of a book was written to the path that the run's words name, or could not be.
    pub fn of_write<O: Outlet>(
        _request: &RealiseRequest<'_>,
        _book: &Book<O>,
        tried: Result<WriteReceipt<'_>, UnwrittenJournal>,
    ) -> JournalOutcome
        requires path { IfOk tried
            (λ written. written.path.now ≡ runs_journal _request.now.run) }
        requires bytes { IfOk tried
            (λ written. written.bytes.now ≡ written_text _book.now.history.entries) }
        ensures { result.has_book ≡ true }
    {
        // Only the fault of the run is reported.
        if let Ok(written) = tried {
            written.spend();
        }
        JournalOutcome { has_book: true }
    }

    /// There was no memory for the journal's bytes.
    pub fn no_memory(_refused: AllocError) -> JournalOutcome
        ensures { result.has_book ≡ true }
    {
        JournalOutcome { has_book: true }
    }
}
