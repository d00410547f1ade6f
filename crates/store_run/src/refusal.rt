//! Calls of a reader and of a book, whose refusals are values that only these calls make.
ghost use Rattle.std.specs.Prelude.{◌≡◌, ◌⊎◌, ℕ, All, IfErr, IfOk, MatchOption, OnErr, OnOk, ⊤};
ghost use mathlib.Core.List.{IsPrefix};
ghost use Rattle.valid_table.specs.Closure.{IsClosure};
ghost use Rattle.valid_table.specs.Entries.{registered};
ghost use Rattle.valid_table.specs.Valid.{IsValid};
ghost use Rattle.valid_view.specs.Answers.{AreRecords};
ghost use Rattle.valid_view.specs.Shown.{IsShowable};
ghost use Rattle.valid_view.specs.declared.fault.ViewFault.TheVariants.{NotValid};
ghost use Rattle.sched_core.specs.Books.{AreSeedsValid, IsBeginning, IsBooksLease, IsFailing, IsFinishFault, IsFinishing, IsSameRun, MayAllRefer};
ghost use Rattle.run_states.specs.StateTables.{CanBegin};
ghost use Rattle.run_states.specs.declared.fault.BookFault.TheVariants.{ForeignLease, NoMemory, NoView};
ghost use Rattle.nix_names.specs.Bytes.{Path};
ghost use Rattle.store_run.specs.private.JobVerdicts.{AreKnownValid, IsToldAs, IsUnseen};

use nix_names::StorePath;
use sched_core::{Book, BookFault, Checked, Lease, Reason};
use std::alloc::{AllocError, Global};
use std::marker::Model;
use valid_table::{Outlet, Registration};
use valid_view::{ListId, ViewFault, ViewReader};

// Evidence that a call of a reader or of a book was refused, or memory. A contract sees the fault
// that the call answered. Only the calls of this module make one, and want of memory.
#[derive(Debug, Drop)]
pub(crate) struct RefusedCall {
    fault: BookFault,
}

impl Model for RefusedCall {
    ghost use Rattle.run_states.specs.declared.fault.BookFault.{BookFault};

    ghost Value = { BookFault };

    ghost view = { λ r. r.fault };
}

impl RefusedCall {
    // The fault that was answered.
    pub(crate) fn fault(&self) -> BookFault
        ensures { result ≡ self.now }
    {
        self.fault
    }
}

impl From<AllocError> for RefusedCall {
    ghost use Rattle.run_states.specs.declared.fault.BookFault.TheVariants.{NoMemory};

    ghost from_gives = { λ _ refusal. refusal ≡ NoMemory };

    fn from(_: AllocError) -> Self {
        RefusedCall {
            fault: BookFault::NoMemory,
        }
    }
}

// The closure of some paths that are valid by what the reader was told of or saw, by the list that
// it sees now. Refused where memory is, or where the view is gone.
pub(crate) fn closure<J: ListId>(
    alloc: Global,
    reader: &mut ViewReader<J>,
    roots: &[StorePath],
) -> Result<Vec<StorePath>, RefusedCall>
    requires { AreKnownValid reader.old roots.now }
    ensures later { IsPrefix reader.old.seen reader.new.seen }
    ensures showable { OnOk result (IsShowable reader.new.seen) }
    ensures valid { OnOk result (All (IsValid (registered reader.new.seen)) roots.now) }
    ensures closure { IfOk result
        (λ reached. IsClosure (registered reader.new.seen) roots.now reached.items) }
    ensures err { IfErr result IsUnseen }
{
    match reader.closure(alloc, roots) {
        Ok(reached) => Ok(reached),
        Err(fault) => Err(of_reader(fault)),
    }
}

// The records of the closure of some paths that are valid by what the reader was told of or saw, by
// the list that it sees now. Refused where memory is, or where the view is gone.
pub(crate) fn records<J: ListId>(
    alloc: Global,
    reader: &mut ViewReader<J>,
    roots: &[StorePath],
) -> Result<Vec<Registration>, RefusedCall>
    requires { AreKnownValid reader.old roots.now }
    ensures told { reader.new.told ≡ reader.old.told }
    ensures later { IsPrefix reader.old.seen reader.new.seen }
    ensures showable { OnOk result (IsShowable reader.new.seen) }
    ensures records { IfOk result
        (λ rows. AreRecords (registered reader.new.seen) roots.now rows.items) }
    ensures err { IfErr result IsUnseen }
{
    match reader.records(alloc, roots) {
        Ok(rows) => Ok(rows),
        Err(fault) => Err(of_reader(fault)),
    }
}

// Has a reader look at a path, whatever it finds. Refused where the view is gone.
pub(crate) fn look<J: ListId>(
    reader: &mut ViewReader<J>,
    path: &StorePath,
) -> Result<(), RefusedCall>
    ensures later { IsPrefix reader.old.seen reader.new.seen }
    ensures known { OnOk result
        (IsPrefix reader.old.told reader.new.seen × IsShowable reader.new.seen) }
    ensures err { IfErr result (λ fault. fault ≡ NoView) }
{
    match reader.look(path) {
        Ok(_) => Ok(()),
        Err(fault) => Err(of_reader(fault)),
    }
}

// Does what `Book::next` does.
pub(crate) fn next<O: Outlet>(book: &mut Book<O>) -> Result<Option<Lease<O::Told>>, RefusedCall>
    ensures none { IfOk result
        (λ next. MatchOption next ((book.new ≡ book.old)
        × ((d : ℕ) → CanBegin book.old.run book.old.history d → ⊥))
        (λ lease. IsBeginning book.old book.new lease.job lease.number)) }
    ensures told { IfOk result
        (λ next. MatchOption next ⊤
        (λ lease. MatchOption lease.told ⊥ (λ told. O.names told book.old.history.entries))) }
    ensures seeds { IfOk result
        (λ next. MatchOption next ⊤
        (λ lease. AreSeedsValid book.old.history.entries lease.job)) }
    ensures same { OnErr result (IsSameRun book.old book.new) }
    ensures some { OnErr result ((d : ℕ) × CanBegin book.old.run book.old.history d) }
    ensures err { IfErr result (λ fault. (fault ≡ NoMemory) ⊎ (fault ≡ NoView)) }
{
    match book.next() {
        Ok(next) => Ok(next),
        Err(fault) => Err(RefusedCall { fault }),
    }
}

// Does what `Book::finish` does.
pub(crate) fn finish<O: Outlet>(
    book: &mut Book<O>,
    lease: Lease<O::Told>,
    checked: Checked,
) -> Result<(), (RefusedCall, Lease<O::Told>, Checked)>
    requires { IsBooksLease book.old.run book.old.history lease.job lease.number
        → MayAllRefer book.old.history.entries lease.job checked }
    ensures ok { OnOk result (IsFinishing book.old book.new lease.job lease.number checked) }
    ensures fault { IfErr result
        (λ e. IsFinishFault book.old lease.job lease.number checked e.0) }
    ensures back { IfErr result (λ e. (e.1 ≡ lease) × (e.2 ≡ checked)) }
    ensures same { OnErr result (book.new ≡ book.old) }
{
    match book.finish(lease, checked) {
        Ok(()) => Ok(()),
        Err((fault, lease, checked)) => Err((RefusedCall { fault }, lease, checked)),
    }
}

// Does what `Book::fail` does, whose only fault is `ForeignLease`.
pub(crate) fn fail<O: Outlet>(
    book: &mut Book<O>,
    lease: Lease<O::Told>,
    reason: Reason,
) -> Result<(), (RefusedCall, Lease<O::Told>)>
    ensures ok { OnOk result (IsFailing book.old book.new lease.job lease.number reason) }
    ensures foreign { OnErr result
        (IsBooksLease book.old.run book.old.history lease.job lease.number → ⊥) }
    ensures err { IfErr result (λ e. (e.0 ≡ ForeignLease) × (e.1 ≡ lease)) }
    ensures same { OnErr result (book.new ≡ book.old) }
{
    match book.fail(lease, reason) {
        Ok(()) => Ok(()),
        Err(lease) => {
            let fault = BookFault::ForeignLease;
            Err((RefusedCall { fault }, lease))
        }
    }
}

// A reader's refusal, as a book tells it.
fn of_reader(fault: ViewFault) -> RefusedCall
    requires { (path : Path) → fault ≡ NotValid path → ⊥ }
    ensures { IsToldAs fault result }
{
    let fault = match fault {
        ViewFault::NoMemory => BookFault::NoMemory,
        ViewFault::NoView(_) => BookFault::NoView,
        ViewFault::NotValid(_) => unreachable!(),
    };
    RefusedCall { fault }
}
