//! A reader of a view.
ghost use Rattle.std.specs.Prelude.{◌≡◌, ◌⊎◌, Ok};
ghost use mathlib.Core.List.{IsPrefix};
ghost use Rattle.valid_table.specs.Entries.{registered};
ghost use Rattle.valid_view.specs.Answers.{IfGone, IsLook, IsUnreached, IsViewClosing, IsViewRecords, WhereSeen};
ghost use Rattle.valid_view.specs.Shown.{IsShowable};

use crate::fault::ViewFault;
use crate::list_id::ListId;
use crate::prefix::Prefix;
use crate::reading::IdleReader;
use crate::seen::Seen;
use core::mem::replace_with;
use nix_names::StorePath;
use std::alloc::Global;
use std::marker::Model;
use valid_table::{Registration, Table, TableFault};

/// A reader of the view with this name: it asks without a lock, and never waits. A contract sees
/// the list of entries that was shown when the reader last asked, and the longest list that it was
/// told of. Each list that it sees later begins with both. A reader may go to another thread.
#[derive(Drop)]
pub struct ViewReader<J: ListId> {
    idle: IdleReader<J>,
    told: Prefix<J>,
}

impl<J: ListId> Model for ViewReader<J> {
    ghost use Rattle.valid_view.specs.Answers.{Knowing};

    ghost Value = { Knowing };

    ghost view = { λ r. record { seen = r.idle; told = r.told } };
}

impl<J: ListId> ViewReader<J> {
    // A reader that was told of a list.
    pub(crate) fn over(idle: IdleReader<J>, told: Prefix<J>) -> ViewReader<J>
        ensures seen { result.seen ≡ idle }
        ensures told { result.told ≡ told }
    {
        ViewReader { idle, told }
    }

    /// The list that was shown when the reader last asked. That answer holds by this list. A proof
    /// compares it by `Prefix::one_begins_the_other` with a list that the writer told of or another
    /// reader saw.
    pub fn seen(&self) -> &Prefix<J>
        ensures is { result.now ≡ self.now.seen }
        ensures shown { J.Showing.shown J.book self.now.seen }
    {
        let seen = self.idle.seen();
        seen.was_shown();
        seen
    }

    /// Learns of a list that the writer of the view told of: from now on the reader sees no shorter
    /// list. Takes no memory.
    pub fn learn(&mut self, told: Prefix<J>)
        ensures seen { self.new.seen ≡ self.old.seen }
        ensures kept { IsPrefix self.old.told self.new.told }
        ensures told { IsPrefix told self.new.told }
        ensures one { (self.new.told ≡ self.old.told) ⊎ (self.new.told ≡ told) }
        ensures shown { J.Showing.shown J.book self.new.told }
    {
        self.told = self.told.longer(&told);
        self.told.was_shown();
    }

    /// Whether a path is valid by the list that is shown now, and its digest. Answers `NoView`
    /// where the writer is gone, and no other fault. Takes no memory, and costs one look-up by
    /// hash.
    pub fn look(&mut self, path: &StorePath) -> Result<Seen, ViewFault>
        ensures told { self.new.told ≡ self.old.told }
        ensures later { IsPrefix self.old.seen self.new.seen }
        ensures known { WhereSeen result
            (IsPrefix self.old.told self.new.seen × IsShowable self.new.seen) }
        ensures gone { IfGone result (IsUnreached self.old.seen self.old.told self.new.seen) }
        ensures shown { J.Showing.shown J.book self.new.seen }
        ensures answer { IsLook (registered self.new.seen) path.now result }
    {
        let answer = replace_with(&mut self.idle, (&self.told, path), look);
        self.seen().was_shown();
        answer
    }

    /// The closure of the roots by the list that is shown now: the roots and all paths that they
    /// lead to by references, in strictly rising order. Answers `NotValid` with the first root that
    /// is not valid by that list, `NoMemory` where memory is refused, `NoView` where the writer is
    /// gone. Costs as `Table::closure` does.
    pub fn closure(
        &mut self,
        alloc: Global,
        roots: &[StorePath],
    ) -> Result<Vec<StorePath>, ViewFault>
        ensures told { self.new.told ≡ self.old.told }
        ensures later { IsPrefix self.old.seen self.new.seen }
        ensures known { WhereSeen result
            (IsPrefix self.old.told self.new.seen × IsShowable self.new.seen) }
        ensures gone { IfGone result (IsUnreached self.old.seen self.old.told self.new.seen) }
        ensures shown { J.Showing.shown J.book self.new.seen }
        ensures answer { IsViewClosing (registered self.new.seen) roots.now result }
    {
        let answer = replace_with(&mut self.idle, (&self.told, alloc, roots), closure);
        self.seen().was_shown();
        answer
    }

    /// The records of the closure of the roots by the list that is shown now, in strictly rising
    /// order of paths. Answers `NotValid` with the first root that is not valid by that list,
    /// `NoMemory` where memory is refused, `NoView` where the writer is gone. Costs as `closure`
    /// does, and a look-up by hash and a shared copy of the record for each path.
    pub fn records(
        &mut self,
        alloc: Global,
        roots: &[StorePath],
    ) -> Result<Vec<Registration>, ViewFault>
        ensures told { self.new.told ≡ self.old.told }
        ensures later { IsPrefix self.old.seen self.new.seen }
        ensures known { WhereSeen result
            (IsPrefix self.old.told self.new.seen × IsShowable self.new.seen) }
        ensures gone { IfGone result (IsUnreached self.old.seen self.old.told self.new.seen) }
        ensures shown { J.Showing.shown J.book self.new.seen }
        ensures answer { IsViewRecords (registered self.new.seen) roots.now result }
    {
        let answer = replace_with(&mut self.idle, (&self.told, alloc, roots), records);
        self.seen().was_shown();
        answer
    }
}

// What a reader finds about a path.
fn look<J: ListId>(
    idle: IdleReader<J>,
    asked: (&Prefix<J>, &StorePath),
) -> (IdleReader<J>, Result<Seen, ViewFault>)
    ensures later { IsPrefix idle result.0 }
    ensures known { WhereSeen result.1
        (IsPrefix asked.entry.0.now result.0 × IsShowable result.0) }
    ensures gone { IfGone result.1 (IsUnreached idle asked.entry.0.now result.0) }
    ensures answer { IsLook (registered result.0) asked.entry.1.now result.1 }
{
    match idle.enter(asked.0) {
        Ok(busy) => {
            let answer = seen_in(busy.table(), asked.1);
            (busy.leave(), Ok(answer))
        }
        Err((idle, why)) => (idle, Err(ViewFault::NoView(why))),
    }
}

// What a reader finds about the closure of some roots.
fn closure<J: ListId>(
    idle: IdleReader<J>,
    asked: (&Prefix<J>, Global, &[StorePath]),
) -> (IdleReader<J>, Result<Vec<StorePath>, ViewFault>)
    ensures later { IsPrefix idle result.0 }
    ensures known { WhereSeen result.1
        (IsPrefix asked.entry.0.now result.0 × IsShowable result.0) }
    ensures gone { IfGone result.1 (IsUnreached idle asked.entry.0.now result.0) }
    ensures answer { IsViewClosing (registered result.0) asked.entry.2.now result.1 }
{
    match idle.enter(asked.0) {
        Ok(busy) => {
            let answer = closure_in(asked.1, busy.table(), asked.2);
            (busy.leave(), answer)
        }
        Err((idle, why)) => (idle, Err(ViewFault::NoView(why))),
    }
}

// What a reader finds about the records of the closure of some roots.
fn records<J: ListId>(
    idle: IdleReader<J>,
    asked: (&Prefix<J>, Global, &[StorePath]),
) -> (IdleReader<J>, Result<Vec<Registration>, ViewFault>)
    ensures later { IsPrefix idle result.0 }
    ensures known { WhereSeen result.1
        (IsPrefix asked.entry.0.now result.0 × IsShowable result.0) }
    ensures gone { IfGone result.1 (IsUnreached idle asked.entry.0.now result.0) }
    ensures answer { IsViewRecords (registered result.0) asked.entry.2.now result.1 }
{
    match idle.enter(asked.0) {
        Ok(busy) => {
            let answer = records_in(asked.1, busy.table(), asked.2);
            (busy.leave(), answer)
        }
        Err((idle, why)) => (idle, Err(ViewFault::NoView(why))),
    }
}

// What a table says about a path.
fn seen_in(table: &Table, path: &StorePath) -> Seen
    ensures { IsLook table.now.registrations path.now (Ok result) }
{
    match table.get(path) {
        None => Seen::Absent,
        Some(record) => Seen::Valid(record.digest()),
    }
}

// The closure of some roots in a table.
fn closure_in(
    alloc: Global,
    table: &Table,
    roots: &[StorePath],
) -> Result<Vec<StorePath>, ViewFault>
    ensures answer { IsViewClosing table.now.registrations roots.now result }
    ensures reached { IfGone result ⊥ }
{
    match table.closure(alloc, roots) {
        Ok(paths) => Ok(paths),
        Err(TableFault::NotValid(path)) => Err(ViewFault::NotValid(path)),
        Err(TableFault::NoMemory) => Err(ViewFault::NoMemory),
        Err(_) => unreachable!(),
    }
}

// The records of the closure of some roots in a table.
fn records_in(
    alloc: Global,
    table: &Table,
    roots: &[StorePath],
) -> Result<Vec<Registration>, ViewFault>
    ensures answer { IsViewRecords table.now.registrations roots.now result }
    ensures reached { IfGone result ⊥ }
{
    let paths = match closure_in(alloc, table, roots) {
        Ok(paths) => paths,
        Err(fault) => return Err(fault),
    };
    match table.records(alloc, &paths) {
        Ok(rows) => Ok(rows),
        Err(_) => Err(ViewFault::NoMemory),
    }
}
