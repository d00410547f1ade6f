//! A set of rows, each once, in the order in which they were found.
ghost use Rattle.std.specs.Prelude.{◌≡◌, ◌<◌, ◌≤◌, [], nat_eq, IfOk, OnOk};
ghost use Rattle.std.specs.List.{IsDistinct, list_any};
ghost use Rattle.indexmap.specs.IndexSet.{insert_key};

use std::alloc::{AllocError, Global};
use std::marker::Model;

// Its rows, and a mark for each row of a table, which is set where the row is among them.
#[derive(Drop)]
pub(crate) struct RowSet {
    rows: Vec<usize>,
    marks: Vec<u64>,
}

impl Model for RowSet {
    ghost use Rattle.std.specs.Prelude.{◌*◌, length};
    ghost use Rattle.valid_table.specs.private.Marking.{AreMarked, RowSetValue};

    ghost Value = { RowSetValue };

    ghost view = { λ found. record
        { rows = found.rows.items; room = 64 * length found.marks.items } };

    ghost invariant = { λ found. AreMarked found.marks.items found.rows.items };
}

impl RowSet {
    // No rows yet, with marks for a table of `count` rows.
    pub(crate) fn new(alloc: Global, count: usize) -> Result<RowSet, AllocError>
        ensures none { IfOk result (λ found. found.rows ≡ []) }
        ensures room { IfOk result (λ found. count ≤ found.room) }
    {
        let marks = vec![in alloc; 0u64; count / 64 + 1]?;
        Ok(RowSet {
            rows: Vec::new(alloc),
            marks,
        })
    }

    // The rows, in the order in which they were found.
    pub(crate) fn rows(&self) -> &[usize]
        ensures { result.now ≡ self.now.rows }
    {
        &self.rows
    }

    // Whether a row is among them.
    pub(crate) fn has(&self, row: usize) -> bool
        ensures { result ≡ list_any (nat_eq row) self.now.rows }
    {
        match self.marks.get(row / 64) {
            Some(word) => *word & (1u64 << (row % 64)) != 0,
            None => false,
        }
    }

    // Adds a row at the end, where it isn't there yet.
    pub(crate) fn insert(&mut self, row: usize) -> Result<(), AllocError>
        requires { row < self.old.room }
        ensures rows { OnOk result (self.new.rows ≡ insert_key nat_eq self.old.rows row) }
        ensures distinct { IsDistinct nat_eq self.new.rows }
        ensures room { self.new.room ≡ self.old.room }
    {
        let word = self.marks[row / 64];
        let mark = 1u64 << (row % 64);
        if word & mark != 0 {
            return Ok(());
        }
        self.rows.push(row)?;
        self.marks[row / 64] = word | mark;
        Ok(())
    }
}
