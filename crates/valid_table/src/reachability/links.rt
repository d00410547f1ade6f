//! The references of a table's rows by the numbers of their rows.
ghost use Rattle.std.specs.Prelude.{◌≡◌, ◌≤◌, ◌<◌, ◌+◌, [], IfSome, length, vec_capacity};
ghost use Rattle.valid_table.specs.private.Closing.{path_at};
ghost use Rattle.valid_table.specs.private.Linking.{AreLinked, AreRowsOf, start_of};
ghost use Rattle.valid_table.specs.PathInfos.{PathInfo};
ghost use Rattle.valid_table.specs.Tables.{registrations_of};
ghost use Rattle.valid_table.specs.Valid.{Registers};

use crate::entry::Record;
use crate::path_table::rows::row_of;
use indexmap::IndexMap;
use nix_names::StorePath;
use std::alloc::Global;

// The first rows of a table are linked: for each of them there are the numbers of the rows of its
// references, in their order. In `numbers` they go from the end of the row before to the end of the
// row.
#[derive(Debug, Drop)]
pub(crate) struct Links {
    pub(crate) ends: Vec<u32>,
    pub(crate) numbers: Vec<u32>,
}

impl Links {
    // The links in which no row is linked.
    pub(crate) fn new(alloc: Global) -> Links
        ensures ends { result.ends.items ≡ [] }
        ensures numbers { result.numbers.items ≡ [] }
    {
        Links {
            ends: Vec::new(alloc),
            numbers: Vec::new(alloc),
        }
    }

    // The numbers of a row's references, where the row is linked.
    pub(crate) fn of_row(&self, rows: &IndexMap<StorePath, Record>, row: usize) -> Option<&[u32]>
        requires { AreLinked (registrations_of rows.now.entries) self.now.ends.items
            self.now.numbers.items }
        ensures { IfSome result (λ numbers. (info : PathInfo)
            × Registers (registrations_of rows.now.entries)
            (path_at (registrations_of rows.now.entries) row) info
            × AreRowsOf (registrations_of rows.now.entries) info.references numbers.now) }
    {
        let end = *self.ends.get(row)?;
        self.numbers.get(self.start(row)..end as usize)
    }

    // Where the numbers of a row begin.
    fn start(&self, row: usize) -> usize
        requires { row ≤ length self.now.ends.items }
        ensures { result ≡ start_of self.now.ends.items row }
    {
        match row {
            0 => 0,
            _ => self.ends[row - 1] as usize,
        }
    }

    // Links the rows that are not linked yet, one after the other. Where memory is refused, or a
    // number is 2^32 or more, the rest of them stay unlinked, and a closure has to look these up.
    pub(crate) fn link(&mut self, alloc: Global, rows: &IndexMap<StorePath, Record>)
        requires { AreLinked (registrations_of rows.now.entries) self.old.ends.items
            self.old.numbers.items }
        ensures { AreLinked (registrations_of rows.now.entries) self.new.ends.items
            self.new.numbers.items }
    {
        for row in self.ends.len()..rows.len() {
            if self.link_row(alloc, rows, row).is_none() {
                return;
            }
        }
    }

    // Links the first row that is not linked, or leaves all as it was.
    fn link_row(
        &mut self,
        alloc: Global,
        rows: &IndexMap<StorePath, Record>,
        row: usize,
    ) -> Option<()>
        requires within { row < length rows.now.entries }
        requires next { row ≡ length self.old.ends.items }
        requires linked { AreLinked (registrations_of rows.now.entries) self.old.ends.items
            self.old.numbers.items }
        ensures linked { AreLinked (registrations_of rows.now.entries) self.new.ends.items
            self.new.numbers.items }
        ensures more { IfSome result (λ _. length self.new.ends.items ≡ row + 1) }
    {
        let numbers = reference_rows(alloc, rows, rows[row].references())?;
        let end = u32::try_from(self.numbers.len() + numbers.len()).ok()?;
        self.ends.reserve(1).ok()?;
        self.numbers.extend_from_slice(&numbers).ok()?;
        self.ends.push_reserved(end);
        Some(())
    }
}

// The rows of some paths, if each is valid, there is memory, and no number is 2^32 or more.
fn reference_rows(
    alloc: Global,
    rows: &IndexMap<StorePath, Record>,
    paths: &[StorePath],
) -> Option<Vec<u32>>
    ensures rows { IfSome result
        (λ numbers. AreRowsOf (registrations_of rows.now.entries) paths.now numbers.items) }
    ensures room { IfSome result (λ numbers. vec_capacity numbers ≡ length paths.now) }
{
    let mut numbers = Vec::with_capacity(alloc, paths.len()).ok()?;
    for path in paths {
        let row = row_of(rows, path)?;
        numbers.push_reserved(u32::try_from(row).ok()?);
    }
    Some(numbers)
}
