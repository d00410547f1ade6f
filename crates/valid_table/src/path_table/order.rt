//! The order of a table's first rows by the keys of their paths.
ghost use Rattle.std.specs.Prelude.{◌≡◌, ◌⊎◌, ◌≤◌, ◌+◌, ◌-◌, ◌<◌, [], All, length};
ghost use Rattle.std.specs.Int.{from_be_bytes, w64};
ghost use Rattle.nix_names.specs.StorePaths.{hash_part_of, name_of};
ghost use Rattle.valid_table.specs.private.FirstRows.{AreFirst, rows_of_keyed};
ghost use Rattle.valid_table.specs.private.Keys.{AreKeyed, IsKey, folder_of, folder_part};
ghost use Rattle.valid_table.specs.Tables.{registrations_of};

use crate::entry::Record;
use indexmap::IndexMap;
use nix_names::StorePath;
use std::alloc::Global;

// The late rows are taken in where they are more than `SHARE`, and one more for each `SHARE`
// others.
const SHARE: usize = 16;

// The first rows of a table, each paired with the key of its path in the folder of the first path.
// These pairs are sorted, unless memory was refused for that. All later rows are called late.
#[derive(Debug, Drop)]
pub(crate) struct RowOrder {
    pub(crate) keyed: Vec<(u64, usize)>,
}

impl RowOrder {
    // The order in which all rows are late.
    pub(crate) fn new(alloc: Global) -> RowOrder
        ensures { result.keyed.items ≡ [] }
    {
        RowOrder {
            keyed: Vec::new(alloc),
        }
    }

    // Takes in the late rows, where they are many compared with the others. So a row costs a few
    // steps of a merge, whenever it was registered. Where memory is refused, rows stay late or
    // unsorted, and a closure has to sort more itself.
    pub(crate) fn extend(&mut self, rows: &IndexMap<StorePath, Record>)
        requires first { AreFirst (length rows.now.entries) (rows_of_keyed self.old.keyed.items) }
        requires keys { AreKeyed (registrations_of rows.now.entries) self.old.keyed.items }
        ensures first { AreFirst (length rows.now.entries) (rows_of_keyed self.new.keyed.items) }
        ensures keys { AreKeyed (registrations_of rows.now.entries) self.new.keyed.items }
    {
        let late = rows.len().saturating_sub(self.keyed.len());
        if late > SHARE + self.keyed.len() / SHARE {
            self.take_in(rows);
            let _ = self.keyed.sort();
        }
    }

    // Puts the late rows after the others.
    fn take_in(&mut self, rows: &IndexMap<StorePath, Record>)
        requires first { AreFirst (length rows.now.entries) (rows_of_keyed self.old.keyed.items) }
        requires keys { AreKeyed (registrations_of rows.now.entries) self.old.keyed.items }
        ensures first { AreFirst (length rows.now.entries) (rows_of_keyed self.new.keyed.items) }
        ensures keys { AreKeyed (registrations_of rows.now.entries) self.new.keyed.items }
    {
        let folder = folder_of(rows);
        let paths = rows.keys();
        for row in self.keyed.len()..rows.len() {
            let key = key_of(folder, &paths[row]);
            if self.keyed.push((key, row)).is_err() {
                return;
            }
        }
    }
}

// The folder of the first path, with its slash.
pub(crate) fn folder_of(rows: &IndexMap<StorePath, Record>) -> &[u8]
    ensures { result.now ≡ folder_of (registrations_of rows.now.entries) }
{
    match rows.first() {
        Some((path, _)) => folder_part(path),
        None => &[],
    }
}

// All of a path before its base name.
fn folder_part(path: &StorePath) -> &[u8]
    ensures { result.now ≡ folder_part path.now }
{
    let text = path.text();
    text.get(..base_start(path)).unwrap_or(text)
}

// Where the base name of a path begins, after the folder and a slash.
fn base_start(path: &StorePath) -> usize
    ensures { result ≡ length path.now
        - (length (hash_part_of path.now) + 1 + length (name_of path.now)) }
{
    path.text()
        .len()
        .saturating_sub(path.hash_part().len() + 1 + path.name().len())
}

// The key of a path: the eight bytes after the folder, as one number that compares as they do; 0
// for a path of another folder.
pub(crate) fn key_of(folder: &[u8], path: &StorePath) -> u64
    ensures { (result ≡ 0) ⊎ (IsKey folder.now path.now result) }
{
    match path.text().strip_prefix(folder) {
        Some([a, b, c, d, e, f, g, h, ..]) => number_of([*a, *b, *c, *d, *e, *f, *g, *h]),
        _ => 0,
    }
}

// The number of eight bytes, of which the first counts most.
fn number_of(bytes: [u8; 8]) -> u64
    ensures number { result ≡ from_be_bytes w64 bytes }
    ensures small { All (λ b. b < 256) bytes }
{
    u64::from_be_bytes(bytes)
}
