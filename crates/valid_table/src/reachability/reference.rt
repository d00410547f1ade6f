//! One reference of a record.
ghost use Rattle.std.specs.Prelude.{◌≡◌, ◌<◌, Some, length, slice_get};
ghost use Rattle.nix_names.specs.StorePaths.{IsStorePath};

use crate::entry::Record;
use nix_names::StorePath;
use std::marker::Model;

/// A path to which a record refers. It shares the record, and keeps the path's index in the
/// record's list. A contract sees the path.
#[derive(Debug, Drop)]
pub struct Reference {
    info: Record,
    index: usize,
}

impl Model for Reference {
    ghost use Rattle.std.specs.Prelude.{ℕ, List, [], ◌<◌, get_or, length};

    ghost Value = { List ℕ };

    ghost view = { λ r. get_or r.info.references r.index [] };

    ghost invariant = { λ r. r.index < length r.info.references };
}

impl Reference {
    // The reference of a record at an index.
    pub(crate) fn new(info: Record, index: usize) -> Reference
        requires { index < length info.references }
        ensures { slice_get info.references index ≡ Some result }
    {
        Reference { info, index }
    }

    /// The path.
    pub fn path(&self) -> &StorePath
        ensures { result.now ≡ self.now }
    {
        &self.info.references()[self.index]
    }

    /// The path's text.
    pub fn text(&self) -> &[u8]
        ensures value { result.now ≡ self.now }
        ensures is_path { IsStorePath self.now }
    {
        self.path().text()
    }
}
