//! What an answer was found to hold: a record of each output.
ghost use Rattle.std.specs.Prelude.{◌≡◌};

use std::marker::Model;
use valid_table::Record;

/// The records of a job's outputs, as `examine` gives them. A contract sees their list.
#[derive(Debug, Drop)]
pub struct Checked {
    records: Vec<Record>,
}

impl Model for Checked {
    ghost use Rattle.std.specs.Prelude.{List};
    ghost use Rattle.valid_table.specs.PathInfos.{PathInfo};

    ghost Value = { List PathInfo };

    ghost view = { λ c. c.records.items };
}

impl Checked {
    // The records of a job's outputs, in the job's order.
    pub(crate) fn new(records: Vec<Record>) -> Checked
        ensures { result ≡ records.items }
    {
        Checked { records }
    }

    /// The record of each output, in the job's order.
    pub fn records(&self) -> &[Record]
        ensures { result.now ≡ self.now }
    {
        &self.records
    }
}
