//! What a view shows: a table, with the list of entries that it is made from.
use crate::prefix::BarePrefix;
use left_right::Absorb;
use std::alloc::{AllocError, AllocFailed};
use std::marker::Model;
use valid_table::{Entry, Table, TableFault};

// The next entry, with the prefix of the list that ends with it.
#[derive(Drop)]
pub(crate) struct Op {
    pub entry: Entry,
    pub prefix: BarePrefix,
}

// A table, and the prefix of the list whose entries it registers.
#[derive(Drop)]
pub(crate) struct ShownTable {
    pub table: Table,
    pub prefix: BarePrefix,
}

impl Model for ShownTable {
    ghost use Rattle.valid_view.specs.private.ShownTables.{ShownState};

    ghost Value = { ShownState };

    ghost view = { λ s. record { registrations = s.table.registrations; prefix = s.prefix } };
}

impl Absorb<Op> for ShownTable {
    ghost use Rattle.valid_view.specs.private.Feeding.{with_op};

    type State = ShownTable;

    ghost state = { λ s. s };

    ghost applied = { with_op };

    fn absorb_first(&mut self, operation: &Op, _other: &ShownTable) -> Result<(), AllocError> {
        match self.table.register(&operation.entry) {
            Ok(()) => {
                self.prefix = operation.prefix.again();
                Ok(())
            }
            Err(TableFault::NoMemory) => Err(AllocError),
            // This never happens: the entry may follow the shown entries (`Follows`), so its paths
            // are new and its references valid. `Absorb` has no condition that could say so here.
            Err(fault) => Err(AllocFailed { value: fault }.into()),
        }
    }
}
