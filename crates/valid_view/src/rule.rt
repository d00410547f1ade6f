//! The rule of a view.
use crate::list_id::ListId;
use crate::shown_table::ShownTable;
use crossbeam_utils::rule::{Outcome, Protocol};
use std::marker::PhantomData;
use valid_table::Entry;

/// What a reader has seen, which in a clause is a list of entries. No value of this type is made.
pub type SeenEntries = [Entry; 0];

/// The rule of the view with this name.
pub struct Published<J: ListId> {
    of: PhantomData<J>,
}

impl<J: ListId> Protocol<ShownTable, SeenEntries> for Published<J> {
    ghost use Rattle.std.specs.Prelude.{[]};
    ghost use Rattle.valid_view.specs.private.ShownTables.{Holds};

    ghost holds = { Holds J.book };

    ghost first = { [] };
}

/// What a step tells: the list that is shown after it is seen.
pub struct Sees<J: ListId> {
    of: PhantomData<J>,
}

impl<J: ListId> Outcome<ShownTable, SeenEntries> for Sees<J> {
    ghost use Rattle.valid_view.specs.private.ShownTables.{SeesAll};

    ghost then = { SeesAll J.book };
}
