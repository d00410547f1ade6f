//! Outlets whose lists are prefixes of one list.
ghost use Rattle.std.specs.Prelude.{◌≡◌, List};
ghost use Rattle.valid_table.specs.declared.entry.Entry.{Entry};

use crate::list_id::ListId;
use crate::prefix::Prefix;
use crate::writer::ViewWriter;
use std::sync::Wait;
use valid_table::Outlet;

/// An outlet of which each shown list is a prefix of the list with this name. Code that takes
/// turns at a lock is generic over such outlets.
pub trait Tells<J: ListId>: Outlet {
    /// The prefix of the list that the outlet told of, as a reader learns it.
    fn prefix(told: Self::Told) -> Prefix<J>
        ensures { (entries : List Entry) → Self.names told entries → result ≡ entries };
}

impl<J: ListId + Send, R: Wait + Drop> Tells<J> for ViewWriter<J, R> {
    fn prefix(told: Prefix<J>) -> Prefix<J> {
        told
    }
}
