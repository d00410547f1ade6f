//! The name of the list of which a view shows prefixes.
ghost use Rattle.std.specs.Prelude.{◌≡◌, []};

use crate::append_only::AppendOnly;
use crate::display::{DisplayedList, Showing};
use crate::prefix::{Head, NamedPrefix, Prefix};
use logbook::{Seen, Start, Word};
use std::marker::{Brand, Model};
use valid_table::Entry;

/// The name of a list, as a type. The writer and the readers of one view, and all lists that they
/// hand on, have one name. A contract says by `Showing` that a list was shown under the name.
pub trait ListId: Showing {
    ghost use Rattle.logbook.specs.Pages.{Book};

    // The list, as the proofs know it.
    ghost book: { Book };
}

impl ListId for Brand {
    ghost book = { record { number = 0; log_name = 0; cells_name = 0 } };
}

/// A new list without entries, which no type names yet. A contract sees which list it is. Takes no
/// memory.
#[derive(Drop)]
pub struct Name {
    head: Word<Entry, u64, AppendOnly>,
    seen: Seen<Entry, u64, AppendOnly>,
}

impl Model for Name {
    ghost use Rattle.std.specs.Prelude.{◌≡◌, []};
    ghost use Rattle.logbook.specs.Pages.{Book};
    ghost use Rattle.valid_view.specs.Prefixes.{head_of};

    ghost Value = { Book };

    ghost view = { λ n. n.seen.book };

    ghost invariant = { λ n. (n.seen.log ≡ []) × (n.head ≡ head_of n.seen.book) };
}

impl Name {
    /// A new list.
    pub fn new() -> Name {
        let (seen, mut first, _second) = Seen::open(Start::alone(), 0, 0);
        Name {
            head: Word::tracked(0, &mut first),
            seen,
        }
    }

    // The right to extend the list, and twice the list's prefix without entries: to extend it,
    // and as a list that counts as shown. All of them name the list.
    pub(crate) fn open<J: ListId>(self) -> (Head<J>, NamedPrefix<J>, Prefix<J>)
        requires { self ≡ J.book }
        ensures known { result.1 ≡ [] }
        ensures shown { result.2 ≡ [] }
    {
        let Name { head, seen } = self;
        let none = Prefix::over(DisplayedList::none(seen.again()));
        (Head::over(head), NamedPrefix::first(seen), none)
    }
}
