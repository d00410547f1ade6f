//! The rule for the list of entries that readers see: entries are appended to it, and none is
//! changed or taken away. So every list that was shown is a prefix of it.
use logbook::{Gain, Plain, Play, Rule};
use valid_table::Entry;

/// The rule of a list.
pub struct AppendOnly;

impl Rule<Entry, u64> for AppendOnly {
    ghost use Rattle.std.specs.Prelude.{[]};
    ghost use base.Fml.{ftrue};
    ghost use Rattle.valid_view.specs.Prefixes.{IsPrefixKept};

    ghost holds = { λ cells entries. IsPrefixKept cells entries };

    ghost first = { [] };

    ghost hinted = { λ n entries. Unit {0} };

    ghost shows = { λ entries. [] };

    ghost keeps = { λ names entries. ftrue };

    ghost moves = { λ ask before after answer. Unit {0} };
}

/// Callers gain nothing by a step.
pub struct NoGain;

impl Gain<Entry, u64> for NoGain {
    ghost use base.Fml.{ftrue};

    ghost after = { λ names about answer. ftrue };
}

/// A step that adds an entry.
pub struct Add;

impl Play<Entry, u64> for Add {
    ghost use Rattle.valid_view.specs.Prefixes.{Adds};

    ghost then = { Adds };
}

// Such a step asks for the entry.
impl Plain<Entry, Entry, u64> for Add {
    ghost use Rattle.std.specs.Prelude.{None};

    ghost ask = { λ entry. entry };

    ghost state = { λ entry. None };
}
