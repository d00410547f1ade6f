//! Lists that were shown, and the one list of which each of them is a prefix.
ghost use Rattle.std.specs.Prelude.{◌≡◌, ◌⊎◌, ◌++◌, ◌∷◌, [], length, MatchResult};
ghost use mathlib.Core.List.{IsPrefix};
ghost use Rattle.valid_view.specs.Prefixes.{Hinders, head_of};
ghost use Rattle.valid_view.specs.Shown.{IsShowable, MayFollow};

use crate::append_only::{Add, AppendOnly, NoGain};
use crate::display::DisplayedList;
use crate::list_id::ListId;
use logbook::{Offer, Seen, Word};
use std::marker::{Model, PhantomData};
use valid_table::Entry;

// The word that holds the length of the list with this name.
#[derive(Drop)]
pub(crate) struct Head<J: ListId> {
    word: Word<Entry, u64, AppendOnly>,
    of: PhantomData<J>,
    ghost head_is: { word ≡ head_of J.book },
}

impl<J: ListId> Head<J> {
    // The word of the list with this name.
    pub(crate) fn over(word: Word<Entry, u64, AppendOnly>) -> Head<J>
        requires { word ≡ head_of J.book }
    {
        Head {
            word,
            of: PhantomData,
        }
    }
}

/// A list that was shown under this name. It is a prefix of the one list with the name. A
/// contract sees its entries. Takes no memory, and has the size of one number.
#[derive(Drop)]
pub struct Prefix<J: ListId> {
    all: NamedPrefix<J>,
}

impl<J: ListId> Model for Prefix<J> {
    ghost use Rattle.std.specs.Prelude.{List};
    ghost use Rattle.valid_table.specs.declared.entry.Entry.{Entry};

    ghost Value = { List Entry };

    ghost view = { λ f. f.all };

    ghost invariant = { λ f. J.Showing.shown J.book f.all };
}

impl<J: ListId> Prefix<J> {
    // A list that was shown.
    pub(crate) fn over(list: DisplayedList) -> Prefix<J>
        requires { list.book ≡ J.book }
        ensures { result ≡ list.entries }
    {
        J::show(&list);
        Prefix {
            all: NamedPrefix::over(list.prefix()),
        }
    }

    /// How many entries it has.
    pub fn len(&self) -> u64
        ensures length { result ≡ length self.now }
        ensures showable { IsShowable self.now }
        ensures shown { J.Showing.shown J.book self.now }
    {
        self.all.len()
    }

    /// Its entries were shown, and may be. Does nothing: a proof learns it by the call.
    pub fn was_shown(&self)
        ensures shown { J.Showing.shown J.book self.now }
        ensures showable { IsShowable self.now }
    {
        self.all.may_be_shown();
    }

    /// The prefix once more.
    pub fn again(&self) -> Prefix<J>
        ensures { result ≡ self.now }
    {
        Prefix {
            all: self.all.again(),
        }
    }

    /// The longer of two lists, which begins with the other.
    pub fn longer(&self, other: &Prefix<J>) -> Prefix<J>
        ensures this { IsPrefix self.now result }
        ensures that { IsPrefix other.now result }
        ensures one { (result ≡ self.now) ⊎ (result ≡ other.now) }
    {
        Prefix {
            all: self.all.longer(&other.all),
        }
    }

    /// One of two lists that were shown under one name begins with the other. Changes nothing: a
    /// proof learns it by the call.
    pub fn one_begins_the_other(&self, other: &Prefix<J>)
        ensures { IsPrefix self.now other.now ⊎ IsPrefix other.now self.now }
    {
        let _ = self.longer(other);
    }
}

// A prefix of the list with this name, shown or not. A contract sees its entries.
#[derive(Drop)]
pub(crate) struct NamedPrefix<J: ListId> {
    all: BarePrefix,
    of: PhantomData<J>,
}

impl<J: ListId> Model for NamedPrefix<J> {
    ghost use Rattle.std.specs.Prelude.{◌≡◌, List};
    ghost use Rattle.valid_table.specs.declared.entry.Entry.{Entry};

    ghost Value = { List Entry };

    ghost view = { λ f. f.all.entries };

    ghost invariant = { λ f. f.all.book ≡ J.book };
}

impl<J: ListId> NamedPrefix<J> {
    // The prefix without entries.
    pub(crate) fn first(seen: Seen<Entry, u64, AppendOnly>) -> NamedPrefix<J>
        requires book { seen.book ≡ J.book }
        requires empty { seen.log ≡ [] }
        ensures { result ≡ [] }
    {
        NamedPrefix::over(BarePrefix::first(seen))
    }

    // The prefix of the list with this name.
    pub(crate) fn over(all: BarePrefix) -> NamedPrefix<J>
        requires { all.book ≡ J.book }
        ensures { result ≡ all.entries }
    {
        NamedPrefix {
            all,
            of: PhantomData,
        }
    }

    // The prefix, by a type that does not name the list.
    pub(crate) fn bare(&self) -> BarePrefix
        ensures book { result.book ≡ J.book }
        ensures entries { result.entries ≡ self.now }
    {
        self.all.again()
    }

    // How many entries it has.
    pub(crate) fn len(&self) -> u64
        ensures length { result ≡ length self.now }
        ensures showable { IsShowable self.now }
    {
        self.all.len()
    }

    // Its entries may be shown. Does nothing: a proof learns it by the call.
    pub(crate) fn may_be_shown(&self)
        ensures { IsShowable self.now }
    {
        let _ = self.all.len();
    }

    // The prefix once more.
    pub(crate) fn again(&self) -> NamedPrefix<J>
        ensures { result ≡ self.now }
    {
        NamedPrefix::over(self.all.again())
    }

    // The longer of two prefixes, which begins with the other.
    pub(crate) fn longer(&self, other: &NamedPrefix<J>) -> NamedPrefix<J>
        ensures this { IsPrefix self.now result }
        ensures that { IsPrefix other.now result }
        ensures one { (result ≡ self.now) ⊎ (result ≡ other.now) }
    {
        NamedPrefix::over(self.all.longer(&other.all))
    }

    // Adds an entry to the list. Where that went on already, or is full, nothing changes, and it
    // comes back as it was found.
    pub(crate) fn add(&mut self, head: &Head<J>, entry: &Entry) -> Result<(), BarePrefix>
        requires { MayFollow self.old entry.now }
        ensures { MatchResult result (λ _. self.new ≡ self.old ++ entry.now ∷ [])
            (λ found. (self.new ≡ self.old) × Hinders J.book self.old found) }
    {
        self.all.add(&head.word, entry)
    }
}

// A prefix of a list, whose type does not name the list.
#[derive(Drop)]
pub(crate) struct BarePrefix {
    count: u64,
    seen: Seen<Entry, u64, AppendOnly>,
}

impl Model for BarePrefix {
    ghost use Rattle.std.specs.Prelude.{◌≡◌, length};
    ghost use Rattle.valid_view.specs.Prefixes.{PrefixValue};
    ghost use Rattle.valid_view.specs.Shown.{IsShowable};

    ghost Value = { PrefixValue };

    ghost view = { λ b. record { book = b.seen.book; entries = b.seen.log } };

    ghost invariant = { λ b. (b.count ≡ length b.seen.log) × IsShowable b.seen.log };
}

impl BarePrefix {
    // The prefix without entries.
    pub(crate) fn first(seen: Seen<Entry, u64, AppendOnly>) -> BarePrefix
        requires { seen.log ≡ [] }
        ensures book { result.book ≡ seen.book }
        ensures entries { result.entries ≡ [] }
    {
        BarePrefix { count: 0, seen }
    }

    // The prefix once more.
    pub(crate) fn again(&self) -> BarePrefix
        ensures { result ≡ self.now }
    {
        BarePrefix {
            count: self.count,
            seen: self.seen.again(),
        }
    }

    // How many entries it has.
    pub(crate) fn len(&self) -> u64
        ensures length { result ≡ length self.now.entries }
        ensures showable { IsShowable self.now.entries }
    {
        self.count
    }

    // Adds an entry to the list. Where that went on already, or is full, nothing changes, and it
    // comes back as it was found.
    fn add(&mut self, word: &Word<Entry, u64, AppendOnly>, entry: &Entry) -> Result<(), BarePrefix>
        requires word { word.now ≡ head_of self.old.book }
        requires showable { MayFollow self.old.entries entry.now }
        ensures book { self.new.book ≡ self.old.book }
        ensures entries { MatchResult result
            (λ _. self.new.entries ≡ self.old.entries ++ entry.now ∷ [])
            (λ found. (self.new.entries ≡ self.old.entries)
            × Hinders self.old.book self.old.entries found) }
    {
        let mut seen = self.seen.again();
        let mut offer: Offer<Entry, u64, AppendOnly, NoGain> = seen.plain::<NoGain, Entry, Add>(
            entry,
        );
        let mut pen = seen.no_pen();
        let count = self.count;
        let Some(next) = count.checked_add(1) else {
            return Err(self.again());
        };
        let found = word.compare_exchange::<Add, NoGain>(
            count, next, &mut seen, &mut offer, &mut pen,
        );
        if found != count {
            return Err(BarePrefix { count: found, seen });
        }
        *self = BarePrefix { count: next, seen };
        Ok(())
    }

    // The longer of two prefixes of one list, which begins with the other.
    pub(crate) fn longer(&self, other: &BarePrefix) -> BarePrefix
        requires { other.now.book ≡ self.now.book }
        ensures book { result.book ≡ self.now.book }
        ensures this { IsPrefix self.now.entries result.entries }
        ensures that { IsPrefix other.now.entries result.entries }
        ensures one { (result.entries ≡ self.now.entries)
            ⊎ (result.entries ≡ other.now.entries) }
    {
        let mut both = self.seen.again();
        both.learn(&other.seen);
        if self.count < other.count {
            other.again()
        } else {
            self.again()
        }
    }
}
