//! What is heard of a tree, event by event.
ghost use Rattle.std.specs.Prelude.{◌++◌, [], OnOk, List};

use std::alloc::AllocError;

/// A step through a tree. A file is `BeginFile`, its bytes in pieces of any lengths, and `EndFile`.
/// A folder is `BeginFolder`, its entries in the order of their names, and `EndFolder`. An entry is
/// `BeginEntry`, what stands under its name, and `EndEntry`.
#[derive(Clone, Copy)]
pub enum Event<'a> {
    /// A folder begins.
    BeginFolder,
    /// An entry of the folder begins; its name.
    BeginEntry(&'a [u8]),
    /// The entry ends.
    EndEntry,
    /// The folder ends.
    EndFolder,
    /// A file begins: whether its owner may execute it, and its length.
    BeginFile(bool, u64),
    /// Bytes of the file.
    Piece(&'a [u8]),
    /// The file ends; its length again.
    EndFile(u64),
    /// A link; its target.
    Link(&'a [u8]),
}

/// A hearer of events.
pub trait Hear {
    ghost use Rattle.nix_archive.specs.Tokens.{Token, tokens};

    // The hearer became another one by hearing these tokens.
    ghost heard: { Self → List Token → Self → Type 0 };

    /// Hears the event. After an error nothing is known of the hearer.
    fn hear(&mut self, event: Event<'_>) -> Result<(), AllocError>
        ensures { OnOk result (heard self.old (tokens event.entry) self.new) };

    // No tokens change nothing.
    ghost silence: { (s : Self) → heard s [] s };

    // What is heard joins.
    ghost joins: { (s m t : Self) (before after : List Token)
        → heard s before m → heard m after t → heard s (before ++ after) t };
}
