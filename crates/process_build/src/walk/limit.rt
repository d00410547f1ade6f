//! How long a hearer is told a tree.
ghost use Rattle.std.specs.Prelude.{◌≡◌, ◌↔◌, Err, IsTrue, OnOk};
ghost use Rattle.nix_archive.specs.Tokens.{tokens};
ghost use Rattle.process_build.specs.Walks.{IsToldPast};
ghost use Rattle.process_build.specs.declared.walk.fault.Halt.TheVariants.{TooLarge};

use crate::walk::fault::Halt;
use nix_archive::{Event, Hear};

/// Says how long a hearer is told a tree.
pub trait Limit<H> {
    // What the hearer has heard keeps the limit.
    ghost keeps: { Self → H → Type 0 };

    /// Whether the hearer, by what it has heard, is to hear more.
    fn goes_on(&self, hearer: &H) -> bool
        ensures { IsTrue result ↔ keeps self.now hearer.now };
}

/// A hearer is told all of a tree.
#[derive(Clone, Copy)]
pub struct NoLimit;

impl<H> Limit<H> for NoLimit {
    ghost use Rattle.std.specs.Prelude.{⊤};

    ghost keeps = { λ _ _. ⊤ };

    fn goes_on(&self, _hearer: &H) -> bool {
        true
    }
}

// Tells a hearer an event. `TooLarge` where it is to hear no more then.
pub(crate) fn tell_event<L: Limit<H>, H: Hear>(
    limit: &L,
    event: Event<'_>,
    hearer: &mut H,
) -> Result<(), Halt>
    ensures told { OnOk result (H.heard hearer.old (tokens event.entry) hearer.new) }
    ensures kept { OnOk result (L.keeps limit.now hearer.new) }
    ensures past { result ≡ Err TooLarge
        → IsToldPast H.heard (L.keeps limit.now) hearer.old hearer.new }
{
    hearer.hear(event)?;
    if limit.goes_on(hearer) {
        Ok(())
    } else {
        Err(Halt::TooLarge)
    }
}
