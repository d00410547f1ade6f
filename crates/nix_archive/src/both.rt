//! Two hearers of one tree.
use crate::event::{Event, Hear};
use std::alloc::AllocError;

/// Two hearers, each of which hears each event.
#[derive(Drop)]
pub struct Both<A, B> {
    /// The one that hears first.
    pub first: A,
    /// The other one.
    pub second: B,
}

impl<A: Hear, B: Hear> Hear for Both<A, B> {
    ghost heard = { λ s tokens t. A.heard s.first tokens t.first × B.heard s.second tokens t.second };

    ghost silence = { λ s. (A.silence s.first, B.silence s.second) };

    ghost joins = { λ s m t before after h g. (
      A.joins s.first m.first t.first before after h.0 g.0,
      B.joins s.second m.second t.second before after h.1 g.1,
    ) };

    fn hear(&mut self, event: Event<'_>) -> Result<(), AllocError> {
        self.first.hear(event)?;
        self.second.hear(event)
    }
}
