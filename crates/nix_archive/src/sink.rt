//! Where an archive is written.
ghost use Rattle.std.specs.Prelude.{◌≡◌, ◌++◌, [], OnOk, List, ℕ};

use std::alloc::AllocError;

/// A sink of bytes: a list of bytes, or a digest.
pub trait Sink {
    // The sink became another one by taking these bytes.
    ghost took: { Self → List ℕ → Self → Type 0 };

    /// Takes the bytes. After an error nothing is known of the sink.
    fn put(&mut self, bytes: &[u8]) -> Result<(), AllocError>
        ensures { OnOk result (took self.old bytes.now self.new) };

    // No bytes change nothing.
    ghost silence: { (s : Self) → took s [] s };

    // Bytes join.
    ghost joins: { (s m t : Self) (before after : List ℕ)
        → took s before m → took m after t → took s (before ++ after) t };
}

impl Sink for Vec<u8> {
    ghost use Rattle.std.proofs.Common.{sym, append-nil, append_assoc, ◌∙◌, ap};

    ghost took = { λ s bytes t. t.items ≡ s.items ++ bytes };

    ghost silence = { λ s. sym (append-nil s.items) };

    ghost joins = { λ s m t before after h g.
        g ∙ ap (λ l. l ++ after) h ∙ append_assoc s.items before after };

    fn put(&mut self, bytes: &[u8]) -> Result<(), AllocError> {
        self.extend_from_slice(bytes)
    }
}
