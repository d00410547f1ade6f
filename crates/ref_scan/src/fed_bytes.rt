//! The bytes that a scanner was fed. They exist only in proofs, and take no memory.
ghost use Rattle.std.specs.Prelude.{◌≡◌, [], ◌∷◌, ◌++◌, List, ℕ};
ghost use Rattle.std.specs.Borrow.{ftrue};

use std::marker::Model;

// The lists of bytes that a cut ended, and the list that goes on.
#[derive(Drop)]
pub(crate) struct FedBytes {
    ghost ended: { List (List ℕ) },
    ghost present: { List ℕ },
}

impl Model for FedBytes {
    ghost also_owns = { λ _. ftrue };
}

// A piece of bytes.
#[derive(Clone, Copy, Drop)]
pub(crate) struct Piece<'a> {
    pub(crate) bytes: &'a [u8],
}

impl FedBytes {
    // Nothing.
    pub(crate) fn new() -> FedBytes
        ensures { (result.ended ≡ []) × (result.present ≡ []) }
    {
        FedBytes {}
    }

    // The present list goes on with the piece.
    #[inline(always)]
    pub(crate) fn and(&self, _piece: &Piece<'_>) -> FedBytes
        ensures { (result.ended ≡ self.now.ended)
            × (result.present ≡ self.now.present ++ _piece.now.bytes.now) }
    {
        FedBytes {}
    }

    // The present list ends.
    #[inline(always)]
    pub(crate) fn cut(&self) -> FedBytes
        ensures { (result.ended ≡ self.now.ended ++ self.now.present ∷ []) × (result.present ≡ []) }
    {
        FedBytes {}
    }
}
