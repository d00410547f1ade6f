//! Under which rules plans are loaded.
ghost use Rattle.std.specs.Prelude.{◌≡◌};
ghost use Rattle.std.specs.Bool.{MatchBool};
ghost use Rattle.drv_graph.specs.Equality.{same_profile};
ghost use Rattle.drv_graph.specs.Kinds.{Takes};
ghost use Rattle.drv_graph.specs.declared.kinds.Kind.TheVariants.{Fixed};

use nix_names::{Algorithm, Digest, Method, StoreDir};

/// Under which rules a plan is loaded and its derivations are built.
#[derive(Clone, Copy, Debug, PartialEq, Eq)]
pub enum Profile {
    /// This product's own rules: an output is fixed by the digest of one file, or by the SHA-256 of
    /// a whole tree.
    Plain,
    /// Those of Nix 2.8: an output is fixed by any of the four algorithms, of one file or of a
    /// whole tree.
    Nix,
}

impl Profile {
    // Whether outputs that are fixed by this method and digest are taken.
    pub(crate) fn takes(self, method: Method, digest: &Digest) -> bool
        ensures { MatchBool result (Takes self (Fixed method digest.now))
            (Takes self (Fixed method digest.now) → ⊥) }
    {
        match self {
            Profile::Nix => true,
            Profile::Plain => match method {
                Method::Flat => true,
                Method::Recursive => digest.algorithm() == Algorithm::Sha256,
            },
        }
    }

    // Whether two profiles are the same.
    pub(crate) fn is_same(self, other: Profile) -> bool
        ensures { result ≡ same_profile self other }
    {
        self == other
    }
}

// What the derivations of a plan are loaded by: the profile, and the folder of their store.
#[derive(Drop)]
pub(crate) struct Rules<'a> {
    pub(crate) profile: Profile,
    pub(crate) dir: &'a StoreDir,
}
