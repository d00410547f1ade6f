//! The kinds of a derivation's outputs.

use nix_names::{Digest, Method};

/// How the paths of a derivation's outputs come about.
#[derive(Clone, Copy, Debug, PartialEq, Eq)]
pub enum Kind {
    /// They follow from the inputs.
    Addressed,
    /// There is one output, whose content has this digest by this method.
    Fixed(Method, Digest),
}
