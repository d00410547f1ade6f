//! The checks of what outputs refer to, which a derivation may ask for.

/// A check of the paths to which an output refers, or of all that is in its closure.
#[derive(Clone, Copy, Debug, PartialEq, Eq)]
pub enum Check {
    /// Each path to which the output refers is in a list.
    AllowedReferences,
    /// Each other path of the output's closure is in a list.
    AllowedRequisites,
    /// No path to which the output refers is in a list.
    DisallowedReferences,
    /// No other path of the output's closure is in a list.
    DisallowedRequisites,
}
