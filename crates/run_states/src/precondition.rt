//! What is known of a derivation before anything is begun.

use crate::state::Refusal;

/// What is known of a derivation before anything is begun, by its text, the run's system and the
/// valid paths.
#[derive(Clone, Copy, Debug, PartialEq, Eq)]
pub enum Precondition {
    /// All its outputs are valid.
    AllValid,
    /// It can't be begun, for this cause.
    Hindered(Refusal),
    /// Neither.
    Free,
}
