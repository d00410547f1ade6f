//! The walk over all derivations that some roots reach.
//!
//! | Module | What is in it |
//! |---|---|
//! | `reach` | how all that some roots reach is found |
//! | `walk` | how derivations are walked, depth first |
//! | `walk_state` | the state of a walk, and how it leaves a derivation |
//! | `output_owners` | which derivation owns an output path |

pub(crate) mod output_owners;
pub(crate) mod reach;
pub(crate) mod walk;
pub(crate) mod walk_state;
