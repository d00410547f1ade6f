//! Drafts of derivations, in which the paths of outputs may be left out.
//!
//! | Module | What is in it |
//! |---|---|
//! | `fill` | drafts, filled with the expected paths |
//! | `insertion` | paths put into a draft where it has none |

pub(crate) mod fill;
pub(crate) mod insertion;
