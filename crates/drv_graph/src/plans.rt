//! Plans, and the derivations that are in them.
//!
//! | Module | What is in it |
//! |---|---|
//! | `plan`, `plan_eq` | plans: loaded, what they tell of each derivation, and when two are equal |
//! | `node` | a derivation of a plan, and what is kept beside it |

pub(crate) mod node;
pub(crate) mod plan;
mod plan_eq;
