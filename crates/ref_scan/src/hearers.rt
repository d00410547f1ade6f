//! Trees that are heard event by event, and of which nothing is kept.
//!
//! | Module | What is in it |
//! |---|---|
//! | `tree_scanner` | the permitted store paths that a tree refers to |
//! | `tree_counts` | whether a tree keeps the limits of an output |

pub mod tree_counts;
pub mod tree_scanner;
