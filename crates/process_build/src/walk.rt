//! A tree on disk, told event by event. No file's bytes are kept.
//!
//! | Module | What is in it |
//! |---|---|
//! | `tree_walk` | the walk, from a path down |
//! | `found` | what lies at a path |
//! | `entry_names` | the names of a folder's entries, in the order in which they are told |
//! | `file_bytes` | a file, told in pieces |
//! | `limit` | how long a hearer is told a tree |
//! | `fault` | why a walk gave up, or was ended |
#![tactic(auto)]

pub(crate) mod entry_names;
pub mod fault;
mod file_bytes;
pub mod found;
pub mod limit;
pub mod tree_walk;
