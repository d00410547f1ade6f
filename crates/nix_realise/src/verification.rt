//! The subcommand `verify`.
//!
//! | Module | What is in it |
//! |---|---|
//! | `path_read` | what is read of a path: its archive, and its digest |
//! | `verified` | whether a path is what its record says, and its line |
//! | `asked_paths` | the paths that are verified |
//! | `verify` | the subcommand |
#![tactic(auto)]

pub mod asked_paths;
pub mod path_read;
pub mod verified;
pub mod verify;
