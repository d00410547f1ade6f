//! The subcommands `dump`, `hash` and `restore`.
//!
//! | Module | What is in it |
//! |---|---|
//! | `dump` | the subcommand `dump` |
//! | `path_sum` | the SHA-256 and the length of the archive of what lies at a path |
//! | `hash` | the subcommand `hash` |
//! | `input` | an archive that a reader gives |
//! | `restore` | the subcommand `restore` |
#![tactic(auto)]

pub mod dump;
pub mod hash;
pub mod input;
pub mod path_sum;
pub mod restore;
