//! The subcommand `realise`.
//!
//! | Module | What is in it |
//! |---|---|
//! | `summary` | what a run leaves at its end: its status, its journal and its report |
//! | `tools` | what starts the builders of a run |
//! | `builders` | the builders of a run |
//! | `realise` | the subcommand `realise` |
#![tactic(auto)]

pub mod builders;
pub mod realise;
pub mod summary;
pub mod tools;
