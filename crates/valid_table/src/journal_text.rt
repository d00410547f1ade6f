//! The text of a journal.
//!
//! | Module | What is in it |
//! |---|---|
//! | `stored_digest` | how a record keeps a digest |
//! | `known` | what a line tells of a path |
//! | `lines`, `reading`, `writing` | a journal's text: one line, all of it read, all written |
//! | `checking` | how entries whose text was read are checked |
#![tactic(auto)]

pub mod checking;
pub mod known;
pub mod lines;
pub mod reading;
pub mod stored_digest;
pub mod writing;
