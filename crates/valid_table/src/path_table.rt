//! The table of valid paths.
//!
//! | Module | What is in it |
//! |---|---|
//! | `sort_paths` | paths put in order |
//! | `version` | the versions of a journal's text, and the first line of each |
//! | `admission`, `obstacle` | why an entry can't be taken in |
//! | `rows`, `table` | the rows of valid paths, and the table of these rows |
//! | `row_set` | a set of rows, each once, in the order in which they were found |
//! | `order` | the order of rows by the keys of their paths |
//! | `union` | rising lists of paths, put together |
//! | `outlet`, `list_outlet` | where registrations go, and the outlet in memory |
#![tactic(auto)]

pub mod admission;
pub mod list_outlet;
pub mod obstacle;
pub mod order;
pub mod outlet;
pub mod row_set;
pub mod rows;
pub mod sort_paths;
pub mod table;
pub mod union;
pub mod version;
