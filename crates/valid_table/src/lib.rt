//! The journal of valid paths, the table that it replays to, closures, and where registrations go.
//!
//! | Module | What is in it |
//! |---|---|
//! | `reachability` | closures in a table |
//! | `path_table` | the table of valid paths |
//! | `journal_text` | the text of a journal |
//! | `entry`, `entry_eq` | entries of a journal, and when they are equal |
//! | `journal` | journals: their entries, one more |
//! | `nar` | what is known of a path's archive |
//! | `fault` | why a call refused |
//! | `laws` | laws over the definitions that contracts cite |
#![tactic(auto)]

mod entry;
mod entry_eq;
mod fault;
mod journal;
mod journal_text;
pub mod laws;
mod nar;
mod path_table;
mod reachability;

pub use entry::{Entry, Outputs, Record, Registration};
pub use fault::{OutletFault, TableFault};
pub use journal::Journal;
pub use journal_text::writing::write_lines;
pub use nar::Nar;
pub use path_table::list_outlet::ListOutlet;
pub use path_table::obstacle::Obstacle;
pub use path_table::outlet::Outlet;
pub use path_table::table::Table;
pub use path_table::union::union;
pub use path_table::version::{MAX_JOURNAL, Version};
pub use reachability::reference::Reference;
