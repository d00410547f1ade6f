//! The published table: one writer, and readers that never wait.
//!
//! | Module | What is in it |
//! |---|---|
//! | `list_id` | the name of the one list |
//! | `append_only` | the rule of the one list |
//! | `display` | that a list was shown |
//! | `prefix` | lists that were shown, and prefixes of the one list |
//! | `shown_table`, `rule` | what is shown, and the rule for it |
//! | `writer_end`, `feed` | the writer's end, under the rule, and the entries that wait before it |
//! | `writer`, `opening` | the writer, and how a view is opened |
//! | `tells` | outlets whose lists are prefixes of one list |
//! | `reading` | what a reader saw, and what it sees while it reads |
//! | `reader`, `seen` | readers, and what they find |
//! | `fault`, `refusal` | why a reader refused, and why the writer did |
//! | `laws` | laws over the definitions that contracts cite |
#![tactic(auto)]

mod append_only;
mod display;
mod fault;
mod feed;
pub mod laws;
mod list_id;
mod opening;
mod prefix;
mod reader;
mod reading;
mod refusal;
mod rule;
mod seen;
mod shown_table;
mod tells;
mod writer;
mod writer_end;

pub use display::{DisplayedList, Showing};
pub use fault::ViewFault;
pub use list_id::{ListId, Name};
pub use opening::open;
pub use prefix::Prefix;
pub use reader::ViewReader;
pub use reading::WriterGone;
pub use refusal::{OpenFault, Unopened};
pub use seen::Seen;
pub use tells::Tells;
pub use writer::ViewWriter;
