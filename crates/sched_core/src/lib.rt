//! The book of a run: which derivations are built, which can be, and what each built output refers
//! to.
//!
//! | Module | What is in it |
//! |---|---|
//! | `book`, `lease` | the book, and derivations that it gave out to be built |
//! | `run_start` | the states and the list of events that a book opens with |
//! | `permitted`, `union` | to what outputs may refer |
//! | `named_paths` | the paths that the lines of a report name |
//! | `done_entry`, `prepared_entry` | the entry of a derivation that was built |
//! | `job_of`, `seeds_of` | the job of a derivation, and the paths that it is built from |
//! | `whole_inputs` | the input derivations of which each output is named |
//! | `is_job`, `has_seeds` | whether a job is that of a derivation |
//! | `laws` | laws over the definitions that contracts cite |
#![tactic(auto)]

mod book;
mod done_entry;
mod has_seeds;
mod is_job;
mod job_of;
pub mod laws;
mod lease;
mod named_paths;
mod permitted;
mod prepared_entry;
mod run_start;
mod seeds_of;
mod union;
mod whole_inputs;

pub use book::Book;
pub use build_outcome::{
    Answer, Build, Checked, Job, JobOutput, LeaseObserver, LeftOutput, Reason, WholeInput, examine,
};
pub use lease::Lease;
pub use permitted::permitted_beside;
pub use run_report::{
    Listed, marked_by_path, write_name, write_outputs, write_path_line, write_refusal,
    write_refused, write_with_number, write_with_string, write_with_value,
};
pub use run_states::{
    BookFault, Event, Precondition, Refusal, State, mark, preconditions_of, wanted_of,
};
pub use union::union_of;
