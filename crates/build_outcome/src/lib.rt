//! What a build left: what a builder is given and answers, and the verdict on an answer.
//!
//! | Module | What is in it |
//! |---|---|
//! | `job` | what a builder is given, and what it answers |
//! | `attributes` | entries of a job's environment, and its structured attributes |
//! | `preparation` | what is prepared for a builder's start |
//! | `build` | builders, which build jobs and hear of them |
//! | `verdict`, `checked_records` | the verdict on an answer, and the records that it gives |
//! | `hearers` | outputs that are heard event by event, and what is kept of them |
//! | `known_outputs` | what is known of outputs: their trees, or what was kept of them |
//! | `acceptance` | whether an output's tree is taken, by its size, its form and its digest |
//! | `record` | the record of an output |
//! | `digest` | the digest of a file by each algorithm |
//! | `sums` | the digests and the lengths of outputs' archives |
//! | `cycle`, `links`, `walk` | whether outputs refer to each other in a cycle |
//! | `folders` | the folder in which a path stands |
//! | `reason` | why building a derivation failed |
//! | `checks` | the tests of what outputs refer to, and of their sizes |
//! | `laws` | laws over the definitions that contracts cite |
#![tactic(auto)]

mod acceptance;
mod attributes;
mod build;
mod checked_records;
mod checks;
mod cycle;
mod digest;
mod folders;
mod hearers;
mod job;
mod known_outputs;
pub mod laws;
mod links;
mod preparation;
mod reason;
mod record;
mod sums;
mod verdict;
mod walk;

pub use attributes::{json_of, value_under};
pub use build::{Build, LeaseObserver};
pub use checked_records::Checked;
pub use checks::check::Check;
pub use checks::closure::OutputClosure;
pub use checks::job_checks::JobChecks;
pub use checks::output_tests::{AskedChecks, test_outputs};
pub use checks::path_order::is_among;
pub use checks::roots::{OutputRoots, output_roots};
pub use checks::tokens::{is_space, tokens_of};
pub use cycle::is_cyclic;
pub use folders::folder_of;
pub use hearers::algorithm_sink::AlgorithmSink;
pub use hearers::file_hearer::FileHearer;
pub use hearers::heard_output::HeardOutput;
pub use hearers::output_hearer::OutputHearer;
pub use job::{Answer, Job, JobOutput, LeftOutput, WholeInput};
pub use preparation::{AttributeTexts, Prepared, PreparedFile};
pub use reason::Reason;
pub use verdict::{examine, examine_heard, examined};
