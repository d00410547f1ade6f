//! Runs: workers that build what a book gives out, until it is settled.
//!
//! | Module | What is in it |
//! |---|---|
//! | `job_verdict` | what a worker finds of a job, and how a lease ends |
//! | `shared` | what the workers of a run share: the book, and why the run stops |
//! | `turn` | what a worker is to do next, and whom it wakes |
//! | `start` | what is prepared for the start of a job's builder, by the list that a reader sees |
//! | `verdict`, `requisites` | the verdict on a job's outcome, by the list that a reader sees |
//! | `refusal` | refusals of a reader and of a book, as values that only their calls make |
//! | `monitor` | a lock and a condition, whose calls a test can hear |
//! | `locked` | the shared book behind a lock, on which workers wait |
//! | `worker` | what one worker does |
//! | `run` | a run, from a plan and a journal to a settled book |
//! | `same_run` | whether a book is that of a run over a plan, a system and entries |
//! | `basis` | what a run is over, as a type |
//! | `kept_run` | a run beside whose workers a keeper keeps what they register |
//! | `checkpoint_sink`, `end_signal`, `pause` | the keeper, and its pauses |
//! | `kept_text` | the text of what a run has registered, as it goes on |
//! | `fault` | why a run ends without a settled book |
//! | `laws` | laws of every run, over the definitions |
#![tactic(auto)]

mod basis;
mod checkpoint_sink;
mod end_signal;
mod fault;
mod job_verdict;
mod kept_run;
mod kept_text;
pub mod laws;
mod locked;
mod monitor;
mod pause;
mod refusal;
mod requisites;
mod run;
mod same_run;
mod shared;
mod start;
mod turn;
mod verdict;
mod worker;

pub use basis::Basis;
pub use checkpoint_sink::CheckpointSink;
pub use fault::RunFault;
pub use kept_run::realise_kept;
pub use locked::Locked;
pub use monitor::{Listen, LockCall};
pub use run::{RunResult, realise};
pub use worker::{work, work_heard};
