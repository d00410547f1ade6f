//! The subcommands `check` and `plan`, and `help faults`, which change nothing.
//!
//! | Module | What is in it |
//! |---|---|
//! | `check_verdict` | the verdict of `check` on one word |
//! | `asked_words`, `check` | the words of `check` and their files; its lines |
//! | `task` | what `plan` and `realise` take: a plan and a journal |
//! | `read_task` | the same for a run that changes nothing |
//! | `run_system` | what a run builds for |
//! | `plan` | the subcommand `plan` |
//! | `faults` | the table of faults |
#![tactic(auto)]

pub mod asked_words;
pub mod check;
pub mod check_verdict;
pub mod faults;
pub mod plan;
pub mod read_task;
pub mod run_system;
pub mod task;
