//! The command line of the program, and how a run of it ends.
//!
//! | Module | What is in it |
//! |---|---|
//! | `store_dir` | the store folder of a command line |
//! | `run_error` | why a run ends without its report |
//! | `exit` | how a subcommand and a run end, and with which status |
//! | `printing`, `program` | printing; one run of the program |
//! | `process` | that run in a process: its arguments and its standard output |
#![tactic(auto)]

pub mod exit;
pub mod printing;
pub mod process;
pub mod program;
pub mod run_error;
pub mod store_dir;
