//! The command line of the program `nix_realise`: its words and options, read by `clap`, and what
//! they ask for. No file is touched.
//!
//! | Module | What is in it |
//! |---|---|
//! | `options` | what a command line asks for |
//! | `arguments` | the words and options that `clap` reads |
//! | `command` | the subcommands that `clap` reads |
//! | `builtins` | the words that give builtin builders their programs |
//! | `words` | the words of a command line, read by `clap` |
//! | `faults` | what each fault means, and what to do |
#![tactic(auto)]

mod arguments;
mod builtins;
mod command;
mod faults;
mod options;
mod words;

pub use faults::FaultTable;
pub use options::{
    AddDrvRequest, AddTextRequest, Builtin, CheckRequest, DumpRequest, HashRequest, PlanRequest,
    RealiseRequest, Request, RestoreRequest, RunRequest, VerifyRequest,
};
pub use words::{not_text, request};
