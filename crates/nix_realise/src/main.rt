//! The program `nix_realise`: its terminal, and the builders and the locks of a run.
//!
//! | Module | What is in it |
//! |---|---|
//! | `runs` | the subcommand `realise` |
//! | `queries` | the subcommands `check` and `plan`, which change nothing |
//! | `additions` | the subcommands `add-text` and `add-drv` |
//! | `archives` | the subcommands `dump`, `hash` and `restore` |
//! | `verification` | the subcommand `verify` |
//! | `io` | files, folders and locks |
//! | `words` | the words of faults, and the last lines of a run |
//! | `cli` | the command line of the program, and how a run of it ends |
#![tactic(auto)]

mod additions;
mod archives;
mod cli;
mod io;
mod queries;
mod runs;
mod verification;
mod words;

pub use cli::exit::{Exit, Status};
pub use cli::process::run_process;
pub use cli::program::{Machine, print_no_memory, refuse_words, run};
pub use io::announced_locks::AnnouncedLocks;
pub use io::folder::FolderSource;
pub use io::journal_keeper::{InJournal, JournalSinks};
pub use io::lock_call::LockFault;
pub use io::lock_file::{FileLock, LockRefusal};
pub use io::locks::{LockProof, Locks, Unlocked};
use process_build::{ProcessBuilders, ProgressLine, WithProgress};
pub use queries::check::check_lines;
use std::io::IsTerminal;
use std::process::ExitCode;
use std::rt::Env;
use std::{env, thread};

fn main(rt: HostRuntime) -> ExitCode {
    let make = ProcessBuilders::new(&rt, &rt);
    let mut err = rt.stderr();
    let ending = if err.is_terminal() && !is_dumb(&rt) {
        let progress = ProgressLine::new(rt.alloc(), columns(&rt), err);
        let make = WithProgress::new(&rt, &make, &progress);
        let draw = || progress.draw(&rt);
        let run = || {
            let ending = run_process(&rt, &make, &AnnouncedLocks::new(&rt, err), &mut err);
            progress.end(&rt);
            ending
        };
        thread::join(&rt, draw, run).1
    } else {
        run_process(&rt, &make, &rt, &mut err)
    };
    ExitCode::from(ending.code())
}

// Whether the terminal understands no escapes, by the variable `TERM`.
fn is_dumb<R: Env + AllocGlobal>(rt: &R) -> bool {
    match env::var(rt, "TERM") {
        Ok(term) => term.as_str() == "dumb",
        Err(_) => false,
    }
}

// How many columns the terminal has, by the variable `COLUMNS`, where that is a number above 0.
fn columns<R: Env + AllocGlobal>(rt: &R) -> Option<usize> {
    match env::var(rt, "COLUMNS") {
        Ok(columns) => columns.as_str().parse().ok().filter(|n| *n > 0),
        Err(_) => None,
    }
}
