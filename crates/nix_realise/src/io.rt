//! Files, folders and locks.
//!
//! | Module | What is in it |
//! |---|---|
//! | `files` | reading files |
//! | `folder` | derivations read from the files of a folder |
//! | `whole_file` | a file that is written whole or not at all |
//! | `journal_file` | the journal file: its path, read and written |
//! | `journal_write` | the journal file, written only where a later run can read it |
//! | `journal_keeper` | the journal file, as it is written while a run goes on |
//! | `lock_file` | the file of a store folder that is locked |
//! | `lock_call`, `locks` | the calls for the lock of a store folder; that lock |
//! | `announced_locks` | the line that tells that a run waits for it |
//! | `nix_store` | whether Nix manages a store folder |
//! | `all_written` | evidence that their files were written |
//! | `runner`, `logs_folder` | the program that starts the builders of a run; the folder of logs |
//! | `build_dir` | the folder that gets the build folders |
//! | `trace_file` | the trace of a run: its file, written at the end |
#![tactic(auto)]

pub mod all_written;
pub mod announced_locks;
pub mod build_dir;
pub mod files;
pub mod folder;
pub mod journal_file;
pub mod journal_keeper;
pub mod journal_write;
pub mod lock_call;
pub mod lock_file;
pub mod locks;
pub mod logs_folder;
pub mod nix_store;
pub mod runner;
pub mod trace_file;
pub mod whole_file;
